// A page of the crossings of a path with itself, in the mode of large arcs.
ghost use Rattle.listing_outcomes.specs.Outcome;
ghost use Rattle.large_listings.specs.LargeListings;

use super::old_answer::{paged_bulge, spread_paged, starts_large};
use large_listings::self_page_cut::self_page_cut;
use large_outcomes::room::large_row_room;
use listing_calls::self_page::self_page;
use listing_outcomes::answer::PageAnswer;
use listing_pairs::row;

// Lists as `self_large` does, from a position on: how many pairs of the cut path come before it. It stops at the end, when
// `budget` pairs are passed, or before a pair whose row does not fit.
pub fn self_page_large(
    path: &[f64],
    closed: bool,
    epsilon: f64,
    position: usize,
    budget: usize,
    indices: &mut [u64],
    points: &mut [f64],
) -> PageAnswer
    ensures { Outcome.Leaves
        (LargeListings.self_page_large path.now closed epsilon position budget
        indices.old points.old)
        result indices.new points.new }
{
    if starts_large(path) {
        return self_page_cut(path, closed, epsilon, position, budget, indices, points);
    }
    let room = large_row_room(indices.len(), points.len());
    let threes = room * row::INDICES;
    let fours = room * row::POINTS;
    let answer = self_page(
        path,
        closed,
        epsilon,
        position,
        budget,
        &mut indices[..threes],
        &mut points[..fours],
    );
    if paged_bulge(answer) {
        return self_page_cut(path, closed, epsilon, position, budget, indices, points);
    }
    spread_paged(answer, indices);
    answer
}
