// A page of the crossings of two paths, in the mode of large arcs.
ghost use Rattle.listing_outcomes.specs.Outcome;
ghost use Rattle.large_listings.specs.LargeListings;

use super::old_answer::{paged_bulge, spread_paged, starts_large};
use large_listings::mutual_page_cut::mutual_page_cut;
use large_outcomes::room::large_row_room;
use listing_calls::mutual_page::mutual_page;
use listing_outcomes::answer::PageAnswer;
use listing_pairs::row;

// Lists as `mutual_large` does, from a position on: how many pairs of the cut paths come before it. It stops at the end, when
// `budget` pairs are passed, or before a pair whose row does not fit.
pub fn mutual_page_large(
    first: &[f64],
    first_closed: bool,
    second: &[f64],
    second_closed: bool,
    epsilon: f64,
    position: usize,
    budget: usize,
    indices: &mut [u64],
    points: &mut [f64],
) -> PageAnswer
    ensures { Outcome.Leaves
        (LargeListings.mutual_page_large first.now first_closed second.now second_closed epsilon
        position budget
        indices.old points.old)
        result indices.new points.new }
{
    if starts_large(first) {
        return mutual_page_cut(
            first,
            first_closed,
            second,
            second_closed,
            epsilon,
            position,
            budget,
            indices,
            points,
        );
    }
    let room = large_row_room(indices.len(), points.len());
    let threes = room * row::INDICES;
    let fours = room * row::POINTS;
    let answer = mutual_page(
        first,
        first_closed,
        second,
        second_closed,
        epsilon,
        position,
        budget,
        &mut indices[..threes],
        &mut points[..fours],
    );
    if paged_bulge(answer) {
        return mutual_page_cut(
            first,
            first_closed,
            second,
            second_closed,
            epsilon,
            position,
            budget,
            indices,
            points,
        );
    }
    spread_paged(answer, indices);
    answer
}
