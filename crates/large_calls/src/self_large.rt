// The crossings of a path with itself, in the mode of large arcs.
ghost use Rattle.listing_outcomes.specs.Outcome;
ghost use Rattle.large_listings.specs.LargeListings;

use super::old_answer::{listed_bulge, spread_listed, starts_large};
use large_listings::self_cut::self_cut;
use large_outcomes::room::large_row_room;
use listing_calls::self_listing::self_listing;
use listing_outcomes::answer::ListingAnswer;
use listing_pairs::row;

// Lists into the lent slices which segments of the path meet, and where, with their halves. Neighbours of the cut path that meet
// only near vertices which they share make no row.
pub fn self_large(
    path: &[f64],
    closed: bool,
    epsilon: f64,
    indices: &mut [u64],
    points: &mut [f64],
) -> ListingAnswer
    ensures { Outcome.Leaves
        (LargeListings.self_large path.now closed epsilon
        indices.old points.old)
        result indices.new points.new }
{
    if starts_large(path) {
        return self_cut(path, closed, epsilon, indices, points);
    }
    let room = large_row_room(indices.len(), points.len());
    let threes = room * row::INDICES;
    let fours = room * row::POINTS;
    let answer = self_listing(
        path,
        closed,
        epsilon,
        &mut indices[..threes],
        &mut points[..fours],
    );
    if listed_bulge(answer) {
        return self_cut(path, closed, epsilon, indices, points);
    }
    spread_listed(answer, indices);
    answer
}
