// The crossings of two paths, in the mode of large arcs.
ghost use Rattle.listing_outcomes.specs.Outcome;
ghost use Rattle.large_listings.specs.LargeListings;

use super::old_answer::{listed_bulge, spread_listed, starts_large};
use large_listings::mutual_cut::mutual_cut;
use large_outcomes::room::large_row_room;
use listing_calls::mutual_listing::mutual_listing;
use listing_outcomes::answer::ListingAnswer;
use listing_pairs::row;

// Lists into the lent slices which segments of the first path meet which of the second, and where, with their halves.
pub fn mutual_large(
    first: &[f64],
    first_closed: bool,
    second: &[f64],
    second_closed: bool,
    epsilon: f64,
    indices: &mut [u64],
    points: &mut [f64],
) -> ListingAnswer
    ensures { Outcome.Leaves
        (LargeListings.mutual_large first.now first_closed second.now second_closed epsilon
        indices.old points.old)
        result indices.new points.new }
{
    if starts_large(first) {
        return mutual_cut(
            first,
            first_closed,
            second,
            second_closed,
            epsilon,
            indices,
            points,
        );
    }
    let room = large_row_room(indices.len(), points.len());
    let threes = room * row::INDICES;
    let fours = room * row::POINTS;
    let answer = mutual_listing(
        first,
        first_closed,
        second,
        second_closed,
        epsilon,
        &mut indices[..threes],
        &mut points[..fours],
    );
    if listed_bulge(answer) {
        return mutual_cut(
            first,
            first_closed,
            second,
            second_closed,
            epsilon,
            indices,
            points,
        );
    }
    spread_listed(answer, indices);
    answer
}
