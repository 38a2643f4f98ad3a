// The crossings of two paths, found by boxes, in the mode of large arcs.
ghost use Rattle.listing_outcomes.specs.BoxedOutcome;
ghost use Rattle.large_listings.specs.LargeListings;

use super::old_answer::{listed_bulge, spread_listed, starts_large};
use large_boxed::mutual_boxed_cut::mutual_boxed_cut;
use large_outcomes::room::large_row_room;
use listing_calls::mutual_boxed::mutual_boxed;
use listing_outcomes::answer::ListingAnswer;
use listing_pairs::row;

// Lists as `mutual_large` does, but only pairs whose segment boxes meet, and writes the boxes of both cut paths into `boxes`.
pub fn mutual_boxed_large(
    first: &[f64],
    first_closed: bool,
    second: &[f64],
    second_closed: bool,
    epsilon: f64,
    boxes: &mut [f64],
    indices: &mut [u64],
    points: &mut [f64],
) -> ListingAnswer
    ensures { BoxedOutcome.LeavesBoxed
        (LargeListings.mutual_boxed_large first.now first_closed second.now second_closed epsilon
        boxes.old indices.old points.old)
        result boxes.new indices.new points.new }
{
    if starts_large(first) {
        return mutual_boxed_cut(
            first,
            first_closed,
            second,
            second_closed,
            epsilon,
            boxes,
            indices,
            points,
        );
    }
    let room = large_row_room(indices.len(), points.len());
    let threes = room * row::INDICES;
    let fours = room * row::POINTS;
    let answer = mutual_boxed(
        first,
        first_closed,
        second,
        second_closed,
        epsilon,
        boxes,
        &mut indices[..threes],
        &mut points[..fours],
    );
    if listed_bulge(answer) {
        return mutual_boxed_cut(
            first,
            first_closed,
            second,
            second_closed,
            epsilon,
            boxes,
            indices,
            points,
        );
    }
    spread_listed(answer, indices);
    answer
}
