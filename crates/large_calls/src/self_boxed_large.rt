// The crossings of a path with itself, found by boxes, in the mode of large arcs.
ghost use Rattle.listing_outcomes.specs.BoxedOutcome;
ghost use Rattle.large_listings.specs.LargeListings;

use super::old_answer::{listed_bulge, spread_listed, starts_large};
use large_boxed::self_boxed_cut::self_boxed_cut;
use large_outcomes::room::large_row_room;
use listing_calls::self_boxed::self_boxed;
use listing_outcomes::answer::ListingAnswer;
use listing_pairs::row;

// Lists as `self_large` does, but only pairs whose segment boxes meet, and writes the boxes of the cut path into `boxes`.
pub fn self_boxed_large(
    path: &[f64],
    closed: bool,
    epsilon: f64,
    boxes: &mut [f64],
    indices: &mut [u64],
    points: &mut [f64],
) -> ListingAnswer
    ensures { BoxedOutcome.LeavesBoxed
        (LargeListings.self_boxed_large path.now closed epsilon
        boxes.old indices.old points.old)
        result boxes.new indices.new points.new }
{
    if starts_large(path) {
        return self_boxed_cut(path, closed, epsilon, boxes, indices, points);
    }
    let room = large_row_room(indices.len(), points.len());
    let threes = room * row::INDICES;
    let fours = room * row::POINTS;
    let answer = self_boxed(
        path,
        closed,
        epsilon,
        boxes,
        &mut indices[..threes],
        &mut points[..fours],
    );
    if listed_bulge(answer) {
        return self_boxed_cut(path, closed, epsilon, boxes, indices, points);
    }
    spread_listed(answer, indices);
    answer
}
