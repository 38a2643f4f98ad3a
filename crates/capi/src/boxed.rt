// The boxed listings of two paths and of one. The index of boxes goes into a lent slice, and so do the counts.
ghost use Rattle.listing_calls.specs.Boxed;
ghost use Rattle.capi.specs.HandedListing as handed;

use super::hand_over::NO_ROOM;
use super::listing::{COUNTS, hand_counts};
use listing_calls::{mutual_boxed, self_boxed};

// What `vj_mutual` lists of the pairs whose segment boxes meet, and the boxes of both paths.
#[unsafe(no_mangle)]
pub extern "C" fn vj_mutual_boxed(
    first: &[f64],
    first_closed: bool,
    second: &[f64],
    second_closed: bool,
    epsilon: f64,
    boxes: &mut [f64],
    indices: &mut [u64],
    points: &mut [f64],
    counts: &mut [u64],
) -> u64
    ensures { handed.HandedBoxed
        (Boxed.mutual_boxed first.now first_closed second.now second_closed epsilon
        boxes.old indices.old points.old)
        result counts.old counts.new boxes.old boxes.new
        indices.old indices.new points.old points.new }
{
    if counts.len() < COUNTS {
        return NO_ROOM;
    }
    let answer = mutual_boxed::mutual_boxed(
        first,
        first_closed,
        second,
        second_closed,
        epsilon,
        boxes,
        indices,
        points,
    );
    hand_counts(answer, counts)
}

// What `vj_self` lists of the pairs whose segment boxes meet, and the boxes of the path.
#[unsafe(no_mangle)]
pub extern "C" fn vj_self_boxed(
    path: &[f64],
    closed: bool,
    epsilon: f64,
    boxes: &mut [f64],
    indices: &mut [u64],
    points: &mut [f64],
    counts: &mut [u64],
) -> u64
    ensures { handed.HandedBoxed
        (Boxed.self_boxed path.now closed epsilon boxes.old indices.old points.old)
        result counts.old counts.new boxes.old boxes.new
        indices.old indices.new points.old points.new }
{
    if counts.len() < COUNTS {
        return NO_ROOM;
    }
    let answer = self_boxed::self_boxed(path, closed, epsilon, boxes, indices, points);
    hand_counts(answer, counts)
}
