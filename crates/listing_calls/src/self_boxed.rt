// The crossings of a path with itself, found by boxes.
ghost use Rattle.listing_outcomes.specs.BoxedOutcome;
ghost use Rattle.listing_calls.specs.Boxed;

use super::jobs;
use listing_outcomes::answer::ListingAnswer;
use listing_outcomes::boxed;

// Lists as `self_listing` does, but only pairs whose segment boxes meet, and writes the boxes of the path into `boxes`.
pub fn self_boxed(
    path: &[f64],
    closed: bool,
    epsilon: f64,
    boxes: &mut [f64],
    indices: &mut [u64],
    points: &mut [f64],
) -> ListingAnswer
    ensures { BoxedOutcome.LeavesBoxed
        (Boxed.self_boxed path.now closed epsilon boxes.old indices.old points.old)
        result boxes.new indices.new points.new }
{
    jobs::check_self(path, closed, epsilon)?;
    let job = jobs::self_job(path, closed, true, epsilon);
    boxed::list_boxed(path, path, job, boxes, indices, points)
}
