// The crossings of two paths, found by boxes.
ghost use Rattle.listing_outcomes.specs.BoxedOutcome;
ghost use Rattle.listing_calls.specs.Boxed;

use super::jobs;
use listing_outcomes::answer::ListingAnswer;
use listing_outcomes::boxed;

// Lists as `mutual_listing` does, but only pairs whose segment boxes meet, and writes the boxes of both paths into `boxes`.
pub fn mutual_boxed(
    first: &[f64],
    first_closed: bool,
    second: &[f64],
    second_closed: bool,
    epsilon: f64,
    boxes: &mut [f64],
    indices: &mut [u64],
    points: &mut [f64],
) -> ListingAnswer
    ensures { BoxedOutcome.LeavesBoxed
        (Boxed.mutual_boxed first.now first_closed second.now second_closed epsilon
        boxes.old indices.old points.old)
        result boxes.new indices.new points.new }
{
    jobs::check_mutual(first, first_closed, second, second_closed, epsilon)?;
    let job = jobs::mutual_job(first, first_closed, second, second_closed, true, epsilon);
    boxed::list_boxed(first, second, job, boxes, indices, points)
}
