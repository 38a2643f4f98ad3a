// The crossings of a path with itself, found by boxes, in the mode of large arcs.
ghost use Rattle.std.specs.Prelude.{◌≡◌, Ok};
ghost use Rattle.listing_outcomes.specs.BoxedOutcome;
ghost use Rattle.large_listings.specs.LargeListings;

use large_listings::cutting::{FLOATS, KEPT_BOXED, cut};
use large_listings::jobs;
use large_outcomes::listed;
use listing_outcomes::answer::ListingAnswer;
use paths::path;

// The same of a path that was checked.
fn boxed_self(
    path: &[f64],
    closed: bool,
    epsilon: f64,
    boxes: &mut [f64],
    indices: &mut [u64],
    points: &mut [f64],
) -> ListingAnswer
    requires { LargeListings.check_self_large path.now closed epsilon ≡ Ok tt }
    ensures { BoxedOutcome.LeavesBoxed
        (LargeListings.self_boxed_large path.now closed epsilon boxes.old
        indices.old points.old)
        result boxes.new indices.new points.new }
{
    let mut floats = [0.0f64; FLOATS];
    let mut names = [0u64; path::SEGMENTS];
    let sizes = cut(path, closed, &mut floats, &mut names);
    let n = sizes.floats;
    let k = sizes.segments;
    let job = jobs::self_job(k, closed, true, epsilon);
    let own = &floats[..n];
    let own_names = &names[..k];
    let mut kept = [0.0f64; KEPT_BOXED];
    listed::list_boxed_large(
        own, own, own_names, own_names, job, &mut kept, boxes, indices, points,
    )
}

// Lists as `self_cut` does, but only pairs whose segment boxes meet, and writes the boxes of the cut path into `boxes`.
pub fn self_boxed_cut(
    path: &[f64],
    closed: bool,
    epsilon: f64,
    boxes: &mut [f64],
    indices: &mut [u64],
    points: &mut [f64],
) -> ListingAnswer
    ensures { BoxedOutcome.LeavesBoxed
        (LargeListings.self_boxed_large path.now closed epsilon boxes.old
        indices.old points.old)
        result boxes.new indices.new points.new }
{
    jobs::check_self_large(path, closed, epsilon)?;
    boxed_self(path, closed, epsilon, boxes, indices, points)
}
