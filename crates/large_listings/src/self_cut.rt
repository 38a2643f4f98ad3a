// The crossings of a path with itself, in the mode of large arcs.
ghost use Rattle.std.specs.Prelude.{◌≡◌, Ok};
ghost use Rattle.listing_outcomes.specs.Outcome;
ghost use Rattle.large_listings.specs.LargeListings;

use super::cutting::{FLOATS, KEPT, cut};
use super::jobs;
use large_outcomes::listed;
use listing_outcomes::answer::ListingAnswer;
use paths::path;

// The same of a path that was checked.
fn list_self(
    path: &[f64],
    closed: bool,
    epsilon: f64,
    indices: &mut [u64],
    points: &mut [f64],
) -> ListingAnswer
    requires { LargeListings.check_self_large path.now closed epsilon ≡ Ok tt }
    ensures { Outcome.Leaves
        (LargeListings.self_large path.now closed epsilon
        indices.old points.old)
        result indices.new points.new }
{
    let mut floats = [0.0f64; FLOATS];
    let mut names = [0u64; path::SEGMENTS];
    let sizes = cut(path, closed, &mut floats, &mut names);
    let n = sizes.floats;
    let k = sizes.segments;
    let job = jobs::self_job(k, closed, false, epsilon);
    let own = &floats[..n];
    let own_names = &names[..k];
    let mut kept = [0.0f64; KEPT];
    listed::list_large(
        own, own, own_names, own_names, job, &mut kept, indices, points,
    )
}

// Lists into the lent slices which segments of the path meet, and where, with their halves. Neighbours of the cut path that meet
// only near vertices which they share make no row.
pub fn self_cut(
    path: &[f64],
    closed: bool,
    epsilon: f64,
    indices: &mut [u64],
    points: &mut [f64],
) -> ListingAnswer
    ensures { Outcome.Leaves
        (LargeListings.self_large path.now closed epsilon
        indices.old points.old)
        result indices.new points.new }
{
    jobs::check_self_large(path, closed, epsilon)?;
    list_self(path, closed, epsilon, indices, points)
}
