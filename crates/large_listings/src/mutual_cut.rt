// The crossings of two paths, in the mode of large arcs.
ghost use Rattle.std.specs.Prelude.{◌≡◌, Ok};
ghost use Rattle.listing_outcomes.specs.Outcome;
ghost use Rattle.large_listings.specs.LargeListings;

use super::cutting::{FLOATS, KEPT, cut};
use super::jobs;
use large_outcomes::listed;
use listing_outcomes::answer::ListingAnswer;
use paths::path;

// The same of paths that were checked.
fn list_mutual(
    first: &[f64],
    first_closed: bool,
    second: &[f64],
    second_closed: bool,
    epsilon: f64,
    indices: &mut [u64],
    points: &mut [f64],
) -> ListingAnswer
    requires { LargeListings.check_mutual_large first.now first_closed second.now second_closed epsilon ≡ Ok tt }
    ensures { Outcome.Leaves
        (LargeListings.mutual_large first.now first_closed second.now second_closed epsilon
        indices.old points.old)
        result indices.new points.new }
{
    let mut first_floats = [0.0f64; FLOATS];
    let mut first_names = [0u64; path::SEGMENTS];
    let mut second_floats = [0.0f64; FLOATS];
    let mut second_names = [0u64; path::SEGMENTS];
    let a = cut(first, first_closed, &mut first_floats, &mut first_names);
    let b = cut(second, second_closed, &mut second_floats, &mut second_names);
    let n = a.floats;
    let i = a.segments;
    let m = b.floats;
    let j = b.segments;
    let job = jobs::mutual_job(i, j, false, epsilon);
    let mut kept = [0.0f64; KEPT];
    listed::list_large(
        &first_floats[..n],
        &second_floats[..m],
        &first_names[..i],
        &second_names[..j],
        job,
        &mut kept,
        indices,
        points,
    )
}

// Lists into the lent slices which segments of the first path meet which of the second, and where, with their halves.
pub fn mutual_cut(
    first: &[f64],
    first_closed: bool,
    second: &[f64],
    second_closed: bool,
    epsilon: f64,
    indices: &mut [u64],
    points: &mut [f64],
) -> ListingAnswer
    ensures { Outcome.Leaves
        (LargeListings.mutual_large first.now first_closed second.now second_closed epsilon
        indices.old points.old)
        result indices.new points.new }
{
    jobs::check_mutual_large(first, first_closed, second, second_closed, epsilon)?;
    list_mutual(
        first,
        first_closed,
        second,
        second_closed,
        epsilon,
        indices,
        points,
    )
}
