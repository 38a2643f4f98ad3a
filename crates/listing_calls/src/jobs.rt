// What the listings and pages of two paths and of one begin with: the checks, and the job that is left to do.
ghost use Rattle.std.specs.Prelude.{◌≡◌};
ghost use Rattle.listing_calls.specs.Listing;
ghost use Rattle.listing_calls.specs.Workings.Jobs;

use checks::each;
use checks::fault::Checked;
use listing_pairs::order::Job;
use paths::{check, segments, shape};

// The first fault, in this order: epsilon, both paths' lengths, the first path's vertices and arcs, then the second's.
#[tactic(auto, unfolding(checks::specs::Fault::later, crate::specs::Listing::check_mutual))]
pub(crate) fn check_mutual(
    first: &[f64],
    first_closed: bool,
    second: &[f64],
    second_closed: bool,
    epsilon: f64,
) -> Checked
    ensures { result ≡ Listing.check_mutual first.now first_closed second.now second_closed epsilon }
{
    each::epsilon(epsilon)?;
    shape::shape(first, 0)?;
    shape::shape(second, 1)?;
    check::check_path(first, first_closed, 0)?;
    check::check_path(second, second_closed, 1)
}

// The first fault, in this order: epsilon, the path's length, its vertices, its arcs.
pub(crate) fn check_self(path: &[f64], closed: bool, epsilon: f64) -> Checked
    ensures { result ≡ Listing.check_self path.now closed epsilon }
{
    each::epsilon(epsilon)?;
    shape::shape(path, 0)?;
    check::check_path(path, closed, 0)
}

// Every segment of the first path with every segment of the second; in a boxed listing those whose boxes meet.
pub(crate) fn mutual_job(
    first: &[f64],
    first_closed: bool,
    second: &[f64],
    second_closed: bool,
    boxed: bool,
    epsilon: f64,
) -> Job
    ensures { result ≡ Jobs.mutual_job first.now first_closed second.now second_closed boxed epsilon }
{
    let n = segments::segment_count(first, first_closed);
    let m = segments::segment_count(second, second_closed);
    Job {
        n: n,
        m: m,
        own: false,
        closed: false,
        boxed: boxed,
        epsilon: epsilon,
    }
}

// The segments of one path with each other; in a boxed listing those whose boxes meet.
pub(crate) fn self_job(path: &[f64], closed: bool, boxed: bool, epsilon: f64) -> Job
    ensures { result ≡ Jobs.self_job path.now closed boxed epsilon }
{
    let n = segments::segment_count(path, closed);
    Job {
        n: n,
        m: n,
        own: true,
        closed: closed,
        boxed: boxed,
        epsilon: epsilon,
    }
}
