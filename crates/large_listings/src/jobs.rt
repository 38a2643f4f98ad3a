// What the listings of the mode of large arcs begin with: the checks, and the job that is left to do.
ghost use Rattle.std.specs.Prelude.{◌≡◌};
ghost use Rattle.large_listings.specs.LargeListings;
ghost use Rattle.large_listings.specs.Workings.Jobs;

use checks::each;
use checks::fault::Checked;
use cuts::check::check_large_path;
use listing_pairs::order::Job;
use paths::shape;

// The first fault, in this order: epsilon, both paths' lengths, the first path's vertices and segments, then the second's.
#[tactic(auto, unfolding(checks::specs::Fault::later, crate::specs::LargeListings::check_mutual_large))]
pub fn check_mutual_large(
    first: &[f64],
    first_closed: bool,
    second: &[f64],
    second_closed: bool,
    epsilon: f64,
) -> Checked
    ensures { result ≡ LargeListings.check_mutual_large first.now first_closed second.now second_closed epsilon }
{
    each::epsilon(epsilon)?;
    shape::shape(first, 0)?;
    shape::shape(second, 1)?;
    check_large_path(first, first_closed, 0)?;
    check_large_path(second, second_closed, 1)
}

// The first fault, in this order: epsilon, the path's length, its vertices, its segments.
pub fn check_self_large(path: &[f64], closed: bool, epsilon: f64) -> Checked
    ensures { result ≡ LargeListings.check_self_large path.now closed epsilon }
{
    each::epsilon(epsilon)?;
    shape::shape(path, 0)?;
    check_large_path(path, closed, 0)
}

// Every one of n segments with every one of m; in a boxed listing those whose boxes meet.
pub fn mutual_job(n: usize, m: usize, boxed: bool, epsilon: f64) -> Job
    ensures { result ≡ Jobs.mutual_job n m boxed epsilon }
{
    Job {
        n: n,
        m: m,
        own: false,
        closed: false,
        boxed: boxed,
        epsilon: epsilon,
    }
}

// The n segments of one path with each other; in a boxed listing those whose boxes meet.
pub fn self_job(n: usize, closed: bool, boxed: bool, epsilon: f64) -> Job
    ensures { result ≡ Jobs.self_job n closed boxed epsilon }
{
    Job {
        n: n,
        m: n,
        own: true,
        closed: closed,
        boxed: boxed,
        epsilon: epsilon,
    }
}
