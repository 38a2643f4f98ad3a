// A page of the crossings of a path with itself, in the mode of large arcs.
ghost use Rattle.std.specs.Prelude.{◌≡◌, Ok};
ghost use Rattle.listing_outcomes.specs.Outcome;
ghost use Rattle.large_listings.specs.LargeListings;

use super::cutting::{FLOATS, KEPT, cut};
use super::jobs;
use large_outcomes::listed;
use listing_outcomes::answer::PageAnswer;
use paths::path;

// The same of a path that was checked.
fn page_self(
    path: &[f64],
    closed: bool,
    epsilon: f64,
    position: usize,
    budget: usize,
    indices: &mut [u64],
    points: &mut [f64],
) -> PageAnswer
    requires { LargeListings.check_self_large path.now closed epsilon ≡ Ok tt }
    ensures { Outcome.Leaves
        (LargeListings.self_page_large path.now closed epsilon position budget
        indices.old points.old)
        result indices.new points.new }
{
    let mut floats = [0.0f64; FLOATS];
    let mut names = [0u64; path::SEGMENTS];
    let sizes = cut(path, closed, &mut floats, &mut names);
    let n = sizes.floats;
    let k = sizes.segments;
    let job = jobs::self_job(k, closed, false, epsilon);
    let own = &floats[..n];
    let own_names = &names[..k];
    let mut kept = [0.0f64; KEPT];
    listed::page_large(
        own, own, own_names, own_names, job, position, budget, &mut kept, indices, points,
    )
}

// Lists as `self_cut` does, from a position on: how many pairs of the cut path come before it. It stops at the end, when
// `budget` pairs are passed, or before a pair whose row does not fit.
pub fn self_page_cut(
    path: &[f64],
    closed: bool,
    epsilon: f64,
    position: usize,
    budget: usize,
    indices: &mut [u64],
    points: &mut [f64],
) -> PageAnswer
    ensures { Outcome.Leaves
        (LargeListings.self_page_large path.now closed epsilon position budget
        indices.old points.old)
        result indices.new points.new }
{
    jobs::check_self_large(path, closed, epsilon)?;
    page_self(path, closed, epsilon, position, budget, indices, points)
}
