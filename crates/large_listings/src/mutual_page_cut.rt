// A page of the crossings of two paths, in the mode of large arcs.
ghost use Rattle.std.specs.Prelude.{◌≡◌, Ok};
ghost use Rattle.listing_outcomes.specs.Outcome;
ghost use Rattle.large_listings.specs.LargeListings;

use super::cutting::{FLOATS, KEPT, cut};
use super::jobs;
use large_outcomes::listed;
use listing_outcomes::answer::PageAnswer;
use paths::path;

// The same of paths that were checked.
fn page_mutual(
    first: &[f64],
    first_closed: bool,
    second: &[f64],
    second_closed: bool,
    epsilon: f64,
    position: usize,
    budget: usize,
    indices: &mut [u64],
    points: &mut [f64],
) -> PageAnswer
    requires { LargeListings.check_mutual_large first.now first_closed second.now second_closed epsilon ≡ Ok tt }
    ensures { Outcome.Leaves
        (LargeListings.mutual_page_large first.now first_closed
        second.now second_closed epsilon position budget
        indices.old points.old)
        result indices.new points.new }
{
    let mut first_floats = [0.0f64; FLOATS];
    let mut first_names = [0u64; path::SEGMENTS];
    let mut second_floats = [0.0f64; FLOATS];
    let mut second_names = [0u64; path::SEGMENTS];
    let a = cut(first, first_closed, &mut first_floats, &mut first_names);
    let b = cut(second, second_closed, &mut second_floats, &mut second_names);
    let n = a.floats;
    let i = a.segments;
    let m = b.floats;
    let j = b.segments;
    let job = jobs::mutual_job(i, j, false, epsilon);
    let mut kept = [0.0f64; KEPT];
    listed::page_large(
        &first_floats[..n],
        &second_floats[..m],
        &first_names[..i],
        &second_names[..j],
        job,
        position,
        budget,
        &mut kept,
        indices,
        points,
    )
}

// Lists as `mutual_cut` does, from a position on: how many pairs of the cut paths come before it. It stops at the end, when
// `budget` pairs are passed, or before a pair whose row does not fit.
pub fn mutual_page_cut(
    first: &[f64],
    first_closed: bool,
    second: &[f64],
    second_closed: bool,
    epsilon: f64,
    position: usize,
    budget: usize,
    indices: &mut [u64],
    points: &mut [f64],
) -> PageAnswer
    ensures { Outcome.Leaves
        (LargeListings.mutual_page_large first.now first_closed
        second.now second_closed epsilon position budget
        indices.old points.old)
        result indices.new points.new }
{
    jobs::check_mutual_large(first, first_closed, second, second_closed, epsilon)?;
    page_mutual(
        first,
        first_closed,
        second,
        second_closed,
        epsilon,
        position,
        budget,
        indices,
        points,
    )
}
