// A page of the crossings of two paths.
ghost use Rattle.listing_outcomes.specs.Outcome;
ghost use Rattle.listing_calls.specs.Pages;

use super::jobs;
use listing_outcomes::answer::PageAnswer;
use listing_outcomes::page;

// Lists as `mutual_listing` does, from a position on: how many pairs come before it. It stops at the end, when `budget` pairs are
// passed, or before a pair whose row does not fit.
pub fn mutual_page(
    first: &[f64],
    first_closed: bool,
    second: &[f64],
    second_closed: bool,
    epsilon: f64,
    position: usize,
    budget: usize,
    indices: &mut [u64],
    points: &mut [f64],
) -> PageAnswer
    ensures { Outcome.Leaves (Pages.mutual_page first.now first_closed second.now second_closed epsilon
        position budget indices.old points.old)
        result indices.new points.new }
{
    jobs::check_mutual(first, first_closed, second, second_closed, epsilon)?;
    let job = jobs::mutual_job(first, first_closed, second, second_closed, false, epsilon);
    page::page(first, second, job, position, budget, indices, points)
}
