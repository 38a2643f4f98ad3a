// A page of the crossings of a path with itself.
ghost use Rattle.listing_outcomes.specs.Outcome;
ghost use Rattle.listing_calls.specs.Pages;

use super::jobs;
use listing_outcomes::answer::PageAnswer;
use listing_outcomes::page;

// Lists as `self_listing` does, from a position on: how many pairs come before it. It stops at the end, when `budget` pairs are
// passed, or before a pair whose row does not fit.
pub fn self_page(
    path: &[f64],
    closed: bool,
    epsilon: f64,
    position: usize,
    budget: usize,
    indices: &mut [u64],
    points: &mut [f64],
) -> PageAnswer
    ensures { Outcome.Leaves
        (Pages.self_page path.now closed epsilon position budget indices.old points.old)
        result indices.new points.new }
{
    jobs::check_self(path, closed, epsilon)?;
    let job = jobs::self_job(path, closed, false, epsilon);
    page::page(path, path, job, position, budget, indices, points)
}
