// The crossings of two paths, counted in a report.
ghost use Rattle.month.specs.Counted;

use super::count::count;
use super::report::{WORDS, full};
use checks::call::CallError;
use checks::fault::{Item, whole};
use checks::refusal;
use listing_calls::mutual_listing::mutual_listing;
use listing_outcomes::answer::Counts;

// What the listing answered, or 19 if the report is full. Or the report has fewer words than a report has: then nothing is changed,
// and nothing was looked at.
pub type CountedAnswer = Result<Counts, CallError>;

// Lists as `mutual_listing` does, and adds to the report. If the report is full, it answers 19 and changes nothing.
pub fn mutual_counted(
    first: &[f64],
    first_closed: bool,
    second: &[f64],
    second_closed: bool,
    epsilon: f64,
    indices: &mut [u64],
    points: &mut [f64],
    report: &mut [u64],
) -> CountedAnswer
    ensures { Counted.LeavesCounted
        (Counted.mutual_counted first.now first_closed second.now second_closed epsilon
        indices.old points.old report.old)
        result indices.new points.new report.new }
{
    if report.len() < WORDS {
        return Err(CallError::NoRoom);
    }
    if full(report) {
        return Err(CallError::Refused(whole(refusal::REPORT, Item::Report)));
    }
    let answer = mutual_listing(
        first,
        first_closed,
        second,
        second_closed,
        epsilon,
        indices,
        points,
    );
    count(answer, indices, report);
    Ok(answer?)
}
