// The crossings of two paths in the mode of large arcs, counted in a report. The rows are counted before they are spread, while
// their classes stand where the crate `month` reads them.
ghost use Rattle.std.specs.Prelude.{◌≡◌, false, ◌≤◌, length, Ok};
ghost use Rattle.listing_pairs.specs.Workings.Job as JobDefs;
ghost use Rattle.listing_pairs.specs.Workings.Keeping;
ghost use Rattle.listing_pairs.specs.Workings.Ready;
ghost use Rattle.large_outcomes.specs.Workings.Spread as spread_of;
ghost use Rattle.month.specs.Counted as counted_of;
ghost use Rattle.month.specs.Report as report_of;
ghost use Rattle.large_listings.specs.LargeListings;
ghost use Rattle.large_counted.specs.LargeCounted;
ghost use Rattle.large_counted.specs.Workings.Counting;

use checks::call::CallError;
use checks::fault::{Item, whole};
use checks::refusal;
use large_calls::old_answer::{listed_bulge, spread_listed, starts_large};
use large_listings::cutting::{FLOATS, KEPT, cut};
use large_listings::jobs;
use large_outcomes::room::large_row_room;
use large_outcomes::spread::spread;
use listing_calls::mutual_listing::mutual_listing;
use listing_outcomes::answer::ListingAnswer;
use listing_outcomes::buffer;
use listing_pairs::order::Job;
use listing_pairs::row;
use month::count::count;
use month::mutual_counted::CountedAnswer;
use month::report::{WORDS, full};
use paths::path;

// Lists as `list_large` of the crate `large_outcomes` does, and adds to a report that is not full.
fn list_counted(
    first: &[f64],
    second: &[f64],
    first_names: &[u64],
    second_names: &[u64],
    job: Job,
    kept: &mut [f64],
    indices: &mut [u64],
    points: &mut [f64],
    report: &mut [u64],
) -> ListingAnswer
    requires ready { Ready.Ready first.now second.now job }
    requires boxed_value { job.boxed ≡ false }
    requires m_in_bounds { Keeping.floats_before job.m ≤ length kept.old }
    requires words_in_bounds { (report_of.words ≤ length report.old) × (report_of.full report.old ≡ false) }
    ensures { Counting.ListedCounted (spread_of.five_of first_names.now second_names.now)
        (Ready.look_by first.now second.now job) (JobDefs.every job)
        indices.old points.old report.old
        result indices.new points.new report.new }
{
    let room = large_row_room(indices.len(), points.len());
    let threes = room * row::INDICES;
    let fours = room * row::POINTS;
    let answer = buffer::list_in(
        first,
        second,
        job,
        kept,
        &mut indices[..threes],
        &mut points[..fours],
    );
    count(answer, indices, report);
    let counts = answer?;
    spread(first_names, second_names, counts.rows, indices);
    Ok(counts)
}

// The listing of paths that were checked, and what it adds to a report that is not full.
fn counted_cut(
    first: &[f64],
    first_closed: bool,
    second: &[f64],
    second_closed: bool,
    epsilon: f64,
    indices: &mut [u64],
    points: &mut [f64],
    report: &mut [u64],
) -> ListingAnswer
    requires epsilon_value { LargeListings.check_mutual_large first.now first_closed second.now second_closed epsilon ≡ Ok tt }
    requires words_in_bounds { (report_of.words ≤ length report.old) × (report_of.full report.old ≡ false) }
    ensures { Counting.LargeAdded first.now first_closed second.now second_closed epsilon
        indices.old points.old report.old
        result indices.new points.new report.new }
{
    let mut first_floats = [0.0f64; FLOATS];
    let mut first_names = [0u64; path::SEGMENTS];
    let mut second_floats = [0.0f64; FLOATS];
    let mut second_names = [0u64; path::SEGMENTS];
    let a = cut(first, first_closed, &mut first_floats, &mut first_names);
    let b = cut(second, second_closed, &mut second_floats, &mut second_names);
    let n = a.floats;
    let i = a.segments;
    let m = b.floats;
    let j = b.segments;
    let job = jobs::mutual_job(i, j, false, epsilon);
    let mut kept = [0.0f64; KEPT];
    list_counted(
        &first_floats[..n],
        &second_floats[..m],
        &first_names[..i],
        &second_names[..j],
        job,
        &mut kept,
        indices,
        points,
        report,
    )
}

// The listing, or the refusal of the checks, and what it adds to a report that is not full.
fn counted_large(
    first: &[f64],
    first_closed: bool,
    second: &[f64],
    second_closed: bool,
    epsilon: f64,
    indices: &mut [u64],
    points: &mut [f64],
    report: &mut [u64],
) -> ListingAnswer
    requires { (report_of.words ≤ length report.old) × (report_of.full report.old ≡ false) }
    ensures { Counting.LargeAdded first.now first_closed second.now second_closed epsilon
        indices.old points.old report.old
        result indices.new points.new report.new }
{
    let checked = jobs::check_mutual_large(first, first_closed, second, second_closed, epsilon);
    match checked {
        Ok(()) => counted_cut(
            first,
            first_closed,
            second,
            second_closed,
            epsilon,
            indices,
            points,
            report,
        ),
        Err(fault) => {
            count(Err(fault), indices, report);
            Err(fault)
        }
    }
}

// The old mode's listing in rows of five, unless it refuses a bulge; else as `counted_large`. Its rows are counted before they
// are spread.
fn counted_listing(
    first: &[f64],
    first_closed: bool,
    second: &[f64],
    second_closed: bool,
    epsilon: f64,
    indices: &mut [u64],
    points: &mut [f64],
    report: &mut [u64],
) -> ListingAnswer
    requires { (report_of.words ≤ length report.old) × (report_of.full report.old ≡ false) }
    ensures { Counting.LargeAdded first.now first_closed second.now second_closed epsilon
        indices.old points.old report.old
        result indices.new points.new report.new }
{
    if starts_large(first) {
        return counted_large(
            first,
            first_closed,
            second,
            second_closed,
            epsilon,
            indices,
            points,
            report,
        );
    }
    let room = large_row_room(indices.len(), points.len());
    let threes = room * row::INDICES;
    let fours = room * row::POINTS;
    let answer = mutual_listing(
        first,
        first_closed,
        second,
        second_closed,
        epsilon,
        &mut indices[..threes],
        &mut points[..fours],
    );
    if listed_bulge(answer) {
        return counted_large(
            first,
            first_closed,
            second,
            second_closed,
            epsilon,
            indices,
            points,
            report,
        );
    }
    count(answer, indices, report);
    spread_listed(answer, indices);
    answer
}

// Lists as `mutual_large` does, and adds to the report. If the report is full, it answers 19 and changes nothing.
pub fn mutual_counted_large(
    first: &[f64],
    first_closed: bool,
    second: &[f64],
    second_closed: bool,
    epsilon: f64,
    indices: &mut [u64],
    points: &mut [f64],
    report: &mut [u64],
) -> CountedAnswer
    ensures { counted_of.LeavesCounted
        (LargeCounted.mutual_counted_large first.now first_closed second.now second_closed epsilon
        indices.old points.old report.old)
        result indices.new points.new report.new }
{
    if report.len() < WORDS {
        return Err(CallError::NoRoom);
    }
    if full(report) {
        return Err(CallError::Refused(whole(refusal::REPORT, Item::Report)));
    }
    let answer = counted_listing(
        first,
        first_closed,
        second,
        second_closed,
        epsilon,
        indices,
        points,
        report,
    );
    Ok(answer?)
}
