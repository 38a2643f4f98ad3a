// A listing of two checked paths, a page of one and a boxed listing, with rows of five numbers. The listing itself is lent the
// front of the caller's slices, so that as many of its rows of three fit as rows of five do; then its rows are spread. `kept` has
// room for what a listing keeps of the second path.
ghost use Rattle.std.specs.Prelude.{◌≡◌, false, ◌≤◌, length};
ghost use Rattle.listing_pairs.specs.Workings.Job as JobDefs;
ghost use Rattle.listing_pairs.specs.Workings.Keeping;
ghost use Rattle.listing_pairs.specs.Workings.Ready;
ghost use Rattle.listing_outcomes.specs.Outcome;
ghost use Rattle.listing_outcomes.specs.BoxedOutcome;
ghost use Rattle.listing_outcomes.specs.Workings.BoxedOutcome as boxed_of;
ghost use Rattle.large_outcomes.specs.Workings.Spread as spread_of;
ghost use Rattle.large_outcomes.specs.Workings.LargeOutcome as large_of;

use super::room::large_row_room;
use super::spread::spread;
use listing_outcomes::answer::{ListingAnswer, PageAnswer};
use listing_outcomes::{boxed, buffer, page};
use listing_pairs::order::Job;
use listing_pairs::row;

// The listing of a job that is not boxed. If it has more rows than fit, the answer is refusal 8, and nothing is written.
pub fn list_large(
    first: &[f64],
    second: &[f64],
    first_names: &[u64],
    second_names: &[u64],
    job: Job,
    kept: &mut [f64],
    indices: &mut [u64],
    points: &mut [f64],
) -> ListingAnswer
    requires ready { Ready.Ready first.now second.now job }
    requires boxed_value { job.boxed ≡ false }
    requires m_in_bounds { Keeping.floats_before job.m ≤ length kept.old }
    ensures leaves { Outcome.Leaves
        (large_of.large_listed (spread_of.five_of first_names.now second_names.now)
        (Ready.look_by first.now second.now job) (JobDefs.every job)
        indices.old points.old)
        result indices.new points.new }
    ensures kept_len_unchanged { length kept.new ≡ length kept.old }
{
    let room = large_row_room(indices.len(), points.len());
    let threes = room * row::INDICES;
    let fours = room * row::POINTS;
    let counts = buffer::list_in(
        first,
        second,
        job,
        kept,
        &mut indices[..threes],
        &mut points[..fours],
    )?;
    spread(first_names, second_names, counts.rows, indices);
    Ok(counts)
}

// The page of a job from a position on. If the position is beyond the end, if there is no budget, or if no whole row fits, it is
// refused, and nothing is written.
pub fn page_large(
    first: &[f64],
    second: &[f64],
    first_names: &[u64],
    second_names: &[u64],
    job: Job,
    position: usize,
    budget: usize,
    kept: &mut [f64],
    indices: &mut [u64],
    points: &mut [f64],
) -> PageAnswer
    requires ready { Ready.Ready first.now second.now job }
    requires boxed_value { job.boxed ≡ false }
    requires m_in_bounds { Keeping.floats_before job.m ≤ length kept.old }
    ensures leaves { Outcome.Leaves
        (large_of.large_paged (spread_of.five_of first_names.now second_names.now)
        (Ready.look_by first.now second.now job) (JobDefs.every job)
        position budget indices.old points.old)
        result indices.new points.new }
    ensures kept_len_unchanged { length kept.new ≡ length kept.old }
{
    let room = large_row_room(indices.len(), points.len());
    let threes = room * row::INDICES;
    let fours = room * row::POINTS;
    let counts = page::page_in(
        first,
        second,
        job,
        position,
        budget,
        kept,
        &mut indices[..threes],
        &mut points[..fours],
    )?;
    spread(first_names, second_names, counts.rows, indices);
    Ok(counts)
}

// The listing of a boxed job, and its index. If the index does not fit, the answer is refusal 17; if it has more rows than fit,
// refusal 8. Then nothing is written.
pub fn list_boxed_large(
    first: &[f64],
    second: &[f64],
    first_names: &[u64],
    second_names: &[u64],
    job: Job,
    kept: &mut [f64],
    boxes: &mut [f64],
    indices: &mut [u64],
    points: &mut [f64],
) -> ListingAnswer
    requires ready { Ready.Ready first.now second.now job }
    requires own_path { boxed_of.OwnPath first.now second.now job }
    requires m_in_bounds { Keeping.floats_boxed job.m ≤ length kept.old }
    ensures leaves_boxed { BoxedOutcome.LeavesBoxed
        (large_of.large_boxed (spread_of.five_of first_names.now second_names.now)
        (Ready.look_by first.now second.now job) (JobDefs.every job)
        (boxed_of.index_for first.now second.now job)
        boxes.old indices.old points.old)
        result boxes.new indices.new points.new }
    ensures kept_len_unchanged { length kept.new ≡ length kept.old }
{
    let room = large_row_room(indices.len(), points.len());
    let threes = room * row::INDICES;
    let fours = room * row::POINTS;
    let counts = boxed::boxed_in(
        first,
        second,
        job,
        kept,
        boxes,
        &mut indices[..threes],
        &mut points[..fours],
    )?;
    spread(first_names, second_names, counts.rows, indices);
    Ok(counts)
}
