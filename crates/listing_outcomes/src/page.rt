// A page of a listing of two checked paths: from a position on, as far as the budget and the caller's slices allow. Refusals 13
// and 14 are decided here, and a page's refusal 8.
ghost use Rattle.std.specs.Prelude.{◌≡◌, false, ◌≤◌, ◌*◌, length};
ghost use Rattle.listing_pairs.specs.Page as page_of;
ghost use Rattle.listing_pairs.specs.Row as RowDefs;
ghost use Rattle.listing_pairs.specs.Workings.Job as JobDefs;
ghost use Rattle.listing_pairs.specs.Workings.Keeping;
ghost use Rattle.listing_pairs.specs.Workings.Ready;
ghost use Rattle.paths.specs.Path;
ghost use Rattle.listing_loop.specs.Workings.Filling as filling;
ghost use Rattle.listing_outcomes.specs.Outcome;
ghost use Rattle.listing_outcomes.specs.Workings.PageOutcome as outcome_of;

use super::answer::{PageAnswer, PageCounts};
use super::room::row_room;
use checks::fault::{Item, whole};
use checks::refusal;
use listing_loop::fill::{Filling, How, Part, fill};
use listing_pairs::order::{Job, Spot};
use listing_pairs::{keeping, order, tracks};
use paths::path;

// Fills the slices from a pair on, with room for so many rows and a budget of so many pairs. `kept` is for what it keeps of the
// second path's segments.
fn fill_from(
    first: &[f64],
    second: &[f64],
    job: Job,
    spot: Spot,
    room: usize,
    budget: usize,
    kept: &mut [f64],
    indices: &mut [u64],
    points: &mut [f64],
) -> Filling
    requires ready { Ready.Ready first.now second.now job }
    requires boxed_value { job.boxed ≡ false }
    requires m_in_bounds { Keeping.floats_before job.m ≤ length kept.old }
    requires i_le_n { spot.i ≤ job.n }
    requires room_in_bounds { (room * RowDefs.indices_a_row ≤ length indices.old) × (room * RowDefs.points_a_row ≤ length points.old) }
    ensures { filling.Filled job (outcome_of.starting spot.i spot.j room budget)
        (page_of.page (Ready.look_by first.now second.now job) (JobDefs.left job spot.i spot.j)
        room budget)
        result indices.old indices.new points.old points.new }
{
    tracks::keep_traces(second, job.m, kept);
    keeping::keep_reached(second, job, spot.i, spot.j, budget, kept);
    let part = Part {
        i: spot.i,
        j: spot.j,
        rows: 0,
        room: room,
        budget: budget,
        write: true,
    };
    let how = How {
        sieved: false,
        noting: false,
        recalling: false,
    };
    let mut none = [0u64; 1];
    fill(
        first, second, kept, kept, job, how, part, &mut none, indices, points,
    )
}

// The page of a job from a position on. If the position is beyond the end, if there is no budget, or if no whole row fits, it is
// refused, and nothing is written to `indices` and `points`. `kept` is for what it keeps of the second path's segments: nothing
// is read from it that was not written before.
pub fn page_in(
    first: &[f64],
    second: &[f64],
    job: Job,
    position: usize,
    budget: usize,
    kept: &mut [f64],
    indices: &mut [u64],
    points: &mut [f64],
) -> PageAnswer
    requires ready { Ready.Ready first.now second.now job }
    requires boxed_value { job.boxed ≡ false }
    requires m_in_bounds { Keeping.floats_before job.m ≤ length kept.old }
    ensures leaves { Outcome.Leaves (outcome_of.paged (Ready.look_by first.now second.now job) (JobDefs.every job)
        position budget indices.old points.old)
        result indices.new points.new }
    ensures kept_len_unchanged { length kept.new ≡ length kept.old }
{
    let all = order::count(job);
    if position > all {
        return Err(whole(refusal::POSITION, Item::Position));
    }
    if budget == 0 {
        return Err(whole(refusal::BUDGET, Item::Budget));
    }
    let room = row_room(indices.len(), points.len());
    if room == 0 {
        return Err(whole(refusal::ROWS, Item::Rows));
    }
    let spot = order::locate(job, position);
    let filled = fill_from(
        first, second, job, spot, room, budget, kept, indices, points,
    );
    Ok(PageCounts {
        rows: filled.rows,
        pairs: filled.passed,
        next: position + filled.passed,
        all,
    })
}

// The same of a job whose second path has no more segments than a path has vertices.
pub fn page(
    first: &[f64],
    second: &[f64],
    job: Job,
    position: usize,
    budget: usize,
    indices: &mut [u64],
    points: &mut [f64],
) -> PageAnswer
    requires ready { Ready.Ready first.now second.now job }
    requires boxed_value { (job.boxed ≡ false) × (job.m ≤ Path.most_vertices) }
    ensures { Outcome.Leaves (outcome_of.paged (Ready.look_by first.now second.now job) (JobDefs.every job)
        position budget indices.old points.old)
        result indices.new points.new }
{
    // for each segment that a path may have and each group that a listing walks: 132 KiB
    let mut kept = [0.0f64; path::VERTICES * keeping::NUMBERS + tracks::GROUPS];
    page_in(
        first, second, job, position, budget, &mut kept, indices, points,
    )
}
