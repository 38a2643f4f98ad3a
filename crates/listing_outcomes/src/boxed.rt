// A boxed listing of two checked paths: it goes by boxes of its own, and the caller's index is written once it is known that all
// rows fit. Only here is refusal 17 decided.
ghost use Rattle.std.specs.Prelude.{◌≡◌, true, ◌≤◌, length};
ghost use Rattle.paths.specs.Path;
ghost use Rattle.listing_pairs.specs.Workings.Job as JobDefs;
ghost use Rattle.listing_pairs.specs.Workings.Keeping;
ghost use Rattle.listing_pairs.specs.Workings.Ready;
ghost use Rattle.listing_outcomes.specs.Outcome;
ghost use Rattle.listing_outcomes.specs.BoxedOutcome;
ghost use Rattle.listing_outcomes.specs.Workings.BoxedOutcome as boxed_of;

use super::answer::ListingAnswer;
use super::buffer::list_kept;
use boxes::index;
use checks::fault::{Item, whole};
use checks::refusal;
use listing_pairs::order::Job;
use listing_pairs::{keeping, tracks};
use paths::path;

// the most groups that a path may have, and the most groups of groups
const GROUPS: usize = path::VERTICES / index::GROUP;

const OUTER_GROUPS: usize = GROUPS / index::GROUP;

// How many floats the index of a job needs.
fn floats_for(job: Job) -> usize
    requires { (job.n ≤ Path.most_segments) × (job.m ≤ Path.most_segments) }
    ensures { result ≡ boxed_of.floats_for job }
{
    let first = index::floats_needed(job.n);
    if job.own {
        return first;
    }
    first + index::floats_needed(job.m)
}

// Stores the index of a job from the front: the first path's and, if there is a second path, that one's behind it. The second
// path's boxes are kept, so they are copied.
fn store_index(first: &[f64], second: &[f64], kept: &[f64], job: Job, boxes: &mut [f64])
    requires ready { Ready.Ready first.now second.now job }
    requires own_path { boxed_of.OwnPath first.now second.now job }
    requires boxes_kept { Keeping.BoxesKept second.now kept.now job }
    requires job_in_bounds { boxed_of.floats_for job ≤ length boxes.old }
    ensures { boxes.new
        ≡ Outcome.overwrite boxes.old (boxed_of.index_for first.now second.now job) }
{
    let from = keeping::FRONT + job.m;
    let count = job.m + index::group_count(job.m);
    if job.own {
        index::copy(kept, from, count, 0, boxes);
        return;
    }
    index::store(first, job.n, job.epsilon, 0, boxes);
    let behind = job.n + index::group_count(job.n);
    index::copy(kept, from, count, behind, boxes);
}

// The listing of a boxed job whose index fits, and the index. If it has more rows than fit, the answer is refusal 8, and nothing
// is written to the caller's slices. `kept` is for what it keeps of the second path's segments, and for their boxes.
fn list_by_boxes(
    first: &[f64],
    second: &[f64],
    job: Job,
    kept: &mut [f64],
    boxes: &mut [f64],
    indices: &mut [u64],
    points: &mut [f64],
) -> ListingAnswer
    requires ready { Ready.Ready first.now second.now job }
    requires own_path { boxed_of.OwnPath first.now second.now job }
    requires job_in_bounds { boxed_of.floats_for job ≤ length boxes.old }
    requires m_in_bounds { Keeping.floats_boxed job.m ≤ length kept.old }
    ensures { BoxedOutcome.LeavesBoxed (boxed_of.boxed (Ready.look_by first.now second.now job) (JobDefs.every job)
        (boxed_of.index_for first.now second.now job)
        boxes.old indices.old points.old)
        result boxes.new indices.new points.new }
{
    tracks::keep_traces(second, job.m, kept);
    keeping::keep(second, 0, job.m, job.epsilon, kept);
    keeping::keep_boxes(second, job.m, job.epsilon, kept);
    let counts = list_kept(first, second, kept, job, indices, points)?;
    store_index(first, second, kept, job, boxes);
    Ok(counts)
}

// The listing of a boxed job, and its index. If the index does not fit, the answer is refusal 17; if it has more rows than fit,
// refusal 8. Then nothing is written to the caller's slices. `kept` is for what it keeps of the second path's segments, and for
// their boxes: nothing is read from it that was not written before.
pub fn boxed_in(
    first: &[f64],
    second: &[f64],
    job: Job,
    kept: &mut [f64],
    boxes: &mut [f64],
    indices: &mut [u64],
    points: &mut [f64],
) -> ListingAnswer
    requires ready { Ready.Ready first.now second.now job }
    requires own_path { boxed_of.OwnPath first.now second.now job }
    requires m_in_bounds { Keeping.floats_boxed job.m ≤ length kept.old }
    ensures leaves_boxed { BoxedOutcome.LeavesBoxed (boxed_of.boxed (Ready.look_by first.now second.now job) (JobDefs.every job)
        (boxed_of.index_for first.now second.now job)
        boxes.old indices.old points.old)
        result boxes.new indices.new points.new }
    ensures kept_len_unchanged { length kept.new ≡ length kept.old }
{
    if boxes.len() < floats_for(job) {
        return Err(whole(refusal::BOXES, Item::Boxes));
    }
    list_by_boxes(first, second, job, kept, boxes, indices, points)
}

// The same of a job whose second path has no more segments than a path has vertices.
pub fn list_boxed(
    first: &[f64],
    second: &[f64],
    job: Job,
    boxes: &mut [f64],
    indices: &mut [u64],
    points: &mut [f64],
) -> ListingAnswer
    requires ready { Ready.Ready first.now second.now job }
    requires own_path { boxed_of.OwnPath first.now second.now job }
    requires m_bound { job.m ≤ Path.most_vertices }
    ensures { BoxedOutcome.LeavesBoxed (boxed_of.boxed (Ready.look_by first.now second.now job) (JobDefs.every job)
        (boxed_of.index_for first.now second.now job)
        boxes.old indices.old points.old)
        result boxes.new indices.new points.new }
{
    // for each segment that a path may have and each group that a listing walks, and a box for each segment, each group and each
    // group of groups that a path may have: 269 KiB
    let mut kept = [0.0f64; path::VERTICES * keeping::NUMBERS
        + tracks::GROUPS
        + index::FLOATS * (path::VERTICES + GROUPS + OUTER_GROUPS)];
    boxed_in(first, second, job, &mut kept, boxes, indices, points)
}
