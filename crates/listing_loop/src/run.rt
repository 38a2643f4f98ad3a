// Which indices the loop looks at next. It passes over those whose segment is of one trace with the first path's segment, and in
// a boxed listing those whose box does not meet that segment's.
ghost use Rattle.std.specs.Prelude.{◌≡◌, true, ◌≤◌, ◌<◌};
ghost use Rattle.paths.specs.Path;
ghost use Rattle.boxes.specs.Workings.Next;
ghost use Rattle.floats.specs.Ops.{◌≻◌, f0};
ghost use Rattle.listing_pairs.specs.Workings.Keeping;
ghost use Rattle.listing_pairs.specs.Workings.Tracks;
ghost use Rattle.listing_loop.specs.Workings.Runs;

use boxes::bounds::{Box, box_with};
use boxes::next::{next_apart, next_by_groups};
use fast_pair::kept::Kept;
use listing_pairs::keeping;
use listing_pairs::order::Job;
use listing_pairs::sizes::lesser;
use listing_pairs::tracks::{past_group, past_others};
use paths::path;
use paths::path::Segment;

// The indices from `from` up to, but not including, `to`.
#[derive(Clone, Copy)]
pub struct Run {
    pub from: usize,
    pub to: usize,
}

// The box of v, of which `v_kept` is kept: a boxed listing goes by it. In any other it has no effect.
pub(crate) fn box_for(v: Segment, v_kept: Kept, job: Job) -> Box
    requires { v_kept ≡ Keeping.of_segment v job.epsilon }
    ensures { result ≡ Runs.box_for v job }
{
    if job.boxed {
        return box_with(v.v1, v.v2, v_kept.chord_or_zero, job.epsilon);
    }
    Box {
        least_x: 0.0,
        least_y: 0.0,
        greatest_x: 0.0,
        greatest_y: 0.0,
    }
}

// The next indices from j on and before `end` whose boxes meet; of a listing that is not boxed all.
fn run_of_boxes(kept: &[f64], v_box: Box, job: Job, j: usize, end: usize) -> Run
    requires grouped_twice { job.boxed ≡ true → Next.GroupedTwice kept.now (Keeping.boxes_kept job.m) job.m }
    requires j_le_end { (j ≤ end) × (end ≤ job.m) × (job.m ≤ Path.most_segments) }
    ensures { result ≡ Runs.run_of_boxes kept.now v_box job j end }
{
    if job.boxed {
        let boxes = keeping::FRONT + job.m;
        let from = next_by_groups(kept, boxes, job.m, v_box, j, end);
        let to = next_apart(kept, boxes, v_box, from, end);
        return Run { from: from, to: to };
    }
    Run { from: j, to: end }
}

// The first vertex from j on and before `end` that has another trace than this one, which is above 0; `end` if there is none. A
// group of which this trace is kept is passed over whole.
fn next_other_by_groups(
    path: &[f64],
    kept: &[f64],
    n: usize,
    trace: f64,
    j: usize,
    end: usize,
) -> usize
    requires j_le_end { (j ≤ end) × (end ≤ n) × (n ≤ Path.vertex_count path.now) }
    requires tracked { Tracks.Tracked path.now kept.now n }
    requires f0_value { (trace ≻ f0) ≡ true }
    ensures { result ≡ Next.first (Tracks.other path.now trace) j end }
{
    let mut k = j;
    while k < end {
        let past = past_group(kept, n, trace, k);
        if k < past {
            k = lesser(past, end);
        } else {
            if !(trace == path::trace(path, k)) {
                return k;
            }
            k += 1;
        }
    }
    end
}

// The first vertex from j on and before `end` that has this trace; `end` if there is none. A group of which another trace is kept
// is passed over whole.
fn next_same_by_groups(
    path: &[f64],
    kept: &[f64],
    n: usize,
    trace: f64,
    j: usize,
    end: usize,
) -> usize
    requires j_le_end { (j ≤ end) × (end ≤ n) × (n ≤ Path.vertex_count path.now) }
    requires tracked { Tracks.Tracked path.now kept.now n }
    ensures { result ≡ Next.first (Tracks.same path.now trace) j end }
{
    let mut k = j;
    while k < end {
        let past = past_others(kept, n, trace, k);
        if k < past {
            k = lesser(past, end);
        } else {
            if trace == path::trace(path, k) {
                return k;
            }
            k += 1;
        }
    }
    end
}

// The next indices to look at, from j on and before `end`, for a segment of the first path with this box and trace. Those
// between j and them are passed over. No pair of trace 0 is of one trace, so then no trace of the second path is read.
pub(crate) fn next_run(
    second: &[f64],
    kept: &[f64],
    v_box: Box,
    trace: f64,
    job: Job,
    j: usize,
    end: usize,
) -> Run
    requires grouped_twice { job.boxed ≡ true → Next.GroupedTwice kept.now (Keeping.boxes_kept job.m) job.m }
    requires j_le_end { (j ≤ end) × (end ≤ job.m) × (job.m ≤ Path.most_segments) }
    requires m_bound { job.m ≤ Path.vertex_count second.now }
    requires tracked { Tracks.Tracked second.now kept.now job.m }
    ensures { result ≡ Runs.next_run second.now kept.now v_box trace job j end }
{
    let all = run_of_boxes(kept, v_box, job, j, end);
    if trace > 0.0 {
        let stop = all.to;
        let from = next_other_by_groups(second, kept, job.m, trace, all.from, stop);
        let to = next_same_by_groups(second, kept, job.m, trace, from, stop);
        return Run { from: from, to: to };
    }
    all
}
