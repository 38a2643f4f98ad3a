// What a pair of segments of two checked paths gives.
ghost use Rattle.std.specs.Prelude.{◌≡◌, ◌≤◌, ◌<◌};
ghost use Rattle.paths.specs.Path;
ghost use Rattle.listing_pairs.specs.Workings.Keeping;
ghost use Rattle.listing_pairs.specs.Workings.Ready;

use super::joint::at_joint;
use super::keeping::kept_at;
use super::order::Job;
use super::row;
use arcs::pline_seg_intr::PlineSegIntr;
use fast_pair::kept::Kept;
use fast_pair::pair::{pline_seg_kept, pline_seg_left};
use paths::path::Segment;
use paths::segments;

// What the pair (i, j) gives if its segments meet like this: no row if that is at a joint.
fn look_met(second: &[f64], job: Job, i: usize, j: usize, met: PlineSegIntr) -> row::Look
    requires { (i ≤ Path.most_segments) × (j < Path.vertex_count second.now) }
    ensures { result ≡ Ready.given_by second.now job i j met }
{
    if at_joint(second, job, i, j, met) {
        return row::Look::Nothing;
    }
    row::look_of(i as u64, j as u64, met)
}

// Looks at the pair (i, j). v is segment i of the first path, and `v_kept` is kept of it: a loop over j computes them once.
pub fn look(
    v: Segment,
    v_kept: Kept,
    second: &[f64],
    kept: &[f64],
    job: Job,
    i: usize,
    j: usize,
) -> row::Look
    requires segment_ready { Ready.SegmentReady v second.now job }
    requires kept_of { Keeping.KeptOf second.now kept.now job.epsilon j }
    requires v_kept_value { v_kept ≡ Keeping.of_segment v job.epsilon }
    requires j_lt_m { j < job.m }
    requires i_bound { i ≤ Path.most_segments }
    ensures { result ≡ Ready.look_on v second.now job i j }
{
    let u = segments::segment_from(second, j);
    let u_kept = kept_at(kept, j);
    let met = pline_seg_kept(v.v1, v.v2, v_kept, u.v1, u.v2, u_kept, job.epsilon);
    if let PlineSegIntr::NoIntersect = met {
        return row::Look::Nothing;
    }
    look_met(second, job, i, j, met)
}

// The same for a pair that a sieve has left: no quick test is asked.
pub fn look_left(
    v: Segment,
    v_kept: Kept,
    second: &[f64],
    kept: &[f64],
    job: Job,
    i: usize,
    j: usize,
) -> row::Look
    requires segment_ready { Ready.SegmentReady v second.now job }
    requires kept_of { Keeping.KeptOf second.now kept.now job.epsilon j }
    requires v_kept_value { v_kept ≡ Keeping.of_segment v job.epsilon }
    requires j_lt_m { j < job.m }
    requires i_bound { i ≤ Path.most_segments }
    ensures { result ≡ Ready.look_on v second.now job i j }
{
    let u = segments::segment_from(second, j);
    let u_kept = kept_at(kept, j);
    let met = pline_seg_left(v.v1, v.v2, v_kept, u.v1, u.v2, u_kept, job.epsilon);
    if let PlineSegIntr::NoIntersect = met {
        return row::Look::Nothing;
    }
    look_met(second, job, i, j, met)
}
