// What a listing keeps of the second path's segments while it walks the pairs: a few numbers of each segment, one segment after
// the other, so that no pair computes them again. The traces of groups stand behind them (`tracks`). A boxed listing keeps the
// path's index of boxes behind these, and the boxes of groups of groups behind that.
ghost use Rattle.std.specs.Prelude.{◌≡◌, ◌≤◌, ◌<◌, ◌+◌, ◌*◌, length};
ghost use Rattle.std.proofs.lemmas.List.Edits.{sets};
ghost use Rattle.paths.specs.Path;
ghost use Rattle.boxes.specs.Groups as groups_of;
ghost use Rattle.boxes.specs.Index as index_of;
ghost use Rattle.listing_pairs.specs.Workings.Keeping;
ghost use Rattle.listing_pairs.specs.Workings.Reached;

use super::order::Job;
use super::sizes::{greater, less, lesser};
use super::{order, tracks};
use boxes::bounds::box_with;
use boxes::index;
use fast_pair::kept::{Kept, kept_of};
use paths::segments;

// how many numbers are kept of a segment
pub const NUMBERS: usize = 4;

// How many segments' places the traces of groups take. So the index of a path of n segments stands from box FRONT + n on: no place
// depends on how many segments there may be, and the loop's own, j * NUMBERS, depends on nothing.
pub const FRONT: usize = tracks::GROUPS / NUMBERS;

// Stores what is kept of the path's segments from `from` up to, but not including, `to`.
pub fn keep(path: &[f64], from: usize, to: usize, epsilon: f64, kept: &mut [f64])
    requires to_bound { to ≤ Path.vertex_count path.now }
    requires to_bound_2 { (to ≤ Path.most_segments) × (Keeping.floats_before to ≤ length kept.old) }
    ensures { kept.new ≡ Keeping.keep path.now from to epsilon kept.old }
{
    for j in from..to {
        let s = segments::segment_from(path, j);
        let k = kept_of(s.v1, s.v2, epsilon);
        let at = j * NUMBERS;
        kept[at] = k.radius_or_slope;
        kept[at + 1] = k.center_x_or_root;
        kept[at + 2] = k.center_y_or_zero;
        kept[at + 3] = k.chord_or_zero;
    }
}

// Stores the boxes of the path's first n segments behind the numbers that are kept, with the chord lengths that are among these.
fn keep_segment_boxes(path: &[f64], n: usize, epsilon: f64, kept: &mut [f64])
    requires n_bound { (n ≤ Path.vertex_count path.now) × (n ≤ Path.most_segments) }
    requires all_kept { Keeping.AllKept path.now kept.old epsilon n }
    requires floats_abox_in_bounds { (Keeping.boxes_kept n + n) * index_of.floats_a_box ≤ length kept.old }
    ensures { kept.new
        ≡ sets kept.old (Keeping.boxes_kept n * index_of.floats_a_box)
        (index_of.floats_of_boxes (index_of.boxes_from (groups_of.segment_box path.now epsilon) 0 n)) }
{
    for j in 0..n {
        let s = segments::segment_from(path, j);
        let k = kept_at(kept, j);
        let b = box_with(s.v1, s.v2, k.chord_or_zero, epsilon);
        index::put_box(kept, FRONT + n + j, b);
    }
}

// Stores the index of the path's first n segments behind the numbers that are kept of them, and the boxes of groups of groups
// behind the index.
pub fn keep_boxes(path: &[f64], n: usize, epsilon: f64, kept: &mut [f64])
    requires n_bound { (n ≤ Path.vertex_count path.now) × (n ≤ Path.most_segments) }
    requires all_kept { Keeping.AllKept path.now kept.old epsilon n }
    requires n_in_bounds { Keeping.floats_boxed n ≤ length kept.old }
    ensures { kept.new ≡ Keeping.keep_boxes path.now n epsilon kept.old }
{
    keep_segment_boxes(path, n, epsilon, kept);
    let from = FRONT + n;
    index::store_groups(n, from, kept);
    let groups = index::group_count(n);
    index::store_groups(groups, from + n, kept);
}

// Stores what is kept of those segments of the second path that the first `budget` pairs from (i, j) on can reach. If i has
// enough pairs or is the last, these are as many as the budget, or all that i has. Else they are all that i has, and of the pairs
// that follow, which start at `low`, as many as the rest of the budget, or all of them. No segment is stored twice.
pub fn keep_reached(second: &[f64], job: Job, i: usize, j: usize, budget: usize, kept: &mut [f64])
    requires m_bound { job.m ≤ Path.vertex_count second.now }
    requires n_bound { (job.n ≤ Path.most_segments) × (job.m ≤ Path.most_segments) }
    requires m_in_bounds { Keeping.floats_before job.m ≤ length kept.old }
    ensures { kept.new ≡ Reached.keep_reached second.now job i j budget kept.old }
{
    if job.n <= i {
        return;
    }
    let end = job.m;
    let spent = less(end, j);
    if (budget <= spent) | (job.n <= i + 1) {
        keep(second, j, end - less(spent, budget), job.epsilon, kept);
        return;
    }
    let low = order::from(job, i + 1);
    let high = job.m - less(less(job.m, low), budget - spent);
    keep(second, lesser(j, low), high, job.epsilon, kept);
    keep(second, greater(j, high), end, job.epsilon, kept);
}

// What is kept of segment j.
pub(crate) fn kept_at(kept: &[f64], j: usize) -> Kept
    requires { Keeping.floats_before (j + 1) ≤ length kept.now }
    ensures { result ≡ Keeping.kept_at kept.now j }
{
    let at = j * NUMBERS;
    Kept {
        radius_or_slope: kept[at],
        center_x_or_root: kept[at + 1],
        center_y_or_zero: kept[at + 2],
        chord_or_zero: kept[at + 3],
    }
}
