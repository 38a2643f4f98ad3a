// Which groups of the second path's segments are of one trace: a listing keeps that trace, or 0, of each group, so that its loop
// passes over a group at a time. These traces stand behind what it keeps of the n segments.
ghost use Rattle.std.specs.Prelude.{◌≡◌, ◌≤◌, ◌<◌, ◌+◌, ◌*◌, length};
ghost use Rattle.paths.specs.Path;
ghost use Rattle.boxes.specs.Groups as groups_of;
ghost use Rattle.boxes.specs.Workings.Next;
ghost use Rattle.listing_pairs.specs.Workings.Tracks as tracks;

use super::keeping;
use boxes::index;
use paths::path;

// the most groups of segments that a listing walks
pub const GROUPS: usize = path::SEGMENTS / index::GROUP;

// The first vertex from j on and before `end` that has another trace; `end` if there is none.
pub fn next_other(path: &[f64], trace: f64, j: usize, end: usize) -> usize
    requires { (j ≤ end) × (end ≤ Path.vertex_count path.now) }
    ensures { result ≡ Next.first (tracks.other path.now trace) j end }
{
    for k in j..end {
        if !(trace == path::trace(path, k)) {
            return k;
        }
    }
    end
}

// The trace of the segments of group g of n, if it is above 0 and all 16 have it, else 0. A group of fewer has 0.
fn group_trace(path: &[f64], n: usize, g: usize) -> f64
    requires n_bound { n ≤ Path.vertex_count path.now }
    requires g_lt_most_groups { g < tracks.most_groups }
    ensures { result ≡ tracks.group_trace path.now n g }
{
    let from = g * index::GROUP;
    let to = from + index::GROUP;
    if n < to {
        return 0.0;
    }
    let trace = path::trace(path, from);
    if !(trace > 0.0) {
        return 0.0;
    }
    if next_other(path, trace, from, to) < to {
        return 0.0;
    }
    trace
}

// Stores the traces of the groups of the path's first n segments.
pub fn keep_traces(path: &[f64], n: usize, kept: &mut [f64])
    requires n_bound { (n ≤ Path.vertex_count path.now) × (n ≤ Path.most_segments) }
    requires most_groups_in_bounds { tracks.traces_kept n + tracks.most_groups ≤ length kept.old }
    ensures { kept.new ≡ tracks.keep_traces path.now n (groups_of.group_count n) kept.old }
{
    let from = n * keeping::NUMBERS;
    let count = index::group_count(n);
    for g in 0..count {
        kept[from + g] = group_trace(path, n, g);
    }
}

// The vertex after the group of vertex k, if all of the group have this trace; else k. There are n segments.
pub fn past_group(kept: &[f64], n: usize, trace: f64, k: usize) -> usize
    requires n_bound { (n ≤ Path.most_segments) × (k < n) }
    requires most_groups_in_bounds { tracks.traces_kept n + tracks.most_groups ≤ length kept.now }
    ensures { result ≡ tracks.past_group kept.now n trace k }
{
    let g = k / index::GROUP;
    if trace == kept[n * keeping::NUMBERS + g] {
        return (g + 1) * index::GROUP;
    }
    k
}

// The vertex after the group of vertex k, if all of the group have one trace above 0, and not this one; else k. There are n
// segments.
pub fn past_others(kept: &[f64], n: usize, trace: f64, k: usize) -> usize
    requires n_bound { (n ≤ Path.most_segments) × (k < n) }
    requires most_groups_in_bounds { tracks.traces_kept n + tracks.most_groups ≤ length kept.now }
    ensures { result ≡ tracks.past_others kept.now n trace k }
{
    let g = k / index::GROUP;
    let other = kept[n * keeping::NUMBERS + g];
    if (other > 0.0) & !(trace == other) {
        return (g + 1) * index::GROUP;
    }
    k
}
