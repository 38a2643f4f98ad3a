// Which boxes of an index meet a given one, in order: groups that do not meet it are passed whole. The index of n segments stands
// in the slice from box `from` on.
ghost use Rattle.std.specs.Prelude.{◌≡◌, ◌≤◌, ◌+◌, ◌*◌, length};
ghost use Rattle.paths.specs.Path;
ghost use Rattle.boxes.specs.Index as index_of;
ghost use Rattle.boxes.specs.Workings.Next as next_of;

use super::bounds::{Box, meet};
use super::index;
use super::index::box_at;

// The first segment from j on and before `end` whose box meets b; `end` if there is none. It looks at each.
fn next_of_each(boxes: &[f64], from: usize, b: Box, j: usize, end: usize) -> usize
    requires { (j ≤ end) × ((from + end) * index_of.floats_a_box ≤ length boxes.now) }
    ensures { result ≡ next_of.first (next_of.meets boxes.now from b) j end }
{
    for k in j..end {
        if meet(b, box_at(boxes, from + k)) {
            return k;
        }
    }
    end
}

// The same, with a group passed whole if its box does not meet b.
pub fn next_meeting(boxes: &[f64], from: usize, n: usize, b: Box, j: usize, end: usize) -> usize
    requires grouped { next_of.Grouped boxes.now from n }
    requires j_le_end { (j ≤ end) × (end ≤ n) × (n ≤ Path.most_segments) }
    ensures { result ≡ next_of.first (next_of.meets boxes.now from b) j end }
{
    let groups = from + n;
    let mut k = j;
    while k < end {
        let g = k / index::GROUP;
        let stop = index::group_end(g, end);
        if meet(b, box_at(boxes, groups + g)) {
            let found = next_of_each(boxes, from, b, k, stop);
            if found < stop {
                return found;
            }
        }
        k = stop;
    }
    end
}

// The place k, or the first segment of group g if that comes later.
fn in_group(k: usize, g: usize) -> usize
    requires { g ≤ Path.most_segments }
    ensures { result ≡ next_of.in_group k g }
{
    k.max(g * index::GROUP)
}

// The same as `next_meeting`, if the boxes of groups of groups stand behind those of the groups: the next group that meets b is
// found through these.
pub fn next_by_groups(boxes: &[f64], from: usize, n: usize, b: Box, j: usize, end: usize) -> usize
    requires grouped_twice { next_of.GroupedTwice boxes.now from n }
    requires j_le_end { (j ≤ end) × (end ≤ n) × (n ≤ Path.most_segments) }
    ensures { result ≡ next_of.first (next_of.meets boxes.now from b) j end }
{
    let groups = index::group_count(n);
    let mut k = j;
    while k < end {
        let g = next_meeting(boxes, from + n, groups, b, k / index::GROUP, groups);
        let at = in_group(k, g);
        if end <= at {
            return end;
        }
        let stop = index::group_end(g, end);
        let found = next_of_each(boxes, from, b, at, stop);
        if found < stop {
            return found;
        }
        k = stop;
    }
    end
}

// The first segment from j on and before `end` whose box does not meet b; `end` if there is none.
pub fn next_apart(boxes: &[f64], from: usize, b: Box, j: usize, end: usize) -> usize
    requires { (j ≤ end) × ((from + end) * index_of.floats_a_box ≤ length boxes.now) }
    ensures { result ≡ next_of.first (next_of.apart boxes.now from b) j end }
{
    for k in j..end {
        if !meet(b, box_at(boxes, from + k)) {
            return k;
        }
    }
    end
}
