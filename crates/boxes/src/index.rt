// The index of a path in a slice of floats, four a box: the boxes of its segments, then those of its groups. Box k of a slice has
// the floats from 4 k on.
ghost use Rattle.std.specs.Prelude.{◌≡◌, ◌≤◌, ◌<◌, ◌+◌, ◌*◌, min, length};
ghost use Rattle.std.proofs.lemmas.List.Edits.{sets};
ghost use Rattle.paths.specs.Path;
ghost use Rattle.boxes.specs.Groups as groups_of;
ghost use Rattle.boxes.specs.Index as index_of;
ghost use Rattle.boxes.specs.Workings.Stored;

use super::bounds::{Box, box_of, join};
use paths::segments;

// how many floats a box has
pub const FLOATS: usize = 4;

// how many segments a group has
pub const GROUP: usize = 16;

// How many groups n segments make.
pub fn group_count(n: usize) -> usize
    requires { n ≤ Path.most_segments }
    ensures { result ≡ groups_of.group_count n }
{
    (n + (GROUP - 1)) / GROUP
}

// How many floats the index of n segments needs.
pub fn floats_needed(n: usize) -> usize
    requires { n ≤ Path.most_segments }
    ensures { result ≡ index_of.floats_needed n }
{
    FLOATS * (n + group_count(n))
}

// Box k.
pub fn box_at(boxes: &[f64], k: usize) -> Box
    requires { (k + 1) * index_of.floats_a_box ≤ length boxes.now }
    ensures { result ≡ Stored.box_at boxes.now k }
{
    let at = k * FLOATS;
    Box {
        least_x: boxes[at],
        least_y: boxes[at + 1],
        greatest_x: boxes[at + 2],
        greatest_y: boxes[at + 3],
    }
}

// Stores a box as box k.
pub fn put_box(boxes: &mut [f64], k: usize, b: Box)
    requires { (k + 1) * index_of.floats_a_box ≤ length boxes.old }
    ensures { boxes.new ≡ sets boxes.old (k * index_of.floats_a_box) (index_of.floats_of b) }
{
    let at = k * FLOATS;
    boxes[at] = b.least_x;
    boxes[at + 1] = b.least_y;
    boxes[at + 2] = b.greatest_x;
    boxes[at + 3] = b.greatest_y;
}

// Where group g ends: after its last segment, or at `limit` if that comes first.
pub fn group_end(g: usize, limit: usize) -> usize
    requires { g ≤ Path.most_segments }
    ensures { result ≡ min ((g + 1) * groups_of.group_size) limit }
{
    ((g + 1) * GROUP).min(limit)
}

// The box of group g, if the boxes of n segments stand from box `from` on.
fn group_box(boxes: &[f64], from: usize, n: usize, g: usize) -> Box
    requires n_bound { (n ≤ Path.most_segments) × (g < groups_of.group_count n) }
    requires boxes_in_bounds { (from + n) * index_of.floats_a_box ≤ length boxes.now }
    ensures { result ≡ groups_of.group_box (Stored.boxes_on boxes.now from) n g }
{
    let start = g * GROUP;
    let end = group_end(g, n);
    let mut b = box_at(boxes, from + start);
    for i in start + 1..end {
        b = join(b, box_at(boxes, from + i));
    }
    b
}

// Stores the boxes of the path's first n segments from box `from` on.
fn store_segments(path: &[f64], n: usize, epsilon: f64, from: usize, boxes: &mut [f64])
    requires n_bound { (n ≤ Path.vertex_count path.now) × (n ≤ Path.most_segments) }
    requires room { (from + n) * index_of.floats_a_box ≤ length boxes.old }
    ensures { boxes.new
        ≡ sets boxes.old (from * index_of.floats_a_box)
        (index_of.floats_of_boxes (index_of.boxes_from (groups_of.segment_box path.now epsilon) 0 n)) }
{
    for i in 0..n {
        let s = segments::segment_from(path, i);
        put_box(boxes, from + i, box_of(s.v1, s.v2, epsilon));
    }
}

// Stores the boxes of the groups of n segments, whose boxes stand from box `from` on, behind these.
pub fn store_groups(n: usize, from: usize, boxes: &mut [f64])
    requires n_bound { n ≤ Path.most_segments }
    requires n_in_bounds { from * index_of.floats_a_box + index_of.floats_needed n ≤ length boxes.old }
    ensures { boxes.new ≡ Stored.with_groups boxes.old from n }
{
    let groups = group_count(n);
    let behind = from + n;
    for g in 0..groups {
        let b = group_box(boxes, from, n, g);
        put_box(boxes, behind + g, b);
    }
}

// Stores the index of the path's first n segments from box `from` on.
pub fn store(path: &[f64], n: usize, epsilon: f64, from: usize, boxes: &mut [f64])
    requires n_bound { (n ≤ Path.vertex_count path.now) × (n ≤ Path.most_segments) }
    requires n_in_bounds { from * index_of.floats_a_box + index_of.floats_needed n ≤ length boxes.old }
    ensures { boxes.new
        ≡ sets boxes.old (from * index_of.floats_a_box) (index_of.index path.now epsilon n) }
{
    store_segments(path, n, epsilon, from, boxes);
    store_groups(n, from, boxes);
}

// Copies `count` boxes of one slice, from box `from` on, to another, from box `at` on.
pub fn copy(stored: &[f64], from: usize, count: usize, at: usize, boxes: &mut [f64])
    requires stored_in_bounds { (from + count) * index_of.floats_a_box ≤ length stored.now }
    requires room { (at + count) * index_of.floats_a_box ≤ length boxes.old }
    ensures { boxes.new
        ≡ sets boxes.old (at * index_of.floats_a_box)
        (index_of.floats_of_boxes (index_of.boxes_from (Stored.boxes_on stored.now from) 0 count)) }
{
    for i in 0..count {
        put_box(boxes, at + i, box_at(stored, from + i));
    }
}
