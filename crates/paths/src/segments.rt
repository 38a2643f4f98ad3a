// The segments of a lent path. A slice that `shape` refuses has none.
ghost use Rattle.std.specs.Prelude.{◌≡◌, ◌<◌};
ghost use Rattle.paths.specs.Path;
ghost use Rattle.paths.specs.Segments;

use super::path::Segment;
use super::{path, shape};

// How many segments the path has: of n vertices, n - 1 if it is open and n if it is closed; none if n is below 2.
pub fn segment_count(path: &[f64], closed: bool) -> usize
    ensures { result ≡ Segments.segment_count path.now closed }
{
    if shape::refused(path) {
        return 0;
    }
    let n = path::vertex_count(path);
    if n < 2 {
        return 0;
    }
    if closed {
        return n;
    }
    n - 1
}

// The index of the vertex after vertex i. After the last one it is 0.
pub fn after(path: &[f64], i: usize) -> usize
    requires { i < Path.vertex_count path.now }
    ensures { result ≡ Segments.after path.now i }
{
    if i + 1 < path::vertex_count(path) {
        return i + 1;
    }
    0
}

// The segment that starts at vertex i. The path must have that vertex.
pub fn segment_from(path: &[f64], i: usize) -> Segment
    requires { i < Path.vertex_count path.now }
    ensures { result ≡ Segments.segment_from path.now i }
{
    let v1 = path::vertex(path, i);
    let v2 = path::vertex(path, after(path, i));
    let trace = path::trace(path, i);
    Segment { v1, v2, trace }
}

// Segment i of the path, or none if i is no segment's index. The last segment of a closed path runs back to vertex 0.
pub fn segment(path: &[f64], closed: bool, i: usize) -> Option<Segment>
    ensures { result ≡ Segments.segment path.now closed i }
{
    if i < segment_count(path, closed) {
        return Some(segment_from(path, i));
    }
    None
}
