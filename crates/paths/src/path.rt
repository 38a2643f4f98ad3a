// The numbers of a lent path: x, y, bulge and trace of one vertex after the other. Bulge and trace belong to the segment that
// starts at the vertex. specs/Path.antt has the same.
ghost use Rattle.std.specs.Prelude.{◌≡◌, ◌<◌};
ghost use Rattle.paths.specs.Path;

use plane::pline_vertex::PlineVertex;

// how many numbers a vertex has
pub const NUMBERS: usize = 4;

// the most vertices that a path may have
pub const VERTICES: usize = 4096;

// the most segments that a listing walks: twice the vertices, since request 11 cuts an arc in two at most
pub const SEGMENTS: usize = 2 * VERTICES;

// A segment of a path: it runs from v1 to v2, with the bulge of v1 and the trace that stands with v1.
#[derive(Clone, Copy)]
pub struct Segment {
    pub v1: PlineVertex,
    pub v2: PlineVertex,
    pub trace: f64,
}

// How many whole vertices the slice has.
pub fn vertex_count(path: &[f64]) -> usize
    ensures { result ≡ Path.vertex_count path.now }
{
    path.len() / NUMBERS
}

// Vertex i without its trace. The path must have it.
pub fn vertex(path: &[f64], i: usize) -> PlineVertex
    requires { i < Path.vertex_count path.now }
    ensures { result ≡ Path.vertex path.now i }
{
    let start = i * NUMBERS;
    PlineVertex::new(path[start], path[start + 1], path[start + 2])
}

// The trace of vertex i. The path must have it.
pub fn trace(path: &[f64], i: usize) -> f64
    requires { i < Path.vertex_count path.now }
    ensures { result ≡ Path.trace path.now i }
{
    path[i * NUMBERS + 3]
}
