// The box of a segment, and of two boxes together.
ghost use Rattle.std.specs.Prelude.{◌≡◌};
ghost use Rattle.boxes.specs.Box as BoxDefs;
ghost use Rattle.boxes.specs.Workings.Chord;

use floats::{max, min};
use plane::pline_vertex::PlineVertex;

// A box: the least and the greatest x and y.
#[derive(Clone, Copy)]
pub struct Box {
    pub least_x: f64,
    pub least_y: f64,
    pub greatest_x: f64,
    pub greatest_y: f64,
}

// The chord length of the segment from v1 to v2 if it is an arc. A line needs none and gets 0.
pub fn chord_if_arc(v1: PlineVertex, v2: PlineVertex) -> f64
    ensures { result ≡ Chord.chord_if_arc v1 v2 }
{
    if v1.bulge_is_zero() {
        return 0.0;
    }
    v2.pos().sub(v1.pos()).length()
}

// How far the box of a segment that starts at v1 is moved outward: epsilon for a line, for an arc its chord length more.
pub fn margin(v1: PlineVertex, chord: f64, epsilon: f64) -> f64
    ensures { result ≡ Chord.margin_by v1 chord epsilon }
{
    if v1.bulge_is_zero() {
        return epsilon;
    }
    chord + epsilon
}

// The box of the segment from v1 to v2, of which the chord length is known if it is an arc.
pub fn box_with(v1: PlineVertex, v2: PlineVertex, chord: f64, epsilon: f64) -> Box
    requires { Chord.Known v1 v2 chord }
    ensures { result ≡ BoxDefs.box_of v1 v2 epsilon }
{
    let m = margin(v1, chord, epsilon);
    Box {
        least_x: min(v1.x, v2.x) - m,
        least_y: min(v1.y, v2.y) - m,
        greatest_x: max(v1.x, v2.x) + m,
        greatest_y: max(v1.y, v2.y) + m,
    }
}

// The box of the segment from v1 to v2.
pub fn box_of(v1: PlineVertex, v2: PlineVertex, epsilon: f64) -> Box
    ensures { result ≡ BoxDefs.box_of v1 v2 epsilon }
{
    let chord = chord_if_arc(v1, v2);
    box_with(v1, v2, chord, epsilon)
}

// The box that holds the least and the greatest numbers of both.
pub fn join(a: Box, b: Box) -> Box
    ensures { result ≡ BoxDefs.join a b }
{
    Box {
        least_x: min(a.least_x, b.least_x),
        least_y: min(a.least_y, b.least_y),
        greatest_x: max(a.greatest_x, b.greatest_x),
        greatest_y: max(a.greatest_y, b.greatest_y),
    }
}

// Whether two boxes meet. Boxes that only touch do.
pub fn meet(a: Box, b: Box) -> bool
    ensures { result ≡ BoxDefs.meet a b }
{
    let in_x = (a.least_x <= b.greatest_x) & (b.least_x <= a.greatest_x);
    let in_y = (a.least_y <= b.greatest_y) & (b.least_y <= a.greatest_y);
    in_x & in_y
}
