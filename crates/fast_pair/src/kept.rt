// What is kept of a segment, so that no pair of a listing computes it again.
ghost use Rattle.std.specs.Prelude.{◌≡◌};
ghost use Rattle.fast_pair.specs.Workings.Kept as workings;

use crossing::shortcuts::moderate;
use plane::fuzzy::fuzzy_eq_zero;
use plane::pline_seg::{ArcRadiusCenter, seg_arc_radius_and_center};
use plane::pline_vertex::PlineVertex;
use plane::vector2::Vector2;

// The numbers kept of a segment. Of an arc: its radius, the x and y of its centre, and its chord length. Of a line on the
// straight line a * x + b * y + c = 0: a, which is its slope, or 1 if it is vertical; then a number that is not below the root of
// a * a + b * b, or 2^101 if there is no sound guess or the segment is a point; and 0 twice. The bulge of the segment says which
// of the two it is.
#[derive(Clone, Copy)]
pub struct Kept {
    pub radius_or_slope: f64,
    pub center_x_or_root: f64,
    pub center_y_or_zero: f64,
    pub chord_or_zero: f64,
}

// The second number of a line if there is no sound guess of its root, or the segment is a point: 2^101, too large for the quick
// test, which then says no.
const NO_GUESS: f64 = 2535301200456458802993406410752.0;

const HALF: f64 = 0.5;

// A little more than a half.
const HALF_MORE: f64 = 513.0 / 1024.0;

// A number that is most often a little above the root of q: two steps of Newton's method from a first guess g that is not far
// off, and a thousandth more. No answer depends on how good it is.
fn guess(g: f64, q: f64) -> f64
    ensures { result ≡ workings.guess g q }
{
    let w = (g + q / g) * HALF;
    (w + q / w) * HALF_MORE
}

// What is kept of a line with this a and b. `point` says that the segment is a point, for which no guess is kept.
fn of_slant(a: f64, b: f64, point: bool) -> Kept
    ensures { result ≡ workings.of_slant a b point }
{
    let q = a * a + b * b;
    let w = guess(floats::abs(a) + floats::abs(b), q);
    if point {
        return Kept {
            radius_or_slope: a,
            center_x_or_root: NO_GUESS,
            center_y_or_zero: 0.0,
            chord_or_zero: 0.0,
        };
    }
    if (moderate(q) & moderate(w)) & (q < w * w) {
        return Kept {
            radius_or_slope: a,
            center_x_or_root: w,
            center_y_or_zero: 0.0,
            chord_or_zero: 0.0,
        };
    }
    Kept {
        radius_or_slope: a,
        center_x_or_root: NO_GUESS,
        center_y_or_zero: 0.0,
        chord_or_zero: 0.0,
    }
}

// What is kept of a line segment.
fn of_line(p0: Vector2, p1: Vector2, eps: f64) -> Kept
    ensures { result ≡ workings.of_line p0 p1 eps }
{
    let dx = p1.x - p0.x;
    let dy = p1.y - p0.y;
    let point = p0.fuzzy_eq_eps(p1, eps);
    if fuzzy_eq_zero(dx) {
        return of_slant(1.0, 0.0, point);
    }
    of_slant(dy / dx, -1.0, point)
}

// What is kept of an arc.
fn of_arc(v1: PlineVertex, v2: PlineVertex) -> Kept
    ensures { result ≡ workings.of_arc v1 v2 }
{
    let arc = seg_arc_radius_and_center(v1, v2);
    // the radius has the same root: the compiler takes it once
    let chord = v2.pos().sub(v1.pos()).length();
    Kept {
        radius_or_slope: arc.radius,
        center_x_or_root: arc.center.x,
        center_y_or_zero: arc.center.y,
        chord_or_zero: chord,
    }
}

// What is kept of the segment from v1 to v2.
pub fn kept_of(v1: PlineVertex, v2: PlineVertex, eps: f64) -> Kept
    ensures { result ≡ workings.kept_of v1 v2 eps }
{
    if v1.bulge_is_zero() {
        return of_line(v1.pos(), v2.pos(), eps);
    }
    of_arc(v1, v2)
}

// The circle of an arc, from what is kept of it.
pub fn circle_of(kept: Kept) -> ArcRadiusCenter
    ensures { result ≡ workings.circle_of kept }
{
    ArcRadiusCenter {
        radius: kept.radius_or_slope,
        center: Vector2::new(kept.center_x_or_root, kept.center_y_or_zero),
    }
}
