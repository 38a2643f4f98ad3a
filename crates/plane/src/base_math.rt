// Two numbers in order, squared distance, and places along a segment.
ghost use Rattle.std.specs.Prelude.{◌≡◌};
ghost use Rattle.plane.specs.BaseMath;

use super::vector2::Vector2;

// Two numbers, in order.
#[derive(Clone, Copy)]
pub struct MinMax {
    pub min: f64,
    pub max: f64,
}

// The two numbers in order. Equal numbers come swapped (zeros of either sign are equal), and so do two of which one is a NaN.
pub fn min_max(v1: f64, v2: f64) -> MinMax
    ensures { result ≡ BaseMath.min_max v1 v2 }
{
    if v1 < v2 {
        return MinMax { min: v1, max: v2 };
    }
    MinMax { min: v2, max: v1 }
}

// The square of the distance between two points.
pub fn dist_squared(p0: Vector2, p1: Vector2) -> f64
    ensures { result ≡ BaseMath.dist_squared p0 p1 }
{
    let d = p0.sub(p1);
    d.dot(d)
}

// The point at t along the segment from p0 to p1: p0 at t = 0; p1, but for rounding, at t = 1.
pub fn point_from_parametric(p0: Vector2, p1: Vector2, t: f64) -> Vector2
    ensures { result ≡ BaseMath.point_from_parametric p0 p1 t }
{
    p0.add(p1.sub(p0).scale(t))
}

// The t at which the segment from p0 to p1 passes a point of its straight line. `epsilon` has no effect: the Rust has this
// parameter, and there only an assertion of a debug build reads it.
pub fn parametric_from_point(p0: Vector2, p1: Vector2, point: Vector2, epsilon: f64) -> f64
    ensures { result ≡ BaseMath.parametric_from_point p0 p1 point epsilon }
{
    let x_diff = p1.x - p0.x;
    let y_diff = p1.y - p0.y;
    // It uses the coordinate that changes more: the other may not change at all, and a small divisor adds to the error.
    if floats::abs(x_diff) < floats::abs(y_diff) {
        return (point.y - p0.y) / y_diff;
    }
    (point.x - p0.x) / x_diff
}
