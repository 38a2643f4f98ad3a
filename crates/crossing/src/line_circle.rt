// A line segment and a circle, for any numbers: line_circle_intersect.rs. The local names are the Rust's.
ghost use Rattle.std.specs.Prelude.{◌≡◌};
ghost use Rattle.crossing.specs.LineCircle;
ghost use Rattle.crossing.specs.Workings.FarLine;
ghost use Rattle.crossing.specs.Workings.ThroughLine;

use super::line_circle_intr::LineCircleIntr;
use super::shortcuts::moderate;
use plane::base_math::{MinMax, min_max, parametric_from_point};
use plane::fuzzy::{fuzzy_eq_eps, fuzzy_eq_zero};
use plane::vector2::Vector2;

// A guess of a root that is up to 6 % above it, times this, is below the root.
const LOWER: f64 = 15.0 / 16.0;

// Only a line nearer to the centre than this part of the radius can be found to go through the circle.
const INSIDE: f64 = 127.0 / 128.0;

// The straight line a * x + b * y + c = 0.
#[derive(Clone, Copy)]
pub struct Line {
    pub a: f64,
    pub b: f64,
    pub c: f64,
}

// A segment that is a point: it meets the circle if its distance from the centre is near the radius.
fn point_circle(
    p0: Vector2,
    p1: Vector2,
    radius: f64,
    circle_center: Vector2,
    eps: f64,
) -> LineCircleIntr
    ensures { result ≡ LineCircle.point_circle p0 p1 radius circle_center eps }
{
    // The middle of the two ends is taken as the point.
    let xh = (p0.x + p1.x) / 2.0 - circle_center.x;
    let yk = (p0.y + p1.y) / 2.0 - circle_center.y;
    if fuzzy_eq_eps(floats::sqrt(xh * xh + yk * yk), radius, eps) {
        return LineCircleIntr::TangentIntersect { t0: 0.0 };
    }
    LineCircleIntr::NoIntersect
}

// The straight line through two points, whose coordinates are relative to the circle's centre; dx and dy lead from the first to
// the second. As in the Rust, it counts as vertical if dx is near zero by the default epsilon, not by the given one. This test
// only sees to it that the slope's divisor is not too small; the given epsilon would turn slanted ones upright and lose digits.
// A vertical one stands at the mean of the two x. No case of the answer is chosen here.
fn line_through(dx: f64, dy: f64, p0_shifted: Vector2, p1_shifted: Vector2) -> Line
    ensures { result ≡ LineCircle.line_through dx dy p0_shifted p1_shifted }
{
    if fuzzy_eq_zero(dx) {
        let x_pos = (p1_shifted.x + p0_shifted.x) / 2.0;
        return Line {
            a: 1.0,
            b: 0.0,
            c: -x_pos,
        };
    }
    let m = dy / dx;
    Line {
        a: m,
        b: -1.0,
        c: p1_shifted.y - m * p1_shifted.x,
    }
}

// The two points of the circle on the line, mult away from the point (x0, y0) that is nearest to the centre, as parameters.
fn two_points(
    p0: Vector2,
    p1: Vector2,
    line: Line,
    x0: f64,
    y0: f64,
    mult: f64,
    eps: f64,
) -> LineCircleIntr
    ensures { result ≡ LineCircle.two_points p0 p1 line x0 y0 mult eps }
{
    let point1 = Vector2::new(x0 + line.b * mult, y0 - line.a * mult);
    let point2 = Vector2::new(x0 - line.b * mult, y0 + line.a * mult);
    // The positions of the two points decide whether they count as one. The line's distance from the centre would not do: on a
    // large circle it would join points whose distance is much above epsilon.
    if point1.fuzzy_eq_eps(point2, eps) {
        let t = parametric_from_point(p0, p1, Vector2::new(x0, y0), eps);
        return LineCircleIntr::TangentIntersect { t0: t };
    }
    let sol1 = parametric_from_point(p0, p1, point1, eps);
    let sol2 = parametric_from_point(p0, p1, point2, eps);
    let ts: MinMax = min_max(sol1, sol2);
    LineCircleIntr::TwoIntersects {
        t0: ts.min,
        t1: ts.max,
    }
}

// A quick test whether a line is far from a circle: a yes is proved to mean that |c| / sqrt(q) exceeds s. w is a guess of sqrt(q)
// that must not be below it, and z a number above s. Better guesses only make a yes more frequent.
fn far(c: f64, q: f64, w: f64, z: f64, s: f64) -> bool
    ensures { FarLine.Far result c q s }
{
    let k = floats::abs(c);
    ((moderate(k) & moderate(q)) & (moderate(w) & moderate(z)))
        & (((q < w * w) & (z * w < k)) & (s < z))
}

// A quick test whether a line clearly goes through a circle: a yes is proved to mean that |c| / sqrt(q) is below the radius, and
// not above s. w is a guess of sqrt(q) that must not be above it, and z a number below the radius and not above s. Better guesses
// only make a yes more frequent.
fn through(c: f64, q: f64, w: f64, z: f64, radius: f64, s: f64) -> bool
    ensures { ThroughLine.Through result c q radius s }
{
    let k = floats::abs(c);
    (moderate(q) & (moderate(w) & moderate(z)))
        & (((w * w < q) & (k < z * w)) & ((z < radius) & (z <= s)))
}

// How a line and a circle with the centre (h, k) meet if the line's distance from the centre is below the radius: at two points,
// which count as one if they are near each other. It takes no root for that distance.
fn line_crosses(
    p0: Vector2,
    p1: Vector2,
    line: Line,
    radius: f64,
    h: f64,
    k: f64,
    eps: f64,
) -> LineCircleIntr
    ensures { result ≡ ThroughLine.line_crosses p0 p1 line radius h k eps }
{
    let a2 = line.a * line.a;
    let b2 = line.b * line.b;
    let c2 = line.c * line.c;
    let r2 = radius * radius;
    let inv_a2_b2 = 1.0 / (a2 + b2);
    let x0 = -line.a * line.c * inv_a2_b2 + h;
    let y0 = -line.b * line.c * inv_a2_b2 + k;
    let d = r2 - c2 * inv_a2_b2;
    // abs, since rounding can make d slightly negative.
    let mult = floats::sqrt(floats::abs(d * inv_a2_b2));
    two_points(p0, p1, line, x0, y0, mult, eps)
}

// How a line and a circle with the centre (h, k) meet: the plain form, with the distance of the line from the centre.
fn line_meets_by_distance(
    p0: Vector2,
    p1: Vector2,
    line: Line,
    radius: f64,
    h: f64,
    k: f64,
    eps: f64,
) -> LineCircleIntr
    ensures { result ≡ LineCircle.line_meets p0 p1 line radius h k eps }
{
    let a2 = line.a * line.a;
    let b2 = line.b * line.b;
    let a2_b2 = a2 + b2;
    let shortest_dist = floats::abs(line.c) / floats::sqrt(a2_b2);
    if shortest_dist > radius + eps {
        return LineCircleIntr::NoIntersect;
    }
    if shortest_dist >= radius {
        let inv_a2_b2 = 1.0 / a2_b2;
        let x0 = -line.a * line.c * inv_a2_b2 + h;
        let y0 = -line.b * line.c * inv_a2_b2 + k;
        let t = parametric_from_point(p0, p1, Vector2::new(x0, y0), eps);
        return LineCircleIntr::TangentIntersect { t0: t };
    }
    line_crosses(p0, p1, line, radius, h, k, eps)
}

// How a line and a circle with the centre (h, k) meet. It takes no root for the line's distance if the line is far from the
// circle, or clearly goes through it.
fn line_meets(
    p0: Vector2,
    p1: Vector2,
    line: Line,
    radius: f64,
    h: f64,
    k: f64,
    eps: f64,
) -> LineCircleIntr
    ensures { result ≡ LineCircle.line_meets p0 p1 line radius h k eps }
{
    let q = line.a * line.a + line.b * line.b;
    let s = radius + eps;
    // One step of Newton's method from g = |a| + |b|, which is at least the root of q and at most sqrt(2) times the root. The
    // mean of g and q / g is at least the root, and at most some 6 % above it. The factors leave a margin for rounding.
    let g = floats::abs(line.a) + floats::abs(line.b);
    let w = (g + q / g) * (513.0 / 1024.0);
    if far(line.c, q, w, s * (129.0 / 128.0), s) {
        return LineCircleIntr::NoIntersect;
    }
    if through(line.c, q, w * LOWER, radius * INSIDE, radius, s) {
        return line_crosses(p0, p1, line, radius, h, k, eps);
    }
    line_meets_by_distance(p0, p1, line, radius, h, k, eps)
}

// How the segment p0 to p1 and a circle meet, for any numbers.
pub fn line_circle(
    p0: Vector2,
    p1: Vector2,
    radius: f64,
    circle_center: Vector2,
    epsilon: f64,
) -> LineCircleIntr
    ensures { result ≡ LineCircle.line_circle p0 p1 radius circle_center epsilon }
{
    let dx = p1.x - p0.x;
    let dy = p1.y - p0.y;
    if p0.fuzzy_eq_eps(p1, epsilon) {
        return point_circle(p0, p1, radius, circle_center, epsilon);
    }
    let p0_shifted = p0.sub(circle_center);
    let p1_shifted = p1.sub(circle_center);
    let line = line_through(dx, dy, p0_shifted, p1_shifted);
    line_meets(
        p0,
        p1,
        line,
        radius,
        circle_center.x,
        circle_center.y,
        epsilon,
    )
}
