// A line segment and an arc that do not meet: a quick test without a root.
ghost use Rattle.std.specs.Prelude.{◌≡◌};
ghost use Rattle.plane.specs.PlineSeg.{seg_arc_radius_and_center};
ghost use Rattle.plane.specs.Vector2 as vector2;
ghost use Rattle.spans.specs.Workings.LineArc as line_arc;

use super::line::points_miss;
use super::root::{holds_root, rough_root};
use super::span::Span;
use arcs::arc_geometry::ArcGeometry;
use crossing::shortcuts::moderate;
use plane::fuzzy::fuzzy_eq_zero;
use plane::pline_seg::ArcRadiusCenter;
use plane::pline_vertex::PlineVertex;
use plane::vector2::Vector2;
use ranges::range::usual;

// A guess of a root that is a thousandth above it, times this, is below the root.
const LOWER: f64 = 255.0 / 256.0;

// Only a line nearer to the centre than this part of the radius can be found to go through the circle.
const INSIDE: f64 = 255.0 / 256.0;

// A rough root times these is most often on the two sides of the root.
const BELOW: f64 = 123.0 / 128.0;

const ABOVE: f64 = 133.0 / 128.0;

// The point of a straight line a * x - y + c = 0 that is nearest to a circle's centre, and the square of how far the circle's two
// points on the line are from it, in units of (-1, -a).
#[derive(Clone, Copy)]
pub struct Foot {
    pub c: f64,
    pub q: f64,
    pub x0: f64,
    pub y0: f64,
    pub square: f64,
}

// The foot on the straight line through p1 with this slope.
fn foot_on(p1: Vector2, slope: f64, circle: ArcRadiusCenter) -> Foot
    ensures { result ≡ line_arc.foot_on p1 slope circle }
{
    let center = circle.center;
    let radius = circle.radius;
    let b = -1.0;
    let p1_shifted = p1.sub(center);
    let c = p1_shifted.y - slope * p1_shifted.x;
    let q = slope * slope + b * b;
    let inv_q = 1.0 / q;
    let x0 = -slope * c * inv_q + center.x;
    let y0 = -b * c * inv_q + center.y;
    let d = radius * radius - c * c * inv_q;
    let square = floats::abs(d * inv_q);
    Foot {
        c,
        q,
        x0,
        y0,
        square,
    }
}

// A quick test whether a line clearly goes through a circle, as in `crossing`.
fn goes_through(c: f64, q: f64, w: f64, z: f64, radius: f64, s: f64) -> bool
    ensures { result ≡ line_arc.goes_through c q w z radius s }
{
    let k = floats::abs(c);
    (moderate(q) & (moderate(w) & moderate(z)))
        & (((w * w < q) & (k < z * w)) & ((z < radius) & (z <= s)))
}

// Whether the line from p0 to p1 misses the arc, by a guess of how far the two points are from the foot. `root` is a guess of the
// root of foot.q.
fn misses_by(
    p0: Vector2,
    p1: Vector2,
    slope: f64,
    root: f64,
    foot: Foot,
    guess: f64,
    a1: PlineVertex,
    a2: PlineVertex,
    circle: ArcRadiusCenter,
    eps: f64,
) -> bool
    ensures { result ≡ line_arc.misses_by p0 p1 slope root foot guess a1 a2 circle eps }
{
    let radius = circle.radius;
    if fuzzy_eq_zero(p1.x - p0.x) | p0.fuzzy_eq_eps(p1, eps) {
        return false;
    }
    if !goes_through(
        foot.c,
        foot.q,
        root * LOWER,
        radius * INSIDE,
        radius,
        radius + eps,
    ) {
        return false;
    }
    if !usual(p1.sub(p0).length_squared(), eps) {
        return false;
    }
    let mult = Span {
        least: guess * BELOW,
        most: guess * ABOVE,
    };
    let square = Span {
        least: foot.square,
        most: foot.square,
    };
    if !holds_root(square, mult) {
        return false;
    }
    let arc = ArcGeometry::of_segment(a1, a2, circle, eps);
    points_miss(p0, p1, slope, -1.0, foot.x0, foot.y0, mult, arc, eps)
}

// A quick test whether the line from p0 to p1 and the arc from a1 to a2 do not meet: the line goes through the arc's circle, and
// each of the two points lies off the segment or off the arc. The slope is the line's, if it is not vertical; `root` is a number
// a little above the root of slope * slope + 1. Points are handed over number by number: a struct would go through memory, and
// a load of both numbers of a point waits until each has been stored (docs/MEASURES.md).
pub fn line_misses(
    p0x: f64,
    p0y: f64,
    p1x: f64,
    p1y: f64,
    slope: f64,
    root: f64,
    a1: PlineVertex,
    a2: PlineVertex,
    radius: f64,
    center_x: f64,
    center_y: f64,
    eps: f64,
) -> bool
    requires slope_of { line_arc.SlopeOf (vector2.new p0x p0y) (vector2.new p1x p1y) slope }
    requires center_y_value { line_arc.circle_at radius center_x center_y ≡ seg_arc_radius_and_center a1 a2 }
    ensures by_guess { line_arc.ByGuess result (vector2.new p0x p0y) (vector2.new p1x p1y) slope root a1 a2 (line_arc.circle_at radius center_x center_y)
        eps }
    ensures misses { line_arc.Misses result (vector2.new p0x p0y) (vector2.new p1x p1y) a1 a2 eps }
{
    let p0 = Vector2::new(p0x, p0y);
    let p1 = Vector2::new(p1x, p1y);
    let center = Vector2::new(center_x, center_y);
    let circle = ArcRadiusCenter { radius, center };
    let foot = foot_on(p1, slope, circle);
    let guess = rough_root(foot.square);
    misses_by(p0, p1, slope, root, foot, guess, a1, a2, circle, eps)
}
