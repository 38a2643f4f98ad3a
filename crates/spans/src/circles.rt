// Two arcs that do not meet: the two points of their circles, as spans.
ghost use Rattle.std.specs.Prelude.{◌≡◌};
ghost use Rattle.spans.specs.Workings.Circles as circles;

use super::span::{Span, apart, difference, doubled, less, plus, ratio, square, sum, times, under};
use super::sweep::off_sweep;
use arcs::arc_geometry::ArcGeometry;
use plane::pline_seg::ArcRadiusCenter;
use plane::vector2::Vector2;

// Where the straight line through the two points crosses that of the centres: `a` from the first centre, `along` as a part of the
// distance. `diff` is the square of how far the points are from there.
#[derive(Clone, Copy)]
pub struct Middle {
    pub a: Span,
    pub along: Span,
    pub diff: Span,
}

// The middle of two circles whose centres are d apart.
pub fn middle_of(circle1: ArcRadiusCenter, circle2: ArcRadiusCenter, d2: f64, d: Span) -> Middle
    ensures { result ≡ circles.middle_of circle1 circle2 d2 d }
{
    let rad1_sq = circle1.radius * circle1.radius;
    let n = rad1_sq - circle2.radius * circle2.radius + d2;
    let a = under(n, doubled(d));
    let along = ratio(a, d);
    let diff = less(rad1_sq, square(a));
    Middle { a, along, diff }
}

// Whether a point is off the sweep of one of two arcs.
fn off_one(x: Span, y: Span, arc1: ArcGeometry, arc2: ArcGeometry) -> bool
    ensures { result ≡ circles.off_one x y arc1 arc2 }
{
    if off_sweep(x, y, arc1) {
        return true;
    }
    off_sweep(x, y, arc2)
}

// Whether both points of the two circles are off one of the two arcs: each is h_over_d times the vector cv, turned by a quarter,
// away from the middle.
pub fn sides_miss(
    center1: Vector2,
    cv: Vector2,
    along: Span,
    h_over_d: Span,
    arc1: ArcGeometry,
    arc2: ArcGeometry,
    eps: f64,
) -> bool
    ensures { result ≡ circles.sides_miss center1 cv along h_over_d arc1 arc2 eps }
{
    let mx = plus(center1.x, times(cv.x, along));
    let my = plus(center1.y, times(cv.y, along));
    let x_term = times(cv.y, h_over_d);
    let y_term = times(cv.x, h_over_d);
    let x1 = sum(mx, x_term);
    let y1 = difference(my, y_term);
    let x2 = difference(mx, x_term);
    let y2 = sum(my, y_term);
    if apart(difference(x1, x2), eps) | apart(difference(y1, y2), eps) {
        if off_one(x1, y1, arc1, arc2) {
            return off_one(x2, y2, arc1, arc2);
        }
    }
    false
}
