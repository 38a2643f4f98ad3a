// Two arcs that do not meet: a quick test without a root.
ghost use Rattle.std.specs.Prelude.{◌≡◌};
ghost use Rattle.plane.specs.PlineSeg.{seg_arc_radius_and_center};
ghost use Rattle.spans.specs.Workings.ArcArc as arc_arc;
ghost use Rattle.spans.specs.Workings.LineArc.{circle_at};

use super::circles::{Middle, middle_of, sides_miss};
use super::root::{holds_root, near_root, rough_root};
use super::span::{Span, ratio};
use arcs::arc_geometry::ArcGeometry;
use plane::pline_seg::ArcRadiusCenter;
use plane::pline_vertex::PlineVertex;
use plane::vector2::Vector2;

// A rough root times these is most often on the two sides of the root.
const BELOW: f64 = 123.0 / 128.0;

const ABOVE: f64 = 133.0 / 128.0;

// The same for a nearer one, which is most often a little above the root.
const LITTLE_BELOW: f64 = 1023.0 / 1024.0;

const LITTLE_ABOVE: f64 = 65537.0 / 65536.0;

// Whether no end of an arc lies on the other, by its distance from the other's centre.
fn ends_clear(
    v1: PlineVertex,
    v2: PlineVertex,
    u1: PlineVertex,
    u2: PlineVertex,
    arc1: ArcGeometry,
    arc2: ArcGeometry,
) -> bool
    ensures { result ≡ arc_arc.ends_clear v1 v2 u1 u2 arc1 arc2 }
{
    (arc1.point_off_circle(u1.pos()) & arc1.point_off_circle(u2.pos()))
        & (arc2.point_off_circle(v1.pos()) & arc2.point_off_circle(v2.pos()))
}

// Whether two arcs miss each other. d is a span of the distance of their centres, whose square is d2; `low` and `high` are guesses
// of how far the points of the circles are from the middle.
fn misses_by(
    v1: PlineVertex,
    v2: PlineVertex,
    circle1: ArcRadiusCenter,
    u1: PlineVertex,
    u2: PlineVertex,
    circle2: ArcRadiusCenter,
    d: Span,
    middle: Middle,
    low: f64,
    high: f64,
    eps: f64,
) -> bool
    ensures { result ≡ arc_arc.misses_by v1 v2 circle1 u1 u2 circle2 d middle low high eps }
{
    let cv = circle2.center.sub(circle1.center);
    let square = cv.dot(cv);
    let d2 = Span {
        least: square,
        most: square,
    };
    let h = Span {
        least: low * BELOW,
        most: high * ABOVE,
    };
    let a = middle.a;
    let one_sided = (a.least >= 0.0) | (a.most <= 0.0);
    if !(((d.least >= eps) & one_sided) & (holds_root(d2, d) & holds_root(middle.diff, h))) {
        return false;
    }
    let arc1 = ArcGeometry::of_segment(v1, v2, circle1, eps);
    let arc2 = ArcGeometry::of_segment(u1, u2, circle2, eps);
    if !ends_clear(v1, v2, u1, u2, arc1, arc2) {
        return false;
    }
    sides_miss(
        circle1.center,
        cv,
        middle.along,
        ratio(h, d),
        arc1,
        arc2,
        eps,
    )
}

// A quick test whether the arcs v1 to v2 and u1 to u2 do not meet: their circles cross, each of the two points is off one of the
// arcs, and no end of an arc lies on the other. Circles are handed over number by number, for the same reason as in `line_arc`.
pub fn arcs_miss(
    v1: PlineVertex,
    v2: PlineVertex,
    radius1: f64,
    x1: f64,
    y1: f64,
    u1: PlineVertex,
    u2: PlineVertex,
    radius2: f64,
    x2: f64,
    y2: f64,
    eps: f64,
) -> bool
    requires y1_value { circle_at radius1 x1 y1 ≡ seg_arc_radius_and_center v1 v2 }
    requires y2_value { circle_at radius2 x2 y2 ≡ seg_arc_radius_and_center u1 u2 }
    ensures { arc_arc.Misses result v1 v2 u1 u2 eps }
{
    let center1 = Vector2::new(x1, y1);
    let center2 = Vector2::new(x2, y2);
    let circle1 = ArcRadiusCenter {
        radius: radius1,
        center: center1,
    };
    let circle2 = ArcRadiusCenter {
        radius: radius2,
        center: center2,
    };
    let cv = center2.sub(center1);
    let d2 = cv.dot(cv);
    let guess = near_root(d2);
    let d = Span {
        least: guess * LITTLE_BELOW,
        most: guess * LITTLE_ABOVE,
    };
    let middle = middle_of(circle1, circle2, d2, d);
    let diff = middle.diff;
    let low = rough_root(diff.least);
    let high = rough_root(diff.most);
    misses_by(v1, v2, circle1, u1, u2, circle2, d, middle, low, high, eps)
}
