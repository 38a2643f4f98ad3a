// Two segments of polylines, for any numbers: pline_seg_intersect.rs.
ghost use Rattle.std.specs.Prelude.{◌≡◌};
ghost use Rattle.crossing.specs.PlineSeg;
ghost use Rattle.arcs.specs.Workings.Circles;

use super::arc_arc::arc_arc;
use super::line_arc::process_line_arc_intr;
use super::line_line::line_line;
use super::line_line_intr::LineLineIntr;
use arcs::pline_seg_intr::PlineSegIntr;
use plane::base_math::point_from_parametric;
use plane::pline_seg::ArcRadiusCenter;
use plane::pline_vertex::PlineVertex;
use plane::vector2::Vector2;

// How the line segments v1 to v2 and u1 to u2 meet: the points at the parameters that the kernel found.
fn process_line_line_intr(
    v1: Vector2,
    v2: Vector2,
    u1: Vector2,
    u2: Vector2,
    pos_equal_eps: f64,
) -> PlineSegIntr
    ensures { result ≡ PlineSeg.process_line_line_intr v1 v2 u1 u2 pos_equal_eps }
{
    let intr_result = line_line(v1, v2, u1, u2, pos_equal_eps);
    match intr_result {
        LineLineIntr::NoIntersect => PlineSegIntr::NoIntersect,
        LineLineIntr::FalseIntersect {
            seg1_t: _,
            seg2_t: _,
        } => PlineSegIntr::NoIntersect,
        LineLineIntr::TrueIntersect { seg1_t, seg2_t: _ } => PlineSegIntr::OneIntersect {
            point: point_from_parametric(v1, v2, seg1_t),
        },
        LineLineIntr::Overlapping { seg2_t0, seg2_t1 } => PlineSegIntr::OverlappingLines {
            point1: point_from_parametric(u1, u2, seg2_t0),
            point2: point_from_parametric(u1, u2, seg2_t1),
        },
    }
}

// How the segments v1 to v2 and u1 to u2 meet. The bulge of its first vertex makes each a line or an arc; the bulge of its second
// vertex has no effect. The caller gives the circle of each arc.
pub fn pline_seg_on(
    v1: PlineVertex,
    v2: PlineVertex,
    circle1: ArcRadiusCenter,
    u1: PlineVertex,
    u2: PlineVertex,
    circle2: ArcRadiusCenter,
    pos_equal_eps: f64,
) -> PlineSegIntr
    requires of_arc { Circles.OfArc v1 v2 circle1 }
    requires of_arc_2 { Circles.OfArc u1 u2 circle2 }
    ensures { result ≡ PlineSeg.pline_seg v1 v2 u1 u2 pos_equal_eps }
{
    let v_is_line = v1.bulge_is_zero();
    let u_is_line = u1.bulge_is_zero();
    if v_is_line {
        if u_is_line {
            return process_line_line_intr(v1.pos(), v2.pos(), u1.pos(), u2.pos(), pos_equal_eps);
        }
        return process_line_arc_intr(v1.pos(), v2.pos(), u1, u2, circle2, false, pos_equal_eps);
    }
    if u_is_line {
        return process_line_arc_intr(u1.pos(), u2.pos(), v1, v2, circle1, true, pos_equal_eps);
    }
    arc_arc(v1, v2, circle1, u1, u2, circle2, pos_equal_eps)
}
