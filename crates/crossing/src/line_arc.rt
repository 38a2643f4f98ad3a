// A line segment and an arc segment, for any numbers: pline_seg_intersect.rs, lines 208-339. `arcs::line_and_arc` says what
// sticky ends are.
ghost use Rattle.std.specs.Prelude.{◌≡◌};
ghost use Rattle.crossing.specs.LineArc;
ghost use Rattle.plane.specs.PlineSeg.{seg_arc_radius_and_center};

use super::line_circle::line_circle;
use super::line_circle_intr::LineCircleIntr;
use arcs::arc_geometry::ArcGeometry;
use arcs::line_and_arc::{crossings_line_arc, point_in_sweep, tangent_line_arc};
use arcs::pline_seg_intr::PlineSegIntr;
use plane::pline_seg::ArcRadiusCenter;
use plane::pline_vertex::PlineVertex;
use plane::vector2::Vector2;

// How the line p0 to p1 and the arc a1 to a2 on the circle `arc` meet. `u_is_line` says that the line is the second segment.
pub fn process_line_arc_intr(
    p0: Vector2,
    p1: Vector2,
    a1: PlineVertex,
    a2: PlineVertex,
    arc: ArcRadiusCenter,
    u_is_line: bool,
    pos_equal_eps: f64,
) -> PlineSegIntr
    requires { arc ≡ seg_arc_radius_and_center a1 a2 }
    ensures { result ≡ LineArc.process_line_arc_intr p0 p1 a1 a2 u_is_line pos_equal_eps }
{
    let intr_result = line_circle(p0, p1, arc.radius, arc.center, pos_equal_eps);
    match intr_result {
        LineCircleIntr::NoIntersect => PlineSegIntr::NoIntersect,
        LineCircleIntr::TangentIntersect { t0 } => {
            let arc_geometry = ArcGeometry::of_segment(a1, a2, arc, pos_equal_eps);
            tangent_line_arc(t0, p0, p1, arc_geometry, pos_equal_eps)
        }
        LineCircleIntr::TwoIntersects { t0, t1 } => {
            let arc_geometry = ArcGeometry::of_segment(a1, a2, arc, pos_equal_eps);
            let t0_point = point_in_sweep(t0, p0, p1, arc_geometry, pos_equal_eps);
            let t1_point = point_in_sweep(t1, p0, p1, arc_geometry, pos_equal_eps);
            crossings_line_arc(
                t0_point,
                t1_point,
                p0,
                p1,
                a1.pos(),
                arc_geometry,
                u_is_line,
            )
        }
    }
}
