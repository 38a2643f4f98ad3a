// Two arc segments, for any numbers: pline_seg_intersect.rs, lines 351-642.
ghost use Rattle.std.specs.Prelude.{◌≡◌};
ghost use Rattle.crossing.specs.ArcArc;
ghost use Rattle.plane.specs.PlineSeg.{seg_arc_radius_and_center};

use super::circle_circle::circle_circle;
use super::circle_circle_intr::CircleCircleIntr;
use arcs::arc_geometry::ArcGeometry;
use arcs::one_circle::overlapping_arc_arc;
use arcs::pline_seg_intr::PlineSegIntr;
use arcs::two_arcs::{crossing_arcs, tangent_arc_arc};
use plane::pline_seg::ArcRadiusCenter;
use plane::pline_vertex::PlineVertex;

// How the arcs v1 to v2 and u1 to u2, which lie on these circles, meet.
pub fn arc_arc(
    v1: PlineVertex,
    v2: PlineVertex,
    circle1: ArcRadiusCenter,
    u1: PlineVertex,
    u2: PlineVertex,
    circle2: ArcRadiusCenter,
    pos_equal_eps: f64,
) -> PlineSegIntr
    requires circle1_value { circle1 ≡ seg_arc_radius_and_center v1 v2 }
    requires circle2_value { circle2 ≡ seg_arc_radius_and_center u1 u2 }
    ensures { result ≡ ArcArc.arc_arc v1 v2 u1 u2 pos_equal_eps }
{
    let intr_result = circle_circle(
        circle1.radius,
        circle1.center,
        circle2.radius,
        circle2.center,
        pos_equal_eps,
    );
    match intr_result {
        CircleCircleIntr::NoIntersect => PlineSegIntr::NoIntersect,
        CircleCircleIntr::TangentIntersect { point } => {
            let arc1 = ArcGeometry::of_segment(v1, v2, circle1, pos_equal_eps);
            let arc2 = ArcGeometry::of_segment(u1, u2, circle2, pos_equal_eps);
            tangent_arc_arc(point, v1.pos(), v2.pos(), u1.pos(), u2.pos(), arc1, arc2)
        }
        CircleCircleIntr::TwoIntersects { point1, point2 } => {
            let arc1 = ArcGeometry::of_segment(v1, v2, circle1, pos_equal_eps);
            let arc2 = ArcGeometry::of_segment(u1, u2, circle2, pos_equal_eps);
            crossing_arcs(
                v1.pos(),
                v2.pos(),
                u1.pos(),
                u2.pos(),
                point1,
                point2,
                arc1,
                arc2,
                pos_equal_eps,
            )
        }
        CircleCircleIntr::Overlapping => {
            overlapping_arc_arc(v1, v2, u1, u2, circle1, circle2, pos_equal_eps)
        }
    }
}
