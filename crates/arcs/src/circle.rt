// The circle of a segment that may be an arc.
ghost use Rattle.std.specs.Prelude.{◌≡◌};
ghost use Rattle.arcs.specs.Workings.Circles;

use plane::pline_seg::{ArcRadiusCenter, seg_arc_radius_and_center};
use plane::pline_vertex::PlineVertex;
use plane::vector2::Vector2;

// The circle of the segment from v1 to v2 if it is an arc. A line has no circle: what it gets here is never used.
pub fn circle_if_arc(v1: PlineVertex, v2: PlineVertex) -> ArcRadiusCenter
    ensures { result ≡ Circles.circle_if_arc v1 v2 }
{
    if v1.bulge_is_zero() {
        return ArcRadiusCenter {
            radius: 0.0,
            center: Vector2::new(0.0, 0.0),
        };
    }
    seg_arc_radius_and_center(v1, v2)
}
