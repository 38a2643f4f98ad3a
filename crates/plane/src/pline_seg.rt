// The circle that an arc segment lies on.
ghost use Rattle.std.specs.Prelude.{◌≡◌};
ghost use Rattle.plane.specs.PlineSeg;

use super::pline_vertex::PlineVertex;
use super::vector2::Vector2;

// A circle: its radius and its centre.
#[derive(Clone, Copy)]
pub struct ArcRadiusCenter {
    pub radius: f64,
    pub center: Vector2,
}

// The radius and the centre of the arc from v1 to v2 with v1's bulge. They have a meaning only if that segment is an arc.
pub fn seg_arc_radius_and_center(v1: PlineVertex, v2: PlineVertex) -> ArcRadiusCenter
    ensures { result ≡ PlineSeg.seg_arc_radius_and_center v1 v2 }
{
    let bulge = v1.bulge;
    let bulge_squared = bulge * bulge;
    let chord = v2.pos().sub(v1.pos());
    let inv_four_bulge = 1.0 / (4.0 * bulge);
    let radius = chord.length() * (1.0 + bulge_squared) * floats::abs(inv_four_bulge);
    let middle = v1.pos().add(chord.scale(1.0 / 2.0));
    let center = middle.add(
        chord
            .perp()
            .scale((1.0 - bulge) * (1.0 + bulge) * inv_four_bulge),
    );
    ArcRadiusCenter { radius, center }
}
