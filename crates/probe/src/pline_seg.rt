// The circle that an arc segment lies on.
ghost use Rattle.plane.specs.PlineSeg;
ghost use Rattle.probe.specs.Numbers.{vertex, Given, of_arc};

use super::out;
use plane::pline_vertex::PlineVertex;

// First the radius, then the centre.
#[unsafe(no_mangle)]
pub extern "C" fn vjp_seg_arc_radius_and_center(
    x1: f64,
    y1: f64,
    bulge1: f64,
    x2: f64,
    y2: f64,
    bulge2: f64,
    out: &mut [f64],
) -> usize
    ensures { Given (of_arc (PlineSeg.seg_arc_radius_and_center (vertex x1 y1 bulge1) (vertex x2 y2 bulge2)))
        result out.old out.new }
{
    let a = plane::pline_seg::seg_arc_radius_and_center(
        PlineVertex {
            x: x1,
            y: y1,
            bulge: bulge1,
        },
        PlineVertex {
            x: x2,
            y: y2,
            bulge: bulge2,
        },
    );
    let center = a.center;
    out::three(a.radius, center.x, center.y, out)
}
