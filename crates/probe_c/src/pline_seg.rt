// The exports of `probe::pline_seg`: each is the function of its name there, with its contract.
ghost use Rattle.plane.specs.PlineSeg;
ghost use Rattle.probe.specs.Numbers.{vertex, Given, of_arc};

// First the radius, then the centre.
#[unsafe(no_mangle)]
pub extern "C" fn vjp_seg_arc_radius_and_center(
    x1: f64,
    y1: f64,
    bulge1: f64,
    x2: f64,
    y2: f64,
    bulge2: f64,
    out: &mut [f64],
) -> usize
    ensures { Given (of_arc (PlineSeg.seg_arc_radius_and_center (vertex x1 y1 bulge1) (vertex x2 y2 bulge2)))
        result out.old out.new }
{
    probe::pline_seg::vjp_seg_arc_radius_and_center(x1, y1, bulge1, x2, y2, bulge2, out)
}
