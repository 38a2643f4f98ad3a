// How two lines, a line and a circle, two circles, or two segments of polylines meet: calls that check their numbers first. They
// return the answer's number and put its values into a lent slice.
ghost use Rattle.answers.specs.Padded.{of_line_line, of_line_circle, of_circle_circle, of_pline_seg};
ghost use Rattle.capi.specs.Handed.{Handed, point, vertex};
ghost use Rattle.crossing.specs.LineLineIntersect.{line_line_intr};
ghost use Rattle.crossing.specs.LineCircleIntersect.{line_circle_intr};
ghost use Rattle.crossing.specs.CircleCircleIntersect.{circle_circle_intr};
ghost use Rattle.crossing.specs.PlineSegIntersect.{pline_seg_intr};

use super::hand_over::hand_over;
use answers::padded;
use crossing::{circle_circle_intersect, line_circle_intersect, line_line_intersect};
use fast_pair::pair;
use plane::pline_vertex::PlineVertex;
use plane::vector2::Vector2;

// How the lines v1 to v2 and u1 to u2 meet.
#[unsafe(no_mangle)]
pub extern "C" fn vj_line_line_intr(
    v1x: f64,
    v1y: f64,
    v2x: f64,
    v2y: f64,
    u1x: f64,
    u1y: f64,
    u2x: f64,
    u2y: f64,
    epsilon: f64,
    out: &mut [f64],
) -> u64
    ensures { Handed (of_line_line (line_line_intr (point v1x v1y) (point v2x v2y) (point u1x u1y) (point u2x u2y) epsilon))
        result out.old out.new }
{
    let met = line_line_intersect::line_line_intr(
        Vector2 { x: v1x, y: v1y },
        Vector2 { x: v2x, y: v2y },
        Vector2 { x: u1x, y: u1y },
        Vector2 { x: u2x, y: u2y },
        epsilon,
    );
    let numbers = padded::of_line_line(met);
    hand_over(numbers, out)
}

// How the line through p0 and p1 and a circle meet.
#[unsafe(no_mangle)]
pub extern "C" fn vj_line_circle_intr(
    p0x: f64,
    p0y: f64,
    p1x: f64,
    p1y: f64,
    radius: f64,
    cx: f64,
    cy: f64,
    epsilon: f64,
    out: &mut [f64],
) -> u64
    ensures { Handed (of_line_circle (line_circle_intr (point p0x p0y) (point p1x p1y) radius (point cx cy) epsilon))
        result out.old out.new }
{
    let met = line_circle_intersect::line_circle_intr(
        Vector2 { x: p0x, y: p0y },
        Vector2 { x: p1x, y: p1y },
        radius,
        Vector2 { x: cx, y: cy },
        epsilon,
    );
    let numbers = padded::of_line_circle(met);
    hand_over(numbers, out)
}

// How two circles meet.
#[unsafe(no_mangle)]
pub extern "C" fn vj_circle_circle_intr(
    radius1: f64,
    c1x: f64,
    c1y: f64,
    radius2: f64,
    c2x: f64,
    c2y: f64,
    epsilon: f64,
    out: &mut [f64],
) -> u64
    ensures { Handed (of_circle_circle (circle_circle_intr radius1 (point c1x c1y) radius2 (point c2x c2y) epsilon))
        result out.old out.new }
{
    let met = circle_circle_intersect::circle_circle_intr(
        radius1,
        Vector2 { x: c1x, y: c1y },
        radius2,
        Vector2 { x: c2x, y: c2y },
        epsilon,
    );
    let numbers = padded::of_circle_circle(met);
    hand_over(numbers, out)
}

// How the segments v1 to v2 and u1 to u2 meet, each a line or an arc by the bulge of its first vertex.
#[unsafe(no_mangle)]
pub extern "C" fn vj_pair(
    v1x: f64,
    v1y: f64,
    v1_bulge: f64,
    v2x: f64,
    v2y: f64,
    v2_bulge: f64,
    u1x: f64,
    u1y: f64,
    u1_bulge: f64,
    u2x: f64,
    u2y: f64,
    u2_bulge: f64,
    epsilon: f64,
    out: &mut [f64],
) -> u64
    ensures { Handed (of_pline_seg (pline_seg_intr
        (vertex v1x v1y v1_bulge) (vertex v2x v2y v2_bulge) (vertex u1x u1y u1_bulge) (vertex u2x u2y u2_bulge) epsilon))
        result out.old out.new }
{
    let met = pair::pline_seg_intr(
        PlineVertex {
            x: v1x,
            y: v1y,
            bulge: v1_bulge,
        },
        PlineVertex {
            x: v2x,
            y: v2y,
            bulge: v2_bulge,
        },
        PlineVertex {
            x: u1x,
            y: u1y,
            bulge: u1_bulge,
        },
        PlineVertex {
            x: u2x,
            y: u2y,
            bulge: u2_bulge,
        },
        epsilon,
    );
    let numbers = padded::of_pline_seg(met);
    hand_over(numbers, out)
}
