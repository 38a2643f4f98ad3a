// The exports of `capi::calls`: each is the function of its name there, with its contract.
ghost use Rattle.answers.specs.Padded.{of_line_line, of_line_circle, of_circle_circle, of_pline_seg};
ghost use Rattle.capi.specs.Handed.{Handed, point, vertex};
ghost use Rattle.crossing.specs.LineLineIntersect.{line_line_intr};
ghost use Rattle.crossing.specs.LineCircleIntersect.{line_circle_intr};
ghost use Rattle.crossing.specs.CircleCircleIntersect.{circle_circle_intr};
ghost use Rattle.crossing.specs.PlineSegIntersect.{pline_seg_intr};

// How the lines v1 to v2 and u1 to u2 meet.
#[unsafe(no_mangle)]
pub extern "C" fn vj_line_line_intr(
    v1x: f64,
    v1y: f64,
    v2x: f64,
    v2y: f64,
    u1x: f64,
    u1y: f64,
    u2x: f64,
    u2y: f64,
    epsilon: f64,
    out: &mut [f64],
) -> u64
    ensures { Handed (of_line_line (line_line_intr (point v1x v1y) (point v2x v2y) (point u1x u1y) (point u2x u2y) epsilon))
        result out.old out.new }
{
    capi::calls::vj_line_line_intr(v1x, v1y, v2x, v2y, u1x, u1y, u2x, u2y, epsilon, out)
}

// How the line through p0 and p1 and a circle meet.
#[unsafe(no_mangle)]
pub extern "C" fn vj_line_circle_intr(
    p0x: f64,
    p0y: f64,
    p1x: f64,
    p1y: f64,
    radius: f64,
    cx: f64,
    cy: f64,
    epsilon: f64,
    out: &mut [f64],
) -> u64
    ensures { Handed (of_line_circle (line_circle_intr (point p0x p0y) (point p1x p1y) radius (point cx cy) epsilon))
        result out.old out.new }
{
    capi::calls::vj_line_circle_intr(p0x, p0y, p1x, p1y, radius, cx, cy, epsilon, out)
}

// How two circles meet.
#[unsafe(no_mangle)]
pub extern "C" fn vj_circle_circle_intr(
    radius1: f64,
    c1x: f64,
    c1y: f64,
    radius2: f64,
    c2x: f64,
    c2y: f64,
    epsilon: f64,
    out: &mut [f64],
) -> u64
    ensures { Handed (of_circle_circle (circle_circle_intr radius1 (point c1x c1y) radius2 (point c2x c2y) epsilon))
        result out.old out.new }
{
    capi::calls::vj_circle_circle_intr(radius1, c1x, c1y, radius2, c2x, c2y, epsilon, out)
}

// How the segments v1 to v2 and u1 to u2 meet, each a line or an arc by the bulge of its first vertex.
#[unsafe(no_mangle)]
pub extern "C" fn vj_pair(
    v1x: f64,
    v1y: f64,
    v1_bulge: f64,
    v2x: f64,
    v2y: f64,
    v2_bulge: f64,
    u1x: f64,
    u1y: f64,
    u1_bulge: f64,
    u2x: f64,
    u2y: f64,
    u2_bulge: f64,
    epsilon: f64,
    out: &mut [f64],
) -> u64
    ensures { Handed (of_pline_seg (pline_seg_intr
        (vertex v1x v1y v1_bulge) (vertex v2x v2y v2_bulge) (vertex u1x u1y u1_bulge) (vertex u2x u2y u2_bulge) epsilon))
        result out.old out.new }
{
    capi::calls::vj_pair(
        v1x, v1y, v1_bulge, v2x, v2y, v2_bulge, u1x, u1y, u1_bulge, u2x, u2y, u2_bulge, epsilon,
        out,
    )
}
