// What a pair's kernel found, for a caller that has checked the numbers and wants more than the answer. The pair call does not use
// it: what has one caller the compiler puts in place.
ghost use Rattle.std.specs.Prelude.{◌≡◌, Ok};
ghost use Rattle.arcs.specs.Workings.Circles;
ghost use Rattle.checks.specs.Calls;
ghost use Rattle.crossing.specs.Workings.PairKernel as workings;

use super::circle_circle::circle_circle;
use super::circle_circle_intr::CircleCircleIntr;
use super::line_circle::line_circle;
use super::line_circle_intr::LineCircleIntr;
use plane::pline_seg::ArcRadiusCenter;
use plane::pline_vertex::PlineVertex;

// The kind of a pair, and what the kernel of a line and a circle, or of two circles, found.
#[derive(Clone, Copy)]
pub enum PairKernel {
    // Two lines. Their kernel is not asked here.
    TwoLines,
    // The first segment is a line, the second an arc.
    LineAndArc(LineCircleIntr),
    // The first segment is an arc, the second a line.
    ArcAndLine(LineCircleIntr),
    TwoArcs(CircleCircleIntr),
}

// What the kernel of the segments v1 to v2 and u1 to u2 found. The caller must show that the check finds no fault, and that these
// are the circles of the arcs.
pub fn pair_kernel(
    v1: PlineVertex,
    v2: PlineVertex,
    circle1: ArcRadiusCenter,
    u1: PlineVertex,
    u2: PlineVertex,
    circle2: ArcRadiusCenter,
    pos_equal_eps: f64,
) -> PairKernel
    requires pos_equal_eps_value { Calls.check_pline_seg v1 v2 u1 u2 pos_equal_eps ≡ Ok tt }
    requires of_arc { Circles.OfArc v1 v2 circle1 }
    requires of_arc_2 { Circles.OfArc u1 u2 circle2 }
    ensures { result ≡ workings.pair_kernel v1 v2 circle1 u1 u2 circle2 pos_equal_eps }
{
    if v1.bulge_is_zero() {
        if u1.bulge_is_zero() {
            return PairKernel::TwoLines;
        }
        return PairKernel::LineAndArc(line_circle(
            v1.pos(),
            v2.pos(),
            circle2.radius,
            circle2.center,
            pos_equal_eps,
        ));
    }
    if u1.bulge_is_zero() {
        return PairKernel::ArcAndLine(line_circle(
            u1.pos(),
            u2.pos(),
            circle1.radius,
            circle1.center,
            pos_equal_eps,
        ));
    }
    PairKernel::TwoArcs(circle_circle(
        circle1.radius,
        circle1.center,
        circle2.radius,
        circle2.center,
        pos_equal_eps,
    ))
}
