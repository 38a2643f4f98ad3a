// Two segments of polylines: the answer, and how they meet for a caller that has checked their numbers. The pair call itself is
// `fast_pair::pair::pline_seg_intr`.
ghost use Rattle.std.specs.Prelude.{◌≡◌, Ok};
ghost use Rattle.crossing.specs.PlineSeg;
ghost use Rattle.arcs.specs.Workings.Circles;
ghost use Rattle.checks.specs.Calls;

use super::pline_seg::pline_seg_on;
use arcs::pline_seg_intr::PlineSegIntr;
use checks::fault::Fault;
use plane::pline_seg::ArcRadiusCenter;
use plane::pline_vertex::PlineVertex;

// How the segments v1 to v2 and u1 to u2 meet, for a caller that has checked their numbers and has the circle of each arc. The
// caller must show that the check finds no fault, and that these are the circles.
pub fn pline_seg_after_checks(
    v1: PlineVertex,
    v2: PlineVertex,
    circle1: ArcRadiusCenter,
    u1: PlineVertex,
    u2: PlineVertex,
    circle2: ArcRadiusCenter,
    pos_equal_eps: f64,
) -> PlineSegIntr
    requires pos_equal_eps_value { Calls.check_pline_seg v1 v2 u1 u2 pos_equal_eps ≡ Ok tt }
    requires of_arc { Circles.OfArc v1 v2 circle1 }
    requires of_arc_2 { Circles.OfArc u1 u2 circle2 }
    ensures { result ≡ PlineSeg.pline_seg v1 v2 u1 u2 pos_equal_eps }
{
    pline_seg_on(v1, v2, circle1, u1, u2, circle2, pos_equal_eps)
}
