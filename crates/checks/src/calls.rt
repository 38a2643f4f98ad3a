// The checks of a whole call: each function answers the first fault among the call's numbers, in the scope's order. There is one
// function for each of the three kernels and one for the pair call.
ghost use Rattle.std.specs.Prelude.{◌≡◌};
ghost use Rattle.checks.specs.Calls;

use super::fault::Checked;
use super::{arc, chain, each};
use plane::pline_vertex::PlineVertex;
use plane::vector2::Vector2;

// Two lines. The order: epsilon, then v1, v2, u1 and u2, each x before y.
#[tactic(auto, unfolding(crate::specs::Fault::later, crate::specs::Calls::check_line_line))]
pub fn check_line_line(v1: Vector2, v2: Vector2, u1: Vector2, u2: Vector2, epsilon: f64) -> Checked
    ensures { result ≡ Calls.check_line_line v1 v2 u1 u2 epsilon }
{
    each::epsilon(epsilon)?;
    chain::point(v1.x, v1.y, 0, 0)?;
    chain::point(v2.x, v2.y, 1, 0)?;
    chain::point(u1.x, u1.y, 2, 0)?;
    chain::point(u2.x, u2.y, 3, 0)
}

// A line and a circle. The order: epsilon, then p0 and p1, each x before y, then the radius and the centre.
#[tactic(auto, unfolding(crate::specs::Fault::later, crate::specs::Calls::check_line_circle))]
pub fn check_line_circle(
    p0: Vector2,
    p1: Vector2,
    radius: f64,
    circle_center: Vector2,
    epsilon: f64,
) -> Checked
    ensures { result ≡ Calls.check_line_circle p0 p1 radius circle_center epsilon }
{
    each::epsilon(epsilon)?;
    chain::point(p0.x, p0.y, 0, 0)?;
    chain::point(p1.x, p1.y, 1, 0)?;
    chain::circle(radius, circle_center.x, circle_center.y, 2)
}

// Two circles. The order: epsilon, then the first circle and the second, each radius, x, y.
#[tactic(auto, unfolding(crate::specs::Fault::later, crate::specs::Calls::check_circle_circle))]
pub fn check_circle_circle(
    radius1: f64,
    center1: Vector2,
    radius2: f64,
    center2: Vector2,
    epsilon: f64,
) -> Checked
    ensures { result ≡ Calls.check_circle_circle radius1 center1 radius2 center2 epsilon }
{
    each::epsilon(epsilon)?;
    chain::circle(radius1, center1.x, center1.y, 0)?;
    chain::circle(radius2, center2.x, center2.y, 1)
}

// Two segments of polylines. The order: epsilon; v1, v2, u1 and u2, each x before y, and the bulge of v1 and of u1 after its y;
// then the chords of v and of u. The bulges of v2 and u2 belong to other segments and are not checked.
#[tactic(auto, unfolding(crate::specs::Fault::later, crate::specs::Calls::check_pline_seg))]
pub fn check_pline_seg(
    v1: PlineVertex,
    v2: PlineVertex,
    u1: PlineVertex,
    u2: PlineVertex,
    pos_equal_eps: f64,
) -> Checked
    ensures { result ≡ Calls.check_pline_seg v1 v2 u1 u2 pos_equal_eps }
{
    each::epsilon(pos_equal_eps)?;
    chain::vertex(v1.x, v1.y, v1.bulge, 0, 0)?;
    chain::point(v2.x, v2.y, 0, 1)?;
    chain::vertex(u1.x, u1.y, u1.bulge, 1, 0)?;
    chain::point(u2.x, u2.y, 1, 1)?;
    arc::arc_chord(v1, v2, 0, 0)?;
    arc::arc_chord(u1, u2, 1, 0)
}
