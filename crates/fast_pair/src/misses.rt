// A line and an arc, or two arcs, whose computed points lie off one of the two.
ghost use Rattle.fast_pair.specs.Workings.Kept as workings;
ghost use Rattle.fast_pair.specs.Workings.Misses as misses_of;
ghost use Rattle.std.specs.Prelude.{◌≡◌};

use super::kept::Kept;
use plane::pline_vertex::PlineVertex;
use spans::arc_arc::arcs_miss;
use spans::line_arc::line_misses;

// A quick test whether two segments of which one is an arc do not meet, though their straight line and circle, or their circles,
// do. v and u are kept of them.
pub fn misses(
    v1: PlineVertex,
    v2: PlineVertex,
    v: Kept,
    u1: PlineVertex,
    u2: PlineVertex,
    u: Kept,
    eps: f64,
) -> bool
    requires v_value { v ≡ workings.kept_of v1 v2 eps }
    requires u_value { u ≡ workings.kept_of u1 u2 eps }
    ensures { misses_of.Misses result v1 v2 u1 u2 eps }
{
    if v1.bulge_is_zero() {
        if u1.bulge_is_zero() {
            return false;
        }
        return line_misses(
            v1.x,
            v1.y,
            v2.x,
            v2.y,
            v.radius_or_slope,
            v.center_x_or_root,
            u1,
            u2,
            u.radius_or_slope,
            u.center_x_or_root,
            u.center_y_or_zero,
            eps,
        );
    }
    if u1.bulge_is_zero() {
        return line_misses(
            u1.x,
            u1.y,
            u2.x,
            u2.y,
            u.radius_or_slope,
            u.center_x_or_root,
            v1,
            v2,
            v.radius_or_slope,
            v.center_x_or_root,
            v.center_y_or_zero,
            eps,
        );
    }
    arcs_miss(
        v1,
        v2,
        v.radius_or_slope,
        v.center_x_or_root,
        v.center_y_or_zero,
        u1,
        u2,
        u.radius_or_slope,
        u.center_x_or_root,
        u.center_y_or_zero,
        eps,
    )
}

// The same for a pair that a sieve has left, if it is a line and an arc, in this order: of the others most meet. It is also a second caller
// of `misses`: with one, the compiler would put that into the loop of a listing, which then takes a third longer on coils
// (docs/MEASURES.md).
pub fn left_misses(
    v1: PlineVertex,
    v2: PlineVertex,
    v: Kept,
    u1: PlineVertex,
    u2: PlineVertex,
    u: Kept,
    eps: f64,
) -> bool
    requires v_value { v ≡ workings.kept_of v1 v2 eps }
    requires u_value { u ≡ workings.kept_of u1 u2 eps }
    ensures { misses_of.Misses result v1 v2 u1 u2 eps }
{
    if !v1.bulge_is_zero() {
        return false;
    }
    if u1.bulge_is_zero() {
        return false;
    }
    misses(v1, v2, v, u1, u2, u, eps)
}
