// How two segments meet, with quick tests first: for a listing, which has checked the numbers and keeps some numbers of each
// segment; and as the pair call, which checks its numbers itself.
ghost use Rattle.std.specs.Prelude.{true, ◌≡◌, Ok};
ghost use Rattle.checks.specs.Calls;
ghost use Rattle.crossing.specs.PlineSeg;
ghost use Rattle.crossing.specs.PlineSegIntersect;
ghost use Rattle.fast_pair.specs.Workings.ClearlyApart;
ghost use Rattle.fast_pair.specs.Workings.Kept as workings;
ghost use Rattle.plane.specs.PlineVertex.{bulge_is_zero};

use super::all_fine::pair_fine;
use super::circles::circles_apart;
use super::kept::{Kept, circle_of};
use super::line::line_beside;
use super::lines::lines_apart;
use super::misses::{left_misses, misses};
use arcs::circle::circle_if_arc;
use arcs::pline_seg_intr::PlineSegIntr;
use checks::calls::check_pline_seg;
use checks::fault::{Checked, Fault};
use checks::{arc, chain, each};
use crossing::pline_seg_intersect::pline_seg_after_checks;
use plane::pline_vertex::PlineVertex;

// A quick test whether two segments are apart.
fn clearly_apart(
    v1: PlineVertex,
    v2: PlineVertex,
    v: Kept,
    u1: PlineVertex,
    u2: PlineVertex,
    u: Kept,
    eps: f64,
) -> bool
    ensures { result ≡ ClearlyApart.clearly_apart v1 v2 v u1 u2 u eps }
{
    if v1.bulge_is_zero() {
        if u1.bulge_is_zero() {
            return lines_apart(v1.pos(), v2.pos(), u1.pos(), u2.pos(), eps);
        }
        return line_beside(v1.pos(), v2.pos(), v, circle_of(u), eps);
    }
    if u1.bulge_is_zero() {
        return line_beside(u1.pos(), u2.pos(), u, circle_of(v), eps);
    }
    circles_apart(circle_of(v), circle_of(u), eps)
}

// How the segments v1 to v2 and u1 to u2 meet; v and u are kept of them. Like `pline_seg_after_checks`, it is for a caller that
// has checked the numbers.
pub fn pline_seg_kept(
    v1: PlineVertex,
    v2: PlineVertex,
    v: Kept,
    u1: PlineVertex,
    u2: PlineVertex,
    u: Kept,
    pos_equal_eps: f64,
) -> PlineSegIntr
    requires pos_equal_eps_value { Calls.check_pline_seg v1 v2 u1 u2 pos_equal_eps ≡ Ok tt }
    requires v_value { v ≡ workings.kept_of v1 v2 pos_equal_eps }
    requires u_value { u ≡ workings.kept_of u1 u2 pos_equal_eps }
    ensures { result ≡ PlineSeg.pline_seg v1 v2 u1 u2 pos_equal_eps }
{
    if clearly_apart(v1, v2, v, u1, u2, u, pos_equal_eps) {
        return PlineSegIntr::NoIntersect;
    }
    if misses(v1, v2, v, u1, u2, u, pos_equal_eps) {
        return PlineSegIntr::NoIntersect;
    }
    pline_seg_after_checks(v1, v2, circle_of(v), u1, u2, circle_of(u), pos_equal_eps)
}

// A quick test whether a line and an arc are apart, in this order: what a sieve of lines has not judged.
fn left_apart(v1: PlineVertex, v2: PlineVertex, v: Kept, u1: PlineVertex, u: Kept, eps: f64) -> bool
    ensures { result ≡ ClearlyApart.left_apart v1 v2 v u1 u eps }
{
    if !v1.bulge_is_zero() {
        return false;
    }
    if u1.bulge_is_zero() {
        return false;
    }
    line_beside(v1.pos(), v2.pos(), v, circle_of(u), eps)
}

// The same as `pline_seg_kept`, for a pair that a sieve has left: what the sieve has tested is not tested again.
pub fn pline_seg_left(
    v1: PlineVertex,
    v2: PlineVertex,
    v: Kept,
    u1: PlineVertex,
    u2: PlineVertex,
    u: Kept,
    pos_equal_eps: f64,
) -> PlineSegIntr
    requires pos_equal_eps_value { Calls.check_pline_seg v1 v2 u1 u2 pos_equal_eps ≡ Ok tt }
    requires v_value { v ≡ workings.kept_of v1 v2 pos_equal_eps }
    requires u_value { u ≡ workings.kept_of u1 u2 pos_equal_eps }
    ensures { result ≡ PlineSeg.pline_seg v1 v2 u1 u2 pos_equal_eps }
{
    if left_apart(v1, v2, v, u1, u, pos_equal_eps) {
        return PlineSegIntr::NoIntersect;
    }
    if left_misses(v1, v2, v, u1, u2, u, pos_equal_eps) {
        return PlineSegIntr::NoIntersect;
    }
    pline_seg_after_checks(v1, v2, circle_of(v), u1, u2, circle_of(u), pos_equal_eps)
}

// A quick test whether both segments are lines and apart.
fn line_pair_apart(
    v1: PlineVertex,
    v2: PlineVertex,
    u1: PlineVertex,
    u2: PlineVertex,
    eps: f64,
) -> bool
    ensures { result ≡ ClearlyApart.line_pair_apart v1 v2 u1 u2 eps }
{
    if !v1.bulge_is_zero() {
        return false;
    }
    if !u1.bulge_is_zero() {
        return false;
    }
    lines_apart(v1.pos(), v2.pos(), u1.pos(), u2.pos(), eps)
}

// The same as `pline_seg_kept`, if nothing is kept of the segments: for one pair, a line's root is not worth its cost.
pub fn pline_seg_once(
    v1: PlineVertex,
    v2: PlineVertex,
    u1: PlineVertex,
    u2: PlineVertex,
    pos_equal_eps: f64,
) -> PlineSegIntr
    requires { Calls.check_pline_seg v1 v2 u1 u2 pos_equal_eps ≡ Ok tt }
    ensures { result ≡ PlineSeg.pline_seg v1 v2 u1 u2 pos_equal_eps }
{
    if line_pair_apart(v1, v2, u1, u2, pos_equal_eps) {
        return PlineSegIntr::NoIntersect;
    }
    let circle1 = circle_if_arc(v1, v2);
    let circle2 = circle_if_arc(u1, u2);
    pline_seg_after_checks(v1, v2, circle1, u1, u2, circle2, pos_equal_eps)
}

// How two lines meet, for the pair call with findings. It shares no function with the pair call that has one caller there: with
// two, the compiler would not put it in place, and the pair call would take half as long again (docs/MEASURES.md).
pub fn line_pair(
    v1: PlineVertex,
    v2: PlineVertex,
    u1: PlineVertex,
    u2: PlineVertex,
    pos_equal_eps: f64,
) -> PlineSegIntr
    requires pos_equal_eps_value { Calls.check_pline_seg v1 v2 u1 u2 pos_equal_eps ≡ Ok tt }
    requires v1_value { bulge_is_zero v1 ≡ true }
    requires u1_value { bulge_is_zero u1 ≡ true }
    ensures { result ≡ PlineSeg.pline_seg v1 v2 u1 u2 pos_equal_eps }
{
    if lines_apart(v1.pos(), v2.pos(), u1.pos(), u2.pos(), pos_equal_eps) {
        return PlineSegIntr::NoIntersect;
    }
    let circle1 = circle_if_arc(v1, v2);
    let circle2 = circle_if_arc(u1, u2);
    pline_seg_after_checks(v1, v2, circle1, u1, u2, circle2, pos_equal_eps)
}

// What the check of a pair's numbers finds, by the quick test first. Behind it stands the chain of `check_pline_seg` itself, for
// the same reason as in `line_pair`: the pair call has that in place.
#[tactic(auto, unfolding(checks::specs::Fault::later, checks::specs::Calls::check_pline_seg))]
pub fn pair_checked(
    v1: PlineVertex,
    v2: PlineVertex,
    u1: PlineVertex,
    u2: PlineVertex,
    pos_equal_eps: f64,
) -> Checked
    ensures { result ≡ Calls.check_pline_seg v1 v2 u1 u2 pos_equal_eps }
{
    if pair_fine(v1, v2, u1, u2, pos_equal_eps) {
        return Ok(());
    }
    each::epsilon(pos_equal_eps)?;
    chain::vertex(v1.x, v1.y, v1.bulge, 0, 0)?;
    chain::point(v2.x, v2.y, 0, 1)?;
    chain::vertex(u1.x, u1.y, u1.bulge, 1, 0)?;
    chain::point(u2.x, u2.y, 1, 1)?;
    arc::arc_chord(v1, v2, 0, 0)?;
    arc::arc_chord(u1, u2, 1, 0)
}

// The pair call number by number, for numbers that the quick test leaves open. It has no quick test of the segments, so that the
// usual way stands once.
fn pline_seg_by_numbers(
    v1: PlineVertex,
    v2: PlineVertex,
    u1: PlineVertex,
    u2: PlineVertex,
    pos_equal_eps: f64,
) -> Result<PlineSegIntr, Fault>
    ensures { result ≡ PlineSegIntersect.pline_seg_intr v1 v2 u1 u2 pos_equal_eps }
{
    check_pline_seg(v1, v2, u1, u2, pos_equal_eps)?;
    let circle1 = circle_if_arc(v1, v2);
    let circle2 = circle_if_arc(u1, u2);
    Ok(pline_seg_after_checks(v1, v2, circle1, u1, u2, circle2, pos_equal_eps))
}

// The pair call: how the segments v1 to v2 and u1 to u2 meet, or the refusal of the first number at fault. Quick tests of its
// numbers and of its segments come first.
pub fn pline_seg_intr(
    v1: PlineVertex,
    v2: PlineVertex,
    u1: PlineVertex,
    u2: PlineVertex,
    pos_equal_eps: f64,
) -> Result<PlineSegIntr, Fault>
    ensures { result ≡ PlineSegIntersect.pline_seg_intr v1 v2 u1 u2 pos_equal_eps }
{
    if pair_fine(v1, v2, u1, u2, pos_equal_eps) {
        return Ok(pline_seg_once(v1, v2, u1, u2, pos_equal_eps));
    }
    pline_seg_by_numbers(v1, v2, u1, u2, pos_equal_eps)
}
