// Two arcs on one circle, for any numbers: pline_seg_intersect.rs, lines 513-641.
ghost use Rattle.std.specs.Prelude.{◌≡◌};
ghost use Rattle.arcs.specs.OneCircle;

use super::arc_sweep::ArcSweep;
use super::pline_seg_intr::PlineSegIntr;
use plane::base_math::dist_squared;
use plane::fuzzy::FUZZY_EPSILON;
use plane::pline_seg::ArcRadiusCenter;
use plane::pline_vertex::PlineVertex;
use plane::vector2::Vector2;

// Where an arc starts and ends.
#[derive(Clone, Copy)]
pub struct ArcEnds {
    pub start: Vector2,
    pub end: Vector2,
}

// Whether the two arcs have exactly equal ends and bulges, in the same direction or in the opposite one. Zeros of either sign are
// equal.
fn same_arc(v1: PlineVertex, v2: PlineVertex, u1: PlineVertex, u2: PlineVertex) -> bool
    ensures { result ≡ OneCircle.same_arc v1 v2 u1 u2 }
{
    let p1 = v1.pos();
    let p2 = v2.pos();
    let q1 = u1.pos();
    let q2 = u2.pos();
    ((p1 == q1) & (p2 == q2) & (v1.bulge == u1.bulge))
        | ((p1 == q2) & (p2 == q1) & (v1.bulge == -u1.bulge))
}

// The second arc's start and end, in the direction in which the first arc runs.
fn arc2_ends(u1: Vector2, u2: Vector2, same_direction_arcs: bool) -> ArcEnds
    ensures { result ≡ OneCircle.arc2_ends u1 u2 same_direction_arcs }
{
    if same_direction_arcs {
        return ArcEnds { start: u1, end: u2 };
    }
    ArcEnds { start: u2, end: u1 }
}

// The overlap from `point1` to `point2` if the arcs run in the same direction, else from `other1` to `other2`.
fn overlap_by_direction(
    same_direction_arcs: bool,
    point1: Vector2,
    point2: Vector2,
    other1: Vector2,
    other2: Vector2,
) -> PlineSegIntr
    ensures { result ≡ OneCircle.overlap_by_direction same_direction_arcs point1 point2 other1 other2 }
{
    if same_direction_arcs {
        return PlineSegIntr::OverlappingArcs { point1, point2 };
    }
    PlineSegIntr::OverlappingArcs {
        point1: other1,
        point2: other2,
    }
}

// Two arcs of one circle of which no ends are near each other: how they meet depends on which ends lie in the other's sweep.
fn by_sweeps(
    v1: Vector2,
    v2: Vector2,
    u1: Vector2,
    u2: Vector2,
    same_direction_arcs: bool,
    arc1_sweep: ArcSweep,
    arc2_sweep: ArcSweep,
    arc2: ArcEnds,
) -> PlineSegIntr
    ensures { result ≡ OneCircle.by_sweeps v1 v2 u1 u2 same_direction_arcs arc1_sweep arc2_sweep arc2 }
{
    let arc2_starts_in_arc1 = arc1_sweep.finding(arc2.start).is_yes();
    let arc2_ends_in_arc1 = arc1_sweep.finding(arc2.end).is_yes();
    if arc2_starts_in_arc1 {
        if arc2_ends_in_arc1 {
            return PlineSegIntr::OverlappingArcs {
                point1: u1,
                point2: u2,
            };
        }
        return overlap_by_direction(same_direction_arcs, u1, v2, v2, u2);
    }
    if arc2_ends_in_arc1 {
        return overlap_by_direction(same_direction_arcs, v1, u2, u1, v1);
    }
    if arc2_sweep.finding(v1).is_yes() {
        return overlap_by_direction(same_direction_arcs, v1, v2, v2, v1);
    }
    PlineSegIntr::NoIntersect
}

// Two arcs of one circle. If ends are near each other, by their distance, these are the answer; else the sweeps decide. These use
// 1e-8 of the radius as their epsilon, whatever epsilon is given.
fn arcs_of_one_circle(
    v1: Vector2,
    v2: Vector2,
    u1: Vector2,
    u2: Vector2,
    v_is_neg: bool,
    u_is_neg: bool,
    circle1: ArcRadiusCenter,
    circle2: ArcRadiusCenter,
    pos_equal_eps: f64,
) -> PlineSegIntr
    ensures { result ≡ OneCircle.arcs_of_one_circle v1 v2 u1 u2 v_is_neg u_is_neg circle1 circle2 pos_equal_eps }
{
    let same_direction_arcs = v_is_neg == u_is_neg;
    let arc2 = arc2_ends(u1, u2, same_direction_arcs);
    let avg_radius = (circle1.radius + circle2.radius) / 2.0;
    let position_epsilon_squared = pos_equal_eps * pos_equal_eps;
    let touch_at_v1 = dist_squared(v1, arc2.end) < position_epsilon_squared;
    let touch_at_v2 = dist_squared(arc2.start, v2) < position_epsilon_squared;
    if touch_at_v1 {
        if touch_at_v2 {
            return PlineSegIntr::TwoIntersects {
                point1: u1,
                point2: u2,
            };
        }
        return PlineSegIntr::OneIntersect { point: v1 };
    }
    if touch_at_v2 {
        if same_direction_arcs {
            return PlineSegIntr::OneIntersect { point: u1 };
        }
        return PlineSegIntr::OneIntersect { point: u2 };
    }
    let sweep_epsilon = avg_radius * FUZZY_EPSILON;
    let arc1_sweep = ArcSweep::new(circle1.center, v1, v2, v_is_neg, sweep_epsilon);
    let arc2_sweep = ArcSweep::new(
        circle2.center,
        arc2.start,
        arc2.end,
        v_is_neg,
        sweep_epsilon,
    );
    by_sweeps(
        v1,
        v2,
        u1,
        u2,
        same_direction_arcs,
        arc1_sweep,
        arc2_sweep,
        arc2,
    )
}

// Two arcs of one circle: the same arc, or two that meet at ends, overlap or are apart.
pub fn overlapping_arc_arc(
    v1: PlineVertex,
    v2: PlineVertex,
    u1: PlineVertex,
    u2: PlineVertex,
    circle1: ArcRadiusCenter,
    circle2: ArcRadiusCenter,
    pos_equal_eps: f64,
) -> PlineSegIntr
    ensures { result ≡ OneCircle.overlapping_arc_arc v1 v2 u1 u2 circle1 circle2 pos_equal_eps }
{
    if same_arc(v1, v2, u1, u2) {
        return PlineSegIntr::OverlappingArcs {
            point1: u1.pos(),
            point2: u2.pos(),
        };
    }
    arcs_of_one_circle(
        v1.pos(),
        v2.pos(),
        u1.pos(),
        u2.pos(),
        v1.bulge_is_neg(),
        u1.bulge_is_neg(),
        circle1,
        circle2,
        pos_equal_eps,
    )
}
