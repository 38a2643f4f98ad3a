// Two arcs on two circles that are tangent or cross, for any numbers: pline_seg_intersect.rs, lines 385-511. Ends are sticky here
// too: an end of one arc that lies on the other arc replaces a crossing near it.
ghost use Rattle.std.specs.Prelude.{◌≡◌};
ghost use Rattle.arcs.specs.TwoArcs;
ghost use Rattle.arcs.specs.Workings.Ends;

use super::arc_geometry::ArcGeometry;
use super::pline_seg_intr::PlineSegIntr;
use plane::base_math::dist_squared;
use plane::vector2::Vector2;

// Whether the point is in the sweeps of both arcs.
fn both_sweep(arc1: ArcGeometry, arc2: ArcGeometry, point: Vector2) -> bool
    ensures { result ≡ TwoArcs.both_sweep arc1 arc2 point }
{
    if arc1.finding(point).is_yes() {
        return arc2.finding(point).is_yes();
    }
    false
}

// Two arcs whose circles are tangent at `point`. The answer's point is the first end that lies on the other arc, else `point` if
// it is in both sweeps; otherwise the two are apart.
pub fn tangent_arc_arc(
    point: Vector2,
    v1: Vector2,
    v2: Vector2,
    u1: Vector2,
    u2: Vector2,
    arc1: ArcGeometry,
    arc2: ArcGeometry,
) -> PlineSegIntr
    ensures { result ≡ TwoArcs.tangent_arc_arc point v1 v2 u1 u2 arc1 arc2 }
{
    if arc1.point_lies_on_arc(u1) {
        return PlineSegIntr::TangentIntersect { point: u1 };
    }
    if arc1.point_lies_on_arc(u2) {
        return PlineSegIntr::TangentIntersect { point: u2 };
    }
    if arc2.point_lies_on_arc(v1) {
        return PlineSegIntr::TangentIntersect { point: v1 };
    }
    if arc2.point_lies_on_arc(v2) {
        return PlineSegIntr::TangentIntersect { point: v2 };
    }
    if both_sweep(arc1, arc2, point) {
        return PlineSegIntr::TangentIntersect { point };
    }
    PlineSegIntr::NoIntersect
}

// Puts the end point into the first empty slot. It is left out if the first slot holds a point near it (the same end, found
// from the other arc), and if no slot is empty.
fn try_add_end_point_intr(
    end_point_intrs: [Option<Vector2>; 2],
    intr: Vector2,
    pos_equal_eps: f64,
) -> [Option<Vector2>; 2]
    ensures { result ≡ TwoArcs.try_add_end_point_intr end_point_intrs intr pos_equal_eps }
{
    let mut slots = end_point_intrs;
    let first = slots[0];
    match first {
        None => {
            slots[0] = Some(intr);
            slots
        }
        Some(pt) => {
            if pt.fuzzy_eq_eps(intr, pos_equal_eps) {
                return slots;
            }
            let second = slots[1];
            match second {
                None => {
                    slots[1] = Some(intr);
                    slots
                }
                Some(_) => slots,
            }
        }
    }
}

// The slots with the end point added if it lies on the arc.
fn add_if_on_arc(
    end_point_intrs: [Option<Vector2>; 2],
    end: Vector2,
    arc: ArcGeometry,
    pos_equal_eps: f64,
) -> [Option<Vector2>; 2]
    ensures { result ≡ TwoArcs.add_if_on_arc end_point_intrs end arc pos_equal_eps }
{
    if arc.point_lies_on_arc(end) {
        return try_add_end_point_intr(end_point_intrs, end, pos_equal_eps);
    }
    end_point_intrs
}

// The ends of each arc that lie on the other, at most two of them, in the order u1, u2, v1, v2.
pub fn collect_end_points(
    v1: Vector2,
    v2: Vector2,
    u1: Vector2,
    u2: Vector2,
    arc1: ArcGeometry,
    arc2: ArcGeometry,
    pos_equal_eps: f64,
) -> [Option<Vector2>; 2]
    ensures { result ≡ TwoArcs.collect_end_points v1 v2 u1 u2 arc1 arc2 pos_equal_eps }
{
    let none = [None, None];
    let with_u1 = add_if_on_arc(none, u1, arc1, pos_equal_eps);
    let with_u2 = add_if_on_arc(with_u1, u2, arc1, pos_equal_eps);
    let with_v1 = add_if_on_arc(with_u2, v1, arc2, pos_equal_eps);
    add_if_on_arc(with_v1, v2, arc2, pos_equal_eps)
}

// Two crossings. The end point replaces the one that it is nearer to.
fn end_for_nearer(end_pt: Vector2, point1: Vector2, point2: Vector2) -> PlineSegIntr
    ensures { result ≡ TwoArcs.end_for_nearer end_pt point1 point2 }
{
    if dist_squared(end_pt, point1) < dist_squared(end_pt, point2) {
        return PlineSegIntr::TwoIntersects {
            point1: end_pt,
            point2,
        };
    }
    PlineSegIntr::TwoIntersects {
        point1,
        point2: end_pt,
    }
}

// Two end points as the two crossings: the one nearer to point1 comes first.
fn ends_for_both(end_pt1: Vector2, end_pt2: Vector2, point1: Vector2) -> PlineSegIntr
    ensures { result ≡ TwoArcs.ends_for_both end_pt1 end_pt2 point1 }
{
    if dist_squared(end_pt1, point1) < dist_squared(end_pt2, point1) {
        return PlineSegIntr::TwoIntersects {
            point1: end_pt1,
            point2: end_pt2,
        };
    }
    PlineSegIntr::TwoIntersects {
        point1: end_pt2,
        point2: end_pt1,
    }
}

// Both points of the circles lie on both arcs: the answer is these two, with the slots' end points in their places.
pub fn two_in_sweep(
    first: Option<Vector2>,
    second: Option<Vector2>,
    point1: Vector2,
    point2: Vector2,
) -> PlineSegIntr
    ensures { result ≡ TwoArcs.two_in_sweep first second point1 point2 }
{
    match first {
        None => match second {
            None => PlineSegIntr::TwoIntersects { point1, point2 },
            Some(end_pt) => end_for_nearer(end_pt, point1, point2),
        },
        Some(end_pt1) => match second {
            None => end_for_nearer(end_pt1, point1, point2),
            Some(end_pt2) => ends_for_both(end_pt1, end_pt2, point1),
        },
    }
}

// At most one point of the circles lies on both arcs: the answer is the slots' end points if there are any, else `otherwise`.
pub fn ends_or(
    first: Option<Vector2>,
    second: Option<Vector2>,
    otherwise: PlineSegIntr,
) -> PlineSegIntr
    ensures { result ≡ TwoArcs.ends_or first second otherwise }
{
    match first {
        None => match second {
            None => otherwise,
            Some(end_pt) => PlineSegIntr::OneIntersect { point: end_pt },
        },
        Some(end_pt1) => match second {
            None => PlineSegIntr::OneIntersect { point: end_pt1 },
            Some(end_pt2) => PlineSegIntr::TwoIntersects {
                point1: end_pt1,
                point2: end_pt2,
            },
        },
    }
}

// Two arcs whose circles cross at two points: the answer depends on which of the two lie on both arcs.
fn two_arc_arc(
    point1: Vector2,
    point2: Vector2,
    end_point_intrs: [Option<Vector2>; 2],
    arc1: ArcGeometry,
    arc2: ArcGeometry,
) -> PlineSegIntr
    ensures { result ≡ TwoArcs.two_arc_arc point1 point2 end_point_intrs arc1 arc2 }
{
    let first = end_point_intrs[0];
    let second = end_point_intrs[1];
    let pt1_in_sweep = both_sweep(arc1, arc2, point1);
    let pt2_in_sweep = both_sweep(arc1, arc2, point2);
    if pt1_in_sweep {
        if pt2_in_sweep {
            return two_in_sweep(first, second, point1, point2);
        }
        return ends_or(first, second, PlineSegIntr::OneIntersect { point: point1 });
    }
    if pt2_in_sweep {
        return ends_or(first, second, PlineSegIntr::OneIntersect { point: point2 });
    }
    ends_or(first, second, PlineSegIntr::NoIntersect)
}

// Whether each end of either arc is clearly off the other arc's circle.
fn ends_clear(
    v1: Vector2,
    v2: Vector2,
    u1: Vector2,
    u2: Vector2,
    arc1: ArcGeometry,
    arc2: ArcGeometry,
) -> bool
    ensures { result ≡ Ends.ends_clear v1 v2 u1 u2 arc1 arc2 }
{
    (arc1.point_off_circle(u1) & arc1.point_off_circle(u2))
        & (arc2.point_off_circle(v1) & arc2.point_off_circle(v2))
}

// Two arcs whose circles cross at two points. Most often no end lies on the other arc. Four distances show that, and then there
// are no end points to collect.
pub fn crossing_arcs(
    v1: Vector2,
    v2: Vector2,
    u1: Vector2,
    u2: Vector2,
    point1: Vector2,
    point2: Vector2,
    arc1: ArcGeometry,
    arc2: ArcGeometry,
    pos_equal_eps: f64,
) -> PlineSegIntr
    ensures { result ≡ TwoArcs.crossing_arcs v1 v2 u1 u2 point1 point2 arc1 arc2 pos_equal_eps }
{
    if ends_clear(v1, v2, u1, u2, arc1, arc2) {
        let none = [None, None];
        return two_arc_arc(point1, point2, none, arc1, arc2);
    }
    let end_point_intrs = collect_end_points(v1, v2, u1, u2, arc1, arc2, pos_equal_eps);
    two_arc_arc(point1, point2, end_point_intrs, arc1, arc2)
}
