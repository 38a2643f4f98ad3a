// How two arcs meet, and what is told of their computed points: pline_seg_intersect.rs, lines 351-642.
ghost use Rattle.std.specs.Prelude.{◌≡◌, Ok};
ghost use Rattle.arcs.specs.Workings.Circles;
ghost use Rattle.checks.specs.Calls;
ghost use Rattle.crossing.specs.ArcArc;
ghost use Rattle.crossing.specs.PlineSeg;
ghost use Rattle.findings.specs.TwoArcs;
ghost use Rattle.findings.specs.Workings.Answers;

use super::finding::{Computed, Finding, Findings, TwoComputed};
use super::reported::Reported;
use arcs::arc_geometry::ArcGeometry;
use arcs::pline_seg_intr::PlineSegIntr;
use arcs::two_arcs::{collect_end_points, ends_or, two_in_sweep};
use crossing::circle_circle_intr::CircleCircleIntr;
use crossing::pline_seg_intersect::pline_seg_after_checks;
use plane::base_math::dist_squared;
use plane::pline_seg::ArcRadiusCenter;
use plane::pline_vertex::PlineVertex;
use plane::vector2::Vector2;

// The point, and what the sweeps say of it: the second arc's is asked only if the first arc's said yes.
fn both_tested(arc1: ArcGeometry, arc2: ArcGeometry, point: Vector2) -> Computed
    ensures { result ≡ TwoArcs.both_tested arc1 arc2 point }
{
    let v = Finding::from(arc1.finding(point));
    if v.counts() {
        let u = Finding::from(arc2.finding(point));
        return Computed { point, v, u };
    }
    Computed {
        point,
        v,
        u: Finding::NotTested,
    }
}

// Whether both sweeps said yes.
fn counted(computed: Computed) -> bool
    ensures { result ≡ TwoArcs.counted computed }
{
    let v = computed.v;
    let u = computed.u;
    v.counts() & u.counts()
}

// The point, whose place an end takes.
fn replaced(computed: Computed) -> Computed
    ensures { result ≡ TwoArcs.replaced computed }
{
    let point = computed.point;
    Computed {
        point,
        v: Finding::EndPoint,
        u: Finding::EndPoint,
    }
}

// The point where the circles of two arcs are tangent, unless an end is the answer.
fn tangent_computed(
    computed: Computed,
    v1: Vector2,
    v2: Vector2,
    u1: Vector2,
    u2: Vector2,
    arc1: ArcGeometry,
    arc2: ArcGeometry,
) -> Computed
    ensures { result ≡ Answers.tangent_told computed v1 v2 u1 u2 arc1 arc2 }
{
    if arc1.point_lies_on_arc(u1) {
        return replaced(computed);
    }
    if arc1.point_lies_on_arc(u2) {
        return replaced(computed);
    }
    if arc2.point_lies_on_arc(v1) {
        return replaced(computed);
    }
    if arc2.point_lies_on_arc(v2) {
        return replaced(computed);
    }
    computed
}

// Two points that count. The end takes the place of the one that it is nearer to.
fn nearer_replaced(end_pt: Vector2, c1: Computed, c2: Computed) -> TwoComputed
    ensures { result ≡ TwoArcs.nearer_replaced end_pt c1 c2 }
{
    if dist_squared(end_pt, c1.point) < dist_squared(end_pt, c2.point) {
        return TwoComputed {
            first: replaced(c1),
            second: c2,
        };
    }
    TwoComputed {
        first: c1,
        second: replaced(c2),
    }
}

// Two points that count. The slots' ends take their places.
fn both_counted(
    first: Option<Vector2>,
    second: Option<Vector2>,
    c1: Computed,
    c2: Computed,
) -> TwoComputed
    ensures { result ≡ TwoArcs.both_counted first second c1 c2 }
{
    match first {
        None => match second {
            None => TwoComputed {
                first: c1,
                second: c2,
            },
            Some(end_pt) => nearer_replaced(end_pt, c1, c2),
        },
        Some(end_pt1) => match second {
            None => nearer_replaced(end_pt1, c1, c2),
            Some(_) => TwoComputed {
                first: replaced(c1),
                second: replaced(c2),
            },
        },
    }
}

// The one point that counts. An end in a slot takes its place.
fn unless_ends(first: Option<Vector2>, second: Option<Vector2>, computed: Computed) -> Computed
    ensures { result ≡ TwoArcs.unless_ends first second computed }
{
    match first {
        None => match second {
            None => computed,
            Some(_) => replaced(computed),
        },
        Some(_) => match second {
            None => replaced(computed),
            Some(_) => replaced(computed),
        },
    }
}

// The two points where the circles of two arcs cross, with the slots' ends in the places of those that count.
fn two_computed(
    first: Option<Vector2>,
    second: Option<Vector2>,
    c1: Computed,
    c2: Computed,
) -> TwoComputed
    ensures { result ≡ Answers.two_of first second c1 c2 }
{
    let counted1 = counted(c1);
    let counted2 = counted(c2);
    if counted1 {
        if counted2 {
            return both_counted(first, second, c1, c2);
        }
        return TwoComputed {
            first: unless_ends(first, second, c1),
            second: c2,
        };
    }
    if counted2 {
        return TwoComputed {
            first: c1,
            second: unless_ends(first, second, c2),
        };
    }
    TwoComputed {
        first: c1,
        second: c2,
    }
}

// How two arcs meet whose circles are tangent, from the computed point.
fn tangent_answer(
    computed: Computed,
    v1: Vector2,
    v2: Vector2,
    u1: Vector2,
    u2: Vector2,
    arc1: ArcGeometry,
    arc2: ArcGeometry,
) -> PlineSegIntr
    ensures { result ≡ Answers.tangent_of computed v1 v2 u1 u2 arc1 arc2 }
{
    if arc1.point_lies_on_arc(u1) {
        return PlineSegIntr::TangentIntersect { point: u1 };
    }
    if arc1.point_lies_on_arc(u2) {
        return PlineSegIntr::TangentIntersect { point: u2 };
    }
    if arc2.point_lies_on_arc(v1) {
        return PlineSegIntr::TangentIntersect { point: v1 };
    }
    if arc2.point_lies_on_arc(v2) {
        return PlineSegIntr::TangentIntersect { point: v2 };
    }
    if counted(computed) {
        let point = computed.point;
        return PlineSegIntr::TangentIntersect { point };
    }
    PlineSegIntr::NoIntersect
}

// How two arcs meet whose circles cross, from the two computed points and the slots' ends.
fn two_answer(
    first: Option<Vector2>,
    second: Option<Vector2>,
    c1: Computed,
    c2: Computed,
) -> PlineSegIntr
    ensures { result ≡ Answers.two_answer first second c1 c2 }
{
    let point1 = c1.point;
    let point2 = c2.point;
    let counted1 = counted(c1);
    let counted2 = counted(c2);
    if counted1 {
        if counted2 {
            return two_in_sweep(first, second, point1, point2);
        }
        return ends_or(first, second, PlineSegIntr::OneIntersect { point: point1 });
    }
    if counted2 {
        return ends_or(first, second, PlineSegIntr::OneIntersect { point: point2 });
    }
    ends_or(first, second, PlineSegIntr::NoIntersect)
}

// How two arcs meet whose circles are tangent at `point`, and what is told of it.
fn tangent_report(
    point: Vector2,
    v1: Vector2,
    v2: Vector2,
    u1: Vector2,
    u2: Vector2,
    arc1: ArcGeometry,
    arc2: ArcGeometry,
) -> Reported
    ensures { result ≡ Answers.tangent_report point v1 v2 u1 u2 arc1 arc2 }
{
    let tested = both_tested(arc1, arc2, point);
    let answer = tangent_answer(tested, v1, v2, u1, u2, arc1, arc2);
    let computed = tangent_computed(tested, v1, v2, u1, u2, arc1, arc2);
    let first_v = computed.v;
    let first_u = computed.u;
    let findings = Findings {
        first_v,
        first_u,
        second_v: Finding::NotTested,
        second_u: Finding::NotTested,
    };
    Reported { answer, findings }
}

// How two arcs meet whose circles cross at two points, with these ends on the other arc, and what is told of the points.
fn two_report(
    point1: Vector2,
    point2: Vector2,
    end_point_intrs: [Option<Vector2>; 2],
    arc1: ArcGeometry,
    arc2: ArcGeometry,
) -> Reported
    ensures { result ≡ Answers.two_report point1 point2 end_point_intrs arc1 arc2 }
{
    let slot1 = end_point_intrs[0];
    let slot2 = end_point_intrs[1];
    let c1 = both_tested(arc1, arc2, point1);
    let c2 = both_tested(arc1, arc2, point2);
    let answer = two_answer(slot1, slot2, c1, c2);
    let both = two_computed(slot1, slot2, c1, c2);
    let first = both.first;
    let second = both.second;
    let first_v = first.v;
    let first_u = first.u;
    let second_v = second.v;
    let second_u = second.u;
    let findings = Findings {
        first_v,
        first_u,
        second_v,
        second_u,
    };
    Reported { answer, findings }
}

// How the arcs v1 to v2 and u1 to u2 meet, and what is told of their computed points, from what the kernel found. Each point is
// tested once, for both.
pub fn arc_arc_report(
    intr_result: CircleCircleIntr,
    v1: PlineVertex,
    v2: PlineVertex,
    circle1: ArcRadiusCenter,
    u1: PlineVertex,
    u2: PlineVertex,
    circle2: ArcRadiusCenter,
    pos_equal_eps: f64,
) -> Reported
    requires fine { Calls.check_pline_seg v1 v2 u1 u2 pos_equal_eps ≡ Ok tt }
    requires arc_of_circle1 { Circles.OfArc v1 v2 circle1 }
    requires arc_of_circle2 { Circles.OfArc u1 u2 circle2 }
    requires pair_answer { PlineSeg.pline_seg v1 v2 u1 u2 pos_equal_eps ≡ ArcArc.arc_arc_of intr_result v1 v2 u1 u2 circle1 circle2 pos_equal_eps }
    ensures { result ≡ Answers.arc_arc_report intr_result v1 v2 u1 u2 circle1 circle2 pos_equal_eps }
{
    match intr_result {
        CircleCircleIntr::NoIntersect => {
            let findings = Findings::none();
            Reported {
                answer: PlineSegIntr::NoIntersect,
                findings,
            }
        }
        CircleCircleIntr::TangentIntersect { point } => {
            let arc1 = ArcGeometry::of_segment(v1, v2, circle1, pos_equal_eps);
            let arc2 = ArcGeometry::of_segment(u1, u2, circle2, pos_equal_eps);
            tangent_report(point, v1.pos(), v2.pos(), u1.pos(), u2.pos(), arc1, arc2)
        }
        CircleCircleIntr::TwoIntersects { point1, point2 } => {
            let arc1 = ArcGeometry::of_segment(v1, v2, circle1, pos_equal_eps);
            let arc2 = ArcGeometry::of_segment(u1, u2, circle2, pos_equal_eps);
            let end_point_intrs = collect_end_points(
                v1.pos(),
                v2.pos(),
                u1.pos(),
                u2.pos(),
                arc1,
                arc2,
                pos_equal_eps,
            );
            two_report(point1, point2, end_point_intrs, arc1, arc2)
        }
        // arcs of one circle: no point is computed, their ends are compared. The pair function answers
        CircleCircleIntr::Overlapping => {
            let answer = pline_seg_after_checks(v1, v2, circle1, u1, u2, circle2, pos_equal_eps);
            let findings = Findings {
                first_v: Finding::NotTested,
                first_u: Finding::NotTested,
                second_v: Finding::NotTested,
                second_u: Finding::NotTested,
            };
            Reported { answer, findings }
        }
    }
}
