// How a line and an arc meet, and what is told of their computed points: pline_seg_intersect.rs, lines 208-339.
ghost use Rattle.std.specs.Prelude.{◌≡◌};
ghost use Rattle.arcs.specs.ArcGeometry.{of_segment};
ghost use Rattle.findings.specs.LineAndArc;
ghost use Rattle.findings.specs.Workings.Answers;
ghost use Rattle.plane.specs.PlineVertex.{pos};
ghost use Rattle.plane.specs.Vector2 as vector2;

use super::finding::{Finding, Tested, TwoTested};
use arcs::arc_geometry::ArcGeometry;
use arcs::line_and_arc::{TwoPoints, one_line_arc};
use arcs::pline_seg_intr::PlineSegIntr;
use crossing::line_circle_intr::LineCircleIntr;
use plane::base_math::{dist_squared, point_from_parametric};
use plane::pline_seg::ArcRadiusCenter;
use plane::pline_vertex::PlineVertex;
use plane::vector2::Vector2;
use ranges::range::on_segment;

// How a line and an arc meet, and what is told of the first and of the second computed point, for the arc.
#[derive(Clone, Copy)]
pub struct LineArcReport {
    pub answer: PlineSegIntr,
    pub first: Finding,
    pub second: Finding,
}

// The point at t of the line p0 to p1, and what the arc's sweep says of it if it lies on that segment.
fn point_tested(
    t: f64,
    p0: Vector2,
    p1: Vector2,
    arc_geometry: ArcGeometry,
    pos_equal_eps: f64,
) -> Tested
    ensures { result ≡ LineAndArc.point_tested t (vector2.length (vector2.sub p1 p0)) p0 p1 arc_geometry pos_equal_eps }
{
    let point = point_from_parametric(p0, p1, t);
    if !on_segment(t, p1.sub(p0), pos_equal_eps) {
        return Tested {
            point,
            finding: Finding::NotTested,
        };
    }
    let finding = Finding::from(arc_geometry.finding(point));
    Tested { point, finding }
}

// The point, for which an end of the line stands in.
fn replaced(tested: Tested) -> Tested
    ensures { result ≡ LineAndArc.replaced tested }
{
    let point = tested.point;
    Tested {
        point,
        finding: Finding::EndPoint,
    }
}

// A point of the answer, unless an end of the line lies on the arc and stands in.
fn unless_end(tested: Tested, p0: Vector2, p1: Vector2, arc_geometry: ArcGeometry) -> Tested
    ensures { result ≡ LineAndArc.unless_end tested p0 p1 arc_geometry }
{
    if arc_geometry.point_lies_on_arc(p0) {
        return replaced(tested);
    }
    if arc_geometry.point_lies_on_arc(p1) {
        return replaced(tested);
    }
    tested
}

// Two computed points that count, what is told of each, and the points that stand in the answer in their places.
#[derive(Clone, Copy)]
pub struct Sticky {
    pub entries: TwoTested,
    pub points: TwoPoints,
}

// Two points of the answer. Each end of the line that lies on the arc stands in for the one that it is nearer to.
fn stick(e1: Tested, e2: Tested, p0: Vector2, p1: Vector2, arc_geometry: ArcGeometry) -> Sticky
    ensures { result ≡ Answers.sticky e1 e2 p0 p1 arc_geometry }
{
    let point1 = e1.point;
    let point2 = e2.point;
    let r1 = replaced(e1);
    let r2 = replaced(e2);
    let p0_on_arc = arc_geometry.point_lies_on_arc(p0);
    let p1_on_arc = arc_geometry.point_lies_on_arc(p1);
    if p0_on_arc {
        let p0_nearer_point1 = dist_squared(p0, point1) < dist_squared(p0, point2);
        let both = TwoTested {
            first: r1,
            second: r2,
        };
        if p1_on_arc {
            if p0_nearer_point1 {
                let points = TwoPoints {
                    point1: p0,
                    point2: p1,
                };
                return Sticky {
                    entries: both,
                    points,
                };
            }
            let points = TwoPoints {
                point1: p1,
                point2: p0,
            };
            return Sticky {
                entries: both,
                points,
            };
        }
        if p0_nearer_point1 {
            let entries = TwoTested {
                first: r1,
                second: e2,
            };
            let points = TwoPoints { point1: p0, point2 };
            return Sticky { entries, points };
        }
        let entries = TwoTested {
            first: e1,
            second: r2,
        };
        let points = TwoPoints { point1, point2: p0 };
        return Sticky { entries, points };
    }
    if p1_on_arc {
        if dist_squared(p1, point1) < dist_squared(p1, point2) {
            let entries = TwoTested {
                first: r1,
                second: e2,
            };
            let points = TwoPoints { point1: p1, point2 };
            return Sticky { entries, points };
        }
        let entries = TwoTested {
            first: e1,
            second: r2,
        };
        let points = TwoPoints { point1, point2: p1 };
        return Sticky { entries, points };
    }
    let entries = TwoTested {
        first: e1,
        second: e2,
    };
    let points = TwoPoints { point1, point2 };
    Sticky { entries, points }
}

// How the two meet if both points count, in the answer's order: where its points are exchanged, so are the entries.
fn both_report(
    e1: Tested,
    e2: Tested,
    p0: Vector2,
    p1: Vector2,
    arc_start: Vector2,
    arc_geometry: ArcGeometry,
    u_is_line: bool,
) -> LineArcReport
    ensures { result ≡ Answers.both_report e1 e2 p0 p1 arc_start arc_geometry u_is_line }
{
    let stuck = stick(e1, e2, p0, p1, arc_geometry);
    let points = stuck.points;
    let point1 = points.point1;
    let point2 = points.point2;
    let entries = stuck.entries;
    let entry1 = entries.first;
    let entry2 = entries.second;
    let finding1 = entry1.finding;
    let finding2 = entry2.finding;
    if u_is_line | (dist_squared(point1, arc_start) < dist_squared(point2, arc_start)) {
        return LineArcReport {
            answer: PlineSegIntr::TwoIntersects { point1, point2 },
            first: finding1,
            second: finding2,
        };
    }
    LineArcReport {
        answer: PlineSegIntr::TwoIntersects {
            point1: point2,
            point2: point1,
        },
        first: finding2,
        second: finding1,
    }
}

// How a line meets an arc whose circle it crosses, and what is told of the two computed points.
fn crossings_report(
    e1: Tested,
    e2: Tested,
    p0: Vector2,
    p1: Vector2,
    arc_start: Vector2,
    arc_geometry: ArcGeometry,
    u_is_line: bool,
) -> LineArcReport
    ensures { result ≡ Answers.crossings_report e1 e2 p0 p1 arc_start arc_geometry u_is_line }
{
    let point1 = e1.point;
    let point2 = e2.point;
    let finding1 = e1.finding;
    let finding2 = e2.finding;
    let counts1 = finding1.counts();
    let counts2 = finding2.counts();
    if counts1 {
        if counts2 {
            return both_report(e1, e2, p0, p1, arc_start, arc_geometry, u_is_line);
        }
        let answer = one_line_arc(point1, p0, p1, arc_geometry);
        let told = unless_end(e1, p0, p1, arc_geometry);
        let first = told.finding;
        return LineArcReport {
            answer,
            first,
            second: finding2,
        };
    }
    if counts2 {
        let answer = one_line_arc(point2, p0, p1, arc_geometry);
        let told = unless_end(e2, p0, p1, arc_geometry);
        let second = told.finding;
        return LineArcReport {
            answer,
            first: finding1,
            second,
        };
    }
    LineArcReport {
        answer: PlineSegIntr::NoIntersect,
        first: finding1,
        second: finding2,
    }
}

// How a line meets an arc whose circle it is tangent to, from the computed point.
fn tangent_answer(
    tested: Tested,
    p0: Vector2,
    p1: Vector2,
    arc_geometry: ArcGeometry,
) -> PlineSegIntr
    ensures { result ≡ Answers.tangent_answer tested p0 p1 arc_geometry }
{
    if arc_geometry.point_lies_on_arc(p0) {
        return PlineSegIntr::TangentIntersect { point: p0 };
    }
    if arc_geometry.point_lies_on_arc(p1) {
        return PlineSegIntr::TangentIntersect { point: p1 };
    }
    let finding = tested.finding;
    if finding.counts() {
        let point = tested.point;
        return PlineSegIntr::TangentIntersect { point };
    }
    PlineSegIntr::NoIntersect
}

// How the line p0 to p1 and the arc a1 to a2 on the circle `arc` meet, and what is told of their computed points, from what the
// kernel found. Each point is tested once, for both.
pub fn line_arc_report(
    intr_result: LineCircleIntr,
    p0: Vector2,
    p1: Vector2,
    a1: PlineVertex,
    a2: PlineVertex,
    arc: ArcRadiusCenter,
    u_is_line: bool,
    pos_equal_eps: f64,
) -> LineArcReport
    ensures { result ≡ Answers.line_arc_report intr_result p0 p1 (pos a1) (of_segment a1 a2 arc pos_equal_eps) u_is_line
        pos_equal_eps }
{
    match intr_result {
        LineCircleIntr::NoIntersect => LineArcReport {
            answer: PlineSegIntr::NoIntersect,
            first: Finding::NotTested,
            second: Finding::NotTested,
        },
        LineCircleIntr::TangentIntersect { t0 } => {
            let arc_geometry = ArcGeometry::of_segment(a1, a2, arc, pos_equal_eps);
            let t0_tested = point_tested(t0, p0, p1, arc_geometry, pos_equal_eps);
            let answer = tangent_answer(t0_tested, p0, p1, arc_geometry);
            let tested = unless_end(t0_tested, p0, p1, arc_geometry);
            let finding = tested.finding;
            LineArcReport {
                answer,
                first: finding,
                second: Finding::NotTested,
            }
        }
        LineCircleIntr::TwoIntersects { t0, t1 } => {
            let arc_geometry = ArcGeometry::of_segment(a1, a2, arc, pos_equal_eps);
            let t0_tested = point_tested(t0, p0, p1, arc_geometry, pos_equal_eps);
            let t1_tested = point_tested(t1, p0, p1, arc_geometry, pos_equal_eps);
            crossings_report(
                t0_tested,
                t1_tested,
                p0,
                p1,
                a1.pos(),
                arc_geometry,
                u_is_line,
            )
        }
    }
}
