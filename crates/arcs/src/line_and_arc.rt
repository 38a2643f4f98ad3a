// A line and an arc, where the line is tangent to the arc's circle or crosses it, for any numbers: pline_seg_intersect.rs, lines
// 243-336. Ends are sticky: if an end of the line lies on the arc, the answer has that end as its point. A line that nearly
// follows the arc crosses the circle a little before and a little after such an end, but any other segment that meets the line
// at that end answers the end itself. Sticky ends make these answers agree.
ghost use Rattle.std.specs.Prelude.{◌≡◌};
ghost use Rattle.arcs.specs.LineAndArc;
ghost use Rattle.plane.specs.Vector2 as vector2;

use super::arc_geometry::ArcGeometry;
use super::pline_seg_intr::PlineSegIntr;
use plane::base_math::{dist_squared, point_from_parametric};
use plane::vector2::Vector2;
use ranges::range::on_segment;

// Two points, the first first.
#[derive(Clone, Copy)]
pub struct TwoPoints {
    pub point1: Vector2,
    pub point2: Vector2,
}

// The point at t of the line p0 to p1, if it lies on that segment and in the arc's sweep. The range test compares lengths along
// the segment, so that epsilon is a distance.
pub fn point_in_sweep(
    t: f64,
    p0: Vector2,
    p1: Vector2,
    arc_geometry: ArcGeometry,
    pos_equal_eps: f64,
) -> Option<Vector2>
    ensures { result ≡ LineAndArc.point_in_sweep t (vector2.length (vector2.sub p1 p0)) p0 p1 arc_geometry pos_equal_eps }
{
    if !on_segment(t, p1.sub(p0), pos_equal_eps) {
        return None;
    }
    let p = point_from_parametric(p0, p1, t);
    if arc_geometry.finding(p).is_yes() {
        return Some(p);
    }
    None
}

// A line that is tangent to the circle at t0. The answer's point is an end of the line if it lies on the arc, else the point at
// t0 if it is on the segment and in the sweep; otherwise the two are apart.
pub fn tangent_line_arc(
    t0: f64,
    p0: Vector2,
    p1: Vector2,
    arc_geometry: ArcGeometry,
    pos_equal_eps: f64,
) -> PlineSegIntr
    ensures { result ≡ LineAndArc.tangent_line_arc t0 (vector2.length (vector2.sub p1 p0)) p0 p1 arc_geometry pos_equal_eps }
{
    if arc_geometry.point_lies_on_arc(p0) {
        return PlineSegIntr::TangentIntersect { point: p0 };
    }
    if arc_geometry.point_lies_on_arc(p1) {
        return PlineSegIntr::TangentIntersect { point: p1 };
    }
    let t0_point = point_in_sweep(t0, p0, p1, arc_geometry, pos_equal_eps);
    if let Some(point) = t0_point {
        PlineSegIntr::TangentIntersect { point }
    } else {
        PlineSegIntr::NoIntersect
    }
}

// One crossing: at an end of the line that lies on the arc, else at the given point.
pub fn one_line_arc(
    point: Vector2,
    p0: Vector2,
    p1: Vector2,
    arc_geometry: ArcGeometry,
) -> PlineSegIntr
    ensures { result ≡ LineAndArc.one_line_arc point p0 p1 arc_geometry }
{
    if arc_geometry.point_lies_on_arc(p0) {
        return PlineSegIntr::OneIntersect { point: p0 };
    }
    if arc_geometry.point_lies_on_arc(p1) {
        return PlineSegIntr::OneIntersect { point: p1 };
    }
    PlineSegIntr::OneIntersect { point }
}

// The two given points. Each end of the line that lies on the arc replaces the point that it is nearer to.
fn with_sticky_ends(
    point1: Vector2,
    point2: Vector2,
    p0: Vector2,
    p1: Vector2,
    arc_geometry: ArcGeometry,
) -> TwoPoints
    ensures { result ≡ LineAndArc.with_sticky_ends point1 point2 p0 p1 arc_geometry }
{
    let p0_on_arc = arc_geometry.point_lies_on_arc(p0);
    let p1_on_arc = arc_geometry.point_lies_on_arc(p1);
    if p0_on_arc {
        let p0_nearer_point1 = dist_squared(p0, point1) < dist_squared(p0, point2);
        if p1_on_arc {
            if p0_nearer_point1 {
                return TwoPoints {
                    point1: p0,
                    point2: p1,
                };
            }
            return TwoPoints {
                point1: p1,
                point2: p0,
            };
        }
        if p0_nearer_point1 {
            return TwoPoints { point1: p0, point2 };
        }
        return TwoPoints { point1, point2: p0 };
    }
    if p1_on_arc {
        if dist_squared(p1, point1) < dist_squared(p1, point2) {
            return TwoPoints { point1: p1, point2 };
        }
        return TwoPoints { point1, point2: p1 };
    }
    TwoPoints { point1, point2 }
}

// Two crossings in the second segment's order: as given if u is the line, else the one nearer to the arc's start first.
fn in_order(points: TwoPoints, arc_start: Vector2, u_is_line: bool) -> PlineSegIntr
    ensures { result ≡ LineAndArc.in_order points arc_start u_is_line }
{
    let point1 = points.point1;
    let point2 = points.point2;
    if u_is_line | (dist_squared(point1, arc_start) < dist_squared(point2, arc_start)) {
        return PlineSegIntr::TwoIntersects { point1, point2 };
    }
    PlineSegIntr::TwoIntersects {
        point1: point2,
        point2: point1,
    }
}

// How the arc meets a line that crosses its circle twice: it depends on which of the two points are in the sweep.
pub fn crossings_line_arc(
    t0_point: Option<Vector2>,
    t1_point: Option<Vector2>,
    p0: Vector2,
    p1: Vector2,
    arc_start: Vector2,
    arc_geometry: ArcGeometry,
    u_is_line: bool,
) -> PlineSegIntr
    ensures { result ≡ LineAndArc.crossings_line_arc t0_point t1_point p0 p1 arc_start arc_geometry u_is_line }
{
    let Some(point1) = t0_point else {
        let Some(point) = t1_point else {
            return PlineSegIntr::NoIntersect;
        };
        return one_line_arc(point, p0, p1, arc_geometry);
    };
    let Some(point2) = t1_point else {
        return one_line_arc(point1, p0, p1, arc_geometry);
    };
    in_order(
        with_sticky_ends(point1, point2, p0, p1, arc_geometry),
        arc_start,
        u_is_line,
    )
}
