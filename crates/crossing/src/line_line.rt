// Two line segments, for any numbers: line_line_intersect.rs. The local names are the Rust's.
ghost use Rattle.std.specs.Prelude.{◌≡◌};
ghost use Rattle.crossing.specs.LineLine;

use super::line_line_intr::LineLineIntr;
use plane::base_math::parametric_from_point;
use plane::fuzzy::{fuzzy_eq_zero_eps, fuzzy_gt_eps, fuzzy_lt_eps};
use plane::vector2::Vector2;
use ranges::range::on_segment;

// Two parameters on a segment's straight line: the first and the last of a stretch.
#[derive(Clone, Copy)]
pub struct Span {
    pub t0: f64,
    pub t1: f64,
}

// Two segments that are not parallel: their straight lines cross at one point, which lies on both segments or not.
fn crossing(v: Vector2, u: Vector2, w: Vector2, v_pdot_u: f64, eps: f64) -> LineLineIntr
    ensures { result ≡ LineLine.crossing v u w v_pdot_u eps }
{
    let seg1_t = u.perp_dot(w) / v_pdot_u;
    let seg2_t = v.perp_dot(w) / v_pdot_u;
    if !on_segment(seg1_t, v, eps) {
        return LineLineIntr::FalseIntersect { seg1_t, seg2_t };
    }
    if !on_segment(seg2_t, u, eps) {
        return LineLineIntr::FalseIntersect { seg1_t, seg2_t };
    }
    LineLineIntr::TrueIntersect { seg1_t, seg2_t }
}

// Two segments that are points: the same point, or apart.
fn both_points(v1: Vector2, u1: Vector2, eps: f64) -> LineLineIntr
    ensures { result ≡ LineLine.both_points v1 u1 eps }
{
    if v1.fuzzy_eq_eps(u1, eps) {
        return LineLineIntr::TrueIntersect {
            seg1_t: 0.0,
            seg2_t: 0.0,
        };
    }
    LineLineIntr::NoIntersect
}

// The first segment is a point, v1, and the second, u1 to u2, is not.
fn first_point(v1: Vector2, u1: Vector2, u2: Vector2, u: Vector2, eps: f64) -> LineLineIntr
    ensures { result ≡ LineLine.first_point v1 u1 u2 u eps }
{
    let seg2_t = parametric_from_point(u1, u2, v1, eps);
    if on_segment(seg2_t, u, eps) {
        return LineLineIntr::TrueIntersect {
            seg1_t: 0.0,
            seg2_t,
        };
    }
    LineLineIntr::NoIntersect
}

// The second segment is a point, u1, and the first, v1 to v2, is not.
fn second_point(v1: Vector2, v2: Vector2, u1: Vector2, v: Vector2, eps: f64) -> LineLineIntr
    ensures { result ≡ LineLine.second_point v1 v2 u1 v eps }
{
    let seg1_t = parametric_from_point(v1, v2, u1, eps);
    if on_segment(seg1_t, v, eps) {
        return LineLineIntr::TrueIntersect {
            seg1_t,
            seg2_t: 0.0,
        };
    }
    LineLineIntr::NoIntersect
}

// The two parameters in rising order. Equal ones and NaNs stay in the given order.
fn rising(t0: f64, t1: f64) -> Span
    ensures { result ≡ LineLine.rising t0 t1 }
{
    if t0 > t1 {
        return Span { t0: t1, t1: t0 };
    }
    Span { t0, t1 }
}

// Where the ends of the first segment lie on the second's straight line, as parameters of the second: w and w2 lead from u1 to v1
// and to v2.
fn span_of(w: Vector2, w2: Vector2, u: Vector2, eps: f64) -> Span
    ensures { result ≡ LineLine.span_of w w2 u eps }
{
    if fuzzy_eq_zero_eps(u.x, eps) {
        return rising(w.y / u.y, w2.y / u.y);
    }
    rising(w.x / u.x, w2.x / u.x)
}

// The first segment's parameter at the end that is near the second: two segments of one straight line, end to end.
fn touching_end(v1: Vector2, u1: Vector2, u2: Vector2, eps: f64) -> f64
    ensures { result ≡ LineLine.touching_end v1 u1 u2 eps }
{
    if v1.fuzzy_eq_eps(u1, eps) | v1.fuzzy_eq_eps(u2, eps) {
        return 0.0;
    }
    1.0
}

// Two segments of one straight line, neither a point: apart, end to end, or overlapping. s has the first segment's ends as
// parameters of the second.
fn overlap(v1: Vector2, u1: Vector2, u2: Vector2, u: Vector2, s: Span, eps: f64) -> LineLineIntr
    ensures { result ≡ LineLine.overlap v1 u1 u2 u s eps }
{
    let seg2_length = u.length();
    // Ends are sticky: two that are near each other meet.
    if !fuzzy_lt_eps(s.t0 * seg2_length, seg2_length, eps)
        | !fuzzy_gt_eps(s.t1 * seg2_length, 0.0, eps)
    {
        return LineLineIntr::NoIntersect;
    }
    let seg2_t0 = floats::max(s.t0, 0.0);
    let seg2_t1 = floats::min(s.t1, 1.0);
    if fuzzy_eq_zero_eps((seg2_t1 - seg2_t0) * seg2_length, eps) {
        let seg1_t = touching_end(v1, u1, u2, eps);
        return LineLineIntr::TrueIntersect {
            seg1_t,
            seg2_t: seg2_t0,
        };
    }
    LineLineIntr::Overlapping { seg2_t0, seg2_t1 }
}

// Two parallel segments, on one straight line or not, either of which may be a point.
fn parallel(
    v1: Vector2,
    v2: Vector2,
    u1: Vector2,
    u2: Vector2,
    v: Vector2,
    u: Vector2,
    w: Vector2,
    eps: f64,
) -> LineLineIntr
    ensures { result ≡ LineLine.parallel v1 v2 u1 u2 v u w eps }
{
    if !fuzzy_eq_zero_eps(v.perp_dot(w), eps) | !fuzzy_eq_zero_eps(u.perp_dot(w), eps) {
        return LineLineIntr::NoIntersect;
    }
    let v_is_point = v1.fuzzy_eq_eps(v2, eps);
    let u_is_point = u1.fuzzy_eq_eps(u2, eps);
    if v_is_point {
        if u_is_point {
            return both_points(v1, u1, eps);
        }
        return first_point(v1, u1, u2, u, eps);
    }
    if u_is_point {
        return second_point(v1, v2, u1, v, eps);
    }
    let w2 = v2.sub(u1);
    overlap(v1, u1, u2, u, span_of(w, w2, u, eps), eps)
}

// How the segments v1 to v2 and u1 to u2 meet, for any numbers.
pub fn line_line(v1: Vector2, v2: Vector2, u1: Vector2, u2: Vector2, epsilon: f64) -> LineLineIntr
    ensures { result ≡ LineLine.line_line v1 v2 u1 u2 epsilon }
{
    let v = v2.sub(v1);
    let u = u2.sub(u1);
    let v_pdot_u = v.perp_dot(u);
    let w = v1.sub(u1);
    // Nearly parallel lines count as parallel: they would cross very far away.
    if !fuzzy_eq_zero_eps(v_pdot_u, epsilon) {
        return crossing(v, u, w, v_pdot_u, epsilon);
    }
    parallel(v1, v2, u1, u2, v, u, w, epsilon)
}
