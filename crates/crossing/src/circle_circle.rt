// Two circles, for any numbers: circle_circle_intersect.rs. The local names are the Rust's.
ghost use Rattle.std.specs.Prelude.{◌≡◌};
ghost use Rattle.crossing.specs.CircleCircle;

use super::circle_circle_intr::CircleCircleIntr;
use super::shortcuts::{apart, nested};
use plane::fuzzy::{fuzzy_eq_eps, fuzzy_eq_zero_eps, fuzzy_gt_eps, fuzzy_lt_eps};
use plane::vector2::Vector2;

// Two circles with one centre: they are the same circle, or apart.
fn same_center(radius1: f64, radius2: f64, eps: f64) -> CircleCircleIntr
    ensures { result ≡ CircleCircle.same_center radius1 radius2 eps }
{
    if fuzzy_eq_eps(radius1, radius2, eps) {
        return CircleCircleIntr::Overlapping;
    }
    CircleCircleIntr::NoIntersect
}

// The two points beside the straight line of centres: each is h_over_d times the vector cv, turned by a quarter, away from
// `midpoint`.
fn two_sides(midpoint: Vector2, cv: Vector2, h_over_d: f64, eps: f64) -> CircleCircleIntr
    ensures { result ≡ CircleCircle.two_sides midpoint cv h_over_d eps }
{
    let x_term = h_over_d * cv.y;
    let y_term = h_over_d * cv.x;
    let pt1 = Vector2::new(midpoint.x + x_term, midpoint.y - y_term);
    let pt2 = Vector2::new(midpoint.x - x_term, midpoint.y + y_term);
    if pt1.fuzzy_eq_eps(pt2, eps) {
        return CircleCircleIntr::TangentIntersect { point: pt1 };
    }
    CircleCircleIntr::TwoIntersects {
        point1: pt1,
        point2: pt2,
    }
}

// Two circles that can meet, by their radii. The distance of their centres is d, and cv leads from the first to the second.
fn meeting(
    radius1: f64,
    center1: Vector2,
    radius2: f64,
    cv: Vector2,
    d2: f64,
    d: f64,
    eps: f64,
) -> CircleCircleIntr
    ensures { result ≡ CircleCircle.meeting radius1 center1 radius2 cv d2 d eps }
{
    let rad1_sq = radius1 * radius1;
    let a = (rad1_sq - radius2 * radius2 + d2) / (2.0 * d);
    let midpoint = center1.add(cv.scale(a / d));
    let diff = rad1_sq - a * a;
    if diff <= 0.0 {
        return CircleCircleIntr::TangentIntersect { point: midpoint };
    }
    let h = floats::sqrt(diff);
    two_sides(midpoint, cv, h / d, eps)
}

// How two circles meet, for any numbers: the plain form, with the distance of their centres.
fn by_distance(
    radius1: f64,
    center1: Vector2,
    radius2: f64,
    center2: Vector2,
    epsilon: f64,
) -> CircleCircleIntr
    ensures { result ≡ CircleCircle.circle_circle radius1 center1 radius2 center2 epsilon }
{
    let cv = center2.sub(center1);
    let d2 = cv.dot(cv);
    let d = floats::sqrt(d2);
    // The centres count as one if they are nearer than epsilon.
    if fuzzy_eq_zero_eps(d, epsilon) {
        return same_center(radius1, radius2, epsilon);
    }
    if !fuzzy_lt_eps(d, radius1 + radius2, epsilon)
        | !fuzzy_gt_eps(d, floats::abs(radius1 - radius2), epsilon)
    {
        return CircleCircleIntr::NoIntersect;
    }
    meeting(radius1, center1, radius2, cv, d2, d, epsilon)
}

// How two circles meet, for any numbers. It takes no root if they are clearly outside each other, or if one is well inside the
// other.
pub fn circle_circle(
    radius1: f64,
    center1: Vector2,
    radius2: f64,
    center2: Vector2,
    epsilon: f64,
) -> CircleCircleIntr
    ensures { result ≡ CircleCircle.circle_circle radius1 center1 radius2 center2 epsilon }
{
    let cv = center2.sub(center1);
    let d2 = cv.dot(cv);
    if apart(d2, radius1 + radius2 + epsilon, epsilon) {
        return CircleCircleIntr::NoIntersect;
    }
    if nested(d2, floats::abs(radius1 - radius2), epsilon) {
        return CircleCircleIntr::NoIntersect;
    }
    by_distance(radius1, center1, radius2, center2, epsilon)
}
