// Two circles that are clearly apart: outside each other, or one well inside the other.
ghost use Rattle.std.specs.Prelude.{◌≡◌};
ghost use Rattle.fast_pair.specs.Workings.ClearlyApart;

use crossing::shortcuts::{apart, nested};
use plane::pline_seg::ArcRadiusCenter;

// A quick test whether two circles do not meet, by the squared distance of their centres.
pub fn circles_apart(circle1: ArcRadiusCenter, circle2: ArcRadiusCenter, eps: f64) -> bool
    ensures { result ≡ ClearlyApart.circles_apart circle1 circle2 eps }
{
    let cv = circle2.center.sub(circle1.center);
    let d2 = cv.dot(cv);
    let r1 = circle1.radius;
    let r2 = circle2.radius;
    apart(d2, r1 + r2 + eps, eps) | nested(d2, floats::abs(r1 - r2), eps)
}
