// Two line segments that are clearly apart.
ghost use Rattle.std.specs.Prelude.{◌≡◌};
ghost use Rattle.fast_pair.specs.Workings.ClearlyApart;

use plane::fuzzy::fuzzy_eq_zero_eps;
use plane::vector2::Vector2;
use ranges::range::usual;

// On a segment of usual length a parameter is clearly outside from 33/32 up and from -1/32 down.
const AFTER_END: f64 = 33.0 / 32.0;

const BEFORE_START: f64 = -1.0 / 32.0;

// Whether n / d is clearly outside, without the division: n is above both limits times d, or below both.
pub fn quotient_outside(n: f64, d: f64) -> bool
    ensures { result ≡ ClearlyApart.quotient_outside n d }
{
    let end = d * AFTER_END;
    let start = d * BEFORE_START;
    ((n > end) & (n > start)) | ((n < end) & (n < start))
}

// Whether the straight lines of two segments that are not parallel cross clearly outside `segment`, given as a vector.
fn crosses_outside(n: f64, d: f64, segment: Vector2, eps: f64) -> bool
    ensures { result ≡ ClearlyApart.crosses_outside n d segment eps }
{
    usual(segment.length_squared(), eps) & quotient_outside(n, d)
}

// A quick test whether two line segments are apart: their straight lines cross clearly outside one of the two, or they are
// parallel and not on one straight line.
pub fn lines_apart(v1: Vector2, v2: Vector2, u1: Vector2, u2: Vector2, eps: f64) -> bool
    ensures { result ≡ ClearlyApart.lines_apart v1 v2 u1 u2 eps }
{
    let v = v2.sub(v1);
    let u = u2.sub(u1);
    let d = v.perp_dot(u);
    let w = v1.sub(u1);
    let n = u.perp_dot(w);
    if fuzzy_eq_zero_eps(d, eps) {
        return !fuzzy_eq_zero_eps(n, eps);
    }
    if crosses_outside(n, d, v, eps) {
        return true;
    }
    crosses_outside(v.perp_dot(w), d, u, eps)
}
