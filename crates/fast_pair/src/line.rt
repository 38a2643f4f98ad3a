// A line segment that is clearly beside a circle.
ghost use Rattle.std.specs.Prelude.{◌≡◌};
ghost use Rattle.fast_pair.specs.Workings.ClearlyApart;

use super::kept::Kept;
use crossing::shortcuts::moderate;
use plane::fuzzy::fuzzy_eq_zero;
use plane::pline_seg::ArcRadiusCenter;
use plane::vector2::Vector2;

// The greatest guess of a root that the quick test uses: 2^100.
const MOST: f64 = 1267650600228229401496703205376.0;

// A little more than 1.
const MORE: f64 = 129.0 / 128.0;

// The constant c of the straight line through two points, whose coordinates are relative to the circle's centre; dx leads from
// the first to the second, and `slope` is the slope.
fn constant(dx: f64, slope: f64, p0_shifted: Vector2, p1_shifted: Vector2) -> f64
    ensures { result ≡ ClearlyApart.constant dx slope p0_shifted p1_shifted }
{
    if fuzzy_eq_zero(dx) {
        return -((p1_shifted.x + p0_shifted.x) / 2.0);
    }
    p1_shifted.y - slope * p1_shifted.x
}

// A quick test whether the straight line of a segment is farther from the circle than epsilon. `kept` is what is kept of the
// segment.
pub fn line_beside(p0: Vector2, p1: Vector2, kept: Kept, circle: ArcRadiusCenter, eps: f64) -> bool
    ensures { result ≡ ClearlyApart.line_beside p0 p1 kept circle eps }
{
    let p0_shifted = p0.sub(circle.center);
    let p1_shifted = p1.sub(circle.center);
    let c = constant(p1.x - p0.x, kept.radius_or_slope, p0_shifted, p1_shifted);
    let k = floats::abs(c);
    let s = circle.radius + eps;
    let z = s * MORE;
    (kept.center_x_or_root <= MOST)
        & ((moderate(k) & moderate(z)) & ((z * kept.center_x_or_root < k) & (s < z)))
}
