// Two circles: the call, which checks its numbers first.
ghost use Rattle.std.specs.Prelude.{◌≡◌};
ghost use Rattle.crossing.specs.CircleCircleIntersect;

use super::circle_circle;
use super::circle_circle_intr::CircleCircleIntr;
use checks::calls::check_circle_circle;
use checks::fault::Fault;
use plane::vector2::Vector2;

// How two circles meet, or the refusal of the first number at fault.
pub fn circle_circle_intr(
    radius1: f64,
    center1: Vector2,
    radius2: f64,
    center2: Vector2,
    epsilon: f64,
) -> Result<CircleCircleIntr, Fault>
    ensures { result ≡ CircleCircleIntersect.circle_circle_intr radius1 center1 radius2 center2 epsilon }
{
    check_circle_circle(radius1, center1, radius2, center2, epsilon)?;
    Ok(circle_circle::circle_circle(radius1, center1, radius2, center2, epsilon))
}
