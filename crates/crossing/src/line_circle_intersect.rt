// A line segment and a circle: the call, which checks its numbers first.
ghost use Rattle.std.specs.Prelude.{◌≡◌};
ghost use Rattle.crossing.specs.LineCircleIntersect;

use super::line_circle;
use super::line_circle_intr::LineCircleIntr;
use checks::calls::check_line_circle;
use checks::fault::Fault;
use plane::vector2::Vector2;

// How the line from p0 to p1 meets a circle, or the refusal of the first number at fault.
pub fn line_circle_intr(
    p0: Vector2,
    p1: Vector2,
    radius: f64,
    circle_center: Vector2,
    epsilon: f64,
) -> Result<LineCircleIntr, Fault>
    ensures { result ≡ LineCircleIntersect.line_circle_intr p0 p1 radius circle_center epsilon }
{
    check_line_circle(p0, p1, radius, circle_center, epsilon)?;
    Ok(line_circle::line_circle(p0, p1, radius, circle_center, epsilon))
}
