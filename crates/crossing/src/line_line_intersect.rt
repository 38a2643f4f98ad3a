// Two line segments: the call, which checks its numbers first.
ghost use Rattle.std.specs.Prelude.{◌≡◌};
ghost use Rattle.crossing.specs.LineLineIntersect;

use super::line_line;
use super::line_line_intr::LineLineIntr;
use checks::calls::check_line_line;
use checks::fault::Fault;
use plane::vector2::Vector2;

// How the segments v1 to v2 and u1 to u2 meet, or the refusal of the first number at fault.
pub fn line_line_intr(
    v1: Vector2,
    v2: Vector2,
    u1: Vector2,
    u2: Vector2,
    epsilon: f64,
) -> Result<LineLineIntr, Fault>
    ensures { result ≡ LineLineIntersect.line_line_intr v1 v2 u1 u2 epsilon }
{
    check_line_line(v1, v2, u1, u2, epsilon)?;
    Ok(line_line::line_line(v1, v2, u1, u2, epsilon))
}
