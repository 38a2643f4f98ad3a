// Two numbers in order, squared distance, and places along a segment.
ghost use Rattle.std.specs.Prelude.{◌≡◌};
ghost use Rattle.plane.specs.BaseMath;
ghost use Rattle.probe.specs.Numbers.{point, Given, of_min_max, of_vector};

use super::out;
use plane::base_math;
use plane::vector2::Vector2;

// First the smaller, then the larger.
#[unsafe(no_mangle)]
pub extern "C" fn vjp_min_max(v1: f64, v2: f64, out: &mut [f64]) -> usize
    ensures { Given (of_min_max (BaseMath.min_max v1 v2)) result out.old out.new }
{
    let m = base_math::min_max(v1, v2);
    out::two(m.min, m.max, out)
}

#[unsafe(no_mangle)]
pub extern "C" fn vjp_dist_squared(x0: f64, y0: f64, x1: f64, y1: f64) -> f64
    ensures { result ≡ BaseMath.dist_squared (point x0 y0) (point x1 y1) }
{
    base_math::dist_squared(Vector2 { x: x0, y: y0 }, Vector2 { x: x1, y: y1 })
}

#[unsafe(no_mangle)]
pub extern "C" fn vjp_point_from_parametric(
    x0: f64,
    y0: f64,
    x1: f64,
    y1: f64,
    t: f64,
    out: &mut [f64],
) -> usize
    ensures { Given (of_vector (BaseMath.point_from_parametric (point x0 y0) (point x1 y1) t))
        result out.old out.new }
{
    out::vector(
        base_math::point_from_parametric(Vector2 { x: x0, y: y0 }, Vector2 { x: x1, y: y1 }, t),
        out,
    )
}

#[unsafe(no_mangle)]
pub extern "C" fn vjp_parametric_from_point(
    x0: f64,
    y0: f64,
    x1: f64,
    y1: f64,
    x: f64,
    y: f64,
    epsilon: f64,
) -> f64
    ensures { result ≡ BaseMath.parametric_from_point (point x0 y0) (point x1 y1) (point x y) epsilon }
{
    base_math::parametric_from_point(
        Vector2 { x: x0, y: y0 },
        Vector2 { x: x1, y: y1 },
        Vector2 { x, y },
        epsilon,
    )
}
