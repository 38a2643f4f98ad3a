// The exports of `probe::base_math`: each is the function of its name there, with its contract.
ghost use Rattle.std.specs.Prelude.{◌≡◌};
ghost use Rattle.plane.specs.BaseMath;
ghost use Rattle.probe.specs.Numbers.{point, Given, of_min_max, of_vector};

// First the smaller, then the larger.
#[unsafe(no_mangle)]
pub extern "C" fn vjp_min_max(v1: f64, v2: f64, out: &mut [f64]) -> usize
    ensures { Given (of_min_max (BaseMath.min_max v1 v2)) result out.old out.new }
{
    probe::base_math::vjp_min_max(v1, v2, out)
}

#[unsafe(no_mangle)]
pub extern "C" fn vjp_dist_squared(x0: f64, y0: f64, x1: f64, y1: f64) -> f64
    ensures { result ≡ BaseMath.dist_squared (point x0 y0) (point x1 y1) }
{
    probe::base_math::vjp_dist_squared(x0, y0, x1, y1)
}

#[unsafe(no_mangle)]
pub extern "C" fn vjp_point_from_parametric(
    x0: f64,
    y0: f64,
    x1: f64,
    y1: f64,
    t: f64,
    out: &mut [f64],
) -> usize
    ensures { Given (of_vector (BaseMath.point_from_parametric (point x0 y0) (point x1 y1) t))
        result out.old out.new }
{
    probe::base_math::vjp_point_from_parametric(x0, y0, x1, y1, t, out)
}

#[unsafe(no_mangle)]
pub extern "C" fn vjp_parametric_from_point(
    x0: f64,
    y0: f64,
    x1: f64,
    y1: f64,
    x: f64,
    y: f64,
    epsilon: f64,
) -> f64
    ensures { result ≡ BaseMath.parametric_from_point (point x0 y0) (point x1 y1) (point x y) epsilon }
{
    probe::base_math::vjp_parametric_from_point(x0, y0, x1, y1, x, y, epsilon)
}
