// The exports of `probe::vector2`: each is the function of its name there, with its contract.
ghost use Rattle.std.specs.Prelude.{◌≡◌};
ghost use Rattle.plane.specs.Vector2 as vector2;
ghost use Rattle.probe.specs.Numbers.{point, Given, of_vector};

#[unsafe(no_mangle)]
pub extern "C" fn vjp_add(x1: f64, y1: f64, x2: f64, y2: f64, out: &mut [f64]) -> usize
    ensures { Given (of_vector (vector2.add (point x1 y1) (point x2 y2))) result out.old out.new }
{
    probe::vector2::vjp_add(x1, y1, x2, y2, out)
}

#[unsafe(no_mangle)]
pub extern "C" fn vjp_sub(x1: f64, y1: f64, x2: f64, y2: f64, out: &mut [f64]) -> usize
    ensures { Given (of_vector (vector2.sub (point x1 y1) (point x2 y2))) result out.old out.new }
{
    probe::vector2::vjp_sub(x1, y1, x2, y2, out)
}

#[unsafe(no_mangle)]
pub extern "C" fn vjp_scale(x: f64, y: f64, factor: f64, out: &mut [f64]) -> usize
    ensures { Given (of_vector (vector2.scale (point x y) factor)) result out.old out.new }
{
    probe::vector2::vjp_scale(x, y, factor, out)
}

#[unsafe(no_mangle)]
pub extern "C" fn vjp_perp(x: f64, y: f64, out: &mut [f64]) -> usize
    ensures { Given (of_vector (vector2.perp (point x y))) result out.old out.new }
{
    probe::vector2::vjp_perp(x, y, out)
}

#[unsafe(no_mangle)]
pub extern "C" fn vjp_dot(x1: f64, y1: f64, x2: f64, y2: f64) -> f64
    ensures { result ≡ vector2.dot (point x1 y1) (point x2 y2) }
{
    probe::vector2::vjp_dot(x1, y1, x2, y2)
}

#[unsafe(no_mangle)]
pub extern "C" fn vjp_perp_dot(x1: f64, y1: f64, x2: f64, y2: f64) -> f64
    ensures { result ≡ vector2.perp_dot (point x1 y1) (point x2 y2) }
{
    probe::vector2::vjp_perp_dot(x1, y1, x2, y2)
}

#[unsafe(no_mangle)]
pub extern "C" fn vjp_length_squared(x: f64, y: f64) -> f64
    ensures { result ≡ vector2.length_squared (point x y) }
{
    probe::vector2::vjp_length_squared(x, y)
}

#[unsafe(no_mangle)]
pub extern "C" fn vjp_length(x: f64, y: f64) -> f64
    ensures { result ≡ vector2.length (point x y) }
{
    probe::vector2::vjp_length(x, y)
}

#[unsafe(no_mangle)]
pub extern "C" fn vjp_vector_fuzzy_eq_eps(x1: f64, y1: f64, x2: f64, y2: f64, eps: f64) -> bool
    ensures { result ≡ vector2.fuzzy_eq_eps (point x1 y1) (point x2 y2) eps }
{
    probe::vector2::vjp_vector_fuzzy_eq_eps(x1, y1, x2, y2, eps)
}

#[unsafe(no_mangle)]
pub extern "C" fn vjp_vector_eq(x1: f64, y1: f64, x2: f64, y2: f64) -> bool
    ensures { result ≡ vector2.eq (point x1 y1) (point x2 y2) }
{
    probe::vector2::vjp_vector_eq(x1, y1, x2, y2)
}
