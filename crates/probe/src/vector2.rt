// The methods of `Vector2`.
ghost use Rattle.std.specs.Prelude.{◌≡◌};
ghost use Rattle.plane.specs.Vector2 as vector2;
ghost use Rattle.probe.specs.Numbers.{point, Given, of_vector};

use super::out;
use plane::vector2::Vector2;

#[unsafe(no_mangle)]
pub extern "C" fn vjp_add(x1: f64, y1: f64, x2: f64, y2: f64, out: &mut [f64]) -> usize
    ensures { Given (of_vector (vector2.add (point x1 y1) (point x2 y2))) result out.old out.new }
{
    out::vector(Vector2 { x: x1, y: y1 }.add(Vector2 { x: x2, y: y2 }), out)
}

#[unsafe(no_mangle)]
pub extern "C" fn vjp_sub(x1: f64, y1: f64, x2: f64, y2: f64, out: &mut [f64]) -> usize
    ensures { Given (of_vector (vector2.sub (point x1 y1) (point x2 y2))) result out.old out.new }
{
    out::vector(Vector2 { x: x1, y: y1 }.sub(Vector2 { x: x2, y: y2 }), out)
}

#[unsafe(no_mangle)]
pub extern "C" fn vjp_scale(x: f64, y: f64, factor: f64, out: &mut [f64]) -> usize
    ensures { Given (of_vector (vector2.scale (point x y) factor)) result out.old out.new }
{
    out::vector(Vector2 { x, y }.scale(factor), out)
}

#[unsafe(no_mangle)]
pub extern "C" fn vjp_perp(x: f64, y: f64, out: &mut [f64]) -> usize
    ensures { Given (of_vector (vector2.perp (point x y))) result out.old out.new }
{
    out::vector(Vector2 { x, y }.perp(), out)
}

#[unsafe(no_mangle)]
pub extern "C" fn vjp_dot(x1: f64, y1: f64, x2: f64, y2: f64) -> f64
    ensures { result ≡ vector2.dot (point x1 y1) (point x2 y2) }
{
    Vector2 { x: x1, y: y1 }.dot(Vector2 { x: x2, y: y2 })
}

#[unsafe(no_mangle)]
pub extern "C" fn vjp_perp_dot(x1: f64, y1: f64, x2: f64, y2: f64) -> f64
    ensures { result ≡ vector2.perp_dot (point x1 y1) (point x2 y2) }
{
    Vector2 { x: x1, y: y1 }.perp_dot(Vector2 { x: x2, y: y2 })
}

#[unsafe(no_mangle)]
pub extern "C" fn vjp_length_squared(x: f64, y: f64) -> f64
    ensures { result ≡ vector2.length_squared (point x y) }
{
    Vector2 { x, y }.length_squared()
}

#[unsafe(no_mangle)]
pub extern "C" fn vjp_length(x: f64, y: f64) -> f64
    ensures { result ≡ vector2.length (point x y) }
{
    Vector2 { x, y }.length()
}

#[unsafe(no_mangle)]
pub extern "C" fn vjp_vector_fuzzy_eq_eps(x1: f64, y1: f64, x2: f64, y2: f64, eps: f64) -> bool
    ensures { result ≡ vector2.fuzzy_eq_eps (point x1 y1) (point x2 y2) eps }
{
    Vector2 { x: x1, y: y1 }.fuzzy_eq_eps(Vector2 { x: x2, y: y2 }, eps)
}

#[unsafe(no_mangle)]
pub extern "C" fn vjp_vector_eq(x1: f64, y1: f64, x2: f64, y2: f64) -> bool
    ensures { result ≡ vector2.eq (point x1 y1) (point x2 y2) }
{
    Vector2 { x: x1, y: y1 } == Vector2 { x: x2, y: y2 }
}
