// Whether `plane` gives the answers of a text line. The operands come first, then the answers, in the order of the Rust's
// parameters and results. Zeros of either sign are equal, and so are any two NaNs.
ghost use Rattle.std.specs.Prelude.{◌≡◌, ◌<◌, ◌+◌};
ghost use Rattle.records.specs.Text.{most_numbers};
ghost use Rattle.records.specs.OnPlane;

use super::text::number;
use plane::pline_vertex::PlineVertex;
use plane::vector2::Vector2;
use plane::{base_math, pline_seg};

pub fn min_max(body: &[u8]) -> bool
    ensures { result ≡ OnPlane.min_max body.now }
{
    let m = base_math::min_max(number(body, 0), number(body, 1));
    same(m.min, number(body, 2)) & same(m.max, number(body, 3))
}

pub fn dist_squared(body: &[u8]) -> bool
    ensures { result ≡ OnPlane.dist_squared body.now }
{
    same(
        base_math::dist_squared(point(body, 0), point(body, 2)),
        number(body, 4),
    )
}

pub fn point_from_parametric(body: &[u8]) -> bool
    ensures { result ≡ OnPlane.point_from_parametric body.now }
{
    let p = base_math::point_from_parametric(point(body, 0), point(body, 2), number(body, 4));
    same(p.x, number(body, 5)) & same(p.y, number(body, 6))
}

pub fn parametric_from_point(body: &[u8]) -> bool
    ensures { result ≡ OnPlane.parametric_from_point body.now }
{
    let t = base_math::parametric_from_point(
        point(body, 0),
        point(body, 2),
        point(body, 4),
        number(body, 6),
    );
    same(t, number(body, 7))
}

pub fn seg_arc_radius_and_center(body: &[u8]) -> bool
    ensures { result ≡ OnPlane.seg_arc_radius_and_center body.now }
{
    let a = pline_seg::seg_arc_radius_and_center(vertex(body, 0), vertex(body, 3));
    let center = a.center;
    same(a.radius, number(body, 6))
        & same(center.x, number(body, 7))
        & same(center.y, number(body, 8))
}

// Whether a computed number counts as a recorded one.
pub fn same(x: f64, y: f64) -> bool
    ensures { result ≡ OnPlane.same x y }
{
    (x == y) | ((x != x) & (y != y))
}

// The point whose coordinates are numbers i and i + 1 of a text line.
pub fn point(body: &[u8], i: usize) -> Vector2
    requires { i + 2 < most_numbers }
    ensures { result ≡ OnPlane.point_at body.now i }
{
    Vector2::new(number(body, i), number(body, i + 1))
}

// The vertex whose three numbers start at number i of a text line.
pub fn vertex(body: &[u8], i: usize) -> PlineVertex
    requires { i + 2 < most_numbers }
    ensures { result ≡ OnPlane.vertex_at body.now i }
{
    PlineVertex::new(number(body, i), number(body, i + 1), number(body, i + 2))
}
