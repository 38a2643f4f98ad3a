// The cut of an arc beyond a half circle. It is described here once, for paths and for pairs.
ghost use Rattle.std.specs.Prelude.{◌≡◌};
ghost use Rattle.cuts.specs.Cut;

use plane::pline_vertex::PlineVertex;
use plane::vector2::Vector2;

// The starts of the two halves of an arc. The first half ends where the second one starts, and the second one where the arc ends.
#[derive(Clone, Copy)]
pub struct Halves {
    pub first: PlineVertex,
    pub second: PlineVertex,
}

// Whether an arc with this bulge is cut: it is above 1 in magnitude. A NaN is not.
pub fn is_large(b: f64) -> bool
    ensures { result ≡ Cut.is_large b }
{
    floats::abs(b) > 1.0
}

// The bulge of each half of an arc with bulge b.
pub fn half_bulge(b: f64) -> f64
    ensures { result ≡ Cut.half_bulge b }
{
    (floats::sqrt(1.0 + b * b) - 1.0) / b
}

// The point at which the arc from v1 to v2 is cut.
pub fn cut_point(v1: PlineVertex, v2: PlineVertex) -> Vector2
    ensures { result ≡ Cut.cut_point v1 v2 }
{
    let b = v1.bulge;
    Vector2::new(
        (v1.x + v2.x) / 2.0 + (b * (v2.y - v1.y)) / 2.0,
        (v1.y + v2.y) / 2.0 - (b * (v2.x - v1.x)) / 2.0,
    )
}

// The halves of the arc from v1 to v2, both with the half bulge, which is worked out once.
pub fn halve(v1: PlineVertex, v2: PlineVertex) -> Halves
    ensures { result ≡ Cut.halve v1 v2 }
{
    let half = half_bulge(v1.bulge);
    let p = cut_point(v1, v2);
    Halves {
        first: PlineVertex::new(v1.x, v1.y, half),
        second: PlineVertex::new(p.x, p.y, half),
    }
}
