// A quick test whether the pair call's check finds no fault: it uses comparisons alone, and needs no place of a fault.
ghost use Rattle.std.specs.Prelude.{◌≡◌};
ghost use Rattle.fast_pair.specs.Workings.AllFine;

use checks::limit;
use checks::number::inside;
use plane::pline_vertex::PlineVertex;

// Whether a point's coordinates are fine.
fn point_fine(v: PlineVertex) -> bool
    ensures { result ≡ AllFine.point_fine v }
{
    inside(limit::COORDINATE, v.x) & inside(limit::COORDINATE, v.y)
}

// Whether the segment from v1 to v2 is fine: a line, or an arc whose chord is clearly long enough.
pub fn segment_fine(v1: PlineVertex, v2: PlineVertex) -> bool
    ensures { result ≡ AllFine.segment_fine v1 v2 }
{
    let chord = v2.pos().sub(v1.pos());
    ((point_fine(v1) & inside(limit::BULGE, v1.bulge)) & point_fine(v2))
        & (v1.bulge_is_zero() | (chord.length_squared() >= limit::CHORD_SQUARE))
}

// Whether epsilon is fine.
pub fn epsilon_fine(eps: f64) -> bool
    ensures { result ≡ AllFine.epsilon_fine eps }
{
    (eps >= limit::EPSILON_LEAST) & (eps <= limit::EPSILON_MOST)
}

// Whether all of a pair's numbers are fine. A no leaves it open.
pub fn pair_fine(
    v1: PlineVertex,
    v2: PlineVertex,
    u1: PlineVertex,
    u2: PlineVertex,
    eps: f64,
) -> bool
    ensures { result ≡ AllFine.pair_fine v1 v2 u1 u2 eps }
{
    epsilon_fine(eps) & (segment_fine(v1, v2) & segment_fine(u1, u2))
}
