// The check of an arc's chord, for the segments of a path and of a pair.
ghost use Rattle.std.specs.Prelude.{◌≡◌};
ghost use Rattle.checks.specs.Arc;

use super::fault::{Checked, Item, at};
use super::{each, limit};
use plane::pline_vertex::PlineVertex;

// Refusal 5 if the segment from a to b is an arc and its computed chord length is below 2^-40. A line of any length is fine.
pub fn arc_chord(a: PlineVertex, b: PlineVertex, owner: u64, index: u64) -> Checked
    ensures { result ≡ Arc.arc_chord a b owner index }
{
    if a.bulge_is_zero() {
        return Ok(());
    }
    let chord = b.pos().sub(a.pos());
    // The square of the length shows that it is long enough: no root is needed.
    if chord.length_squared() >= limit::CHORD_SQUARE {
        return Ok(());
    }
    each::chord(chord.length(), at(owner, index, Item::Chord))
}
