// How many rows both lent slices have room for.
ghost use Rattle.std.specs.Prelude.{◌≡◌};
ghost use Rattle.listing_outcomes.specs.Outcome;

use listing_pairs::row;
use listing_pairs::sizes::lesser;

// As many as fit whole into both, by their lengths.
pub fn row_room(indices: usize, points: usize) -> usize
    ensures { result ≡ Outcome.row_room indices points }
{
    lesser(indices / row::INDICES, points / row::POINTS)
}
