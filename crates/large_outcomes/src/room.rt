// How many rows of five numbers both lent slices have room for.
ghost use Rattle.std.specs.Prelude.{◌≡◌};
ghost use Rattle.large_outcomes.specs.LargeRow;

use listing_pairs::row;
use listing_pairs::sizes::lesser;

// how many whole numbers of a row go into the lent slice
pub const INDICES: usize = 5;

// As many as fit whole into both, by their lengths.
pub fn large_row_room(indices: usize, points: usize) -> usize
    ensures { result ≡ LargeRow.large_row_room indices points }
{
    lesser(indices / INDICES, points / row::POINTS)
}
