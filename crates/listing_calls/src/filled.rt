// The written rows of a listing, for reading.
ghost use Rattle.std.specs.Prelude.{◌≡◌};
ghost use Rattle.listing_calls.specs.Filled;

use listing_pairs::row;

// The first `rows` rows of the lent floats; the empty part if there are fewer whole rows.
pub fn filled(points: &[f64], rows: usize) -> &[f64]
    ensures { result.now ≡ Filled.filled points.now rows }
{
    if rows <= points.len() / row::POINTS {
        let end = rows * row::POINTS;
        return &points[..end];
    }
    &points[..0]
}
