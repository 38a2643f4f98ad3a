// How many rows of each class a listing has written.
ghost use Rattle.std.specs.Prelude.{◌≡◌, ◌≤◌, ◌*◌, eqb, length};
ghost use Rattle.listing_pairs.specs.Row as RowDefs;
ghost use Rattle.month.specs.Counted;
ghost use Rattle.month.specs.Workings.Written;

use listing_pairs::row;

// 1 if the two are the same, else 0.
fn one_if(a: u64, b: u64) -> usize
    ensures { result ≡ Counted.one_if (eqb a b) }
{
    usize::from(a == b)
}

// How many of the first rows of the slice have this class: the third number of each row.
pub(crate) fn count_class(indices: &[u64], rows: usize, class: u64) -> usize
    requires { rows * RowDefs.indices_a_row ≤ length indices.now }
    ensures { result ≡ Written.in_rows class rows indices.now }
{
    let mut found = 0;
    for k in 0..rows {
        found += one_if(indices[k * row::INDICES + 2], class);
    }
    found
}
