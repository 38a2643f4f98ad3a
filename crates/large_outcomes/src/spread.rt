// Rows of three numbers become rows of five, in place: each index becomes the name of its segment, or gets half 0.
ghost use Rattle.std.specs.Prelude.{◌≡◌, ◌≤◌, ◌+◌, ◌*◌, length, get_or};
ghost use Rattle.std.proofs.lemmas.List.Edits.{sets};
ghost use Rattle.large_outcomes.specs.LargeRow;
ghost use Rattle.large_outcomes.specs.Workings.Spread as spread_of;

use super::room::INDICES;
use listing_pairs::row;

// a name in one word: the index times this, and the half
pub const HALVES: u64 = 4;

// The name of segment k; 0 if there is none.
fn name_of(names: &[u64], k: u64) -> u64
    ensures { result ≡ get_or names.now k 0 }
{
    let at = k as usize;
    if at < names.len() {
        return names[at];
    }
    0
}

// Stores row k of five numbers: two names, each as its index and its half, and the class.
fn put_names(indices: &mut [u64], k: usize, first: u64, second: u64, class: u64)
    requires { (k + 1) * LargeRow.large_indices_a_row ≤ length indices.old }
    ensures { indices.new
        ≡ sets indices.old (k * LargeRow.large_indices_a_row) (spread_of.names_and_class first second class) }
{
    let a = k * INDICES;
    indices[a] = first / HALVES;
    indices[a + 1] = first % HALVES;
    indices[a + 2] = second / HALVES;
    indices[a + 3] = second % HALVES;
    indices[a + 4] = class;
}

// Spreads the first rows of three numbers into rows of five. It begins with the last row, so that no row is written over before
// it is read.
pub fn spread(first: &[u64], second: &[u64], rows: usize, indices: &mut [u64])
    requires { rows * LargeRow.large_indices_a_row ≤ length indices.old }
    ensures { indices.new
        ≡ spread_of.spread (spread_of.by_names first.now second.now) rows indices.old }
{
    for k in (0..rows).rev() {
        let a = k * row::INDICES;
        let i = name_of(first, indices[a]);
        let j = name_of(second, indices[a + 1]);
        let class = indices[a + 2];
        put_names(indices, k, i, j, class);
    }
}

// Stores row k of five numbers: two indices, each with half 0, and the class.
fn put_zeros(indices: &mut [u64], k: usize, i: u64, j: u64, class: u64)
    requires { (k + 1) * LargeRow.large_indices_a_row ≤ length indices.old }
    ensures { indices.new
        ≡ sets indices.old (k * LargeRow.large_indices_a_row) (spread_of.zero_halves i j class) }
{
    let a = k * INDICES;
    indices[a] = i;
    indices[a + 1] = 0;
    indices[a + 2] = j;
    indices[a + 3] = 0;
    indices[a + 4] = class;
}

// Spreads as `spread` does, where no segment is cut.
pub fn spread_zeros(rows: usize, indices: &mut [u64])
    requires { rows * LargeRow.large_indices_a_row ≤ length indices.old }
    ensures { indices.new ≡ spread_of.spread spread_of.zero_halves rows indices.old }
{
    for k in (0..rows).rev() {
        let a = k * row::INDICES;
        let i = indices[a];
        let j = indices[a + 1];
        let class = indices[a + 2];
        put_zeros(indices, k, i, j, class);
    }
}
