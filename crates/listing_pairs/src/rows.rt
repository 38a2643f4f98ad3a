// Rows in the two lent slices, and rows copied from one pair of slices to another.
ghost use Rattle.std.specs.Prelude.{◌≡◌, ◌≤◌, ◌<◌, ◌+◌, ◌*◌, length};
ghost use Rattle.std.proofs.Math.Seq.{paste};
ghost use Rattle.listing_pairs.specs.Row as RowDefs;
ghost use Rattle.listing_pairs.specs.Workings.Stored;

use super::row;
use super::row::Row;

// Stores the numbers of a row as row k of both slices if `write`, else nothing.
pub fn put_row(write: bool, indices: &mut [u64], points: &mut [f64], k: usize, r: Row)
    requires { ((k + 1) * RowDefs.indices_a_row ≤ length indices.old) × ((k + 1) * RowDefs.points_a_row ≤ length points.old) }
    ensures indices_after { indices.new ≡ Stored.put_indices write indices.old k r }
    ensures points_after { points.new ≡ Stored.put_points write points.old k r }
{
    if write {
        let a = k * row::INDICES;
        indices[a] = r.i;
        indices[a + 1] = r.j;
        indices[a + 2] = r.class;
        let b = k * row::POINTS;
        points[b] = r.x1;
        points[b + 1] = r.y1;
        points[b + 2] = r.x2;
        points[b + 3] = r.y2;
    }
}

// Copies the first n rows of one pair of slices to the front of another.
pub fn copy_rows(
    from_indices: &[u64],
    from_points: &[f64],
    n: usize,
    indices: &mut [u64],
    points: &mut [f64],
)
    requires n_in_bounds { (n * RowDefs.indices_a_row ≤ length from_indices.now) × (n * RowDefs.points_a_row ≤ length from_points.now) }
    requires n_in_bounds_2 { (n * RowDefs.indices_a_row ≤ length indices.old) × (n * RowDefs.points_a_row ≤ length points.old) }
    ensures indices_after { indices.new ≡ paste indices.old 0 from_indices.now (n * RowDefs.indices_a_row) }
    ensures points_after { points.new ≡ paste points.old 0 from_points.now (n * RowDefs.points_a_row) }
{
    let numbers = n * row::INDICES;
    indices[..numbers].copy_from_slice(&from_indices[..numbers]);
    let floats = n * row::POINTS;
    points[..floats].copy_from_slice(&from_points[..floats]);
}
