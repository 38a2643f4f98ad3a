// The checks of a lent slice that come before those of its numbers.
ghost use Rattle.std.specs.Prelude.{◌≡◌};
ghost use Rattle.paths.specs.Shape;

use super::path;
use checks::fault::{Checked, Item, Place, refuse};
use checks::refusal;

// Whether the length of the slice is no multiple of 4.
pub fn broken(path: &[f64]) -> bool
    ensures { result ≡ Shape.broken path.now }
{
    path.len() % path::NUMBERS != 0
}

// Whether the slice has more vertices than a path may have.
pub fn too_long(path: &[f64]) -> bool
    ensures { result ≡ Shape.too_long path.now }
{
    path.len() / path::NUMBERS > path::VERTICES
}

// Whether the slice gets refusal 6 or 7.
pub fn refused(path: &[f64]) -> bool
    ensures { result ≡ Shape.refused path.now }
{
    broken(path) | too_long(path)
}

// Refusal 6 if the length of the slice is no multiple of 4, then 7 if it has more than 4,096 vertices. `owner` is the path's
// number in the call.
pub fn shape(path: &[f64], owner: u64) -> Checked
    ensures { result ≡ Shape.shape path.now owner }
{
    let place = Place {
        owner: owner,
        index: 0,
        item: Item::Length,
    };
    refuse(broken(path), refusal::PATH_LENGTH, place)?;
    refuse(too_long(path), refusal::VERTICES, place)
}
