// The checks of one number. `place` goes into the fault.
ghost use Rattle.std.specs.Prelude.{◌≡◌};
ghost use Rattle.checks.specs.Each;

use super::fault::{Checked, Item, Place, at, refuse};
use super::{limit, number, refusal};

// Refusal 11 if x is a NaN, 12 if it is infinite.
pub fn finite(x: f64, place: Place) -> Checked
    ensures { result ≡ Each.finite x place }
{
    refuse(number::is_nan(x), refusal::NAN, place)?;
    refuse(number::is_infinite(x), refusal::INFINITE, place)
}

// Refusal 11 if x is a NaN, 12 if it is infinite, then refusal `number` if `bad`.
fn finite_then(x: f64, bad: bool, number: u64, place: Place) -> Checked
    ensures { result ≡ Each.finite_then x bad number place }
{
    finite(x, place)?;
    refuse(bad, number, place)
}

// Refusal 4 if epsilon is a NaN, infinite, below 2^-40 or above 1/2. A call has one epsilon, so its place is always the same.
pub fn epsilon(eps: f64) -> Checked
    ensures { result ≡ Each.epsilon eps }
{
    refuse(
        number::not_finite(eps) | number::outside(limit::EPSILON_LEAST, limit::EPSILON_MOST, eps),
        refusal::EPSILON,
        at(0, 0, Item::Epsilon),
    )
}

// A coordinate of a point or vertex: refusal 11 if it is a NaN, 12 if it is infinite, then 2 if it exceeds 1,048,576 in
// magnitude.
pub fn coordinate(x: f64, place: Place) -> Checked
    ensures { result ≡ Each.coordinate x place }
{
    finite_then(
        x,
        number::beyond(limit::COORDINATE, x),
        refusal::COORDINATE,
        place,
    )
}

// A bulge: refusal 11 if it is a NaN, 12 if it is infinite, then 3 if it exceeds 1 in magnitude.
pub fn bulge(b: f64, place: Place) -> Checked
    ensures { result ≡ Each.bulge b place }
{
    finite_then(b, number::beyond(limit::BULGE, b), refusal::BULGE, place)
}

// A bulge in the mode of large arcs: refusal 11 if it is a NaN, 12 if it is infinite, then 3 if it exceeds 16 in magnitude.
pub fn large_bulge(b: f64, place: Place) -> Checked
    ensures { result ≡ Each.large_bulge b place }
{
    finite_then(
        b,
        number::beyond(limit::LARGE_BULGE, b),
        refusal::BULGE,
        place,
    )
}

// A circle's radius: refusal 11 if it is a NaN, 12 if it is infinite, then 9 if it is below 2^-42, as zero and negative ones
// are, or above 2^47.
pub fn radius(r: f64, place: Place) -> Checked
    ensures { result ≡ Each.radius r place }
{
    finite_then(
        r,
        number::outside(limit::RADIUS_LEAST, limit::RADIUS_MOST, r),
        refusal::CIRCLE,
        place,
    )
}

// A coordinate of a circle's centre: refusal 11 if it is a NaN, 12 if it is infinite, then 9 if it exceeds 2^48 in magnitude.
pub fn center(x: f64, place: Place) -> Checked
    ensures { result ≡ Each.center x place }
{
    finite_then(x, number::beyond(limit::CENTER, x), refusal::CIRCLE, place)
}

// A trace: refusal 11 if it is a NaN, 12 if it is infinite, then 15 if it is no whole number from 0 to 255. -0 passes as 0.
pub fn trace(x: f64, place: Place) -> Checked
    ensures { result ≡ Each.trace x place }
{
    finite_then(x, number::no_trace(x), refusal::TRACE, place)
}

// An arc's chord length, as the caller computed it: refusal 5 if it is below 2^-40. A NaN is not below and passes.
pub fn chord(chord_length: f64, place: Place) -> Checked
    ensures { result ≡ Each.chord chord_length place }
{
    refuse(chord_length < limit::CHORD_LEAST, refusal::CHORD, place)
}
