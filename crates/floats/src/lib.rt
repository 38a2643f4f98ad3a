// Absolute value, minimum, maximum and square root, which the language lacks: on f64 here, on bit patterns in `bits`. Each
// function answers for every input: see F64.antt and Bits.antt in specs/.
#![tactic(auto)]

ghost use Rattle.std.specs.Prelude.{◌≡◌};
ghost use Rattle.floats.specs.F64;

pub mod bits;
mod root;

// The magnitude: it clears the sign.
pub fn abs(x: f64) -> f64
    ensures { result ≡ F64.abs x }
{
    // The language does not show a NaN's bits, so its sign cannot be seen.
    if x != x {
        return x;
    }
    f64::from_bits(bits::abs(f64::to_bits(x)))
}

// The smaller of two numbers. Equal numbers give y; a NaN and a number give the number.
pub fn min(x: f64, y: f64) -> f64
    ensures { result ≡ F64.min x y }
{
    if y != y {
        return x;
    }
    if x < y { x } else { y }
}

// The larger of two numbers. Equal numbers give y; a NaN and a number give the number.
pub fn max(x: f64, y: f64) -> f64
    ensures { result ≡ F64.max x y }
{
    if y != y {
        return x;
    }
    if y < x { x } else { y }
}

// The square root, rounded to the nearest f64. A zero is its own root; a number below zero has no root and gives a NaN.
pub fn sqrt(x: f64) -> f64
    ensures { result ≡ F64.sqrt x }
{
    // A NaN and a number below zero have no root.
    if x >= 0.0 {
        return f64::from_bits(bits::sqrt(f64::to_bits(x)));
    }
    0.0 / 0.0
}
