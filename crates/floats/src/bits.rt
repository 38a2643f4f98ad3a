// The four functions on bit patterns. Here the bits of a NaN are fixed too: specs/Bits.antt says which.
ghost use Rattle.std.specs.Prelude.{◌≡◌};
ghost use Rattle.std.specs.Float.{binary64};
ghost use Rattle.std.specs.Float.Ieee.{nan_bits};
ghost use Rattle.floats.specs.Bits;

use super::root;

// Patterns without the sign bit: +infinity (the NaNs lie above it), and the one NaN that these functions answer.
const INFINITY: u64 = 0x7ff0_0000_0000_0000;

const QUIET_NAN: u64 = 0x7ff8_0000_0000_0000;

const MAGNITUDE: u64 = 0x7fff_ffff_ffff_ffff;

const NEGATIVE_ZERO: u64 = 0x8000_0000_0000_0000;

// The magnitude of a pattern: it clears the sign bit, of a NaN too.
pub fn abs(b: u64) -> u64
    ensures { result ≡ Bits.abs b }
{
    b & MAGNITUDE
}

// Whether a pattern is a NaN's, quiet or signalling.
fn is_nan(b: u64) -> bool
    ensures { result ≡ nan_bits binary64 b }
{
    (b & MAGNITUDE) > INFINITY
}

// Whether a's number is below b's. The answer is no if one of them is a NaN.
fn below(a: u64, b: u64) -> bool
    ensures { result ≡ Bits.below a b }
{
    if is_nan(a) {
        return false;
    }
    if is_nan(b) {
        return false;
    }
    f64::from_bits(a) < f64::from_bits(b)
}

// One of two patterns. Two NaNs give QUIET_NAN; a NaN and a number give the number; of two numbers it is the first if `first` is
// true.
fn pick(first: bool, a: u64, b: u64) -> u64
    ensures { result ≡ Bits.pick first a b }
{
    if is_nan(a) {
        if is_nan(b) {
            return QUIET_NAN;
        }
        return b;
    }
    if is_nan(b) {
        return a;
    }
    if first { a } else { b }
}

// The smaller of two numbers' patterns. Equal numbers give b; zeros of either sign are equal.
pub fn min(a: u64, b: u64) -> u64
    ensures { result ≡ Bits.min a b }
{
    pick(below(a, b), a, b)
}

// The larger of two numbers' patterns. Equal numbers give b; zeros of either sign are equal.
pub fn max(a: u64, b: u64) -> u64
    ensures { result ≡ Bits.max a b }
{
    pick(below(b, a), a, b)
}

// The pattern of the square root, rounded to the nearest. A NaN or a number below zero gives QUIET_NAN.
pub fn sqrt(b: u64) -> u64
    ensures { result ≡ Bits.sqrt b }
{
    if b == 0 {
        return b;
    }
    if b < INFINITY {
        return root::sqrt(b);
    }
    if b == INFINITY {
        return b;
    }
    if b == NEGATIVE_ZERO {
        return b;
    }
    QUIET_NAN
}
