// The tests of one number.
ghost use Rattle.std.specs.Prelude.{◌≡◌};
ghost use Rattle.std.specs.Float.Ieee.{is_nan};
ghost use Rattle.checks.specs.Number;
ghost use Rattle.checks.specs.Workings.Inside;

use super::limit;

// 2^52: from here to 2^53 the floats are the whole numbers
const WHOLE: f64 = 4503599627370496.0;

// Whether x is a NaN.
pub fn is_nan(x: f64) -> bool
    ensures { result ≡ is_nan x }
{
    // Only a NaN differs from itself.
    x != x
}

// Whether x is an infinity, of either sign.
pub fn is_infinite(x: f64) -> bool
    ensures { result ≡ Number.is_infinite x }
{
    (x == 1.0 / 0.0) | (x == -1.0 / 0.0)
}

// Whether x is a NaN or an infinity.
pub fn not_finite(x: f64) -> bool
    ensures { result ≡ Number.not_finite x }
{
    is_nan(x) | is_infinite(x)
}

// Whether x is above `most` in magnitude. A NaN is not.
pub fn beyond(most: f64, x: f64) -> bool
    ensures { result ≡ Number.beyond most x }
{
    floats::abs(x) > most
}

// Whether x is below `least` or above `most`. A NaN is neither.
pub fn outside(least: f64, most: f64, x: f64) -> bool
    ensures { result ≡ Number.outside least most x }
{
    (x < least) | (x > most)
}

// Whether x is no whole number from 0 to 255. A NaN is none, and -0 is 0.
pub fn no_trace(x: f64) -> bool
    ensures { result ≡ Number.no_trace x }
{
    // The sum is rounded to a whole number. So 2^52 can be added and taken away again, and x stays the same, only if x is whole.
    outside(0.0, limit::TRACE_MOST, x) | (x + WHOLE - WHOLE != x)
}

// Whether x is a number and at most `most` in magnitude, by comparisons alone.
pub fn inside(most: f64, x: f64) -> bool
    ensures { result ≡ Inside.inside most x }
{
    (x <= most) & (-most <= x)
}

// Whether x is a number from `least` to `most`, by comparisons alone.
pub(crate) fn between(least: f64, most: f64, x: f64) -> bool
    ensures { result ≡ Inside.between least most x }
{
    (least <= x) & (x <= most)
}
