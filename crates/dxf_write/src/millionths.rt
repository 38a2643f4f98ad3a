// The millionths whose text is read back as a float.
ghost use Rattle.std.specs.Prelude.{◌≡◌, false, is_nan};
ghost use Rattle.layouts.specs.Layout.{whole};
ghost use Rattle.dxf_write.specs.Millionths;
ghost use Rattle.dxf_write.specs.Workings.Told as told;

use dxf_form::value::value;
use floats::abs;

// 2^64
const TOP: f64 = 18446744073709551616.0;

// A number that a text gives, by its sign and its millionths.
#[derive(Clone, Copy, PartialEq, Eq, Debug)]
pub struct Number {
    pub negative: bool,
    pub millionths: u64,
}

// A vertex whose numbers all have a text.
#[derive(Clone, Copy, PartialEq, Eq, Debug)]
pub struct Vertex {
    pub x: Number,
    pub y: Number,
    pub bulge: Number,
}

// Whether the whole part of y is a number of 64 bits.
fn has_part(y: f64) -> bool
    ensures { result ≡ Millionths.has_part y }
{
    (0.0 <= y) & (y < TOP)
}

// The candidate, if it is read as x.
fn tested(x: f64, n: Number) -> Option<Number>
    requires { is_nan x ≡ false }
    ensures { told.found_by result ≡ Millionths.tested x (whole n.negative n.millionths) }
{
    let v = value(n.negative, n.millionths);
    if f64::to_bits(v) == f64::to_bits(x) {
        return Some(n);
    }
    None
}

// The millionths of x, if a text has its value: |x| * 1,000,000, rounded to a whole number, is the only candidate.
pub fn millionths(x: f64) -> Option<Number>
    ensures { told.found_by result ≡ Millionths.millionths_of x }
{
    let y = abs(x) * 1000000.0 + 0.5;
    if has_part(y) {
        let n = Number {
            negative: x < 0.0,
            millionths: std::num::truncating_f64_to_u64(y),
        };
        return tested(x, n);
    }
    None
}
