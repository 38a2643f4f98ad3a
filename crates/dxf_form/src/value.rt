// The f64 of a number in a drawing's text, and the trace of a vertex.
ghost use Rattle.std.specs.Prelude.{◌≡◌};
ghost use Rattle.layouts.specs.Layout.{whole};
ghost use Rattle.dxf_form.specs.Numbers;

use layouts::value::coordinate;

// how many digits may follow the point, and how many millionths are 1
pub const PLACES: usize = 6;

pub const MILLION: u64 = 1000000;

// the most millionths that are divided, 2^53
pub const MOST: u64 = 9007199254740992;

// the trace of every vertex: a drawing has no traces
pub const TRACE: f64 = 0.0;

// n or -n millionths as a float. 0 is always +0; a number with more than 2^53 millionths is read as one with 2^53.
pub fn value(negative: bool, n: u64) -> f64
    ensures { result ≡ Numbers.value (whole negative n) }
{
    if n > MOST {
        return coordinate(negative, MOST) / 1000000.0;
    }
    coordinate(negative, n) / 1000000.0
}
