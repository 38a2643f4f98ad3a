// The f64 numbers that whole numbers stand for, and the trace of a vertex.
ghost use Rattle.std.specs.Prelude.{◌≡◌};
ghost use Rattle.layouts.specs.Layout.{whole};
ghost use Rattle.layouts.specs.Numbers;

// the trace of every vertex: a layout has no traces
pub const TRACE: f64 = 0.0;

// n or -n as a float. 0 is always +0.
pub fn coordinate(negative: bool, n: u64) -> f64
    ensures { result ≡ Numbers.coordinate (whole negative n) }
{
    let x = std::num::nearest_u64_to_f64(n);
    if n == 0 {
        return x;
    }
    if negative {
        return -x;
    }
    x
}

// n / 65,536 or its negative as a float.
pub fn bulge(negative: bool, n: u64) -> f64
    ensures { result ≡ Numbers.bulge (whole negative n) }
{
    coordinate(negative, n) / 65536.0
}
