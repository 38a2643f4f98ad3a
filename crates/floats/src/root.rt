// The square root of a number above zero, digit by digit. It only shifts, adds, subtracts and compares: a chip without a 64-bit
// product runs it as fast as any other.
ghost use Rattle.std.specs.Prelude.{◌≡◌, ◌*◌, ◌^◌, ◌<◌, ◌≤◌};
ghost use Rattle.floats.specs.Bits;
ghost use Rattle.floats.specs.Workings.Root;
ghost use Rattle.floats.specs.Laws.Turns.{Room, Going};

// A number above zero in parts: it is m * 2 ^ (e - 2098), and m has 53 digits.
#[derive(Clone, Copy)]
pub struct Scaled {
    pub m: u64,
    pub e: u64,
}

// A root under way. `unit` is what the next digit stands for, and what is left of the number is `rest` such units. `step` is how
// many of them the next digit takes: with r for the digits so far, (r + unit)^2 is r^2 and 2 * r + unit units more.
#[derive(Clone, Copy)]
pub struct Turning {
    pub rest: u64,
    pub step: u64,
    pub unit: u64,
}

// A difference that would be below zero comes out at least as large as this, and no other does.
const BELOW_ZERO: u64 = 0x8000_0000_0000_0000;

// One digit more: it is 1 if enough is left for it. The next digit's unit is half of this one's.
fn turn(s: Turning) -> Turning
    requires { Room s }
    ensures { result ≡ Root.turn s }
{
    let half: u64 = s.unit >> 1;
    let low: u64 = s.step - half;
    let left: u64 = std::num::wrapping_sub_u64(s.rest, s.step);
    if left >= BELOW_ZERO {
        return Turning {
            rest: s.rest + s.rest,
            step: low,
            unit: half,
        };
    }
    Turning {
        rest: left + left,
        step: low + s.unit + s.unit,
        unit: half,
    }
}

// Four digits more.
fn four_turns(s: Turning) -> Turning
    requires { Going 4 s }
    ensures { result ≡ Root.four_turns s }
{
    let s1: Turning = turn(s);
    let s2: Turning = turn(s1);
    let s3: Turning = turn(s2);
    turn(s3)
}

// The rounded root of m * 2 ^ (odd + 52): 53 digits, and 1 more in the last place if the root lies above the middle.
//
// The first digit is a 1, since m has all its digits; each other is tried once. The turns stand in a row, not in a loop: the
// compiler then makes each of them a few moves, but a loop gets a branch that cannot be predicted. It is for the compiler too
// that the first digit is read off m: with a constant in its place the turns become longer (docs/MEASURES.md).
fn rounded(m: u64, odd: u64) -> u64
    requires fact_1 { 2 ^ 52 ≤ m }
    requires fact_2 { m < 2 ^ 53 }
    requires fact_3 { odd < 2 }
    ensures { result ≡ Root.rounded (m * 2 ^ odd) }
{
    let first: u64 = (m >> 52) << 52;
    let half: u64 = first >> 1;
    let left: u64 = (m << odd) - first;
    let s0: Turning = Turning {
        rest: left + left,
        step: first + first + half,
        unit: half,
    };
    let s1: Turning = four_turns(s0);
    let s2: Turning = four_turns(s1);
    let s3: Turning = four_turns(s2);
    let s4: Turning = four_turns(s3);
    let s5: Turning = four_turns(s4);
    let s6: Turning = four_turns(s5);
    let s7: Turning = four_turns(s6);
    let s8: Turning = four_turns(s7);
    let s9: Turning = four_turns(s8);
    let s10: Turning = four_turns(s9);
    let s11: Turning = four_turns(s10);
    let s12: Turning = four_turns(s11);
    let s13: Turning = four_turns(s12);
    // With r for the digits, `step` is now 2 * r + 1, and `rest` is twice what is left of the number. The root lies above the middle
    // if more than r is left: (r + 1/2)^2 is r^2 + r + 1/4, and what is left is whole.
    let doubled: u64 = s13.step - 1;
    let root: u64 = doubled >> 1;
    if s13.rest <= doubled {
        return root;
    }
    root + 1
}

// The digits of a subnormal number, shifted up to 53 places.
fn raised(t: u64) -> Scaled
    requires fact_1 { 0 < t }
    requires fact_2 { t < 2 ^ 52 }
    ensures { result ≡ Root.raised t }
{
    let mut m: u64 = t;
    let mut e: u64 = 1024;
    while m < 0x10_0000_0000_0000 {
        m = m + m;
        e = e - 1;
    }
    Scaled { m, e }
}

// The parts of the number of a pattern above zero and below infinity.
fn parts(b: u64) -> Scaled
    requires fact_1 { 0 < b }
    requires fact_2 { b < 0x7ff0_0000_0000_0000 }
    ensures { result ≡ Root.parts b }
{
    let field: u64 = b >> 52;
    let t: u64 = b - (field << 52);
    if field == 0 {
        return raised(t);
    }
    Scaled {
        m: t + 0x10_0000_0000_0000,
        e: field + 1023,
    }
}

// The pattern of the root of a pattern above zero and below infinity.
//
// The root of m * 2 ^ (e - 2098) is computed to as many digits as an f64 has, and what is left rounds it: a tie cannot happen. An
// odd e gives one place to the digits. The rounded digits are added to the exponent's field, so that they carry into it.
pub fn sqrt(b: u64) -> u64
    requires fact_1 { 0 < b }
    requires fact_2 { b < 0x7ff0_0000_0000_0000 }
    ensures { result ≡ Bits.sqrt b }
{
    let p: Scaled = parts(b);
    let m: u64 = p.m;
    let e: u64 = p.e;
    let half: u64 = e >> 1;
    let odd: u64 = e - half - half;
    ((half - 1) << 52) + rounded(m, odd)
}
