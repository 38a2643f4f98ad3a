// Digits in a text, and the number that they make. A number that a u64 cannot hold is kept as one of two large numbers, by
// whether it is odd: specs/Workings/Kept.antt says what that still tells.
ghost use Rattle.std.specs.Prelude.{◌≡◌, ◌<◌, length, drop};
ghost use Rattle.dxf_form.specs.Workings.Reader.{first_byte};
ghost use Rattle.dxf_read.specs.Workings.Kept as kept;
ghost use Rattle.dxf_read.specs.Workings.Shown.{shown_run};

use dxf_form::value::PLACES;

// the largest number that takes a further digit
pub const TOP: u64 = 1844674407370955160;

// what is kept of a larger number with one more digit: this, and 1 more if the digit is odd
pub const HIGH: u64 = 18446744073709551614;

// Digits: the number, how many they are, and the place after them.
#[derive(Clone, Copy, PartialEq, Eq, Debug)]
pub struct Run {
    pub number: u64,
    pub many: usize,
    pub next: usize,
}

fn wide(b: u8) -> u64
    ensures { result ≡ b }
{
    b as u64
}

// Byte i; 0 past the end.
pub fn byte_at(text: &[u8], i: usize) -> u64
    ensures value { result ≡ first_byte (drop i text.now) }
    ensures i_in_bounds { 0 < result → i < length text.now }
{
    if text.len() <= i {
        return 0;
    }
    wide(text[i])
}

// The number n with one more digit d.
fn grown(n: u64, d: u64) -> u64
    requires { d < 10 }
    ensures { result ≡ kept.grown n d }
{
    if n > TOP {
        return HIGH + d % 2;
    }
    n * 10 + d
}

// The digits from `start` on, after those of `before`.
pub fn digits(text: &[u8], start: usize, before: u64) -> Run
    ensures { shown_run text.now result ≡ kept.digits before 0 (drop start text.now) }
{
    let mut n = before;
    let mut many: usize = 0;
    for i in start..text.len() {
        let b = wide(text[i]);
        if b < 48 {
            return Run {
                number: n,
                many: many,
                next: i,
            };
        }
        if b > 57 {
            return Run {
                number: n,
                many: many,
                next: i,
            };
        }
        n = grown(n, b - 48);
        many += 1;
    }
    Run {
        number: n,
        many: many,
        next: text.len(),
    }
}

// The millionths of a number with so many digits after the point.
pub fn millionths(n: u64, many: usize) -> u64
    ensures { result ≡ kept.millionths n many }
{
    let mut m = n;
    for _ in many..PLACES {
        m = grown(m, 0);
    }
    m
}
