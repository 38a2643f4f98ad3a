// How text is written: bytes, words and decimal numbers, put into a lent slice from a place on. Each function answers the place
// after what it put. specs/Workings/Put.antt says what the slice holds then, and specs/Decimal.antt has the digits of a number.
#![tactic(auto)]

ghost use Rattle.std.specs.Prelude.{[], ◌∷◌, ◌+◌, ◌≤◌, ◌<◌, length};
ghost use Rattle.put_text.specs.Decimal.{decimal};
ghost use Rattle.put_text.specs.Workings.Put.{Put, PutIn};
ghost use Rattle.put_text.specs.Sizes as sizes;

// A byte.
pub fn put_byte(out: &mut [u8], at: usize, b: u8) -> usize
    requires { at < length out.old }
    ensures { Put (b ∷ []) out.old at out.new result }
{
    out[at] = b;
    at + 1
}

// A word.
pub fn put_word(out: &mut [u8], at: usize, word: &[u8]) -> usize
    requires { at + length word.now ≤ length out.old }
    ensures { Put word.now out.old at out.new result }
{
    for (i, b) in word.iter().enumerate() {
        out[at + i] = *b;
    }
    at + word.len()
}

// A number in decimal digits, at most 20 of them.
pub fn put_whole(out: &mut [u8], at: usize, n: u64) -> usize
    requires { at + sizes.whole ≤ length out.old }
    ensures { PutIn sizes.whole (decimal n) out.old at out.new result }
{
    put_decimal(out, at, n)
}

// A number in decimal digits, where there is room for as many as it has.
pub fn put_decimal(out: &mut [u8], at: usize, n: u64) -> usize
    requires { at + length (decimal n) ≤ length out.old }
    ensures { Put (decimal n) out.old at out.new result }
{
    put_digits(out, at, n)
}

fn put_digits(out: &mut [u8], at: usize, n: u64) -> usize
    requires { at + length (decimal n) ≤ length out.old }
    ensures { Put (decimal n) out.old at out.new result }
{
    if n < 10 {
        out[at] = 48 + n as u8;
        return at + 1;
    }
    let next = put_digits(out, at, n / 10);
    out[next] = 48 + (n % 10) as u8;
    next + 1
}
