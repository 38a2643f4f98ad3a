// Puts the bits of a float into a lent slice from a place on. Each function answers the place after what it put.
ghost use Rattle.std.specs.Prelude.{◌≡◌, ◌+◌, ◌≤◌, ◌<◌, length};
ghost use Rattle.std.specs.Float.{binary64};
ghost use Rattle.std.specs.Float.Ieee.{to_bits};
ghost use Rattle.put_text.specs.Workings.Put.{Put, PutIn};
ghost use Rattle.answer_lines.specs.Lines as lines;
ghost use Rattle.answer_lines.specs.Sizes as sizes;

use put_text::put_byte;

// The last k hex digits of a number.
fn put_hex(out: &mut [u8], at: usize, k: usize, n: u64) -> usize
    requires { at + k ≤ length out.old }
    ensures { Put (lines.hex k n) out.old at out.new result }
{
    if k == 0 {
        return at;
    }
    let next = put_hex(out, at, k - 1, n / 16);
    out[next] = glyph(n % 16);
    next + 1
}

fn glyph(d: u64) -> u8
    requires { d < 16 }
    ensures { result ≡ lines.glyph d }
{
    if d < 10 {
        return 48 + d as u8;
    }
    87 + d as u8
}

// The bits of a number. Every NaN gives the same bits.
fn bits(x: f64) -> u64
    ensures { result ≡ to_bits binary64 x }
{
    if x != x {
        return 0x7ff8_0000_0000_0000;
    }
    f64::to_bits(x)
}

// A space and a number's bits.
pub fn put_number(out: &mut [u8], at: usize, x: f64) -> usize
    requires { at + sizes.float ≤ length out.old }
    ensures { PutIn sizes.float (lines.number_text x) out.old at out.new result }
{
    let next = put_byte(out, at, b' ');
    put_hex(out, next, 16, bits(x))
}
