// Puts the text of a path into a lent slice, group by group. Each function answers the place after what it put.
ghost use Rattle.std.specs.Prelude.{◌≡◌, ◌+◌, ◌≤◌, [], ◌∷◌, ◌++◌, length};
ghost use Rattle.layouts.specs.Layout.{whole};
ghost use Rattle.put_text.specs.Decimal.{decimal};
ghost use Rattle.put_text.specs.Workings.Put.{Put};
ghost use Rattle.dxf_write.specs.Written;
ghost use Rattle.dxf_write.specs.Workings.Told as told;

use super::millionths::{Number, Vertex};
use dxf_form::order;
use dxf_form::value::MILLION;
use put_text::{put_byte, put_decimal};

// The last digit of a number, as a byte.
fn digit_byte(n: u64) -> u8
    ensures { result ≡ Written.digit n }
{
    48 + (n % 10) as u8
}

// The last six digits of a number.
fn put_six(out: &mut [u8], at: usize, n: u64) -> usize
    requires { at + 6 ≤ length out.old }
    ensures { Put (Written.six_digits n) out.old at out.new result }
{
    out[at] = digit_byte(n / 100000);
    out[at + 1] = digit_byte(n / 10000);
    out[at + 2] = digit_byte(n / 1000);
    out[at + 3] = digit_byte(n / 100);
    out[at + 4] = digit_byte(n / 10);
    out[at + 5] = digit_byte(n);
    at + 6
}

// A number without its sign, by its millionths.
fn put_size(out: &mut [u8], at: usize, n: u64) -> usize
    requires { at + length (Written.size_bytes n) ≤ length out.old }
    ensures { Put (Written.size_bytes n) out.old at out.new result }
{
    let point = put_decimal(out, at, n / MILLION);
    let digits = put_byte(out, point, b'.');
    put_six(out, digits, n % MILLION)
}

// A number. 0 has no minus.
fn put_number(out: &mut [u8], at: usize, n: Number) -> usize
    requires { at + length (Written.number_bytes (whole n.negative n.millionths)) ≤ length out.old }
    ensures { Put (Written.number_bytes (whole n.negative n.millionths)) out.old at out.new result }
{
    if n.millionths == 0 {
        return put_size(out, at, n.millionths);
    }
    if n.negative {
        let next = put_byte(out, at, b'-');
        return put_size(out, next, n.millionths);
    }
    put_size(out, at, n.millionths)
}

// A line with a whole number.
fn put_line(out: &mut [u8], at: usize, n: u64) -> usize
    requires { at + (length (decimal n) + 1) ≤ length out.old }
    ensures { Put (decimal n ++ (10 ∷ [])) out.old at out.new result }
{
    let end = put_decimal(out, at, n);
    put_byte(out, end, b'\n')
}

// A group whose value is a whole number.
pub fn put_whole_group(out: &mut [u8], at: usize, code: u64, n: u64) -> usize
    requires { at + length (Written.group_bytes code (decimal n)) ≤ length out.old }
    ensures { Put (Written.group_bytes code (decimal n)) out.old at out.new result }
{
    let next = put_line(out, at, code);
    put_line(out, next, n)
}

// A group whose value is a number.
fn put_number_group(out: &mut [u8], at: usize, code: u64, n: Number) -> usize
    requires { at + length (Written.group_bytes code (Written.number_bytes (whole n.negative n.millionths))) ≤ length out.old }
    ensures { Put (Written.group_bytes code (Written.number_bytes (whole n.negative n.millionths)))
        out.old at out.new result }
{
    let next = put_line(out, at, code);
    let end = put_number(out, next, n);
    put_byte(out, end, b'\n')
}

// The three groups of a vertex.
pub fn put_vertex(out: &mut [u8], at: usize, v: Vertex) -> usize
    requires { at + length (Written.vertex_bytes (told.corner_by v)) ≤ length out.old }
    ensures { Put (Written.vertex_bytes (told.corner_by v)) out.old at out.new result }
{
    let y_at = put_number_group(out, at, order::X, v.x);
    let b_at = put_number_group(out, y_at, order::Y, v.y);
    put_number_group(out, b_at, order::BULGE, v.bulge)
}
