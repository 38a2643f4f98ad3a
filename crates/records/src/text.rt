// The text of a recorded list. A text line is a call's name, then numbers as fields of sixteen hex digits with one space before
// each, then a newline. A call's name shows how many numbers follow it, and so how long its text lines are.
ghost use Rattle.std.specs.Prelude.{◌≡◌, ◌≤◌, ◌<◌};
ghost use Rattle.std.specs.Float.Ieee.{nan_bits};
ghost use Rattle.std.specs.Float.{binary64};
ghost use Rattle.records.specs.Text.{most_numbers, digit_of, word_of, name_of, after_of, field_at, is_number, is_line};
ghost use Rattle.records.specs.Text.{value_at, number_at};

use super::{DIGITS, FIELD};

// A call's name of four letters and the space after it, as one number.
pub fn name(head: &[u8; 5]) -> u64
    ensures { result ≡ name_of head.now }
{
    let two = wide(head[0]) * 256 + wide(head[1]);
    let four = (two * 256 + wide(head[2])) * 256 + wide(head[3]);
    four * 256 + wide(head[4])
}

// Whether the text is n fields, each followed by the right byte.
pub fn is_line(body: &[u8], n: usize) -> bool
    requires { n ≤ most_numbers }
    ensures { result ≡ is_line n body.now }
{
    if body.len() != n * FIELD {
        return false;
    }
    for i in 0..n {
        if body[i * FIELD + DIGITS] != after(n, i) {
            return false;
        }
        if !is_number(field_at(body, i)) {
            return false;
        }
    }
    true
}

// The byte after field i of n: a space, or a newline after the last.
fn after(n: usize, i: usize) -> u8
    requires { i < n }
    ensures { result ≡ after_of n i }
{
    if i + 1 == n {
        return b'\n';
    }
    b' '
}

// Field i of a text. None if it is broken.
fn field_at(body: &[u8], i: usize) -> Option<u64>
    requires { i < most_numbers }
    ensures { result ≡ field_at body.now i }
{
    let at = i * FIELD;
    let end = at + DIGITS;
    if body.len() < end {
        return None;
    }
    word(&body[at..end])
}

fn is_number(f: Option<u64>) -> bool
    ensures { result ≡ is_number f }
{
    f.is_some()
}

// The number of field i as a pattern; 0 if the field is broken.
pub fn value(body: &[u8], i: usize) -> u64
    requires { i < most_numbers }
    ensures { result ≡ value_at body.now i }
{
    field_at(body, i).unwrap_or(0)
}

// The number of field i. Each NaN's pattern gives a NaN.
pub fn number(body: &[u8], i: usize) -> f64
    requires { i < most_numbers }
    ensures { result ≡ number_at body.now i }
{
    let pattern = value(body, i);
    if is_nan(pattern) {
        return 0.0 / 0.0;
    }
    f64::from_bits(pattern)
}

// Whether the pattern is a NaN's.
pub fn is_nan(pattern: u64) -> bool
    ensures { result ≡ nan_bits binary64 pattern }
{
    pattern % 0x8000_0000_0000_0000 > 0x7ff0_0000_0000_0000
}

// The value of a field of hex digits. If there are more than sixteen, only the last sixteen count. None if a byte is no digit.
fn word(text: &[u8]) -> Option<u64>
    ensures { result ≡ word_of text.now }
{
    let mut value: u64 = 0;
    for b in text {
        let d = digit(*b);
        if d > 15 {
            return None;
        }
        value = value % 0x1000_0000_0000_0000 * 16 + d;
    }
    Some(value)
}

// The value of a byte as a hex digit in lower case; 16 if it is none.
fn digit(b: u8) -> u64
    ensures { result ≡ digit_of b }
{
    match b {
        b'0'..=b'9' => wide(b) - 48,
        b'a'..=b'f' => wide(b) - 87,
        _ => 16,
    }
}

fn wide(b: u8) -> u64
    ensures value { result ≡ b }
    ensures upper_bound { result < 256 }
{
    b as u64
}
