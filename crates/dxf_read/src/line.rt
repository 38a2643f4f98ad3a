// Lines of a text: codes, numbers, and values that are skipped. Each function reads the newline too, and answers the place after
// it.
ghost use Rattle.std.specs.Prelude.{◌≡◌, drop};
ghost use Rattle.dxf_form.specs.Workings.Reader.{past_blanks, signed_end, skip_line};
ghost use Rattle.dxf_read.specs.Workings.Kept as kept;
ghost use Rattle.dxf_read.specs.Workings.Shown.{shown_whole, shown_number, shown_place};

use super::digits;
use super::digits::{byte_at, millionths};
use dxf_form::value::PLACES;

const NEWLINE: u64 = 10;

const BLANK: u64 = 32;

const MINUS: u64 = 45;

const POINT: u64 = 46;

// A whole number and the place after its line.
#[derive(Clone, Copy, PartialEq, Eq, Debug)]
pub struct Whole {
    pub number: u64,
    pub next: usize,
}

// A number: how many minus signs it has, its millionths, and the place after its line. All three are of one size: what would fill
// up the place of a bool is moved along with it, byte by byte, and imports take a third longer.
#[derive(Clone, Copy, PartialEq, Eq, Debug)]
pub struct Number {
    pub minuses: u64,
    pub millionths: u64,
    pub next: usize,
}

// The place after blanks.
fn past_blanks(text: &[u8], start: usize) -> usize
    ensures { drop result text.now ≡ past_blanks (drop start text.now) }
{
    let mut i = start;
    while byte_at(text, i) == BLANK {
        i += 1;
    }
    i
}

// A code, or the value of 90 or 70. Or there is none.
pub fn whole_line(text: &[u8], start: usize) -> Option<Whole>
    ensures { shown_whole text.now result ≡ kept.whole_line (drop start text.now) }
{
    let first = past_blanks(text, start);
    let run = digits::digits(text, first, 0);
    if run.many == 0 {
        return None;
    }
    let end = run.next;
    if byte_at(text, end) == NEWLINE {
        return Some(Whole {
            number: run.number,
            next: end + 1,
        });
    }
    None
}

// The end of a number with n millionths. No minus stands before a zero number.
fn signed_end(text: &[u8], at: usize, negative: bool, n: u64) -> Option<Number>
    ensures { shown_number text.now result ≡ signed_end negative n (drop at text.now) }
{
    if negative & (n == 0) {
        return None;
    }
    if byte_at(text, at) == NEWLINE {
        return Some(Number {
            minuses: u64::from(negative),
            millionths: n,
            next: at + 1,
        });
    }
    None
}

// The digits after the point, and the end. n has the digits before it.
fn after_point(text: &[u8], at: usize, negative: bool, n: u64) -> Option<Number>
    ensures { shown_number text.now result ≡ kept.after_point negative n (drop at text.now) }
{
    let run = digits::digits(text, at, n);
    let many = run.many;
    if (many == 0) | (many > PLACES) {
        return None;
    }
    signed_end(text, run.next, negative, millionths(run.number, many))
}

// A number from its digits on.
fn after_sign(text: &[u8], at: usize, negative: bool) -> Option<Number>
    ensures { shown_number text.now result ≡ kept.after_sign negative (drop at text.now) }
{
    let run = digits::digits(text, at, 0);
    if run.many == 0 {
        return None;
    }
    let end = run.next;
    if byte_at(text, end) == POINT {
        return after_point(text, end + 1, negative, run.number);
    }
    signed_end(text, end, negative, millionths(run.number, 0))
}

// The value of 10, 20 or 42. Or there is none.
pub fn number_line(text: &[u8], start: usize) -> Option<Number>
    ensures { shown_number text.now result ≡ kept.number_line (drop start text.now) }
{
    let first = past_blanks(text, start);
    if byte_at(text, first) == MINUS {
        return after_sign(text, first + 1, true);
    }
    after_sign(text, first, false)
}

// A value that is skipped. Or its line does not end.
pub fn skip_line(text: &[u8], start: usize) -> Option<usize>
    ensures { shown_place text.now result ≡ skip_line (drop start text.now) }
{
    for i in start..text.len() {
        if byte_at(text, i) == NEWLINE {
            return Some(i + 1);
        }
    }
    None
}
