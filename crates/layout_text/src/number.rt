// Numbers in a text. `end` is the kind of the byte that must follow a number; that byte is read too. A function here answers none
// if there is no such number.
ghost use Rattle.std.specs.Prelude.{◌≡◌, true, false, ◌≤◌, ◌<◌, drop};
ghost use Rattle.layouts.specs.Limits as limit;
ghost use Rattle.layout_text.specs.Workings.Reader.{digits_of, positive_of, zero_of, count_of, whole_of, other};
ghost use Rattle.layout_text.specs.Workings.Shown.{shown_number};

use super::bytes;

// A whole number, by how many minus signs it has, 0 or 1, and its magnitude; and the place after it. These are three words and not a
// `Signed` and a place: a struct within one is moved as a block, stored in parts and loaded whole.
#[derive(Clone, Copy)]
pub struct Number {
    pub minuses: u64,
    pub magnitude: u64,
    pub next: usize,
}

// The digits from `start` up to the byte `end`.
fn digits(text: &[u8], start: usize, negative: bool, most: u64, end: u64) -> Option<Number>
    requires { most ≤ limit.coordinate }
    ensures { shown_number text.now result ≡ digits_of negative most end 0 (drop start text.now) }
{
    let mut n: u64 = 0;
    for i in start..text.len() {
        let k = bytes::kind(text[i]);
        if k > 9 {
            if k == end {
                return Some(Number {
                    minuses: u64::from(negative),
                    magnitude: n,
                    next: i + 1,
                });
            }
            return None;
        }
        n = n * 10 + k;
        if n > most {
            return None;
        }
    }
    None
}

// A number above 0.
fn positive(text: &[u8], start: usize, negative: bool, most: u64, end: u64) -> Option<Number>
    requires { most ≤ limit.coordinate }
    ensures { shown_number text.now result ≡ positive_of negative most end (drop start text.now) }
{
    let k = bytes::kind_at(text, start);
    if k == 0 {
        return None;
    }
    if k > 9 {
        return None;
    }
    digits(text, start, negative, most, end)
}

// The number 0, whose digit has been read.
fn zero(text: &[u8], start: usize, end: u64) -> Option<Number>
    requires { end < other }
    ensures { shown_number text.now result ≡ zero_of end (drop start text.now) }
{
    if bytes::kind_at(text, start) == end {
        return Some(Number {
            minuses: 0,
            magnitude: 0,
            next: start + 1,
        });
    }
    None
}

// A number without a minus.
pub fn count(text: &[u8], start: usize, most: u64, end: u64) -> Option<Number>
    requires most_le_coordinate { most ≤ limit.coordinate }
    requires end_lt_other { end < other }
    ensures { shown_number text.now result ≡ count_of most end (drop start text.now) }
{
    if bytes::kind_at(text, start) == 0 {
        return zero(text, start + 1, end);
    }
    positive(text, start, false, most, end)
}

// A number with or without a minus.
pub fn whole(text: &[u8], start: usize, most: u64, end: u64) -> Option<Number>
    requires most_le_coordinate { most ≤ limit.coordinate }
    requires end_lt_other { end < other }
    ensures { shown_number text.now result ≡ whole_of most end (drop start text.now) }
{
    if bytes::kind_at(text, start) == bytes::MINUS {
        return positive(text, start + 1, true, most, end);
    }
    count(text, start, most, end)
}
