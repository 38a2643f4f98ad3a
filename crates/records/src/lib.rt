// Recorded answers: it reads a text line of a recorded list and judges it. The program `replay` uses it on a whole list.
#![tactic(auto)]

ghost use Rattle.std.specs.Prelude.{◌≡◌, ◌≤◌};
ghost use Rattle.records.specs.Text.{most_numbers, name_of};
ghost use Rattle.records.specs.Calls.{numbers_of, is_right};

mod calls;
mod names;
mod on_crossing;
mod on_floats;
mod on_plane;
mod text;

// How many hex digits a number has.
pub const DIGITS: usize = 16;

// How many bytes a number takes in a text line, with the byte after it.
pub const FIELD: usize = DIGITS + 1;

// The most numbers that a text line has.
pub const MOST: usize = 18;

// How many numbers follow a name, which is the head of a text line; 0 if it is no call's name.
pub fn numbers(head: &[u8; 5]) -> usize
    ensures value { result ≡ numbers_of (name_of head.now) }
    ensures upper_bound { result ≤ most_numbers }
{
    calls::numbers(text::name(head))
}

// Whether a text line is a record and has our answer. The text line comes in two parts, since its head, the name, shows how long
// the rest is.
pub fn is_right(head: &[u8; 5], body: &[u8]) -> bool
    ensures { result ≡ is_right head.now body.now }
{
    let call = text::name(head);
    if text::is_line(body, calls::numbers(call)) {
        return calls::is_ours(call, body);
    }
    false
}
