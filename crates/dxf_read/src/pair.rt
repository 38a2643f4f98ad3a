// A group of a text: the line of its code and the line of its value.
ghost use Rattle.std.specs.Prelude.{◌≡◌, drop};
ghost use Rattle.dxf_read.specs.Workings.Kept as kept;
ghost use Rattle.dxf_read.specs.Workings.Pairs.{whole_pair, number_pair, other_pair, shown_pair, SameTurn, InTurn};

use super::fault::LineFault;
use super::line::{Number, Whole, number_line, skip_line, whole_line};
use dxf_form::order::{Due, Turn, turn_at};
use dxf_form::refusal;

// A group: what its code is for, how many minus signs its value has, the magnitude of it, and the place after it.
#[derive(Clone, Copy, PartialEq, Eq, Debug)]
pub struct Pair {
    pub turn: Turn,
    pub minuses: u64,
    pub number: u64,
    pub next: usize,
}

// The group of a whole number.
fn whole_pair(turn: Turn, value: Option<Whole>) -> Result<Pair, LineFault>
    ensures { result ≡ whole_pair turn value }
{
    let Some(whole) = value else {
        return Err(LineFault {
            number: refusal::NUMBER,
            line: 2,
        });
    };
    Ok(Pair {
        turn: turn,
        minuses: 0,
        number: whole.number,
        next: whole.next,
    })
}

// The group of a number.
fn number_pair(turn: Turn, value: Option<Number>) -> Result<Pair, LineFault>
    ensures { result ≡ number_pair turn value }
{
    let Some(number) = value else {
        return Err(LineFault {
            number: refusal::NUMBER,
            line: 2,
        });
    };
    Ok(Pair {
        turn: turn,
        minuses: number.minuses,
        number: number.millionths,
        next: number.next,
    })
}

// A group that is skipped: the place after its value.
fn other_pair(turn: Turn, value: Option<usize>) -> Result<Pair, LineFault>
    ensures { result ≡ other_pair turn value }
{
    let Some(next) = value else {
        return Err(LineFault {
            number: refusal::GROUP,
            line: 2,
        });
    };
    Ok(Pair {
        turn: turn,
        minuses: 0,
        number: 0,
        next: next,
    })
}

// The value that a turn asks for.
fn value_at(text: &[u8], at: usize, turn: Turn) -> Result<Pair, LineFault>
    ensures result_value { shown_pair text.now result ≡ kept.value_for turn (drop at text.now) }
    ensures same_turn { SameTurn turn result }
{
    match turn {
        Turn::Count => whole_pair(turn, whole_line(text, at)),
        Turn::Flags => whole_pair(turn, whole_line(text, at)),
        Turn::X => number_pair(turn, number_line(text, at)),
        Turn::Y => number_pair(turn, number_line(text, at)),
        Turn::Bulge => number_pair(turn, number_line(text, at)),
        Turn::Other => other_pair(turn, skip_line(text, at)),
        Turn::OutOfPlace => Err(LineFault {
            number: refusal::GROUP,
            line: 1,
        }),
    }
}

// The group whose code was read, from its value on.
fn after_code(text: &[u8], at: usize, turn: Turn) -> Result<Pair, LineFault>
    ensures result_value { shown_pair text.now result ≡ kept.after_code turn (drop at text.now) }
    ensures same_turn { SameTurn turn result }
{
    if turn == Turn::OutOfPlace {
        return Err(LineFault {
            number: refusal::GROUP,
            line: 1,
        });
    }
    if text.len() <= at {
        return Err(LineFault {
            number: refusal::GROUP,
            line: 2,
        });
    }
    value_at(text, at, turn)
}

// The group at a place where `due` is due.
pub fn pair_at(text: &[u8], at: usize, due: Due) -> Result<Pair, LineFault>
    ensures result_value { shown_pair text.now result ≡ kept.pair_of due (drop at text.now) }
    ensures in_turn { InTurn due result }
{
    let Some(code) = whole_line(text, at) else {
        return Err(LineFault {
            number: refusal::NUMBER,
            line: 1,
        });
    };
    after_code(text, code.next, turn_at(due, code.number))
}
