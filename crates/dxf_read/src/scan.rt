// One pass over a text: its first fault, or what its groups give. The vertices' floats go into a lent slice.
ghost use Rattle.std.specs.Prelude.{◌≤◌, length};
ghost use Rattle.dxf_read.specs.Workings.Scanning.{room, Scanned};

use super::fault::LineFault;
use super::pair::pair_at;
use super::state::step;
use super::store::store;
use dxf_form::order::{Due, after, may_end};
use dxf_form::refusal;

// How many vertices there are; the value of 90 and its line; whether the value of 70 is odd.
#[derive(Clone, Copy, PartialEq, Eq, Debug)]
pub struct State {
    pub vertices: usize,
    pub count: u64,
    pub count_line: u64,
    pub closed: bool,
}

// Reads a text, and writes its vertices to the front of `out`, if they are not too many. Answers what all groups give.
pub fn scan(text: &[u8], out: &mut [f64]) -> Result<State, LineFault>
    requires { room ≤ length out.old }
    ensures { Scanned text.now result out.old out.new }
{
    let mut s = State {
        vertices: 0,
        count: 0,
        count_line: 0,
        closed: false,
    };
    let mut due = Due::Count;
    let mut lines: u64 = 0;
    let mut at = 0;
    while at < text.len() {
        let pair = match pair_at(text, at, due) {
            Ok(pair) => pair,
            Err(fault) => {
                return Err(LineFault {
                    number: fault.number,
                    line: lines + fault.line,
                });
            }
        };
        store(out, s.vertices, pair);
        s = step(s, pair, lines);
        due = after(due, pair.turn);
        at = pair.next;
        lines += 2;
    }
    if may_end(due) {
        return Ok(s);
    }
    Err(LineFault {
        number: refusal::GROUP,
        line: lines + 1,
    })
}
