// Replays a recorded list of answers from standard input. It prints how many records the list has, and for how many our answer
// differs. A text line that is no record counts as a difference, and so does a record that is cut short. If a read or a write
// fails, it says so in one text line on standard error.
#![tactic(auto)]

use std::io::{Stdin, Stdout};
use streams::ReadError;

// How many records a list has, and for how many our answer differs.
#[derive(Clone, Copy)]
struct Tally {
    records: u64,
    differences: u64,
}

fn main(rt: HostRuntime) {
    let Ok(t) = replay(rt.stdin()) else {
        let _ = eprintln!(rt; "replay: standard input cannot be read");
        return;
    };
    if !say(rt.stdout(), t.records, t.differences) {
        let _ = eprintln!(rt; "replay: standard output cannot be written");
    }
}

// Writes the counts. The answer is no if they could not be written.
fn say(stdout: Stdout, records: u64, differences: u64) -> bool {
    put(stdout, b"replayed ")
        && put_number(stdout, records)
        && put(stdout, b" differences ")
        && put_number(stdout, differences)
        && put(stdout, b"\n")
}

fn put(stdout: Stdout, text: &[u8]) -> bool {
    streams::write_full(stdout, text) == text.len()
}

fn put_number(stdout: Stdout, n: u64) -> bool {
    let mut digits = [0u8; 20];
    let k = io::decimal(n, &mut digits);
    put(stdout, &digits[..k])
}

// Replays the whole list. Nothing says that the input ends, so the loop also ends where the count would not fit.
fn replay(stdin: Stdin) -> Result<Tally, ReadError> {
    let mut differences: u64 = 0;
    for records in 0..u64::MAX {
        let Some(right) = next(stdin)? else {
            return Ok(Tally {
                records,
                differences,
            });
        };
        if !right {
            differences += 1;
        }
    }
    Ok(Tally {
        records: u64::MAX,
        differences,
    })
}

// Reads and judges one record: its name, then as many numbers as belong to that name. None at the end of the input.
fn next(stdin: Stdin) -> Result<Option<bool>, ReadError> {
    let mut head = [0u8; 5];
    if streams::read_full(stdin, &mut head)? == 0 {
        return Ok(None);
    }
    let end = records::numbers(&head) * records::FIELD;
    let mut body = [0u8; records::MOST * records::FIELD];
    let right = rest(stdin, &head, &mut body[..end])?;
    Ok(Some(right))
}

// Reads and judges what follows a name. What the input lacks stays 0, and no record has a 0 byte.
fn rest(stdin: Stdin, head: &[u8; 5], body: &mut [u8]) -> Result<bool, ReadError> {
    streams::read_full(stdin, body)?;
    Ok(records::is_right(head, body))
}
