// Standard input and output of the programs: a slice is read until it is full or the input ends, and written to its end. A read
// or write that a signal interrupts before it moved a byte is made again. A failed one is not the same as the end of the input.
#![tactic(auto)]

ghost use Rattle.std.specs.Prelude.{◌≤◌, length, IfSome, MatchResult};

use std::io::{ErrorKind, Read, Stdin, Stdout, Write};

// how often a read or write is tried at most: nothing says that signals end, but a proved loop must
const TRIES: u64 = u64::MAX;

// A read failed, after this many bytes.
#[derive(Clone, Copy)]
pub struct ReadError {
    pub bytes: usize,
}

// Reads until the slice is full, the input ends, or a read fails, and answers how many bytes were read.
pub fn read_full(stdin: Stdin, bytes: &mut [u8]) -> Result<usize, ReadError>
    ensures { MatchResult result (λ n. n ≤ length bytes.new) (λ e. e.bytes ≤ length bytes.new) }
{
    let mut n = 0;
    while n < bytes.len() {
        let more = read_some(stdin, &mut bytes[n..]).ok_or(ReadError { bytes: n })?;
        if more == 0 {
            return Ok(n);
        }
        n += more;
    }
    Ok(n)
}

// Writes the slice and answers how many of its bytes were taken: fewer than all exactly if a write failed or took nothing.
pub fn write_full(stdout: Stdout, bytes: &[u8]) -> usize
    ensures { result ≤ length bytes.now }
{
    let mut n = 0;
    while n < bytes.len() {
        let put = write_some(stdout, &bytes[n..]).unwrap_or(0);
        if put == 0 {
            return n;
        }
        n += put;
    }
    n
}

// One read, made again if a signal interrupts it. The answer is none if it failed.
fn read_some(mut stdin: Stdin, bytes: &mut [u8]) -> Option<usize>
    ensures { IfSome result (λ n. n ≤ length bytes.new) }
{
    for _ in 0..TRIES {
        match stdin.read(bytes) {
            Ok(got) => {
                return Some(got);
            }
            Err(e) => {
                if e.kind() != ErrorKind::Interrupted {
                    return None;
                }
            }
        }
    }
    None
}

// One write, made again if a signal interrupts it. The answer is none if it failed.
fn write_some(mut stdout: Stdout, bytes: &[u8]) -> Option<usize>
    ensures { IfSome result (λ n. n ≤ length bytes.now) }
{
    for _ in 0..TRIES {
        match stdout.write(bytes) {
            Ok(put) => {
                return Some(put);
            }
            Err(e) => {
                if e.kind() != ErrorKind::Interrupted {
                    return None;
                }
            }
        }
    }
    None
}
