// From the program's input, a text line and a packed file, to the text of the layout's listing: everything that the program
// `crossings` does, except reading and writing.
#![tactic(auto)]

ghost use Rattle.std.specs.Prelude.{◌≡◌, ◌≤◌, length};
ghost use Rattle.layout_listing.specs.Answer.{begins, room, LinesFor, FileAnswer, AnswerTo};

use answer_lines::{LINE, WriteError, write_answer, write_refusal};
use layout_packed::limits::BYTES as FILE;
use layout_packed::{UnpackError, read_packed};
use layouts::limits;
use listing_calls::mutual_listing::mutual_listing;
use listing_pairs::row;

// epsilon: 1/1024
pub const EPSILON: f64 = 0.0009765625;

// how many rows the listing has room for
pub const ROWS: usize = 512;

// The number of the refusal of an input that does not begin with the text line "packed".
pub const MISSING: u64 = 16;

// how many bytes that line has, its newline included
pub const FIRST: usize = 7;

// the most bytes of an input: the line, and a packed file. A program reads one byte more than this.
pub const BYTES: usize = FIRST + FILE;

// how many bytes of room the answer's text needs: a text line for the counts and one for every row
pub const ROOM: usize = (ROWS + 1) * LINE;

// Writes the text lines of the listing of two open paths to the front of `out`, and answers how many bytes they have.
fn list_paths(first: &[f64], second: &[f64], out: &mut [u8]) -> Result<usize, WriteError>
    ensures { LinesFor first.now second.now result out.old out.new }
{
    if out.len() < ROOM {
        return Err(WriteError::NoRoom);
    }
    let mut indices = [0u64; ROWS * row::INDICES];
    let mut points = [0.0f64; ROWS * row::POINTS];
    let listed = mutual_listing(
        first,
        false,
        second,
        false,
        EPSILON,
        &mut indices,
        &mut points,
    );
    match listed {
        Err(fault) => write_refusal(fault.number, out),
        Ok(counts) => write_answer(counts.pairs, counts.rows, &indices, &points, out),
    }
}

// Whether the bytes begin with a text line.
fn begins_with(bytes: &[u8], line: &[u8]) -> bool
    ensures { result ≡ begins line.now bytes.now }
{
    if bytes.len() < line.len() {
        return false;
    }
    for (i, b) in line.iter().enumerate() {
        if bytes[i] != *b {
            return false;
        }
    }
    true
}

// Writes the answer to a packed file to the front of `out`, and answers how many bytes it has.
fn list_file(file: &[u8], out: &mut [u8]) -> Result<usize, WriteError>
    requires { room ≤ length out.old }
    ensures { FileAnswer file.now result out.old out.new }
{
    let mut first = [0.0f64; limits::ROOM];
    let mut second = [0.0f64; limits::ROOM];
    let read = read_packed(file, &mut first, &mut second);
    match read {
        Ok(counts) => {
            let a = counts.first * limits::NUMBERS;
            let b = counts.second * limits::NUMBERS;
            list_paths(&first[..a], &second[..b], out)
        }
        Err(UnpackError::Refused(n, _)) => write_refusal(n, out),
        Err(UnpackError::NoRoom) => Err(WriteError::NoRoom),
    }
}

// Writes the answer to the program's input to the front of `out`, and answers how many bytes it has. If `out` lacks the room for
// the longest answer, nothing is written.
pub fn list_layout(input: &[u8], out: &mut [u8]) -> Result<usize, WriteError>
    ensures { AnswerTo input.now result out.old out.new }
{
    if out.len() < ROOM {
        return Err(WriteError::NoRoom);
    }
    if begins_with(input, b"packed\n") {
        return list_file(&input[FIRST..], out);
    }
    write_refusal(MISSING, out)
}
