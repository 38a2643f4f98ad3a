// The writer: an answer as text lines. specs/Lines.antt has the text, and specs/Written.antt what the writer promises. A function
// answers how many bytes it has written to the front of `out`; where it answers an error, nothing is written.
#![tactic(auto)]

ghost use Rattle.answer_lines.specs.Written.{RefusalLine, RefusalAtLine, AnswerLines};

use put_text::{put_byte, put_whole, put_word};
use rows::{put_counts, put_rows};

mod put;
mod rows;

// how many bytes of room a text line needs: `line` of specs/Sizes.antt
pub const LINE: usize = 128;

// how many whole numbers and how many floats a row has in the two slices that rows are read from
pub const INDICES: usize = 3;

pub const POINTS: usize = 4;

// The rows' slices hold fewer rows than `rows`; or the text has too little room.
#[derive(Clone, Copy)]
pub enum WriteError {
    NoRows,
    NoRoom,
}

// Writes the text line of a refusal.
pub fn write_refusal(number: u64, out: &mut [u8]) -> Result<usize, WriteError>
    ensures { RefusalLine number result out.old out.new }
{
    if out.len() < LINE {
        return Err(WriteError::NoRoom);
    }
    let a = put_word(out, 0, b"refused ");
    let b = put_whole(out, a, number);
    let c = put_byte(out, b, b'\n');
    Ok(c)
}

// Writes the text line of a refusal that tells the offset of the fault.
pub fn write_refusal_at(number: u64, place: usize, out: &mut [u8]) -> Result<usize, WriteError>
    ensures { RefusalAtLine number place result out.old out.new }
{
    if out.len() < LINE {
        return Err(WriteError::NoRoom);
    }
    let a = put_word(out, 0, b"refused ");
    let b = put_whole(out, a, number);
    let c = put_word(out, b, b" at ");
    let d = put_whole(out, c, place as u64);
    let e = put_byte(out, d, b'\n');
    Ok(e)
}

// Writes the text line with the counts and one for each row.
pub fn write_answer(
    pairs: usize,
    rows: usize,
    index: &[u64],
    points: &[f64],
    out: &mut [u8],
) -> Result<usize, WriteError>
    ensures { AnswerLines pairs rows index.now points.now result out.old out.new }
{
    if index.len() / INDICES < rows {
        return Err(WriteError::NoRows);
    }
    if points.len() / POINTS < rows {
        return Err(WriteError::NoRows);
    }
    if out.len() / LINE <= rows {
        return Err(WriteError::NoRoom);
    }
    let counts = put_counts(out, pairs as u64, rows as u64);
    let end = put_rows(out, counts, rows, index, points);
    Ok(end)
}
