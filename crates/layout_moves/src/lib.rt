// Moves a layout between its two forms: from its text to its packed form, and back. specs/Moves.antt has what the two functions
// promise. They look at the form only: a layout whose listing would be refused is moved too.
#![tactic(auto)]

ghost use Rattle.std.specs.Prelude.{◌≡◌};
ghost use Rattle.layout_packed.specs.Read.{refusal};
ghost use Rattle.layout_moves.specs.Moves.{PackLayout, UnpackLayout};
ghost use Rattle.layout_moves.specs.declared.MoveError.TheVariants.{RefusedAt};

use layout_packed::limits::LONGEST as PACKED_ROOM;
use layout_packed::put::put_count;
use layout_packed::{Fault, PACKED, shape as packed_shape};
use layout_text::put::put_counts;
use layout_text::{LONGEST as TEXT_ROOM, TEXT, shape as text_shape};
use vertices::{pack_vertices, unpack_vertices};

mod vertices;

// A refusal's number; or a refusal's number and the offset of the fault; or that there is too little room for the longest layout.
#[derive(Clone, Copy)]
pub enum MoveError {
    Refused(u64),
    RefusedAt(u64, usize),
    NoRoom,
}

impl From<Fault> for MoveError {
    ghost from_gives = { λ f e. e ≡ RefusedAt refusal f.offset };

    fn from(fault: Fault) -> MoveError
        ensures { result ≡ RefusedAt refusal fault.offset }
    {
        MoveError::RefusedAt(PACKED, fault.offset)
    }
}

// Writes the packed form of a text's layout to the front of `out`, and answers how many bytes it has; the rest of `out` is
// unchanged. If the text breaks its form, or `out` has less room than the longest packed form, nothing is written.
pub fn pack_layout(text: &[u8], out: &mut [u8]) -> Result<usize, MoveError>
    ensures { PackLayout text.now result out.old out.new }
{
    if out.len() < PACKED_ROOM {
        return Err(MoveError::NoRoom);
    }
    let shape = text_shape::shape_of(text).ok_or(MoveError::Refused(TEXT))?;
    let after_n = put_count(out, 0, shape.n);
    let start = put_count(out, after_n, shape.m);
    let between = pack_vertices(text, shape.first, shape.n, out, start);
    let end = pack_vertices(text, shape.second, shape.m, out, between);
    Ok(end)
}

// Writes the text of a packed file's layout to the front of `out`, and answers how many bytes it has; the rest of `out` is
// unchanged. If the file breaks its form, or `out` has less room than the longest text, nothing is written.
pub fn unpack_layout(bytes: &[u8], out: &mut [u8]) -> Result<usize, MoveError>
    ensures { UnpackLayout bytes.now result out.old out.new }
{
    if out.len() < TEXT_ROOM {
        return Err(MoveError::NoRoom);
    }
    let shape = packed_shape::shape_of(bytes)?;
    let start = put_counts(out, shape.n, shape.m);
    let between = unpack_vertices(bytes, shape.first, shape.n, out, start);
    let end = unpack_vertices(bytes, shape.second, shape.m, out, between);
    Ok(end)
}
