// Layouts in the packed form: the reader, and the writer of packed numbers. specs/Packed.antt has the form, and specs/Read.antt
// what the reader promises.
#![tactic(auto)]

ghost use Rattle.std.specs.Prelude.{◌≡◌};
ghost use Rattle.layout_packed.specs.Read.{ReadPacked, refusal};
ghost use Rattle.layout_packed.specs.declared.UnpackError.TheVariants.{Refused};

use layouts::limits::ROOM;
use shape::shape_of;
use vertex::fill;

pub mod limits;
pub mod number;
pub mod put;
pub mod shape;
pub mod vertex;

// The number of the refusal of a file that breaks the packed form.
pub const PACKED: u64 = 18;

// Where a file breaks the packed form: where the number starts that should be there, or at the first byte that should not.
#[derive(Clone, Copy)]
pub struct Fault {
    pub offset: usize,
}

// How many vertices each path has.
#[derive(Clone, Copy)]
pub struct Counts {
    pub first: usize,
    pub second: usize,
}

// A refusal's number and the offset of the fault; or that a buffer is too small for a path with the most vertices.
#[derive(Clone, Copy)]
pub enum UnpackError {
    Refused(u64, usize),
    NoRoom,
}

impl From<Fault> for UnpackError {
    ghost from_gives = { λ f e. e ≡ Refused refusal f.offset };

    fn from(fault: Fault) -> UnpackError {
        UnpackError::Refused(PACKED, fault.offset)
    }
}

// Reads a packed file. It writes the vertices of the two paths, four numbers each, to the front of the two buffers; the rest of
// the buffers is unchanged. If the file breaks its form or a buffer is too small, nothing is written.
pub fn read_packed(
    bytes: &[u8],
    first: &mut [f64],
    second: &mut [f64],
) -> Result<Counts, UnpackError>
    ensures { ReadPacked bytes.now result first.old first.new second.old second.new }
{
    if first.len() < ROOM {
        return Err(UnpackError::NoRoom);
    }
    if second.len() < ROOM {
        return Err(UnpackError::NoRoom);
    }
    let shape = shape_of(bytes)?;
    fill(bytes, shape.first, shape.n, first);
    fill(bytes, shape.second, shape.m, second);
    Ok(Counts {
        first: shape.n as usize,
        second: shape.m as usize,
    })
}
