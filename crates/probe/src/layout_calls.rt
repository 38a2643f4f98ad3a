// The moves of a layout between its two forms, and the reader of packed files. A call answers a word: 0 if it is done, a
// refusal's number if it is refused, NO_ROOM if a lent slice is too small. Two numbers go to the front of `told`: how many bytes
// were written and 0, or how many vertices the two paths have; or the offset of the fault and 0. If `told` has no place for two
// numbers, nothing is looked at. At the end the answer of the program `crossings`.
ghost use Rattle.std.specs.Prelude.{◌≡◌, ◌≤◌, length};
ghost use Rattle.probe.specs.Told.{places, of_moved, of_unpacking, Told, PackTold, UnpackTold, ReadTold};
ghost use Rattle.probe.specs.Listed.{bytes_of, ListTold};

use answer_lines::WriteError;
use layout_listing::list_layout;
use layout_moves::{MoveError, pack_layout, unpack_layout};
use layout_packed::{Counts, UnpackError, read_packed};

const NO_ROOM: u64 = 512;

const PLACES: usize = 2;

#[unsafe(no_mangle)]
pub extern "C" fn vjp_pack_layout(text: &[u8], out: &mut [u8], told: &mut [u64]) -> u64
    ensures { PackTold text.now result out.old out.new told.old told.new }
{
    if told.len() < PLACES {
        return NO_ROOM;
    }
    let moved = pack_layout(text, out);
    tell_moved(moved, told)
}

#[unsafe(no_mangle)]
pub extern "C" fn vjp_unpack_layout(bytes: &[u8], out: &mut [u8], told: &mut [u64]) -> u64
    ensures { UnpackTold bytes.now result out.old out.new told.old told.new }
{
    if told.len() < PLACES {
        return NO_ROOM;
    }
    let moved = unpack_layout(bytes, out);
    tell_moved(moved, told)
}

#[unsafe(no_mangle)]
pub extern "C" fn vjp_read_packed(
    bytes: &[u8],
    first: &mut [f64],
    second: &mut [f64],
    told: &mut [u64],
) -> u64
    ensures { ReadTold bytes.now result first.old first.new second.old second.new
        told.old told.new }
{
    if told.len() < PLACES {
        return NO_ROOM;
    }
    let read = read_packed(bytes, first, second);
    tell_read(read, told)
}

// The answer of a move.
fn tell_moved(moved: Result<usize, MoveError>, told: &mut [u64]) -> u64
    requires { places ≤ length told.old }
    ensures { Told (of_moved moved) result told.old told.new }
{
    match moved {
        Ok(n) => {
            told[0] = n as u64;
            told[1] = 0;
            0
        }
        Err(MoveError::Refused(number)) => number,
        Err(MoveError::RefusedAt(number, place)) => {
            told[0] = place as u64;
            told[1] = 0;
            number
        }
        Err(MoveError::NoRoom) => NO_ROOM,
    }
}

// The answer of the reader.
fn tell_read(read: Result<Counts, UnpackError>, told: &mut [u64]) -> u64
    requires { places ≤ length told.old }
    ensures { Told (of_unpacking read) result told.old told.new }
{
    match read {
        Ok(counts) => {
            told[0] = counts.first as u64;
            told[1] = counts.second as u64;
            0
        }
        Err(UnpackError::Refused(number, place)) => {
            told[0] = place as u64;
            told[1] = 0;
            number
        }
        Err(UnpackError::NoRoom) => NO_ROOM,
    }
}

// The answer to an input: how many bytes it has, which stand at the front of `out`; or 0 if `out` has too little room.
#[unsafe(no_mangle)]
pub extern "C" fn vjp_list_layout(input: &[u8], out: &mut [u8]) -> usize
    ensures { ListTold input.now result out.old out.new }
{
    bytes_of(list_layout(input, out))
}

fn bytes_of(written: Result<usize, WriteError>) -> usize
    ensures { result ≡ bytes_of written }
{
    written.unwrap_or(0)
}
