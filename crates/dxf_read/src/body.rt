// The checks before and after those of a path whose text was read, and the copy of a path that they accept.
ghost use Rattle.std.specs.Prelude.{◌≡◌, ◌≤◌, length, take};
ghost use Rattle.std.proofs.lemmas.List.Edits.{sets};
ghost use Rattle.dxf_read.specs.Import as import_of;
ghost use Rattle.dxf_read.specs.Workings.Scanning as scanning;
ghost use Rattle.paths.specs.Path.{most_vertices};
ghost use Rattle.checks.specs.Fault as faults;
ghost use Rattle.dxf_read.specs.Workings.Finishing as finishing;

use super::Imported;
use super::fault::LineFault;
use checks::fault::{Checked, Fault, Item, at, later, refuse, whole};
use dxf_form::refusal;
use paths::path::{NUMBERS, VERTICES};

// the largest line that is told
pub const MOST_LINE: u64 = 4294967295;

// A line as it is told: one beyond the largest is told as the largest.
fn told_line(line: u64) -> u64
    ensures { result ≡ import_of.told_line line }
{
    if line > MOST_LINE {
        return MOST_LINE;
    }
    line
}

// The fault in a line of the text.
pub fn line_fault(number: u64, line: u64) -> Fault
    ensures { result ≡ import_of.line_fault number line }
{
    Fault {
        number: number,
        place: at(0, told_line(line), Item::Line),
    }
}

// A fault of the text is told with its line.
impl From<LineFault> for Fault {
    ghost from_gives = { λ fault told. told ≡ import_of.line_fault fault.number fault.line };

    fn from(fault: LineFault) -> Fault {
        line_fault(fault.number, fault.line)
    }
}

// The checks before those of the path: the value of 90, in this line, is the number of vertices; they are not too many.
pub fn check_count(n: usize, count: u64, line: u64) -> Checked
    ensures { result ≡ finishing.counted_by n count line }
{
    if count != n as u64 {
        return Err(line_fault(refusal::COUNT, line));
    }
    if n > VERTICES {
        return Err(whole(checks::refusal::VERTICES, Item::Length));
    }
    Ok(())
}

// Copies the first `many` floats.
fn copy(from: &[f64], many: usize, to: &mut [f64])
    requires many_in_from { many ≤ length from.now }
    requires many_in_to { many ≤ length to.old }
    ensures { to.new ≡ sets to.old 0 (take many from.now) }
{
    for i in 0..many {
        to[i] = from[i];
    }
}

// Copies the path of n vertices at the front of `buffer`, if the checks so far are fine and there is room for it.
pub fn hand_over(
    buffer: &[f64],
    n: usize,
    closed: bool,
    checked: Checked,
    path: &mut [f64],
) -> Result<Imported, Fault>
    requires n_le_most_vertices { n ≤ most_vertices }
    requires room_in_bounds { scanning.room ≤ length buffer.now }
    ensures { import_of.Imports
        (finishing.finished_by buffer.now n closed path.old
        (faults.later checked (finishing.room_by n (length path.old))))
        result path.new }
{
    let end = n * NUMBERS;
    let fits = refuse(path.len() < end, refusal::ROOM, at(0, 0, Item::Room));
    later(checked, fits)?;
    copy(buffer, end, path);
    Ok(Imported {
        vertices: n,
        closed: closed,
    })
}
