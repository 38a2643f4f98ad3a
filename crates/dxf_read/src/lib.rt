// Imports the body of an LWPOLYLINE entity. Crate dxf_form has the form of a text; specs/Import.antt has what an import promises.
#![tactic(auto)]

ghost use Rattle.std.specs.Prelude.{◌≤◌, length};
ghost use Rattle.dxf_read.specs.Import as import_of;
ghost use Rattle.dxf_read.specs.Workings.Scanning as scanning;
ghost use Rattle.dxf_read.specs.Workings.Finishing as finishing;

use body::{check_count, hand_over};
use checks::fault::Fault;
use paths::check::check_path;
use paths::path::NUMBERS;
use scan::{State, scan};

pub mod body;
mod digits;
pub mod fault;
mod line;
mod pair;
pub mod scan;
mod state;
mod store;

// A path that was read: the number of its vertices, and whether it is closed.
#[derive(Clone, Copy, PartialEq, Eq, Debug)]
pub struct Imported {
    pub vertices: usize,
    pub closed: bool,
}

// Checks the path that was read, whose vertices stand at the front of `buffer`, and copies it if it is fine.
fn finish(buffer: &[f64], read: State, path: &mut [f64]) -> Result<Imported, Fault>
    requires { scanning.room ≤ length buffer.now }
    ensures { import_of.Imports
        (finishing.finished buffer.now read.vertices read.count read.count_line read.closed path.old)
        result path.new }
{
    let n = read.vertices;
    check_count(n, read.count, read.count_line)?;
    let checked = check_path(&buffer[..n * NUMBERS], read.closed, 0);
    hand_over(buffer, n, read.closed, checked, path)
}

// Imports the path that a text gives: writes its vertices, four floats each, to the front of `path`, and leaves the rest as it
// is. A refusal writes nothing.
pub fn import_dxf(text: &[u8], path: &mut [f64]) -> Result<Imported, Fault>
    ensures { import_of.Imports (import_of.import_dxf text.now path.old) result path.new }
{
    // 128 KiB, for the most vertices that a path may have
    let mut buffer = [0.0f64; store::ROOM];
    let read = scan(text, &mut buffer)?;
    finish(&buffer, read, path)
}
