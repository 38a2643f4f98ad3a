// Imports and exports drawings in the mode of large arcs: as dxf_read and dxf_write do, but a bulge may be up to 16 in magnitude,
// and the path has the checks of crate cuts. A path is read and written as it stands: nothing is cut. specs/Large.antt has what
// the two functions promise.
#![tactic(auto)]

ghost use Rattle.std.specs.Prelude.{◌≤◌, length};
ghost use Rattle.cuts.specs.LargeChecks as checks_of;
ghost use Rattle.dxf_read.specs.Import as import_of;
ghost use Rattle.dxf_read.specs.Workings.Scanning as scanning;
ghost use Rattle.dxf_read.specs.Workings.Finishing as finishing;
ghost use Rattle.dxf_write.specs.Export as export_of;
ghost use Rattle.dxf_large.specs.Large as large;

use checks::fault::Fault;
use cuts::check::check_large_path;
use dxf_read::Imported;
use dxf_read::body::{check_count, hand_over};
use dxf_read::scan::{State, scan};
use dxf_write::export_checked;
use paths::path::{NUMBERS, VERTICES};
use paths::shape::shape;

// how many floats the most vertices have
const ROOM: usize = VERTICES * NUMBERS;

// Checks the path that was read, whose vertices stand at the front of `buffer`, and copies it if it is fine.
fn finish_large(buffer: &[f64], read: State, path: &mut [f64]) -> Result<Imported, Fault>
    requires { scanning.room ≤ length buffer.now }
    ensures { import_of.Imports
        (finishing.finished_with checks_of.large_path_checks
        buffer.now read.vertices read.count read.count_line read.closed path.old)
        result path.new }
{
    let n = read.vertices;
    check_count(n, read.count, read.count_line)?;
    let checked = check_large_path(&buffer[..n * NUMBERS], read.closed, 0);
    hand_over(buffer, n, read.closed, checked, path)
}

// Imports the path that a text gives: writes its vertices, four floats each, to the front of `path`, and leaves the rest as it
// is. A refusal writes nothing.
pub fn import_large(text: &[u8], path: &mut [f64]) -> Result<Imported, Fault>
    ensures { import_of.Imports (large.import_large text.now path.old) result path.new }
{
    // 128 KiB, for the most vertices that a path may have
    let mut buffer = [0.0f64; ROOM];
    let read = scan(text, &mut buffer)?;
    finish_large(&buffer, read, path)
}

// Exports a path: its own checks, then each number's text, then the room. Answers how many bytes were written; nothing is by a
// refusal.
pub fn export_large(path: &[f64], closed: bool, text: &mut [u8]) -> Result<usize, Fault>
    ensures { export_of.Exports (large.export_large path.now closed text.old) result text.new }
{
    shape(path, 0)?;
    check_large_path(path, closed, 0)?;
    export_checked(path, closed, text)
}
