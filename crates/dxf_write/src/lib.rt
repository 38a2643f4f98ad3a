// Exports a path as the body of an LWPOLYLINE entity. specs/Written.antt has the text, specs/Export.antt what an export promises.
#![tactic(auto)]

ghost use Rattle.std.specs.Prelude.{◌≡◌, ◌≤◌, []};
ghost use Rattle.paths.specs.Path.{vertex_count, most_vertices};
ghost use Rattle.dxf_write.specs.Written;
ghost use Rattle.dxf_write.specs.Export as export;

use checks::fault::{Fault, Item, whole as whole_fault};
use dxf_form::order;
use dxf_form::refusal::ROOM;
use paths::check::check_path;
use paths::path;
use paths::shape::shape;
use put::put_whole_group;
use sizes::decimal_size;
use vertices::{measure, put_vertices};

mod millionths;
mod put;
mod sizes;
mod vertices;

// The value of 70.
fn flags(closed: bool) -> u64
    ensures { result ≡ Written.flag_of closed }
{
    u64::from(closed)
}

// Writes the text of a path to the front of `text`, and answers how many bytes it has; the rest of `text` is unchanged. If a
// number has no text, or the text does not fit, nothing is written. The path's own checks have been made.
pub fn export_checked(path: &[f64], closed: bool, text: &mut [u8]) -> Result<usize, Fault>
    requires { vertex_count path.now ≤ most_vertices }
    ensures { export.Exports (export.export_after [] path.now closed text.old) result text.new }
{
    let size = measure(path)?;
    let n = path::vertex_count(path) as u64;
    // the count and the flags: two codes of two digits, one digit of the flags, and four newlines
    if text.len() < size + decimal_size(n) + 9 {
        return Err(whole_fault(ROOM, Item::Room));
    }
    let after_count = put_whole_group(text, 0, order::COUNT, n);
    let start = put_whole_group(text, after_count, order::FLAGS, flags(closed));
    let end = put_vertices(path, text, start);
    Ok(end)
}

// Exports a path: its own checks, then each number's text, then the room. Answers how many bytes were written; nothing is by a
// refusal.
pub fn export_dxf(path: &[f64], closed: bool, text: &mut [u8]) -> Result<usize, Fault>
    ensures { export.Exports (export.export_dxf path.now closed text.old) result text.new }
{
    shape(path, 0)?;
    check_path(path, closed, 0)?;
    export_checked(path, closed, text)
}
