// Imports and exports of the body of an LWPOLYLINE entity. What a call tells besides goes into a lent slice of its own.
ghost use Rattle.std.specs.Prelude.{◌≡◌, ◌≤◌, length};
ghost use Rattle.std.proofs.lemmas.List.Edits.{sets};
ghost use Rattle.dxf_read.specs.Import as import_of;
ghost use Rattle.dxf_write.specs.Export as export_of;
ghost use Rattle.capi.specs.HandedDxf as handed;

use super::hand_over::NO_ROOM;
use checks::fault::Fault;
use checks::word::word;
use dxf_read::{Imported, import_dxf};
use dxf_write::export_dxf;

// how many words an import tells, and an export
pub const IMPORT_WORDS: usize = 2;

pub const EXPORT_WORDS: usize = 1;

// Whether a path is closed, as a word.
fn closed_word(closed: bool) -> u64
    ensures { result ≡ handed.closed_word closed }
{
    u64::from(closed)
}

// Writes the number of vertices and whether the path is closed to the front of `told` and returns 0. A refusal writes nothing and
// returns its word.
pub fn hand_imported(answer: Result<Imported, Fault>, told: &mut [u64]) -> u64
    requires { handed.import_words ≤ length told.old }
    ensures value { result ≡ (handed.of_import answer).code }
    ensures told_after { told.new ≡ sets told.old 0 (handed.of_import answer).counts }
{
    match answer {
        Err(fault) => word(fault),
        Ok(imported) => {
            told[0] = imported.vertices as u64;
            told[1] = closed_word(imported.closed);
            0
        }
    }
}

// Imports the path that a text gives.
#[unsafe(no_mangle)]
pub extern "C" fn vj_dxf_import(text: &[u8], path: &mut [f64], told: &mut [u64]) -> u64
    ensures { handed.HandedImport (import_of.import_dxf text.now path.old)
        result told.old told.new path.old path.new }
{
    if told.len() < IMPORT_WORDS {
        return NO_ROOM;
    }
    let answer = import_dxf(text, path);
    hand_imported(answer, told)
}

// Writes the number of bytes to the front of `told` and returns 0. A refusal writes nothing and returns its word.
pub fn hand_exported(answer: Result<usize, Fault>, told: &mut [u64]) -> u64
    requires { handed.export_words ≤ length told.old }
    ensures value { result ≡ (handed.of_export answer).code }
    ensures told_after { told.new ≡ sets told.old 0 (handed.of_export answer).counts }
{
    match answer {
        Err(fault) => word(fault),
        Ok(n) => {
            told[0] = n as u64;
            0
        }
    }
}

// Exports a path as a text.
#[unsafe(no_mangle)]
pub extern "C" fn vj_dxf_export(
    path: &[f64],
    closed: bool,
    text: &mut [u8],
    told: &mut [u64],
) -> u64
    ensures { handed.HandedExport (export_of.export_dxf path.now closed text.old)
        result told.old told.new text.old text.new }
{
    if told.len() < EXPORT_WORDS {
        return NO_ROOM;
    }
    let answer = export_dxf(path, closed, text);
    hand_exported(answer, told)
}
