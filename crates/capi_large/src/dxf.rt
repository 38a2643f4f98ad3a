// Imports and exports of the body of an LWPOLYLINE entity, in the mode of large arcs. What a call tells besides goes into a lent
// slice of its own.
ghost use Rattle.dxf_large.specs.Large as large;
ghost use Rattle.capi.specs.HandedDxf as handed;

use capi::dxf::{EXPORT_WORDS, IMPORT_WORDS, hand_exported, hand_imported};
use capi::hand_over::NO_ROOM;
use dxf_large::{export_large, import_large};

// Imports the path that a text gives, uncut.
#[unsafe(no_mangle)]
pub extern "C" fn vj_dxf_import_large(text: &[u8], path: &mut [f64], told: &mut [u64]) -> u64
    ensures { handed.HandedImport (large.import_large text.now path.old)
        result told.old told.new path.old path.new }
{
    if told.len() < IMPORT_WORDS {
        return NO_ROOM;
    }
    let answer = import_large(text, path);
    hand_imported(answer, told)
}

// Exports a path as a text, uncut.
#[unsafe(no_mangle)]
pub extern "C" fn vj_dxf_export_large(
    path: &[f64],
    closed: bool,
    text: &mut [u8],
    told: &mut [u64],
) -> u64
    ensures { handed.HandedExport (large.export_large path.now closed text.old)
        result told.old told.new text.old text.new }
{
    if told.len() < EXPORT_WORDS {
        return NO_ROOM;
    }
    let answer = export_large(path, closed, text);
    hand_exported(answer, told)
}
