// The exports of `capi::dxf`: each is the function of its name there, with its contract.
ghost use Rattle.dxf_read.specs.Import as import_of;
ghost use Rattle.dxf_write.specs.Export as export_of;
ghost use Rattle.capi.specs.HandedDxf as handed;

// Imports the path that a text gives.
#[unsafe(no_mangle)]
pub extern "C" fn vj_dxf_import(text: &[u8], path: &mut [f64], told: &mut [u64]) -> u64
    ensures { handed.HandedImport (import_of.import_dxf text.now path.old)
        result told.old told.new path.old path.new }
{
    capi::dxf::vj_dxf_import(text, path, told)
}

// Exports a path as a text.
#[unsafe(no_mangle)]
pub extern "C" fn vj_dxf_export(
    path: &[f64],
    closed: bool,
    text: &mut [u8],
    told: &mut [u64],
) -> u64
    ensures { handed.HandedExport (export_of.export_dxf path.now closed text.old)
        result told.old told.new text.old text.new }
{
    capi::dxf::vj_dxf_export(path, closed, text, told)
}
