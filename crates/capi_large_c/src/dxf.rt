// The exports of `capi_large::dxf`: each is the function of its name there, with its contract.
ghost use Rattle.dxf_large.specs.Large as large;
ghost use Rattle.capi.specs.HandedDxf as handed;

// Imports the path that a text gives, uncut.
#[unsafe(no_mangle)]
pub extern "C" fn vj_dxf_import_large(text: &[u8], path: &mut [f64], told: &mut [u64]) -> u64
    ensures { handed.HandedImport (large.import_large text.now path.old)
        result told.old told.new path.old path.new }
{
    capi_large::dxf::vj_dxf_import_large(text, path, told)
}

// Exports a path as a text, uncut.
#[unsafe(no_mangle)]
pub extern "C" fn vj_dxf_export_large(
    path: &[f64],
    closed: bool,
    text: &mut [u8],
    told: &mut [u64],
) -> u64
    ensures { handed.HandedExport (large.export_large path.now closed text.old)
        result told.old told.new text.old text.new }
{
    capi_large::dxf::vj_dxf_export_large(path, closed, text, told)
}
