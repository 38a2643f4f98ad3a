// The exports of `capi::pair_findings`: each is the function of its name there, with its contract.
ghost use Rattle.capi.specs.Handed.{vertex};
ghost use Rattle.capi.specs.HandedFindings as handed;
ghost use Rattle.findings.specs.Report.{pline_seg_findings};

// What `vj_pair` answers, and what is told of the first and of the second computed point for each segment.
#[unsafe(no_mangle)]
pub extern "C" fn vj_pair_findings(
    v1x: f64,
    v1y: f64,
    v1_bulge: f64,
    v2x: f64,
    v2y: f64,
    v2_bulge: f64,
    u1x: f64,
    u1y: f64,
    u1_bulge: f64,
    u2x: f64,
    u2y: f64,
    u2_bulge: f64,
    epsilon: f64,
    out: &mut [f64],
    findings: &mut [u64],
) -> u64
    ensures { handed.HandedFindings (pline_seg_findings
        (vertex v1x v1y v1_bulge) (vertex v2x v2y v2_bulge) (vertex u1x u1y u1_bulge) (vertex u2x u2y u2_bulge) epsilon)
        result out.old out.new findings.old findings.new }
{
    capi::pair_findings::vj_pair_findings(
        v1x, v1y, v1_bulge, v2x, v2y, v2_bulge, u1x, u1y, u1_bulge, u2x, u2y, u2_bulge, epsilon,
        out, findings,
    )
}
