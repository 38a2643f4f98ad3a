// How two segments of polylines meet, and why each computed point counted or not. The findings go into a lent slice of their own.
ghost use Rattle.std.specs.Prelude.{◌≤◌, length, ◌≡◌};
ghost use Rattle.std.proofs.lemmas.List.Edits.{sets};
ghost use Rattle.capi.specs.Handed.{vertex};
ghost use Rattle.capi.specs.HandedFindings as handed;
ghost use Rattle.findings.specs.Finding.{numbers_of};
ghost use Rattle.findings.specs.Report.{pline_seg_findings};

use super::hand_over::{NO_ROOM, PLACES, hand_over};
use answers::padded;
use checks::word::word;
use findings::finding::Findings;
use findings::report;
use plane::pline_vertex::PlineVertex;

// how many findings are told
const FINDINGS: usize = 4;

// Writes the four findings' numbers to the front of `findings`.
fn hand_findings(told: Findings, findings: &mut [u64])
    requires { handed.finding_places ≤ length findings.old }
    ensures { findings.new ≡ sets findings.old 0 (numbers_of told) }
{
    let first_v = told.first_v;
    let first_u = told.first_u;
    let second_v = told.second_v;
    let second_u = told.second_u;
    findings[0] = first_v.number();
    findings[1] = first_u.number();
    findings[2] = second_v.number();
    findings[3] = second_u.number();
}

// What `vj_pair` answers, and what is told of the first and of the second computed point for each segment.
#[unsafe(no_mangle)]
pub extern "C" fn vj_pair_findings(
    v1x: f64,
    v1y: f64,
    v1_bulge: f64,
    v2x: f64,
    v2y: f64,
    v2_bulge: f64,
    u1x: f64,
    u1y: f64,
    u1_bulge: f64,
    u2x: f64,
    u2y: f64,
    u2_bulge: f64,
    epsilon: f64,
    out: &mut [f64],
    findings: &mut [u64],
) -> u64
    ensures { handed.HandedFindings (pline_seg_findings
        (vertex v1x v1y v1_bulge) (vertex v2x v2y v2_bulge) (vertex u1x u1y u1_bulge) (vertex u2x u2y u2_bulge) epsilon)
        result out.old out.new findings.old findings.new }
{
    if out.len() < PLACES {
        return NO_ROOM;
    }
    if findings.len() < FINDINGS {
        return NO_ROOM;
    }
    let told = report::pline_seg_findings(
        PlineVertex {
            x: v1x,
            y: v1y,
            bulge: v1_bulge,
        },
        PlineVertex {
            x: v2x,
            y: v2y,
            bulge: v2_bulge,
        },
        PlineVertex {
            x: u1x,
            y: u1y,
            bulge: u1_bulge,
        },
        PlineVertex {
            x: u2x,
            y: u2y,
            bulge: u2_bulge,
        },
        epsilon,
    );
    match told {
        Err(fault) => word(fault),
        Ok(reported) => {
            let answer = reported.answer;
            let found = reported.findings;
            hand_findings(found, findings);
            hand_over(padded::of_pline_seg(Ok(answer)), out)
        }
    }
}
