// The pair call with findings: how two segments meet, and what is told of each computed point for each segment.
ghost use Rattle.std.specs.Prelude.{◌≡◌, Ok};
ghost use Rattle.checks.specs.Calls;
ghost use Rattle.findings.specs.Report;

use super::finding::{Finding, Findings};
use super::line_and_arc::line_arc_report;
use super::reported::Reported;
use super::two_arcs::arc_arc_report;
use arcs::circle::circle_if_arc;
use checks::fault::Fault;
use crossing::pair_kernel::{PairKernel, pair_kernel};
use fast_pair::pair::{line_pair, pair_checked};
use plane::pline_vertex::PlineVertex;

// How two segments meet, and what is told of their computed points, for a caller that has checked the numbers. The kernel is
// asked once; two lines have their own way, with a quick test.
fn report(
    v1: PlineVertex,
    v2: PlineVertex,
    u1: PlineVertex,
    u2: PlineVertex,
    pos_equal_eps: f64,
) -> Reported
    requires { Calls.check_pline_seg v1 v2 u1 u2 pos_equal_eps ≡ Ok tt }
    ensures { result ≡ Report.reported v1 v2 u1 u2 pos_equal_eps }
{
    let circle1 = circle_if_arc(v1, v2);
    let circle2 = circle_if_arc(u1, u2);
    let kernel = pair_kernel(v1, v2, circle1, u1, u2, circle2, pos_equal_eps);
    match kernel {
        PairKernel::TwoLines => {
            let answer = line_pair(v1, v2, u1, u2, pos_equal_eps);
            let findings = Findings::none();
            Reported { answer, findings }
        }
        PairKernel::LineAndArc(found) => {
            let told = line_arc_report(
                found,
                v1.pos(),
                v2.pos(),
                u1,
                u2,
                circle2,
                false,
                pos_equal_eps,
            );
            let answer = told.answer;
            let first = told.first;
            let second = told.second;
            let findings = Findings {
                first_v: Finding::NotTested,
                first_u: first,
                second_v: Finding::NotTested,
                second_u: second,
            };
            Reported { answer, findings }
        }
        PairKernel::ArcAndLine(found) => {
            let told = line_arc_report(
                found,
                u1.pos(),
                u2.pos(),
                v1,
                v2,
                circle1,
                true,
                pos_equal_eps,
            );
            let answer = told.answer;
            let first = told.first;
            let second = told.second;
            let findings = Findings {
                first_v: first,
                first_u: Finding::NotTested,
                second_v: second,
                second_u: Finding::NotTested,
            };
            Reported { answer, findings }
        }
        PairKernel::TwoArcs(found) => {
            arc_arc_report(found, v1, v2, circle1, u1, u2, circle2, pos_equal_eps)
        }
    }
}

// The pair call with findings: how the segments v1 to v2 and u1 to u2 meet, and what is told of each computed point for each
// segment; or the refusal of the first number at fault. Class, points and refusals are the pair call's.
pub fn pline_seg_findings(
    v1: PlineVertex,
    v2: PlineVertex,
    u1: PlineVertex,
    u2: PlineVertex,
    pos_equal_eps: f64,
) -> Result<Reported, Fault>
    ensures { result ≡ Report.pline_seg_findings v1 v2 u1 u2 pos_equal_eps }
{
    pair_checked(v1, v2, u1, u2, pos_equal_eps)?;
    Ok(report(v1, v2, u1, u2, pos_equal_eps))
}
