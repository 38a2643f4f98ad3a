// Why a point of a pair counted: what the tests of the sweeps found of each computed point, beside the pair call's answer. The
// pair call itself is untouched: `report` asks the kernel once, tests each point once, and takes answer and findings from it.
#![tactic(auto)]

pub mod finding;
mod line_and_arc;
pub mod report;
pub mod reported;
mod two_arcs;
