// What the pair call with findings answers.
use super::finding::Findings;
use arcs::pline_seg_intr::PlineSegIntr;
use checks::fault::Fault;

// How two segments meet, and what is told of their computed points.
#[derive(Clone, Copy)]
pub struct Reported {
    pub answer: PlineSegIntr,
    pub findings: Findings,
}
