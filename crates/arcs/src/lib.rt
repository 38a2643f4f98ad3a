// Arcs, as a pair's answer needs them: an arc's sweep and the points on it, and how an arc meets a line or another
// arc once the points of the line and the circle, or of the two circles, are known. It answers for any numbers: the calls of
// `crossing` check their numbers before they use it.
#![tactic(auto)]

pub mod arc_geometry;
mod arc_sweep;
pub mod circle;
pub mod line_and_arc;
pub mod one_circle;
pub mod pline_seg_intr;
pub mod sweep_finding;
pub mod two_arcs;
