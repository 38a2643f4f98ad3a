// Where two segments meet: the kernels, one module each, as in the Rust; the pair call over them is in `fast_pair`. A call checks
// its numbers first and refuses what is out of range. Functions that work on unchecked numbers are private.
#![tactic(auto)]

mod arc_arc;
mod circle_circle;
pub mod circle_circle_intersect;
pub mod circle_circle_intr;
mod line_arc;
mod line_circle;
pub mod line_circle_intersect;
pub mod line_circle_intr;
mod line_line;
pub mod line_line_intersect;
pub mod line_line_intr;
pub mod pair_kernel;
mod pline_seg;
pub mod pline_seg_intersect;
pub mod shortcuts;
