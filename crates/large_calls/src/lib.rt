// The calls of the mode of large arcs. Each asks the old mode first, which lists in the front of the caller's slices. It refuses
// a bulge above 1 with 3; only then are the paths cut. Otherwise its answer holds in this mode too, and its rows are spread into
// rows of five with halves 0. So a call without large arcs takes as long as in the old mode.
#![tactic(auto)]

pub mod mutual_boxed_large;
pub mod mutual_large;
pub mod mutual_page_large;
pub mod old_answer;
pub mod self_boxed_large;
pub mod self_large;
pub mod self_page_large;
