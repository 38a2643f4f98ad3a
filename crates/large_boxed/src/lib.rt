// The boxed listings of the mode of large arcs: those of the cut paths, found by boxes. The crate `large_listings` has their
// definitions, and what is proved of them.
#![tactic(auto)]

pub mod mutual_boxed_cut;
pub mod self_boxed_cut;
