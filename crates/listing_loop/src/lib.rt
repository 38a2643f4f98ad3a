// The loop of every listing: it makes rows from a given pair on, as many as fit into lent slices.
#![tactic(auto)]

pub mod fill;
pub mod run;
mod sift;
pub mod walk;
