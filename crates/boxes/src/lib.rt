// Boxes of segments and of groups of segments: which boxes meet, and the index of a path's boxes in a lent slice.
#![tactic(auto)]

pub mod bounds;
pub mod index;
pub mod next;
