// Arcs beyond a half circle: their cut into two halves, the check of a path in which they are allowed, and the path with every
// such arc cut.
#![tactic(auto)]

pub mod check;
pub mod cut;
pub mod fill;
