// Rows of five numbers, for the mode of large arcs: a listing of cut paths has rows of three numbers, and each is spread into one
// of five, in the caller's slice. The segments of a cut path have names: the index of the segment that one comes from, and its
// half.
#![tactic(auto)]

pub mod listed;
pub mod room;
pub mod spread;
