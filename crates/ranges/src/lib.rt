// Whether a parameter lies on a segment: the range test of two lines, and of a line and an arc.
#![tactic(auto)]

pub mod range;
