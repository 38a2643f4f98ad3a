// A lent path: its shape, its vertices and segments, the check of its numbers, and a view of it. A path is lent as a slice of
// f64, four numbers for each vertex, and a flag that says whether it is closed.
#![tactic(auto)]

pub mod check;
pub mod path;
pub mod segments;
pub mod shape;
pub mod view;
