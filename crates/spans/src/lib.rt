// Numbers that are known to lie between two others, and quick tests by them: a line and an arc, or two arcs, whose computed points
// lie off one of the two. They take no root. If a test says no, the plain form decides.
#![tactic(auto)]

pub mod arc_arc;
mod circles;
mod line;
pub mod line_arc;
mod root;
mod span;
mod sweep;
