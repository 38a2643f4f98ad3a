// What a layout is, however it is stored: its limits, its vertices, and the floats of its whole numbers. specs/Layout.antt has
// the definition.
#![tactic(auto)]

pub mod limits;
pub mod shape;
pub mod value;
pub mod vertex;
