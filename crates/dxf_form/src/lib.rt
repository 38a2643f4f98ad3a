// What the body of an LWPOLYLINE entity is: the order of its groups, and the floats of its numbers. specs/Form.antt has the form
// of a text, and specs/Fault.antt where a text that breaks it is at fault.
#![tactic(auto)]

pub mod order;
pub mod refusal;
pub mod value;
