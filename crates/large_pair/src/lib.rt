// How two segments meet in the mode of large arcs: up to four results. specs/LargePair.antt has the definition.
#![tactic(auto)]

use checks::call::CallError;

mod check;
pub mod pair;
mod put;
mod starts;

// How many results there are. Or a slice has no room for four results, or a number is refused.
pub type LargePair = Result<usize, CallError>;
