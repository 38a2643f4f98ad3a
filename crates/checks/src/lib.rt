// The checks of a call's numbers, before the call works with them. A chain of checks answers its first fault, with its place. The
// limits and the refusal numbers are the scope's; each stands here once.
#![tactic(auto)]

pub mod arc;
pub mod call;
pub mod calls;
pub mod chain;
pub mod each;
pub mod fault;
pub mod limit;
pub mod number;
pub mod refusal;
pub mod word;
