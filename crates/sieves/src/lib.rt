// Sieves: rough tests of many pairs at a time, which leave those that may make a row. A listing looks only at what a sieve leaves.
// A sieve may leave too much, never too little: what it takes away is proved to make no row.
#![tactic(auto)]

pub mod flags;
pub mod lines;
pub mod marks;
