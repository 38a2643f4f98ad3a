// An answer as plain numbers, for every user of one: the rows of a listing, the calls for C, the recorded list.
#![tactic(auto)]

pub mod class_and_points;
pub mod padded;
