// What a pair of segments gives in a listing: which pairs there are, in order; what is kept of a segment; the row that a pair
// makes; and rows in lent slices.
#![tactic(auto)]

mod joint;
pub mod keeping;
pub mod look;
pub mod order;
pub mod row;
pub mod rows;
pub mod sizes;
pub mod tracks;
