// The numbers of the refusals of imports and exports. specs/Refusal.antt has the same numbers.

// a bad code or number
pub const NUMBER: u64 = 20;

// a group out of place or missing
pub const GROUP: u64 = 21;

// the count is not met
pub const COUNT: u64 = 22;

// a number of a path is read back from no text
pub const NO_TEXT: u64 = 23;

// the result does not fit the lent slice
pub const ROOM: u64 = 24;
