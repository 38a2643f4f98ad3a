// The scope's numbers of the refusals that the checks of numbers, of a path's length, of a listing's rows and index of boxes, of
// a page's position and budget, and of a month's report can give. specs/Refusal.antt has the same numbers.

// a coordinate of a point or vertex is too large
pub const COORDINATE: u64 = 2;

// a bulge is too large
pub const BULGE: u64 = 3;

// epsilon is NaN, infinite, or out of its range
pub const EPSILON: u64 = 4;

// an arc's chord is too short
pub const CHORD: u64 = 5;

// the count of a path's numbers is no multiple of 4
pub const PATH_LENGTH: u64 = 6;

// a path has too many vertices
pub const VERTICES: u64 = 7;

// a listing has more rows than there is room for, or a page has room for none
pub const ROWS: u64 = 8;

// a circle's radius is out of its range, or a coordinate of its centre is too large
pub const CIRCLE: u64 = 9;

// a coordinate, bulge, radius or trace is NaN; it is infinite
pub const NAN: u64 = 11;

pub const INFINITE: u64 = 12;

// a page's position is beyond the end
pub const POSITION: u64 = 13;

// a page's budget is 0
pub const BUDGET: u64 = 14;

// a trace is no whole number from 0 to 255
pub const TRACE: u64 = 15;

// a boxed listing's index of boxes does not fit
pub const BOXES: u64 = 17;

// a report is full, or the sum of two reports would be
pub const REPORT: u64 = 19;

// every refusal's number is below this, so that a code in C can be this plus the number
pub const NUMBERS_BELOW: u64 = 256;
