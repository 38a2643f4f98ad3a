// The limits. A number equal to its limit passes. specs/Limit.antt states the same limits by their bits.

// 2^20: the most that a coordinate of a point or vertex may be in magnitude
pub const COORDINATE: f64 = 1048576.0;

// the most that a bulge may be in magnitude: a half circle
pub const BULGE: f64 = 1.0;

// the most that a bulge may be in magnitude in the mode of large arcs
pub const LARGE_BULGE: f64 = 16.0;

// 2^-40 and 1/2: the least and the most epsilon
pub const EPSILON_LEAST: f64 = 1.0 / 1099511627776.0;

pub const EPSILON_MOST: f64 = 0.5;

// 2^-40: the least chord of an arc
pub const CHORD_LEAST: f64 = 1.0 / 1099511627776.0;

// 2^-80: its square. A chord whose dot product with itself is at least this is long enough (specs/Laws/Chord.antt).
pub const CHORD_SQUARE: f64 = CHORD_LEAST * CHORD_LEAST;

// 2^-42 and 2^47: the least and the most radius of a circle
pub const RADIUS_LEAST: f64 = 1.0 / 4398046511104.0;

pub const RADIUS_MOST: f64 = 140737488355328.0;

// 2^48: the most that a coordinate of a circle's centre may be in magnitude
pub const CENTER: f64 = 281474976710656.0;

// the most that a trace may be
pub const TRACE_MOST: f64 = 255.0;
