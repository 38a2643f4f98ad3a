// The largest numbers that are written, and the most bytes of a packed file. specs/Limits.antt has the same.
use layouts::limits;

// the largest number that is written for x or y
pub const COORDINATE: u64 = 2 * limits::COORDINATE;

// the largest number that is written for a bulge
pub const BULGE: u64 = 2 * limits::BULGE;

// the most bytes of a packed file. Every layout has fewer, so the reader need not ask: a program reads one byte more than this.
pub const BYTES: usize = 8192;

// the most bytes of a count, and of a vertex
pub const COUNT: usize = 2;

pub const VERTEX: usize = 11;

// the most bytes of a layout's packed form: 5,636
pub const LONGEST: usize = 2 * COUNT + 2 * limits::VERTICES as usize * VERTEX;
