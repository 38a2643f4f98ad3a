// The limits of a layout's numbers, and the size of the buffers that it is read into. specs/Limits.antt has the same.

// the largest magnitude of x and of y
pub const COORDINATE: u64 = 1048576;

// the largest magnitude of a bulge, in 65,536ths
pub const BULGE: u64 = 65536;

// the most vertices of a path
pub const VERTICES: u64 = 256;

// how many numbers a buffer has for a vertex: x, y, bulge and trace
pub const NUMBERS: usize = 4;

// how many numbers a buffer must hold: those of the most vertices, 1,024
pub const ROOM: usize = VERTICES as usize * NUMBERS;
