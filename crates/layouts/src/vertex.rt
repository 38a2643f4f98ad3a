// A vertex of a layout as the code has it: its whole numbers by their signs and their magnitudes. `whole_vertex` of
// specs/Layout.antt says which vertex it is.

// A whole number: how many minus signs it has, 0 or 1, and its magnitude. Of 0 the sign says nothing. Both are of one size: what would
// fill up the place of a bool is moved along with it, byte by byte, and packing a text takes two fifths longer.
#[derive(Clone, Copy)]
pub struct Signed {
    pub minuses: u64,
    pub magnitude: u64,
}

// x, y, and the bulge in 65,536ths.
#[derive(Clone, Copy)]
pub struct Corner {
    pub x: Signed,
    pub y: Signed,
    pub bulge: Signed,
}

// A vertex that was read, and the place after it.
#[derive(Clone, Copy)]
pub struct Reading {
    pub corner: Corner,
    pub next: usize,
}
