// What is found out of a stored layout before anything is written.

// How many vertices each path has, n and m, and where the vertices of each start.
#[derive(Clone, Copy)]
pub struct Shape {
    pub n: u64,
    pub m: u64,
    pub first: usize,
    pub second: usize,
}
