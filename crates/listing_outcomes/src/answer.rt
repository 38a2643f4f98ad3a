// What a listing answers, and what a page of one does.
use checks::fault::Fault;

// How many rows were written from the front of both slices, and how many pairs were looked at.
#[derive(Clone, Copy)]
pub struct Counts {
    pub rows: usize,
    pub pairs: usize,
}

// The counts, or the first fault: then both slices are unchanged.
pub type ListingAnswer = Result<Counts, Fault>;

// How many rows were written from the front of both slices, how many pairs were passed, the position of the next page, and how
// many pairs there are in all.
#[derive(Clone, Copy)]
pub struct PageCounts {
    pub rows: usize,
    pub pairs: usize,
    pub next: usize,
    pub all: usize,
}

// The counts, or the first fault: then both slices are unchanged.
pub type PageAnswer = Result<PageCounts, Fault>;
