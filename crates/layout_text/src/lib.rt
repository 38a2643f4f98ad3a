// Layouts as texts, for the programs that move them: the reader, and the writer of text lines. specs/Form.antt has the form of a
// text. `shape::shape_of` finds out whether a text has it and where its paths start, and `vertex::vertex` reads one vertex.
#![tactic(auto)]

mod bytes;
mod number;
pub mod put;
pub mod shape;
pub mod vertex;

// the most bytes of a text
pub const BYTES: usize = 16384;

// the most bytes that the text of a layout has: `longest` of specs/Sizes.antt
pub const LONGEST: usize = 12808;

// The scope's number of the refusal of a text that breaks its form.
pub const TEXT: u64 = 10;
