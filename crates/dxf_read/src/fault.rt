// A fault of a text, before a call tells it.

// A refusal's number, and the line at fault: of the text, or, in a group, the first or the second of its two lines.
#[derive(Clone, Copy, PartialEq, Eq, Debug)]
pub struct LineFault {
    pub number: u64,
    pub line: u64,
}
