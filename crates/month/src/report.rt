// What the words of a report count, and whether a report is full. specs/Report.antt has the same numbers.
ghost use Rattle.std.specs.Prelude.{◌≡◌, ◌≤◌, ltb, length};
ghost use Rattle.month.specs.Report as report_of;

// how many words a report has
pub const WORDS: usize = 40;

// the word of the layouts, refused ones too
pub const LAYOUTS: usize = 0;

// the word of the pairs looked at
pub const PAIRS: usize = 1;

// the pairs of class c are counted in word CLASSES + c
pub const CLASSES: usize = 2;

// the layouts refused with N are counted in word REFUSALS + N
pub const REFUSALS: usize = 8;

// how many layouts a report may have
pub const MOST_LAYOUTS: u64 = 10000;

// the most that a layout adds to a word: 8,192 * 8,192 pairs
pub const MOST_ADDED: u64 = 67108864;

// the largest number of 64 bits
pub const LARGEST: u64 = 18446744073709551615;

// a word above this might not hold what a layout adds
pub const MOST_HELD: u64 = LARGEST - MOST_ADDED;

// Whether a word might not hold what a layout adds.
fn too_large(word: u64) -> bool
    ensures { result ≡ ltb report_of.most_held word }
{
    word > MOST_HELD
}

// Whether no layout can be added: there are as many layouts as there may be, or another word is too large.
pub fn full(report: &[u64]) -> bool
    requires { report_of.words ≤ length report.now }
    ensures { result ≡ report_of.full report.now }
{
    report[LAYOUTS] >= MOST_LAYOUTS || report[PAIRS..WORDS].iter().any(|word| too_large(*word))
}
