// Marks: a listing that is counted first marks the pairs that make a row, and the walk that writes them looks at marked pairs only.
// A mark is a bit. If there are more pairs than bits, consecutive pairs share one, so that more is looked at, and nothing is lost.
ghost use Rattle.std.specs.Prelude.{◌≡◌, ◌≤◌, ◌<◌, ◌-◌, length};
ghost use Rattle.paths.specs.Path;
ghost use Rattle.sieves.specs.Workings.Flags;
ghost use Rattle.sieves.specs.Workings.Marks as marks_of;

use super::flags::flag;

// how many marks a word has
const A_WORD: usize = 64;

// the largest share: 2^13 consecutive pairs, as many as a path may have segments
const MOST_SHIFT: usize = 13;

// Where the mark of a pair stands: `stride` marks for each segment of the first path, and one for 2^shift segments of the second.
#[derive(Clone, Copy)]
pub struct Grain {
    pub stride: usize,
    pub shift: usize,
}

// As fine a grain as there are words for, for n segments by m.
pub fn grain_of(n: usize, m: usize, words: usize) -> Grain
    requires { (m ≤ Path.most_segments) × (words ≤ marks_of.most_words) }
    ensures { result ≡ marks_of.grain_of n m words }
{
    if n == 0 {
        return Grain {
            stride: 0,
            shift: MOST_SHIFT,
        };
    }
    let stride = words * A_WORD / n;
    for shift in 0..MOST_SHIFT {
        if m >> shift < stride {
            return Grain {
                stride: stride,
                shift: shift,
            };
        }
    }
    Grain {
        stride: stride,
        shift: MOST_SHIFT,
    }
}

// Which mark the pair (i, j) has.
pub fn mark_of(grain: Grain, i: usize, j: usize) -> usize
    requires { (i ≤ Path.most_segments) × (j ≤ Path.most_segments) × marks_of.Fair grain }
    ensures { result ≡ marks_of.mark_of grain i j }
{
    i * grain.stride + (j >> grain.shift)
}

// Sets mark p, if there is one.
pub fn set_mark(marks: &mut [u64], p: usize)
    ensures { marks.new ≡ marks_of.set_mark marks.old p }
{
    let word = p / A_WORD;
    if word < marks.len() {
        let bit: u64 = 1u64 << (p % A_WORD);
        marks[word] = marks[word] | bit;
    }
}

// Whether mark p is set. One that does not exist counts as set: what was not marked must be looked at.
fn is_set(marks: &[u64], p: usize) -> bool
    ensures { result ≡ marks_of.is_set marks.now p }
{
    let word = p / A_WORD;
    if word < marks.len() {
        return 0 < (marks[word] >> (p % A_WORD)) % 2;
    }
    true
}

// Writes the flags of the indices from `from` up to, but not including, `to`: i's pair with each is left if its mark is set.
pub fn recall(marks: &[u64], grain: Grain, i: usize, from: usize, to: usize, flags: &mut [u64])
    requires i_bound { (i ≤ Path.most_segments) × (to ≤ Path.most_segments) × marks_of.Fair grain }
    requires from_le_to { (from ≤ to) × (to - from ≤ length flags.old) }
    ensures { flags.new ≡ Flags.flags (marks_of.marked marks.now grain i) from to flags.old }
{
    for j in from..to {
        let p = mark_of(grain, i, j);
        flags[j - from] = flag(is_set(marks, p));
    }
}
