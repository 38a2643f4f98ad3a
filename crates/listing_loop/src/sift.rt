// Which pairs of a block the loop looks at: those with a mark if it recalls marks, or else what the sieve of lines leaves, or else
// all.
ghost use Rattle.std.specs.Prelude.{◌≡◌, true, ◌≤◌, ◌<◌, ◌-◌, ◌*◌, T, length};
ghost use Rattle.std.specs.Float.{binary64};
ghost use Rattle.std.specs.Float.Ieee.{fits};
ghost use Rattle.paths.specs.Path;
ghost use Rattle.sieves.specs.Workings.Flags;
ghost use Rattle.sieves.specs.Workings.Lines as LineDefs;
ghost use Rattle.sieves.specs.Workings.Marks as marks_of;
ghost use Rattle.listing_loop.specs.Workings.Sift as sift_of;

use paths::path::Segment;
use sieves::flags::leave_all;
use sieves::lines::{Side, sift_lines, usual_line};
use sieves::marks::{Grain, recall, set_mark};

// Whether v's pairs go through the sieve of lines: it can judge v, and the sieve is asked for.
pub(crate) fn by_lines(sieved: bool, v: Segment, epsilon: f64) -> bool
    ensures { result ≡ sift_of.by_lines sieved v epsilon }
{
    if sieved {
        return usual_line(v.v1, v.v2, epsilon);
    }
    false
}

// Whether marks are recalled. If pairs share marks, the sieve of lines leaves fewer of them.
fn by_marks(lines: bool, recalling: bool, grain: Grain) -> bool
    ensures { result ≡ sift_of.by_marks lines recalling grain }
{
    recalling & !(lines & (0 < grain.shift))
}

// Writes the flags of the indices from `from` up to, but not including, `to`, for segment i of the first path.
pub(crate) fn sift(
    side: Side,
    lines: bool,
    recalling: bool,
    sides: &[f64],
    marks: &[u64],
    grain: Grain,
    i: usize,
    m: usize,
    epsilon: f64,
    from: usize,
    to: usize,
    flags: &mut [u64],
)
    requires i_bound { (i ≤ Path.most_segments) × (m ≤ Path.most_segments) × marks_of.Fair grain }
    requires m_in_bounds { lines ≡ true → m * LineDefs.numbers_of_side ≤ length sides.now }
    requires from_le_to { (from ≤ to) × (to ≤ m) × (to - from ≤ length flags.old) }
    ensures flags_after { flags.new
        ≡ Flags.flags (sift_of.left side lines recalling sides.now marks.now grain i m epsilon) from to
        flags.old }
    ensures t { T (fits binary64 epsilon) }
{
    if by_marks(lines, recalling, grain) {
        recall(marks, grain, i, from, to, flags);
        return;
    }
    if lines {
        sift_lines(side, sides, m, epsilon, from, to, flags);
        return;
    }
    leave_all(from, to, flags);
}

// Sets mark p if `noting`, else nothing.
pub(crate) fn note(noting: bool, marks: &mut [u64], p: usize)
    ensures { marks.new ≡ sift_of.note noting marks.old p }
{
    if noting {
        set_mark(marks, p);
    }
}
