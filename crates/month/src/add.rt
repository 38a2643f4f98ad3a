// The words of one report added to those of another.
ghost use Rattle.std.specs.Prelude.{◌≡◌, ◌≤◌, length, take};
ghost use Rattle.month.specs.Report as report_of;
ghost use Rattle.month.specs.Workings.Sums;

use super::report::WORDS;

// Adds the words of `other` to the first words of `into`.
pub(crate) fn add_words(into: &mut [u64], other: &[u64])
    requires words_in_bounds { (report_of.words ≤ length into.old) × (report_of.words ≤ length other.now) }
    requires all_fit { Sums.AllFit into.old other.now }
    ensures { into.new ≡ report_of.plus into.old (take report_of.words other.now) }
{
    for k in 0..WORDS {
        into[k] += other[k];
    }
}
