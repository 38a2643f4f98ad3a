// Two reports as one.
ghost use Rattle.std.specs.Prelude.{◌≡◌, ◌≤◌, ◌+◌, ltb, length};
ghost use Rattle.month.specs.Report as report_of;
ghost use Rattle.month.specs.Join as join_of;

use super::add::add_words;
use super::report::{LARGEST, LAYOUTS, MOST_LAYOUTS, WORDS};
use checks::call::CallError;
use checks::fault::{Item, whole};
use checks::refusal;

// The first report has the sums. Or one of the slices has fewer words than a report, or it is 19: too many layouts, or a sum that
// has no 64 bits. Then nothing is changed.
pub type JoinAnswer = Result<(), CallError>;

// Whether the sum of two words does not fit.
fn too_large(a: u64, b: u64) -> bool
    ensures { result ≡ ltb report_of.largest (a + b) }
{
    b > LARGEST - a
}

// Whether the sum of two reports has too many layouts, or a word that does not fit.
fn too_much(into: &[u64], other: &[u64]) -> bool
    requires { (report_of.words ≤ length into.now) × (report_of.words ≤ length other.now) }
    ensures { result ≡ join_of.too_much into.now other.now }
{
    into[LAYOUTS] > MOST_LAYOUTS
        || other[LAYOUTS] > MOST_LAYOUTS - into[LAYOUTS]
        || into[..WORDS]
            .iter()
            .zip(&other[..WORDS])
            .any(|(a, b)| too_large(*a, *b))
}

// Adds the second report to the first.
pub fn join(into: &mut [u64], other: &[u64]) -> JoinAnswer
    ensures { join_of.LeavesJoin (join_of.join into.old other.now) result into.new }
{
    if into.len() < WORDS {
        return Err(CallError::NoRoom);
    }
    if other.len() < WORDS {
        return Err(CallError::NoRoom);
    }
    if too_much(into, other) {
        return Err(CallError::Refused(whole(refusal::REPORT, Item::Report)));
    }
    add_words(into, other);
    Ok(())
}
