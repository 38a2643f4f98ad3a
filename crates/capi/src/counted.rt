// The counted listing of two paths, and two reports as one.
ghost use Rattle.std.specs.Prelude.{◌≡◌, ◌≤◌, length};
ghost use Rattle.std.proofs.lemmas.List.Edits.{sets};
ghost use Rattle.month.specs.Counted;
ghost use Rattle.month.specs.Join;
ghost use Rattle.capi.specs.HandedListing as handed;
ghost use Rattle.capi.specs.HandedMonth as handed_month;

use super::hand_over::NO_ROOM;
use super::listing::{COUNTS, hand_counts};
use checks::call::CallError;
use checks::word::word;
use month::join::JoinAnswer;
use month::mutual_counted::CountedAnswer;
use month::{join, mutual_counted};

// Writes the counts of an answer to the front of `counts` and returns 0. A refusal and too little room for a report write nothing.
pub fn hand_counted(answer: CountedAnswer, counts: &mut [u64]) -> u64
    requires { handed.count_places ≤ length counts.old }
    ensures value { result ≡ (handed_month.of_counted answer).code }
    ensures counts_after { counts.new ≡ sets counts.old 0 (handed_month.of_counted answer).counts }
{
    match answer {
        Err(error) => match error {
            CallError::NoRoom => NO_ROOM,
            CallError::Refused(fault) => word(fault),
        },
        Ok(listed) => hand_counts(Ok(listed), counts),
    }
}

// Which segments of the first path meet which of the second, counted in a report.
#[unsafe(no_mangle)]
pub extern "C" fn vj_mutual_counted(
    first: &[f64],
    first_closed: bool,
    second: &[f64],
    second_closed: bool,
    epsilon: f64,
    indices: &mut [u64],
    points: &mut [f64],
    counts: &mut [u64],
    report: &mut [u64],
) -> u64
    ensures { handed_month.HandedCounted
        (Counted.mutual_counted first.now first_closed second.now second_closed epsilon
        indices.old points.old report.old)
        result counts.old counts.new indices.old indices.new
        points.old points.new report.old report.new }
{
    if counts.len() < COUNTS {
        return NO_ROOM;
    }
    let answer = mutual_counted::mutual_counted(
        first,
        first_closed,
        second,
        second_closed,
        epsilon,
        indices,
        points,
        report,
    );
    hand_counted(answer, counts)
}

// What is returned of a join: 0 if the first report has the sums.
fn join_code(answer: JoinAnswer) -> u64
    ensures { result ≡ handed_month.join_code answer }
{
    match answer {
        Err(error) => match error {
            CallError::NoRoom => NO_ROOM,
            CallError::Refused(fault) => word(fault),
        },
        Ok(()) => 0,
    }
}

// Adds the second report to the first.
#[unsafe(no_mangle)]
pub extern "C" fn vj_join(into: &mut [u64], other: &[u64]) -> u64
    ensures { handed_month.HandedJoin (Join.join into.old other.now) result into.new }
{
    let answer = join::join(into, other);
    join_code(answer)
}
