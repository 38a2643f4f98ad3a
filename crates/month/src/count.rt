// What a listing adds to a report.
ghost use Rattle.std.specs.Prelude.{◌≡◌, ◌≤◌, ◌<◌, ◌*◌, length};
ghost use Rattle.listing_pairs.specs.Row as RowDefs;
ghost use Rattle.month.specs.Report as report_of;
ghost use Rattle.month.specs.Counted;
ghost use Rattle.month.specs.Workings.Written;

use super::add::add_words;
use super::classes::count_class;
use super::report::{CLASSES, LAYOUTS, PAIRS, REFUSALS, WORDS};
use listing_outcomes::answer::ListingAnswer;

// What a layout refused with this number adds.
fn refused_adds(number: u64) -> [u64; WORDS]
    requires { number < report_of.refusal_numbers }
    ensures { result ≡ Counted.refused_adds number }
{
    let mut adds = [0u64; WORDS];
    adds[LAYOUTS] = 1;
    adds[REFUSALS + number as usize] = 1;
    adds
}

// What an accepted layout adds: one layout, its pairs, and how many of these have each class. The classes stand in its rows.
fn listed_adds(rows: usize, pairs: usize, indices: &[u64]) -> [u64; WORDS]
    requires { (rows ≤ pairs) × (rows * RowDefs.indices_a_row ≤ length indices.now) }
    ensures { result ≡ Written.listed_adds rows pairs indices.now }
{
    let none = pairs - rows;
    let tangent = count_class(indices, rows, 1);
    let one = count_class(indices, rows, 2);
    let two = count_class(indices, rows, 3);
    let lines = count_class(indices, rows, 4);
    let arcs = count_class(indices, rows, 5);
    let mut adds = [0u64; WORDS];
    adds[LAYOUTS] = 1;
    adds[PAIRS] = pairs as u64;
    adds[CLASSES] = none as u64;
    adds[CLASSES + 1] = tangent as u64;
    adds[CLASSES + 2] = one as u64;
    adds[CLASSES + 3] = two as u64;
    adds[CLASSES + 4] = lines as u64;
    adds[CLASSES + 5] = arcs as u64;
    adds
}

// Adds to a report that is not full what a listing answered; `indices` holds the rows that it wrote.
pub fn count(answer: ListingAnswer, indices: &[u64], report: &mut [u64])
    requires { Written.Countable answer indices.now report.old }
    ensures { report.new ≡ report_of.plus report.old (Written.adds_by answer indices.now) }
{
    match answer {
        Err(fault) => {
            let adds = refused_adds(fault.number);
            add_words(report, &adds);
        }
        Ok(counts) => {
            let adds = listed_adds(counts.rows, counts.pairs, indices);
            add_words(report, &adds);
        }
    }
}
