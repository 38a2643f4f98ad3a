// Pages of the listings of two paths and of one. The counts go into a lent slice of their own.
ghost use Rattle.std.specs.Prelude.{◌≡◌, ◌≤◌, length};
ghost use Rattle.std.proofs.lemmas.List.Edits.{sets};
ghost use Rattle.listing_calls.specs.Pages;
ghost use Rattle.capi.specs.HandedListing as handed;

use super::hand_over::NO_ROOM;
use checks::word::word;
use listing_calls::{mutual_page, self_page};
use listing_outcomes::answer::PageAnswer;

// how many counts a page hands over
pub const COUNTS: usize = 4;

// Writes the counts of an answer to the front of `counts` and returns 0. A refusal writes nothing and returns its word.
pub fn hand_page(answer: PageAnswer, counts: &mut [u64]) -> u64
    requires { handed.page_places ≤ length counts.old }
    ensures value { result ≡ (handed.of_page answer).code }
    ensures counts_after { counts.new ≡ sets counts.old 0 (handed.of_page answer).counts }
{
    match answer {
        Err(fault) => word(fault),
        Ok(paged) => {
            counts[0] = paged.rows as u64;
            counts[1] = paged.pairs as u64;
            counts[2] = paged.next as u64;
            counts[3] = paged.all as u64;
            0
        }
    }
}

// A page of what `vj_mutual` lists: from a position on, as far as the budget and the lent rows allow.
#[unsafe(no_mangle)]
pub extern "C" fn vj_mutual_page(
    first: &[f64],
    first_closed: bool,
    second: &[f64],
    second_closed: bool,
    epsilon: f64,
    position: u64,
    budget: u64,
    indices: &mut [u64],
    points: &mut [f64],
    counts: &mut [u64],
) -> u64
    ensures { handed.HandedPage
        (Pages.mutual_page first.now first_closed second.now second_closed epsilon position budget
        indices.old points.old)
        result counts.old counts.new indices.old indices.new
        points.old points.new }
{
    if counts.len() < COUNTS {
        return NO_ROOM;
    }
    let answer = mutual_page::mutual_page(
        first,
        first_closed,
        second,
        second_closed,
        epsilon,
        position as usize,
        budget as usize,
        indices,
        points,
    );
    hand_page(answer, counts)
}

// A page of what `vj_self` lists.
#[unsafe(no_mangle)]
pub extern "C" fn vj_self_page(
    path: &[f64],
    closed: bool,
    epsilon: f64,
    position: u64,
    budget: u64,
    indices: &mut [u64],
    points: &mut [f64],
    counts: &mut [u64],
) -> u64
    ensures { handed.HandedPage
        (Pages.self_page path.now closed epsilon position budget indices.old points.old)
        result counts.old counts.new indices.old indices.new
        points.old points.new }
{
    if counts.len() < COUNTS {
        return NO_ROOM;
    }
    let answer = self_page::self_page(
        path,
        closed,
        epsilon,
        position as usize,
        budget as usize,
        indices,
        points,
    );
    hand_page(answer, counts)
}
