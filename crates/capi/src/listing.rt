// The listings of two paths and of one. The counts go into a lent slice of their own.
ghost use Rattle.std.specs.Prelude.{◌≡◌, ◌≤◌, length};
ghost use Rattle.std.proofs.lemmas.List.Edits.{sets};
ghost use Rattle.listing_calls.specs.Listing;
ghost use Rattle.capi.specs.HandedListing as handed;

use super::hand_over::NO_ROOM;
use checks::word::word;
use listing_calls::{mutual_listing, self_listing};
use listing_outcomes::answer::ListingAnswer;

// how many counts a listing hands over
pub const COUNTS: usize = 2;

// Writes the counts of an answer to the front of `counts` and returns 0. A refusal writes nothing and returns its word.
pub fn hand_counts(answer: ListingAnswer, counts: &mut [u64]) -> u64
    requires { handed.count_places ≤ length counts.old }
    ensures value { result ≡ (handed.listing answer).code }
    ensures counts_after { counts.new ≡ sets counts.old 0 (handed.listing answer).counts }
{
    match answer {
        Err(fault) => word(fault),
        Ok(listed) => {
            counts[0] = listed.rows as u64;
            counts[1] = listed.pairs as u64;
            0
        }
    }
}

// Which segments of the first path meet which of the second.
#[unsafe(no_mangle)]
pub extern "C" fn vj_mutual(
    first: &[f64],
    first_closed: bool,
    second: &[f64],
    second_closed: bool,
    epsilon: f64,
    indices: &mut [u64],
    points: &mut [f64],
    counts: &mut [u64],
) -> u64
    ensures { handed.HandedListing
        (Listing.mutual_listing first.now first_closed second.now second_closed epsilon
        indices.old points.old)
        result counts.old counts.new indices.old indices.new
        points.old points.new }
{
    if counts.len() < COUNTS {
        return NO_ROOM;
    }
    let answer = mutual_listing::mutual_listing(
        first,
        first_closed,
        second,
        second_closed,
        epsilon,
        indices,
        points,
    );
    hand_counts(answer, counts)
}

// Which segments of a path meet. Neighbours that meet only near vertices which they share make no row.
#[unsafe(no_mangle)]
pub extern "C" fn vj_self(
    path: &[f64],
    closed: bool,
    epsilon: f64,
    indices: &mut [u64],
    points: &mut [f64],
    counts: &mut [u64],
) -> u64
    ensures { handed.HandedListing
        (Listing.self_listing path.now closed epsilon indices.old points.old)
        result counts.old counts.new indices.old indices.new
        points.old points.new }
{
    if counts.len() < COUNTS {
        return NO_ROOM;
    }
    let answer = self_listing::self_listing(path, closed, epsilon, indices, points);
    hand_counts(answer, counts)
}
