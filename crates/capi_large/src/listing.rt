// The listings of two paths and of one, in the mode of large arcs: an index row has five numbers. The counts go into a lent slice
// of their own.
ghost use Rattle.large_listings.specs.LargeListings;
ghost use Rattle.capi.specs.HandedListing as handed;

use capi::hand_over::NO_ROOM;
use capi::listing::{COUNTS, hand_counts};
use large_calls::{mutual_large, self_large};

// Which segments of the first path meet which of the second.
#[unsafe(no_mangle)]
pub extern "C" fn vj_mutual_large(
    first: &[f64],
    first_closed: bool,
    second: &[f64],
    second_closed: bool,
    epsilon: f64,
    indices: &mut [u64],
    points: &mut [f64],
    counts: &mut [u64],
) -> u64
    ensures { handed.HandedListing
        (LargeListings.mutual_large first.now first_closed second.now second_closed epsilon
        indices.old points.old)
        result counts.old counts.new indices.old indices.new
        points.old points.new }
{
    if counts.len() < COUNTS {
        return NO_ROOM;
    }
    let answer = mutual_large::mutual_large(
        first,
        first_closed,
        second,
        second_closed,
        epsilon,
        indices,
        points,
    );
    hand_counts(answer, counts)
}

// Which segments of a path meet. Neighbours that meet only near vertices which they share make no row.
#[unsafe(no_mangle)]
pub extern "C" fn vj_self_large(
    path: &[f64],
    closed: bool,
    epsilon: f64,
    indices: &mut [u64],
    points: &mut [f64],
    counts: &mut [u64],
) -> u64
    ensures { handed.HandedListing
        (LargeListings.self_large path.now closed epsilon indices.old points.old)
        result counts.old counts.new indices.old indices.new
        points.old points.new }
{
    if counts.len() < COUNTS {
        return NO_ROOM;
    }
    let answer = self_large::self_large(path, closed, epsilon, indices, points);
    hand_counts(answer, counts)
}
