// The crossings of two paths.
ghost use Rattle.listing_outcomes.specs.Outcome;
ghost use Rattle.listing_calls.specs.Listing;

use super::jobs;
use listing_outcomes::answer::ListingAnswer;
use listing_outcomes::buffer;

// Lists into the lent slices which segments of the first path meet which of the second, and where. The same path may be lent
// twice.
pub fn mutual_listing(
    first: &[f64],
    first_closed: bool,
    second: &[f64],
    second_closed: bool,
    epsilon: f64,
    indices: &mut [u64],
    points: &mut [f64],
) -> ListingAnswer
    ensures { Outcome.Leaves (Listing.mutual_listing first.now first_closed second.now second_closed epsilon
        indices.old points.old)
        result indices.new points.new }
{
    jobs::check_mutual(first, first_closed, second, second_closed, epsilon)?;
    let job = jobs::mutual_job(first, first_closed, second, second_closed, false, epsilon);
    buffer::list(first, second, job, indices, points)
}
