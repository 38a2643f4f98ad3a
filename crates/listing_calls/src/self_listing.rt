// The crossings of a path with itself.
ghost use Rattle.listing_outcomes.specs.Outcome;
ghost use Rattle.listing_calls.specs.Listing;

use super::jobs;
use listing_outcomes::answer::ListingAnswer;
use listing_outcomes::buffer;

// Lists into the lent slices which segments of the path meet, and where. Neighbours that meet only near vertices which they share
// make no row.
pub fn self_listing(
    path: &[f64],
    closed: bool,
    epsilon: f64,
    indices: &mut [u64],
    points: &mut [f64],
) -> ListingAnswer
    ensures { Outcome.Leaves (Listing.self_listing path.now closed epsilon indices.old points.old)
        result indices.new points.new }
{
    jobs::check_self(path, closed, epsilon)?;
    let job = jobs::self_job(path, closed, false, epsilon);
    buffer::list(path, path, job, indices, points)
}
