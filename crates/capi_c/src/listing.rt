// The exports of `capi::listing`: each is the function of its name there, with its contract.
ghost use Rattle.listing_calls.specs.Listing;
ghost use Rattle.capi.specs.HandedListing as handed;

// Which segments of the first path meet which of the second.
#[unsafe(no_mangle)]
pub extern "C" fn vj_mutual(
    first: &[f64],
    first_closed: bool,
    second: &[f64],
    second_closed: bool,
    epsilon: f64,
    indices: &mut [u64],
    points: &mut [f64],
    counts: &mut [u64],
) -> u64
    ensures { handed.HandedListing
        (Listing.mutual_listing first.now first_closed second.now second_closed epsilon
        indices.old points.old)
        result counts.old counts.new indices.old indices.new
        points.old points.new }
{
    capi::listing::vj_mutual(
        first,
        first_closed,
        second,
        second_closed,
        epsilon,
        indices,
        points,
        counts,
    )
}

// Which segments of a path meet. Neighbours that meet only near vertices which they share make no row.
#[unsafe(no_mangle)]
pub extern "C" fn vj_self(
    path: &[f64],
    closed: bool,
    epsilon: f64,
    indices: &mut [u64],
    points: &mut [f64],
    counts: &mut [u64],
) -> u64
    ensures { handed.HandedListing
        (Listing.self_listing path.now closed epsilon indices.old points.old)
        result counts.old counts.new indices.old indices.new
        points.old points.new }
{
    capi::listing::vj_self(path, closed, epsilon, indices, points, counts)
}
