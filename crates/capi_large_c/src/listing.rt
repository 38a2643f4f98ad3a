// The exports of `capi_large::listing`: each is the function of its name there, with its contract.
ghost use Rattle.large_listings.specs.LargeListings;
ghost use Rattle.capi.specs.HandedListing as handed;

// Which segments of the first path meet which of the second.
#[unsafe(no_mangle)]
pub extern "C" fn vj_mutual_large(
    first: &[f64],
    first_closed: bool,
    second: &[f64],
    second_closed: bool,
    epsilon: f64,
    indices: &mut [u64],
    points: &mut [f64],
    counts: &mut [u64],
) -> u64
    ensures { handed.HandedListing
        (LargeListings.mutual_large first.now first_closed second.now second_closed epsilon
        indices.old points.old)
        result counts.old counts.new indices.old indices.new
        points.old points.new }
{
    capi_large::listing::vj_mutual_large(
        first,
        first_closed,
        second,
        second_closed,
        epsilon,
        indices,
        points,
        counts,
    )
}

// Which segments of a path meet. Neighbours that meet only near vertices which they share make no row.
#[unsafe(no_mangle)]
pub extern "C" fn vj_self_large(
    path: &[f64],
    closed: bool,
    epsilon: f64,
    indices: &mut [u64],
    points: &mut [f64],
    counts: &mut [u64],
) -> u64
    ensures { handed.HandedListing
        (LargeListings.self_large path.now closed epsilon indices.old points.old)
        result counts.old counts.new indices.old indices.new
        points.old points.new }
{
    capi_large::listing::vj_self_large(path, closed, epsilon, indices, points, counts)
}
