// The exports of `capi_large::page`: each is the function of its name there, with its contract.
ghost use Rattle.large_listings.specs.LargeListings;
ghost use Rattle.capi.specs.HandedListing as handed;

// A page of what `vj_mutual_large` lists: from a position on, as far as the budget and the lent rows allow.
#[unsafe(no_mangle)]
pub extern "C" fn vj_mutual_page_large(
    first: &[f64],
    first_closed: bool,
    second: &[f64],
    second_closed: bool,
    epsilon: f64,
    position: u64,
    budget: u64,
    indices: &mut [u64],
    points: &mut [f64],
    counts: &mut [u64],
) -> u64
    ensures { handed.HandedPage
        (LargeListings.mutual_page_large first.now first_closed second.now second_closed epsilon
        position budget indices.old points.old)
        result counts.old counts.new indices.old indices.new
        points.old points.new }
{
    capi_large::page::vj_mutual_page_large(
        first,
        first_closed,
        second,
        second_closed,
        epsilon,
        position,
        budget,
        indices,
        points,
        counts,
    )
}

// A page of what `vj_self_large` lists.
#[unsafe(no_mangle)]
pub extern "C" fn vj_self_page_large(
    path: &[f64],
    closed: bool,
    epsilon: f64,
    position: u64,
    budget: u64,
    indices: &mut [u64],
    points: &mut [f64],
    counts: &mut [u64],
) -> u64
    ensures { handed.HandedPage
        (LargeListings.self_page_large path.now closed epsilon position budget
        indices.old points.old)
        result counts.old counts.new indices.old indices.new
        points.old points.new }
{
    capi_large::page::vj_self_page_large(
        path, closed, epsilon, position, budget, indices, points, counts,
    )
}
