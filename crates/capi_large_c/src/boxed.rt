// The exports of `capi_large::boxed`: each is the function of its name there, with its contract.
ghost use Rattle.large_listings.specs.LargeListings;
ghost use Rattle.capi.specs.HandedListing as handed;

// What `vj_mutual_large` lists of the pairs whose segment boxes meet, and the boxes of both cut paths.
#[unsafe(no_mangle)]
pub extern "C" fn vj_mutual_boxed_large(
    first: &[f64],
    first_closed: bool,
    second: &[f64],
    second_closed: bool,
    epsilon: f64,
    boxes: &mut [f64],
    indices: &mut [u64],
    points: &mut [f64],
    counts: &mut [u64],
) -> u64
    ensures { handed.HandedBoxed
        (LargeListings.mutual_boxed_large first.now first_closed second.now second_closed epsilon
        boxes.old indices.old points.old)
        result counts.old counts.new boxes.old boxes.new
        indices.old indices.new points.old points.new }
{
    capi_large::boxed::vj_mutual_boxed_large(
        first,
        first_closed,
        second,
        second_closed,
        epsilon,
        boxes,
        indices,
        points,
        counts,
    )
}

// What `vj_self_large` lists of the pairs whose segment boxes meet, and the boxes of the cut path.
#[unsafe(no_mangle)]
pub extern "C" fn vj_self_boxed_large(
    path: &[f64],
    closed: bool,
    epsilon: f64,
    boxes: &mut [f64],
    indices: &mut [u64],
    points: &mut [f64],
    counts: &mut [u64],
) -> u64
    ensures { handed.HandedBoxed
        (LargeListings.self_boxed_large path.now closed epsilon boxes.old
        indices.old points.old)
        result counts.old counts.new boxes.old boxes.new
        indices.old indices.new points.old points.new }
{
    capi_large::boxed::vj_self_boxed_large(path, closed, epsilon, boxes, indices, points, counts)
}
