// The exports of `capi::boxed`: each is the function of its name there, with its contract.
ghost use Rattle.listing_calls.specs.Boxed;
ghost use Rattle.capi.specs.HandedListing as handed;

// What `vj_mutual` lists of the pairs whose segment boxes meet, and the boxes of both paths.
#[unsafe(no_mangle)]
pub extern "C" fn vj_mutual_boxed(
    first: &[f64],
    first_closed: bool,
    second: &[f64],
    second_closed: bool,
    epsilon: f64,
    boxes: &mut [f64],
    indices: &mut [u64],
    points: &mut [f64],
    counts: &mut [u64],
) -> u64
    ensures { handed.HandedBoxed
        (Boxed.mutual_boxed first.now first_closed second.now second_closed epsilon
        boxes.old indices.old points.old)
        result counts.old counts.new boxes.old boxes.new
        indices.old indices.new points.old points.new }
{
    capi::boxed::vj_mutual_boxed(
        first,
        first_closed,
        second,
        second_closed,
        epsilon,
        boxes,
        indices,
        points,
        counts,
    )
}

// What `vj_self` lists of the pairs whose segment boxes meet, and the boxes of the path.
#[unsafe(no_mangle)]
pub extern "C" fn vj_self_boxed(
    path: &[f64],
    closed: bool,
    epsilon: f64,
    boxes: &mut [f64],
    indices: &mut [u64],
    points: &mut [f64],
    counts: &mut [u64],
) -> u64
    ensures { handed.HandedBoxed
        (Boxed.self_boxed path.now closed epsilon boxes.old indices.old points.old)
        result counts.old counts.new boxes.old boxes.new
        indices.old indices.new points.old points.new }
{
    capi::boxed::vj_self_boxed(path, closed, epsilon, boxes, indices, points, counts)
}
