// The exports of `capi_large::counted`: each is the function of its name there, with its contract.
ghost use Rattle.large_counted.specs.LargeCounted;
ghost use Rattle.capi.specs.HandedMonth as handed_month;

// Which segments of the first path meet which of the second, counted in a report.
#[unsafe(no_mangle)]
pub extern "C" fn vj_mutual_counted_large(
    first: &[f64],
    first_closed: bool,
    second: &[f64],
    second_closed: bool,
    epsilon: f64,
    indices: &mut [u64],
    points: &mut [f64],
    counts: &mut [u64],
    report: &mut [u64],
) -> u64
    ensures { handed_month.HandedCounted
        (LargeCounted.mutual_counted_large first.now first_closed second.now second_closed epsilon
        indices.old points.old report.old)
        result counts.old counts.new indices.old indices.new
        points.old points.new report.old report.new }
{
    capi_large::counted::vj_mutual_counted_large(
        first,
        first_closed,
        second,
        second_closed,
        epsilon,
        indices,
        points,
        counts,
        report,
    )
}
