// The exports of `capi::counted`: each is the function of its name there, with its contract.
ghost use Rattle.month.specs.Counted;
ghost use Rattle.month.specs.Join;
ghost use Rattle.capi.specs.HandedMonth as handed_month;

// Which segments of the first path meet which of the second, counted in a report.
#[unsafe(no_mangle)]
pub extern "C" fn vj_mutual_counted(
    first: &[f64],
    first_closed: bool,
    second: &[f64],
    second_closed: bool,
    epsilon: f64,
    indices: &mut [u64],
    points: &mut [f64],
    counts: &mut [u64],
    report: &mut [u64],
) -> u64
    ensures { handed_month.HandedCounted
        (Counted.mutual_counted first.now first_closed second.now second_closed epsilon
        indices.old points.old report.old)
        result counts.old counts.new indices.old indices.new
        points.old points.new report.old report.new }
{
    capi::counted::vj_mutual_counted(
        first,
        first_closed,
        second,
        second_closed,
        epsilon,
        indices,
        points,
        counts,
        report,
    )
}

// Adds the second report to the first.
#[unsafe(no_mangle)]
pub extern "C" fn vj_join(into: &mut [u64], other: &[u64]) -> u64
    ensures { handed_month.HandedJoin (Join.join into.old other.now) result into.new }
{
    capi::counted::vj_join(into, other)
}
