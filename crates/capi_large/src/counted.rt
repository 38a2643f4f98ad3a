// The counted listing of two paths, in the mode of large arcs.
ghost use Rattle.large_counted.specs.LargeCounted;
ghost use Rattle.capi.specs.HandedMonth as handed_month;

use capi::counted::hand_counted;
use capi::hand_over::NO_ROOM;
use capi::listing::COUNTS;
use large_counted::mutual_counted_large;

// Which segments of the first path meet which of the second, counted in a report.
#[unsafe(no_mangle)]
pub extern "C" fn vj_mutual_counted_large(
    first: &[f64],
    first_closed: bool,
    second: &[f64],
    second_closed: bool,
    epsilon: f64,
    indices: &mut [u64],
    points: &mut [f64],
    counts: &mut [u64],
    report: &mut [u64],
) -> u64
    ensures { handed_month.HandedCounted
        (LargeCounted.mutual_counted_large first.now first_closed second.now second_closed epsilon
        indices.old points.old report.old)
        result counts.old counts.new indices.old indices.new
        points.old points.new report.old report.new }
{
    if counts.len() < COUNTS {
        return NO_ROOM;
    }
    let answer = mutual_counted_large::mutual_counted_large(
        first,
        first_closed,
        second,
        second_closed,
        epsilon,
        indices,
        points,
        report,
    );
    hand_counted(answer, counts)
}
