// The written rows of a listing.
ghost use Rattle.listing_calls.specs.Filled;
ghost use Rattle.probe.specs.Numbers.{Given};

use super::out;

// Copies the part that `filled` answers to the front of `out`.
#[unsafe(no_mangle)]
pub extern "C" fn vjp_filled(points: &[f64], rows: usize, out: &mut [f64]) -> usize
    ensures { Given (Filled.filled points.now rows) result out.old out.new }
{
    out::part(listing_calls::filled::filled(points, rows), out)
}
