// The exports of `probe::filled`: each is the function of its name there, with its contract.
ghost use Rattle.listing_calls.specs.Filled;
ghost use Rattle.probe.specs.Numbers.{Given};

// Copies the part that `filled` answers to the front of `out`.
#[unsafe(no_mangle)]
pub extern "C" fn vjp_filled(points: &[f64], rows: usize, out: &mut [f64]) -> usize
    ensures { Given (Filled.filled points.now rows) result out.old out.new }
{
    probe::filled::vjp_filled(points, rows, out)
}
