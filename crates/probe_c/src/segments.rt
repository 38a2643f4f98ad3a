// The exports of `probe::segments`: each is the function of its name there, with its contract.
ghost use Rattle.std.specs.Prelude.{◌≡◌};
ghost use Rattle.paths.specs.Segments;
ghost use Rattle.paths.specs.View;
ghost use Rattle.paths.specs.SegmentNumbers;
ghost use Rattle.probe.specs.Numbers.{Given};

// The segment's first vertex, then its second, each x, y and bulge, then its trace.
#[unsafe(no_mangle)]
pub extern "C" fn vjp_segment(path: &[f64], closed: bool, i: usize, out: &mut [f64]) -> usize
    ensures { Given (SegmentNumbers.segment_numbers (Segments.segment path.now closed i)) result
        out.old out.new }
{
    probe::segments::vjp_segment(path, closed, i, out)
}

// The same for a view of the path.
#[unsafe(no_mangle)]
pub extern "C" fn vjp_view_segment(path: &[f64], closed: bool, i: usize, out: &mut [f64]) -> usize
    ensures { Given (SegmentNumbers.segment_numbers (View.segment (View.view_of path.entry closed) i)) result
        out.old out.new }
{
    probe::segments::vjp_view_segment(path, closed, i, out)
}

#[unsafe(no_mangle)]
pub extern "C" fn vjp_view_segment_count(path: &[f64], closed: bool) -> usize
    ensures { result ≡ View.segment_count (View.view_of path.entry closed) }
{
    probe::segments::vjp_view_segment_count(path, closed)
}
