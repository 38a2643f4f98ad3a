// A point whose coordinates are spans, and the sweep of an arc.
ghost use Rattle.std.specs.Prelude.{◌≡◌};
ghost use Rattle.spans.specs.Workings.Sweep;

use super::span::{Span, difference, minus, times};
use arcs::arc_geometry::ArcGeometry;

// 2^100: numbers up to it are finite.
const HUGE: f64 = 1267650600228229401496703205376.0;

// Whether the four numbers of two spans are finite, by what lies between them.
pub fn bounded(s: Span, t: Span) -> bool
    ensures { result ≡ Sweep.bounded s t }
{
    let width = (s.most - s.least) + (t.most - t.least);
    (width >= 0.0) & (width <= HUGE)
}

// Whether the x of a span is not zero, and its square not below the limit.
fn clear(s: Span, limit: f64) -> bool
    ensures { result ≡ Sweep.clear s limit }
{
    ((s.least > 0.0) & (s.least * s.least >= limit)) | ((s.most < 0.0) & (s.most * s.most >= limit))
}

// Whether a point is not between the edges of a sweep, by its cross products with the two.
fn beside(is_clockwise: bool, start_cross: Span, end_cross: Span) -> bool
    ensures { result ≡ Sweep.beside is_clockwise start_cross end_cross }
{
    if is_clockwise {
        return (start_cross.least > 0.0) | (end_cross.most < 0.0);
    }
    (start_cross.most < 0.0) | (end_cross.least > 0.0)
}

// Whether a point is in no part of the arc's sweep, by any rule: not near its centre, not between its edges, not beside one.
pub fn off_sweep(x: Span, y: Span, arc: ArcGeometry) -> bool
    ensures { result ≡ Sweep.off_sweep x y arc }
{
    let sweep = arc.sweep;
    let center = sweep.center;
    let start = sweep.start_vector;
    let end = sweep.end_vector;
    let px = minus(x, center.x);
    let py = minus(y, center.y);
    let start_cross = difference(times(start.x, py), times(start.y, px));
    let end_cross = difference(times(end.x, py), times(end.y, px));
    let far = clear(px, sweep.epsilon_squared) | clear(py, sweep.epsilon_squared);
    let from_start = clear(start_cross, sweep.start_fuzzy_limit);
    let from_end = clear(end_cross, sweep.end_fuzzy_limit);
    (bounded(start_cross, end_cross) & far)
        & ((from_start & from_end) & beside(sweep.is_clockwise, start_cross, end_cross))
}
