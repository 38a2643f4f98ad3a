// A line segment and an arc: the two points of the circle on the straight line, as spans.
ghost use Rattle.std.specs.Prelude.{◌≡◌};
ghost use Rattle.spans.specs.Workings.Line as line;

use super::span::{Span, apart, difference, less, minus, over, plus, times};
use super::sweep::{bounded, off_sweep};
use arcs::arc_geometry::ArcGeometry;
use plane::vector2::Vector2;

// On a segment of usual length a parameter is clearly outside from 33/32 up and from -1/32 down.
const AFTER_END: f64 = 33.0 / 32.0;

const STEP: f64 = 1.0 / 32.0;

// 2^100: numbers up to it are finite.
const HUGE: f64 = 1267650600228229401496703205376.0;

// Whether the point at the t of a span lies off the segment p0 to p1, which is of usual length, or off the arc's sweep.
fn point_misses(t: Span, p0: Vector2, p1: Vector2, arc: ArcGeometry) -> bool
    ensures { result ≡ line.point_misses t p0 p1 arc }
{
    if (t.least >= AFTER_END) | (t.most <= -STEP) {
        return true;
    }
    let way = p1.sub(p0);
    let x = plus(p0.x, times(way.x, t));
    let y = plus(p0.y, times(way.y, t));
    off_sweep(x, y, arc)
}

// Whether both points miss. They are given by one coordinate, in which the segment starts at `from` and goes `way` far.
fn both_miss(
    first: Span,
    second: Span,
    from: f64,
    way: f64,
    p0: Vector2,
    p1: Vector2,
    arc: ArcGeometry,
    eps: f64,
) -> bool
    ensures { result ≡ line.both_miss first second from way p0 p1 arc eps }
{
    let gap = difference(first, second);
    let t1 = over(minus(first, from), way);
    let t2 = over(minus(second, from), way);
    let fine = ((way > 0.0) & (way <= HUGE)) | ((way < 0.0) & (way >= -HUGE));
    if (fine & apart(gap, eps)) & bounded(t1, t2) {
        if point_misses(t1, p0, p1, arc) {
            return point_misses(t2, p0, p1, arc);
        }
    }
    false
}

// The two points by the coordinate that changes more along the segment, which starts at `from` and goes `way` far in it.
#[derive(Clone, Copy)]
pub struct Axis {
    pub first: Span,
    pub second: Span,
    pub from: f64,
    pub way: f64,
}

// The axis of the two points that are `mult` away, in units of (b, -a), from the point (x0, y0). The two ways meet before the
// points are tested, so that the compiler puts the test in place.
fn axis_of(p0: Vector2, p1: Vector2, a: f64, b: f64, x0: f64, y0: f64, mult: Span) -> Axis
    ensures { result ≡ line.axis_of p0 p1 a b x0 y0 mult }
{
    let way = p1.sub(p0);
    if floats::abs(way.x) < floats::abs(way.y) {
        let step = times(a, mult);
        return Axis {
            first: less(y0, step),
            second: plus(y0, step),
            from: p0.y,
            way: way.y,
        };
    }
    let step = times(b, mult);
    Axis {
        first: plus(x0, step),
        second: less(x0, step),
        from: p0.x,
        way: way.x,
    }
}

// Whether both points of the circle on the line miss: they are `mult` away, in units of (b, -a), from the point (x0, y0) that is
// nearest to the centre.
pub fn points_miss(
    p0: Vector2,
    p1: Vector2,
    a: f64,
    b: f64,
    x0: f64,
    y0: f64,
    mult: Span,
    arc: ArcGeometry,
    eps: f64,
) -> bool
    ensures { result ≡ line.points_miss p0 p1 a b x0 y0 mult arc eps }
{
    let axis = axis_of(p0, p1, a, b, x0, y0, mult);
    both_miss(
        axis.first,
        axis.second,
        axis.from,
        axis.way,
        p0,
        p1,
        arc,
        eps,
    )
}
