// Whether a parameter lies on a segment, for any numbers: line_line_intersect.rs, lines 121-124, 161-162 and 175-176. Quick tests
// save the root where they can. They change no answer: a yes is proved in `specs/Workings`, and if they say no the plain form
// decides.
ghost use Rattle.std.specs.Prelude.{◌≡◌};
ghost use Rattle.ranges.specs.Range;
ghost use Rattle.ranges.specs.Workings.OnSegment;

use plane::fuzzy::fuzzy_in_range_eps;
use plane::vector2::Vector2;

// Usual sizes: an epsilon from 2^-40 to 2^-10, and a segment's length from 2^-5 to 2^25, tested by its square.
const EPS_LEAST: f64 = 1.0 / 1099511627776.0;

const THOUSANDTH: f64 = 1.0 / 1024.0;

const SQUARE_MOST: f64 = 1125899906842624.0;

// The quick tests compare t with these: on a segment of usual length a parameter is clearly inside up to 31/32, and clearly
// outside from 33/32 up and from -1/32 down.
const BEFORE_END: f64 = 31.0 / 32.0;

const AFTER_END: f64 = 33.0 / 32.0;

const STEP: f64 = 1.0 / 32.0;

// Whether the square of a segment's length and epsilon are of usual size.
pub fn usual(square: f64, eps: f64) -> bool
    ensures { result ≡ OnSegment.usual square eps }
{
    ((eps >= EPS_LEAST) & (eps <= THOUSANDTH)) & ((square >= THOUSANDTH) & (square <= SQUARE_MOST))
}

// Whether t is clearly inside a segment of usual length.
fn inside(t: f64) -> bool
    ensures { result ≡ OnSegment.inside t }
{
    (t >= 0.0) & (t <= BEFORE_END)
}

// Whether t is clearly outside a segment of usual length.
fn outside(t: f64) -> bool
    ensures { result ≡ OnSegment.outside t }
{
    (t >= AFTER_END) | (t <= -STEP)
}

// Whether the parameter t lies on a segment, given as a vector. It compares lengths along the segment, so that epsilon is a
// distance.
fn on_segment_by_length(t: f64, segment: Vector2, eps: f64) -> bool
    ensures { result ≡ Range.on_segment t segment eps }
{
    let length = segment.length();
    fuzzy_in_range_eps(t * length, 0.0, length, eps)
}

// The same. It takes no root if t is clearly inside or outside.
pub fn on_segment(t: f64, segment: Vector2, eps: f64) -> bool
    ensures { result ≡ Range.on_segment t segment eps }
{
    if !usual(segment.length_squared(), eps) {
        return on_segment_by_length(t, segment, eps);
    }
    if inside(t) {
        return true;
    }
    if outside(t) {
        return false;
    }
    on_segment_by_length(t, segment, eps)
}
