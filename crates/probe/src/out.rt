// Answers of more than one number, in a lent slice: if all of them fit, they are written from its front, else none is written.
// The function returns how many were written.
ghost use Rattle.std.specs.Prelude.{[], ◌∷◌};
ghost use Rattle.paths.specs.SegmentNumbers;
ghost use Rattle.probe.specs.Numbers.{Given, of_vector};

use paths::path::Segment;
use plane::vector2::Vector2;

pub fn two(a: f64, b: f64, out: &mut [f64]) -> usize
    ensures { Given (a ∷ b ∷ []) result out.old out.new }
{
    if out.len() < 2 {
        return 0;
    }
    out[0] = a;
    out[1] = b;
    2
}

pub fn three(a: f64, b: f64, c: f64, out: &mut [f64]) -> usize
    ensures { Given (a ∷ b ∷ c ∷ []) result out.old out.new }
{
    if out.len() < 3 {
        return 0;
    }
    out[0] = a;
    out[1] = b;
    out[2] = c;
    3
}

// The whole slice.
pub fn part(numbers: &[f64], out: &mut [f64]) -> usize
    ensures { Given numbers.now result out.old out.new }
{
    if out.len() < numbers.len() {
        return 0;
    }
    let mut k = 0;
    while k < numbers.len() {
        out[k] = numbers[k];
        k += 1;
    }
    numbers.len()
}

// First x, then y.
pub fn vector(v: Vector2, out: &mut [f64]) -> usize
    ensures { Given (of_vector v) result out.old out.new }
{
    two(v.x, v.y, out)
}

// A segment's first vertex, its second, then its trace. If there is no segment, no number is written.
pub fn segment(at: Option<Segment>, out: &mut [f64]) -> usize
    ensures { Given (SegmentNumbers.segment_numbers at) result out.old out.new }
{
    match at {
        None => 0,
        Some(s) => {
            let v1 = s.v1;
            let v2 = s.v2;
            part(&[v1.x, v1.y, v1.bulge, v2.x, v2.y, v2.bulge, s.trace], out)
        }
    }
}
