// A span that holds a root, without the root.
ghost use Rattle.std.specs.Prelude.{◌≡◌};
ghost use Rattle.spans.specs.Workings.Root;

use super::span::Span;
use crossing::shortcuts::moderate;

// The pattern of +infinity.
const INFINITY: u64 = 0x7ff0_0000_0000_0000;

// What is added to half of a number's pattern to get near the pattern of its root.
const HALFWAY: u64 = 0x1ff7_a3be_a91d_9b1b;

// A number that is most often within a 25th of the root of q. No answer depends on how good it is.
pub fn rough_root(q: f64) -> f64 {
    if q >= 0.0 {
        let b: u64 = f64::to_bits(q);
        if b < INFINITY {
            let half: u64 = b >> 1;
            return f64::from_bits(half + HALFWAY);
        }
    }
    q
}

// One step of Newton's method from there: most often within a thousandth above the root.
pub fn near_root(q: f64) -> f64 {
    let g = rough_root(q);
    (g + q / g) * 0.5
}

// Whether the root of each number of one span lies in the other: the squares of that one's two numbers are on the two sides.
pub fn holds_root(q: Span, s: Span) -> bool
    ensures { result ≡ Root.holds_root q s }
{
    ((moderate(q.least) & moderate(q.most)) & (moderate(s.least) & moderate(s.most)))
        & ((s.least * s.least < q.least) & (q.most < s.most * s.most))
}
