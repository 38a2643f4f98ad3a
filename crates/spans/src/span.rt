// A span: two numbers, and a third between them that is not known. Each operation on spans makes the two between which the same
// operation on the third lies: rounding keeps the order of numbers, so no error is to be reckoned.
ghost use Rattle.std.specs.Prelude.{◌≡◌};
ghost use Rattle.spans.specs.Workings.Span as span;

// From the least to the most.
#[derive(Clone, Copy)]
pub struct Span {
    pub least: f64,
    pub most: f64,
}

// The lower of two numbers, and the other one: the compiler makes each one instruction of the form a < b ? a : b.
fn lower(a: f64, b: f64) -> f64
    ensures { result ≡ span.lower a b }
{
    if a < b { a } else { b }
}

fn upper(a: f64, b: f64) -> f64
    ensures { result ≡ span.upper a b }
{
    if a < b { b } else { a }
}

// The span of two numbers, in either order.
fn between(a: f64, b: f64) -> Span
    ensures { result ≡ span.between a b }
{
    let least = lower(a, b);
    let most = upper(a, b);
    Span { least, most }
}

// c + x for the x of a span.
pub fn plus(c: f64, s: Span) -> Span
    ensures { result ≡ span.plus c s }
{
    let least = c + s.least;
    let most = c + s.most;
    Span { least, most }
}

// c - x for the x of a span.
pub fn less(c: f64, s: Span) -> Span
    ensures { result ≡ span.less c s }
{
    let least = c - s.most;
    let most = c - s.least;
    Span { least, most }
}

// x - c for the x of a span.
pub fn minus(s: Span, c: f64) -> Span
    ensures { result ≡ span.minus s c }
{
    let least = s.least - c;
    let most = s.most - c;
    Span { least, most }
}

// x - y for the x and the y of two spans.
pub fn difference(s: Span, t: Span) -> Span
    ensures { result ≡ span.difference s t }
{
    let least = s.least - t.most;
    let most = s.most - t.least;
    Span { least, most }
}

// x + y for the x and the y of two spans.
pub fn sum(s: Span, t: Span) -> Span
    ensures { result ≡ span.sum s t }
{
    let least = s.least + t.least;
    let most = s.most + t.most;
    Span { least, most }
}

// c * x for the x of a span.
pub fn times(c: f64, s: Span) -> Span
    ensures { result ≡ span.times c s }
{
    let a = c * s.least;
    let b = c * s.most;
    between(a, b)
}

// 2 * x for the x of a span.
pub fn doubled(s: Span) -> Span
    ensures { result ≡ span.doubled s }
{
    let least = 2.0 * s.least;
    let most = 2.0 * s.most;
    Span { least, most }
}

// x / c for the x of a span.
pub fn over(s: Span, c: f64) -> Span
    ensures { result ≡ span.over s c }
{
    let a = s.least / c;
    let b = s.most / c;
    between(a, b)
}

// c / x for the x of a span above zero.
pub fn under(c: f64, s: Span) -> Span
    ensures { result ≡ span.under c s }
{
    let a = c / s.least;
    let b = c / s.most;
    between(a, b)
}

// x / y for the x of a span on one side of zero, and the y of a span above zero.
pub fn ratio(s: Span, t: Span) -> Span
    ensures { result ≡ span.ratio s t }
{
    if s.least >= 0.0 {
        let least = s.least / t.most;
        let most = s.most / t.least;
        return Span { least, most };
    }
    let least = s.least / t.least;
    let most = s.most / t.most;
    Span { least, most }
}

// x * x for the x of a span on one side of zero.
pub fn square(s: Span) -> Span
    ensures { result ≡ span.square s }
{
    let a = s.least * s.least;
    let b = s.most * s.most;
    if s.least >= 0.0 {
        return Span { least: a, most: b };
    }
    Span { least: b, most: a }
}

// Whether two numbers differ by at least eps, by the span of their difference.
pub fn apart(gap: Span, eps: f64) -> bool
    ensures { result ≡ span.apart gap eps }
{
    (gap.least >= eps) | (gap.most <= -eps)
}
