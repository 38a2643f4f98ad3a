// Quick tests without a root, for the kernels and for the pair call. They change no answer: a yes is proved in `specs/Workings`,
// and if a test says no the plain form decides.
ghost use Rattle.std.specs.Prelude.{◌≡◌};
ghost use Rattle.crossing.specs.Workings.FarLine;
ghost use Rattle.crossing.specs.Workings.Apart;
ghost use Rattle.crossing.specs.Workings.Nested;

// 2^-100 and 2^100: beyond them the quick tests say no.
const TINY: f64 = 1.0 / 1267650600228229401496703205376.0;

const HUGE: f64 = 1267650600228229401496703205376.0;

// Whether x is above zero and neither tiny nor huge.
pub fn moderate(x: f64) -> bool
    ensures { result ≡ FarLine.moderate x }
{
    (x >= TINY) & (x <= HUGE)
}

// Whether two circles are clearly outside each other. `reach` is the sum of their radii and epsilon, d2 the squared distance of
// their centres.
pub fn apart(d2: f64, reach: f64, eps: f64) -> bool
    ensures { result ≡ Apart.apart d2 reach eps }
{
    ((reach >= 0.0) & (reach >= eps)) & (reach * reach < d2)
}

// Whether one circle lies well inside the other. `gap` is the difference of their radii, and d2 the squared distance of their
// centres.
pub fn nested(d2: f64, gap: f64, eps: f64) -> bool
    ensures { result ≡ Nested.nested d2 gap eps }
{
    let s = gap - (eps + eps);
    ((gap >= eps) & (s >= 0.0)) & ((s + eps < gap) & ((d2 >= 0.0) & (d2 < s * s)))
}
