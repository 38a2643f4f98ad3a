// Comparisons with a tolerance. The `_eps` forms take it as a parameter; the others use the default. A NaN is near nothing.
ghost use Rattle.std.specs.Prelude.{◌≡◌};
ghost use Rattle.plane.specs.Fuzzy;

// The tolerance if none is given.
pub const FUZZY_EPSILON: f64 = 1e-8;

// Whether a's magnitude is below eps. Two comparisons are cheaper than abs, which must preserve NaN bits.
pub fn fuzzy_eq_zero_eps(a: f64, eps: f64) -> bool
    ensures { result ≡ Fuzzy.fuzzy_eq_zero_eps a eps }
{
    (a < eps) & (-eps < a)
}

// Whether a's magnitude is below the default epsilon.
pub fn fuzzy_eq_zero(a: f64) -> bool
    ensures { result ≡ Fuzzy.fuzzy_eq_zero a }
{
    fuzzy_eq_zero_eps(a, FUZZY_EPSILON)
}

// Whether a and b differ by less than eps.
pub fn fuzzy_eq_eps(a: f64, b: f64, eps: f64) -> bool
    ensures { result ≡ Fuzzy.fuzzy_eq_eps a b eps }
{
    fuzzy_eq_zero_eps(a - b, eps)
}

// Whether a + eps is greater than b.
pub fn fuzzy_gt_eps(a: f64, b: f64, eps: f64) -> bool
    ensures { result ≡ Fuzzy.fuzzy_gt_eps a b eps }
{
    a + eps > b
}

// Whether a is less than b + eps.
pub fn fuzzy_lt_eps(a: f64, b: f64, eps: f64) -> bool
    ensures { result ≡ Fuzzy.fuzzy_lt_eps a b eps }
{
    a < b + eps
}

// Whether a lies between min and max, each moved outwards by eps.
pub fn fuzzy_in_range_eps(a: f64, min: f64, max: f64, eps: f64) -> bool
    ensures { result ≡ Fuzzy.fuzzy_in_range_eps a min max eps }
{
    fuzzy_gt_eps(a, min, eps) & fuzzy_lt_eps(a, max, eps)
}
