// The exports of `probe::fuzzy`: each is the function of its name there, with its contract.
ghost use Rattle.std.specs.Prelude.{◌≡◌};
ghost use Rattle.plane.specs.Fuzzy;

#[unsafe(no_mangle)]
pub extern "C" fn vjp_fuzzy_eq_zero_eps(a: f64, eps: f64) -> bool
    ensures { result ≡ Fuzzy.fuzzy_eq_zero_eps a eps }
{
    probe::fuzzy::vjp_fuzzy_eq_zero_eps(a, eps)
}

#[unsafe(no_mangle)]
pub extern "C" fn vjp_fuzzy_eq_zero(a: f64) -> bool
    ensures { result ≡ Fuzzy.fuzzy_eq_zero a }
{
    probe::fuzzy::vjp_fuzzy_eq_zero(a)
}

#[unsafe(no_mangle)]
pub extern "C" fn vjp_fuzzy_eq_eps(a: f64, b: f64, eps: f64) -> bool
    ensures { result ≡ Fuzzy.fuzzy_eq_eps a b eps }
{
    probe::fuzzy::vjp_fuzzy_eq_eps(a, b, eps)
}

#[unsafe(no_mangle)]
pub extern "C" fn vjp_fuzzy_gt_eps(a: f64, b: f64, eps: f64) -> bool
    ensures { result ≡ Fuzzy.fuzzy_gt_eps a b eps }
{
    probe::fuzzy::vjp_fuzzy_gt_eps(a, b, eps)
}

#[unsafe(no_mangle)]
pub extern "C" fn vjp_fuzzy_lt_eps(a: f64, b: f64, eps: f64) -> bool
    ensures { result ≡ Fuzzy.fuzzy_lt_eps a b eps }
{
    probe::fuzzy::vjp_fuzzy_lt_eps(a, b, eps)
}

#[unsafe(no_mangle)]
pub extern "C" fn vjp_fuzzy_in_range_eps(a: f64, min: f64, max: f64, eps: f64) -> bool
    ensures { result ≡ Fuzzy.fuzzy_in_range_eps a min max eps }
{
    probe::fuzzy::vjp_fuzzy_in_range_eps(a, min, max, eps)
}
