// The static library libcapi.a: the exports for C of `capi`. Each is the function of its name there, with its contract.
#![tactic(auto)]

ghost use Rattle.std.specs.Prelude.{◌≡◌};
ghost use Rattle.floats.specs.F64;
ghost use Rattle.floats.specs.Bits;

pub mod boxed;
pub mod calls;
pub mod counted;
pub mod dxf;
pub mod listing;
pub mod page;
pub mod pair_findings;

// The absolute value.
#[unsafe(no_mangle)]
pub extern "C" fn vj_abs(x: f64) -> f64
    ensures { result ≡ F64.abs x }
{
    capi::vj_abs(x)
}

// The smaller of two numbers.
#[unsafe(no_mangle)]
pub extern "C" fn vj_min(x: f64, y: f64) -> f64
    ensures { result ≡ F64.min x y }
{
    capi::vj_min(x, y)
}

// The larger of two numbers.
#[unsafe(no_mangle)]
pub extern "C" fn vj_max(x: f64, y: f64) -> f64
    ensures { result ≡ F64.max x y }
{
    capi::vj_max(x, y)
}

// The square root, correctly rounded.
#[unsafe(no_mangle)]
pub extern "C" fn vj_sqrt(x: f64) -> f64
    ensures { result ≡ F64.sqrt x }
{
    capi::vj_sqrt(x)
}

// The absolute value, on bit patterns.
#[unsafe(no_mangle)]
pub extern "C" fn vj_abs_bits(b: u64) -> u64
    ensures { result ≡ Bits.abs b }
{
    capi::vj_abs_bits(b)
}

// The smaller of two numbers, on bit patterns.
#[unsafe(no_mangle)]
pub extern "C" fn vj_min_bits(a: u64, b: u64) -> u64
    ensures { result ≡ Bits.min a b }
{
    capi::vj_min_bits(a, b)
}

// The larger of two numbers, on bit patterns.
#[unsafe(no_mangle)]
pub extern "C" fn vj_max_bits(a: u64, b: u64) -> u64
    ensures { result ≡ Bits.max a b }
{
    capi::vj_max_bits(a, b)
}

// The square root, correctly rounded, on bit patterns.
#[unsafe(no_mangle)]
pub extern "C" fn vj_sqrt_bits(b: u64) -> u64
    ensures { result ≡ Bits.sqrt b }
{
    capi::vj_sqrt_bits(b)
}
