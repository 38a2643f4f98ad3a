// The library for callers in C, C++ and Rust. include/vonjekona.h declares each call and says what it promises. The eight float
// calls are here: each is the function of its name in `floats` or `floats::bits`, with that function's contract. The other
// calls put their answers into lent slices and promise `Handed`, `HandedListing` or `HandedPage`: `calls` has those of the
// three kernels and `vj_pair`, which is `fast_pair::pair::pline_seg_intr`; `listing` has the listings, `page` their pages, and
// `boxed` the boxed listings, which promise `HandedBoxed`; `counted` has the counted listing and the join, which promise
// `HandedCounted` and `HandedJoin`; `pair_findings` has the pair call with findings, which promises `HandedFindings`; `dxf` has
// the import and the export of a drawing's path, which promise `HandedImport` and `HandedExport`.
#![tactic(auto)]

ghost use Rattle.std.specs.Prelude.{◌≡◌};
ghost use Rattle.floats.specs.F64;
ghost use Rattle.floats.specs.Bits;

pub mod boxed;
pub mod calls;
pub mod counted;
pub mod dxf;
pub mod hand_over;
pub mod listing;
pub mod page;
pub mod pair_findings;

// The absolute value.
#[unsafe(no_mangle)]
pub extern "C" fn vj_abs(x: f64) -> f64
    ensures { result ≡ F64.abs x }
{
    floats::abs(x)
}

// The smaller of two numbers.
#[unsafe(no_mangle)]
pub extern "C" fn vj_min(x: f64, y: f64) -> f64
    ensures { result ≡ F64.min x y }
{
    floats::min(x, y)
}

// The larger of two numbers.
#[unsafe(no_mangle)]
pub extern "C" fn vj_max(x: f64, y: f64) -> f64
    ensures { result ≡ F64.max x y }
{
    floats::max(x, y)
}

// The square root, correctly rounded.
#[unsafe(no_mangle)]
pub extern "C" fn vj_sqrt(x: f64) -> f64
    ensures { result ≡ F64.sqrt x }
{
    floats::sqrt(x)
}

// The absolute value, on bit patterns.
#[unsafe(no_mangle)]
pub extern "C" fn vj_abs_bits(b: u64) -> u64
    ensures { result ≡ Bits.abs b }
{
    floats::bits::abs(b)
}

// The smaller of two numbers, on bit patterns.
#[unsafe(no_mangle)]
pub extern "C" fn vj_min_bits(a: u64, b: u64) -> u64
    ensures { result ≡ Bits.min a b }
{
    floats::bits::min(a, b)
}

// The larger of two numbers, on bit patterns.
#[unsafe(no_mangle)]
pub extern "C" fn vj_max_bits(a: u64, b: u64) -> u64
    ensures { result ≡ Bits.max a b }
{
    floats::bits::max(a, b)
}

// The square root, correctly rounded, on bit patterns.
#[unsafe(no_mangle)]
pub extern "C" fn vj_sqrt_bits(b: u64) -> u64
    ensures { result ≡ Bits.sqrt b }
{
    floats::bits::sqrt(b)
}
