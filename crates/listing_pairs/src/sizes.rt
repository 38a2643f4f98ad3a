// The smaller and the larger of two sizes, and one less another.
ghost use Rattle.std.specs.Prelude.{◌≡◌, ◌-◌, min};
ghost use Rattle.listing_pairs.specs.Workings.Reached;

// The smaller of two.
pub fn lesser(a: usize, b: usize) -> usize
    ensures { result ≡ min a b }
{
    a.min(b)
}

// The larger of two.
pub fn greater(a: usize, b: usize) -> usize
    ensures { result ≡ Reached.greater a b }
{
    a.max(b)
}

// a less b, and 0 if b is the larger.
pub fn less(a: usize, b: usize) -> usize
    ensures { result ≡ a - b }
{
    a.saturating_sub(b)
}
