// A path that is cut into lent slices: its numbers into one, the names of its segments into another.
ghost use Rattle.large_listings.specs.Workings.Cutting;

use boxes::index;
use cuts::fill::{cut_into, names_into};
use listing_pairs::{keeping, tracks};
use paths::path;

// the most floats that a cut path has
pub const FLOATS: usize = path::SEGMENTS * path::NUMBERS;

// what a listing keeps of a cut path: for each segment that it may have, and for each group of these
pub const KEPT: usize = path::SEGMENTS * keeping::NUMBERS + tracks::GROUPS;

// and behind that, in a boxed listing, a box for each of these, each group and each group of groups
pub const KEPT_BOXED: usize = KEPT
    + index::FLOATS * (path::SEGMENTS + tracks::GROUPS + tracks::GROUPS / index::GROUP);

// How many floats the cut path has, and how many segments.
#[derive(Clone, Copy)]
pub struct Sizes {
    pub floats: usize,
    pub segments: usize,
}

// Cuts a path into slices that are long enough.
pub fn cut(path: &[f64], closed: bool, floats: &mut [f64], names: &mut [u64]) -> Sizes
    requires { Cutting.Roomy path.now floats.old names.old }
    ensures { Cutting.Cut path.now closed floats.new names.new result }
{
    let n = cut_into(path, closed, floats);
    let k = names_into(path, closed, names);
    Sizes {
        floats: n,
        segments: k,
    }
}
