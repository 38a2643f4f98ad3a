// The library of the mode of large arcs, for callers in C, C++ and Rust: the calls whose names end in `_large`. It is a library
// of its own, so that the panel's stays as it is. include/vonjekona.h declares each call and says what it promises. `pair_large`
// has the pair call, which promises `HandedLarge`. The others promise what their twins in `capi` do: `listing` has the listings,
// `page` their pages, `boxed` the boxed listings, `counted` the counted listing, and `dxf` the import and the export of a
// drawing's path.
#![tactic(auto)]

pub mod boxed;
pub mod counted;
pub mod dxf;
pub mod listing;
pub mod page;
pub mod pair_large;
