// Listings in the mode of large arcs: a path may have arcs beyond a half circle, up to a bulge of 16. Such an arc is cut into two
// halves, and the listing is that of the cut paths. A row names the old segments and their halves.
#![tactic(auto)]

pub mod cutting;
pub mod jobs;
pub mod mutual_cut;
pub mod mutual_page_cut;
pub mod self_cut;
pub mod self_page_cut;
