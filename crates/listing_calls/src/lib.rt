// Listings: which segments of two paths, or of one path, meet, and where; whole, page by page, or found by boxes. A listing
// checks its numbers first and refuses what is out of range. Rows go into slices that the caller lends.
#![tactic(auto)]

pub mod filled;
mod jobs;
pub mod mutual_boxed;
pub mod mutual_listing;
pub mod mutual_page;
pub mod self_boxed;
pub mod self_listing;
pub mod self_page;
