// What a listing answers, and a page of one, and what they leave in the slices that the caller lends. Whether the rows fit,
// which is refusal 8, is decided in `buffer`; refusals 13 and 14, and 8 of a page, in `page`; refusal 17 in `boxed`.
#![tactic(auto)]

pub mod answer;
pub mod boxed;
pub mod buffer;
pub mod page;
pub mod room;
