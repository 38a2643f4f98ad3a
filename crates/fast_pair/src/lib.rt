// How two segments meet, with quick tests first. From what is kept of each segment they show, with no root and no division,
// that two segments are clearly apart. If inconclusive, `crossing` decides, so every answer is that of the pair call.
#![tactic(auto)]

pub mod all_fine;
mod circles;
pub mod kept;
mod line;
pub mod lines;
mod misses;
pub mod pair;
