// The counted listing of the mode of large arcs: the mutual listing there, which also adds to a month's report.
#![tactic(auto)]

pub mod mutual_counted_large;
