// A month's report over mutual listings: how many layouts were listed or refused, and how many of their pairs have each class. A
// counted listing is a mutual listing that also adds to a lent report; `join` adds one report to another.
#![tactic(auto)]

mod add;
mod classes;
pub mod count;
pub mod join;
pub mod mutual_counted;
pub mod report;
