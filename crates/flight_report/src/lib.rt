//! What occurred in each flight, as a report: how many alerts came up in it, and the first of them with their Ticks and
//! flight phases. It is a view of a replay, which takes no memory once it is made.
#![tactic(auto)]

mod flight;
mod lines;
mod report;
mod watch;

pub use report::Report;
