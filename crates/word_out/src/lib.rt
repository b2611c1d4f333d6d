//! The computers' own words, as a view of a replay: the status and the shown alerts on a bus, written as a record that a
//! further book can read. A word is written every ten seconds, and where it is another than at the Tick before.
#![tactic(auto)]

mod data;
pub mod laws;
mod lines;
mod word_out;

pub use word_out::WordOut;
