//! Which alerts are present, active, waiting, starred and up, moment by moment: an automaton that keeps the moment in
//! which something began in place of a count, and answers what the definitions over the whole history say.
#![tactic(auto)]

mod listers;
mod run;
mod stars;
mod truths;

pub use truths::Truths;
