//! Conditions: what an alert, a memo or a flight phase waits for, as trees.
#![tactic(auto)]

mod cond;
mod laws;
mod named_term;

pub use cond::Cond;
pub use ecam_spec::Op;
pub use laws::children_have_slots_of_their_own;
pub use named_term::NamedTerm;

#[cfg(test)]
mod tests;
