//! The flight phase, 1 to 10, moment by moment: an automaton of a few numbers that answers what the
//! definition over the whole history says. The phases, their inputs and the transitions are told in
//! docs/phases.md.
#![tactic(auto)]

mod climb;
mod inputs;
mod regime;
mod state;
#[cfg(test)]
mod tests;

pub use inputs::PhaseInputs;
pub use state::PhaseState;
