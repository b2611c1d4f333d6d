//! Makes a record from a number: as long as is asked for, always the same, and without a fault. It flies the phases
//! of a flight again and again, with numbers, keys and failures of computers by draws.
#![tactic(auto)]

mod draws;
pub mod laws;
mod lines;
mod maker;
#[cfg(test)]
mod tests;
mod words;

pub use maker::Maker;
