//! The radio-height callouts at a descent, moment by moment: a bit for each height, which together answer what the
//! definition over all moments says. The heights and the margin are told in docs/callouts.md.
#![tactic(auto)]

mod heights;
mod lines;
mod state;
#[cfg(test)]
mod tests;
mod view;

pub use state::Callouts;
