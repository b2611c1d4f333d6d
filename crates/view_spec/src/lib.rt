//! The meaning of what views show of a replay, as definitions over whole histories. No loop of the program is here.
#![tactic(auto)]

pub mod callout_laws;
pub mod flight_report;
pub mod laws;
