//! The form of a limits file's document, as definitions on the table that a TOML text is. No loop of the program is
//! here.
#![tactic(auto)]

pub mod form;
pub mod laws;

pub use form::{LimitsFault, Rule};
