//! The text of a condition: read to its tree, and written.
#![tactic(auto)]

mod atoms;
mod build;
mod error;
mod flaw;
mod laws;
mod members;
mod names;
mod number;
mod part;
mod parts;
mod pending;
mod read;
mod resolve;
mod same;
mod steps;
mod token;
mod words;
mod write;
mod write_atoms;

pub use error::TermError;
pub use laws::readable_conditions;
pub use names::{Dictionary, Names};
pub use read::{read_term, read_term_by};
pub use same::is_same;
pub use words::is_reserved;
pub use write::write_term;
