//! The codes of all conditions of a book, by which a moment steps them, one behind another in one list, and which of their
//! nodes ask for an operand.
#![tactic(auto)]

mod askers;
mod book;
mod chains;
mod codes;
mod pieces;
mod starts;

pub use askers::{Asker, Askers};
pub use codes::{CodeTable, Codes, Parts};
