//! What stands in the tables of a book's document, and the places of its names.
#![tactic(auto)]

mod catalogue;
pub mod conditions;
pub mod fields;
mod names;
pub mod places;
pub mod texts;
pub mod words;

pub use catalogue::Catalogue;
pub use names::{Places, Scope};
