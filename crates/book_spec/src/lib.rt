//! The form of a book's document, as definitions on the table that a TOML text is. No loop of the program is
//! here.
#![tactic(auto)]

pub mod laws;
mod schema;

pub use schema::{Inner, Item, Leaf, Rule, Shape, Words};
