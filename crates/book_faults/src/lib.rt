//! The first of the faults that the table of a book's document shows.
#![tactic(auto)]

mod faults;
mod keys;
pub mod rules;
mod searches;
mod sections;
mod tables;

pub use faults::{is_faultless_if_readable, table_fault};
