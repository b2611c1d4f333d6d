//! Reads a book's document: the first of its faults that the table shows, or the draft that it is.
#![tactic(auto)]

mod draft;
mod draft_alerts;
pub mod draft_keys;
mod draft_pages;
mod draft_params;
mod draft_terms;
mod reader;

pub use reader::{LONGEST, read_book};

#[cfg(test)]
mod test_books;
#[cfg(test)]
mod test_named;
#[cfg(test)]
mod test_order;
#[cfg(test)]
mod tests;
