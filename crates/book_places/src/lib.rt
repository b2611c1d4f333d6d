//! Where a parameter that gives numbers, and a page, stand in a book, by their names.
#![tactic(auto)]

mod places;

pub use places::{number_place, page_place};
