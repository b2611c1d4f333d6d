//! Which of a book's conditions name an operand: a parameter's value, the flight phase, whether an alert is active, a key, or
//! a computer's health. Of what changes in a moment it tells whom that wakes.
#![tactic(auto)]

mod book;
mod laws;
mod lists;
mod number;
mod watch;

pub use laws::{a_condition_names_operands_of_its_book, operands_have_numbers_of_their_own};
pub use number::{Sizes, key_place};
pub use watch::Watch;
