//! The values of a book's parameters: what the words on the buses said last, and whether it is fresh. Of the parameters
//! that a condition of the book names or a page shows it is told which may have another value than in the moment before.
#![tactic(auto)]

mod asked;
mod held;
mod mailbox;
mod received;
mod routing;
mod rules;
mod table;
mod taking;
mod words;

pub use table::Params;

#[cfg(test)]
mod tests;
