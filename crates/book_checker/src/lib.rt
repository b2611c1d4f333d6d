//! Seals a draft: finds the first of the faults that rest on the whole of a book, or makes the book.
#![tactic(auto)]

mod alerts;
mod atoms;
mod sealing;
mod searches;

pub use sealing::seal;

#[cfg(test)]
mod tests;
