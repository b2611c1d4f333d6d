//! The fields of ARINC 429 words, and what a word's data field says.
#![tactic(auto)]

mod word;

pub use word::Word;

#[cfg(test)]
mod tests;
