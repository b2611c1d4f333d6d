//! Who is to be woken in a moment: the numbers that are marked for it, in their order, and the moments that numbers are due.
#![tactic(auto)]

mod bit_set;
mod due;
mod marked;
mod rows;
#[cfg(test)]
mod tests;
mod wheel;

pub use bit_set::BitSet;
pub use due::Wakes;
pub use marked::{Marked, bits_from, lowest, mark_in};
