//! Worked records of the computers' own words: what a view of them writes of books and records that are given as text.
//! Nothing rests on it; it has tests alone, whose expected lines come from the rules by hand, and from a program of another
//! hand.
#![tactic(auto)]

#[cfg(test)]
mod records;
#[cfg(test)]
mod views;
