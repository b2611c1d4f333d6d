//! Worked rows of the alerts: what is active, what the crew makes of it, and what lights and sounds, for a book that is
//! given as text. Nothing rests on it; it has tests alone, whose expected rows come from the rules by hand.
#![tactic(auto)]

#[cfg(test)]
mod books;
#[cfg(test)]
mod lights;
#[cfg(test)]
mod marks;
#[cfg(test)]
mod truths;

#[cfg(test)]
use books::small_book;
