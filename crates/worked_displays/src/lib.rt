//! Worked rows of the displays: zones and pages filled for books that are given as text. Nothing rests on it; it has tests
//! alone, whose expected rows come from the rules by hand.
#![tactic(auto)]

#[cfg(test)]
mod books;
#[cfg(test)]
mod failure;
#[cfg(test)]
mod flags;
#[cfg(test)]
mod keys;
#[cfg(test)]
mod mending;
#[cfg(test)]
mod pages;
#[cfg(test)]
mod status_pages;
#[cfg(test)]
mod values;
#[cfg(test)]
mod zones;

#[cfg(test)]
use books::{are_told, book_of, flags_of, is_display, is_printed, is_zone, short};
