//! Worked examples of the definitions, as theorems: a book, a record, and what a replay of it writes. Each is
//! proved by computing the definitions. To add one, write its book in specs/Books.antt, or specs/DisplayBooks.antt where
//! it has memos, status lines or pages, and here a function with the record and the output, in which `/` stands for
//! a line's end.
#![tactic(auto, unfolding(ecam_spec::specs::Opened::opened))]

pub mod callouts;
pub mod computers;
pub mod conditions;
pub mod keys;
pub mod lamps;
pub mod memos;
pub mod own_words;
pub mod page_keys;
pub mod pages;
pub mod phases;
pub mod procedures;
pub mod recalls;
pub mod records;
pub mod status;
pub mod titles;
pub mod whereabouts;
pub mod words;
