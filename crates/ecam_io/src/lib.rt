//! The outside of the program: sources that are read, shelves of files that are opened, and sinks that are written.
//! Each keeps a count of faults, and a call fails only where the count rose or a named file isn't there.
#![tactic(auto)]

mod discard;
mod failing;
mod memory_shelf;
mod memory_sink;
mod os;
mod outside;
mod tally;

pub use discard::Discard;
pub use memory_shelf::{MemoryFile, MemoryShelf};
pub use memory_sink::MemorySink;
pub use os::{OsErr, OsOut, OsShelf};
pub use outside::{Failed, Shelf, Sink, Source, put_all};
pub use tally::Tally;

#[cfg(test)]
mod tests;
