//! What a report of flights tells.

/// How many of the alerts that came up in a flight are told at most: the first.
pub const ENTRIES: usize = 64;

/// An alert that came up.
#[derive(Clone, Copy, Debug, PartialEq, Eq, Default)]
pub struct Entry {
    /// The number of the Tick, from 0 over the whole record.
    pub tick: u64,
    /// The flight phase of its moment, 1 to 10.
    pub phase: u8,
    /// The alert, by its place in the book.
    pub alert: u32,
}
