//! The limits of books, records and displays, which the definitions and the program both cite.

/// The most bytes that a book may have.
pub const BOOK_BYTES: usize = 4194304;
/// The most systems of a book.
pub const SYSTEMS: usize = 64;
/// The most pages of a book, each of which has a key.
pub const PAGES: usize = 16;
/// The most parameters of a book.
pub const PARAMETERS: usize = 1024;
/// The most alerts of a book.
pub const ALERTS: usize = 2048;
/// The most alerts of a book of version 1.
pub const ALERTS_OF_VERSION_1: usize = 1024;
/// The most named conditions of a book, which has some in version 2 alone.
pub const NAMED_TERMS: usize = 256;
/// The most memos of a book.
pub const MEMOS: usize = 128;
/// The most rows of a page below its title.
pub const PAGE_ROWS: usize = 17;
/// The most sources of a parameter.
pub const SOURCES: usize = 3;
/// The most secondary alerts of an alert.
pub const SECONDARIES: usize = 16;
/// The most lines of an alert's procedure.
pub const LINES: usize = 16;
/// The most lines of an alert on the status page.
pub const STATUS_LINES: usize = 8;
/// The most phases in a list of them.
pub const PHASES: usize = 10;

/// The most bytes of a name.
pub const NAME: usize = 24;
/// The most bytes of a row's text.
pub const TEXT: usize = 36;
/// The most bytes of a system's text.
pub const SYSTEM_TEXT: usize = 16;
/// The most bytes of a row's text beside a value, in as many places.
pub const VALUE_ROW_TEXT: usize = 24;
/// The most bytes of a value's unit.
pub const UNIT: usize = 6;
/// The most bytes of a condition's text.
pub const TERM_TEXT: usize = 2048;
/// The most nodes on a condition's longest way down.
pub const TERM_DEPTH: usize = 16;
/// The most nodes of a condition.
pub const TERM_NODES: usize = 64;

/// The greatest number that a condition compares with, and the greatest range of a parameter.
pub const NUMBER: u32 = 1000000;
/// The most moments that a condition or an alert waits, which are an hour.
pub const WAIT: u32 = 36000;
/// The most moments that a word stays fresh, which are a minute.
pub const STALE: u32 = 600;
/// How many sets of phases there are; the last has all ten.
pub const PHASE_SETS: u16 = 1024;

/// The buses, from 0.
pub const BUSES: usize = 16;
/// The most bytes of a record's line.
pub const RECORD_LINE: usize = 32;

/// The rows of the picture.
pub const PICTURE_ROWS: usize = 36;
/// The rows of the left zone, and of the right.
pub const ZONE_ROWS: usize = 7;
/// The rows of the system display.
pub const DISPLAY_ROWS: usize = 18;
