//! Reads a record: bytes in lines, each of which says an event. The events and the fault are those of the whole
//! text, whatever pieces the bytes come in.
//!
//! A caller that reads to the end keeps what was taken and answered so far beside the reader, as `Reads` relates
//! them. Its loop ends by `room`.
#![tactic(auto)]

mod common;
mod line;
mod outcome;
mod piece;
mod reader;
#[cfg(test)]
mod tests;

pub use ecam_spec::{FaultKind, RecordFault};
pub use outcome::LineError;
pub use reader::LineReader;
