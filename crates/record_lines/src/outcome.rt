// What a reader answers in place of an event, and where it stands.
use ecam_spec::RecordFault;
use thiserror::Error;

/// Why a reader has no event to answer.
#[derive(Clone, Copy, Debug, PartialEq, Eq, Error)]
pub enum LineError {
    /// The source failed. The bytes taken so far are kept, and the next call reads again.
    #[error("the source failed")]
    Failed,
    /// The record has this fault.
    #[error("the record has a fault")]
    Record(RecordFault),
}

// Where a reader stands.
#[derive(Clone, Copy, Debug, PartialEq, Eq)]
pub(crate) enum Stage {
    // In the lines of the record.
    Lines,
    // After the line that ends the record.
    Closing,
    // At the end of the record and of the source.
    Ended,
    // At the record's fault.
    Faulty(RecordFault),
}
