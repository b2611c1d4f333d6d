// What the aircraft tells in a moment.

/// The six inputs of the flight phase in one moment of 100 ms. What "fast", "high" and "low" are in numbers
/// the book says.
#[derive(Clone, Copy, Debug, PartialEq, Eq)]
pub struct PhaseInputs {
    /// The aircraft is on ground.
    pub gnd: bool,
    /// An engine runs.
    pub run: bool,
    /// Take-off power is set.
    pub tp: bool,
    /// The aircraft is fast.
    pub fast: bool,
    /// The aircraft is high. Where it is low too, only this counts.
    pub high: bool,
    /// The aircraft is low.
    pub low: bool,
}
