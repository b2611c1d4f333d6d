//! The small types that every layer shares: events, keys, levels, colours, sounds, flight phases, and the
//! rows of the displays.
#![tactic(auto)]

mod keys;
mod phase;
mod picture;

pub use ecam_spec::{Colour, Event, Key, Level, Sound};
pub use keys::Keys;
pub use phase::{Phase, PhaseSet};
pub use picture::{Picture, ROW_TEXT, ROWS, Row};
