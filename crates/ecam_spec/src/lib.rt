//! The meaning of everything that the program shows, as definitions over whole histories. No loop of
//! the program is here: the crates above prove theirs against these definitions.
#![tactic(auto)]

mod kinds;
pub mod laws;
pub mod limits;
pub mod replay_laws;
mod term_steps;
mod terms;

pub use kinds::{
    BookFault, Choice, Colour, Event, FaultKind, Key, Kind, Level, Op, RecordFault, Section, Sound,
    Standing,
};
pub use term_steps::{Connective, Expected, NameRole, NumberRole, Step};
pub use terms::{Reserved, Span, Token};
