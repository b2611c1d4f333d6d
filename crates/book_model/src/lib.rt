//! A book of alerts: as a draft, which is what its author wrote, and sealed, with the order of its alerts,
//! the places of its conditions' slots and the sources that listen to each bus and label.
#![tactic(auto)]

mod book;
mod draft;
mod error;
mod index;
mod laws;
mod names;
mod parts;
mod slots;
mod sources;

pub use book::Book;
pub use draft::{
    Alert, Draft, Line, Memo, Name, Page, PageRow, Param, PhaseTerms, StatusLine, Term, Text,
    WordSource,
};
pub use ecam_spec::{BookFault, Kind, Section};
pub use error::LoadError;
pub use laws::{
    conditions_have_slots_of_their_own, conditions_name_what_is_known,
    each_condition_has_its_number, one_world_serves_a_book,
};
pub use names::{NamePlaces, alert_places, note_place, place_in, place_of};
pub use sources::source_at;
