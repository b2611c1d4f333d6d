//! The system display: what it is asked to show, by the keys, and the rows of a system page with its values.
#![tactic(auto)]

mod inputs;
pub mod laws;
mod mend;
mod page;
mod row_text;
mod selection;
mod selector;

pub use ecam_spec::Choice;
pub use mend::mend_page;
pub use page::fill_page;
pub use selector::Selector;
