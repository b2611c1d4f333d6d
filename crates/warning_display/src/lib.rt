//! The rows of the warning display: the left zone with the alerts and their procedures, the right zone with the
//! secondary failures, and the flags between them; and the rows of the master lights and of the aural warning.
//! Each fill mends its own rows of a picture and no other, writes a row only where it differs, and tells which
//! rows changed. None takes memory.
#![tactic(auto)]

mod counted;
mod flags;
mod lamps;
pub mod laws;
mod left;
mod memos;
mod procedure;
mod right;
mod search;

pub use flags::fill_flags;
pub use lamps::fill_lamps;
pub use left::{LeftCount, fill_left, fill_left_ranked};
pub use right::fill_right;
