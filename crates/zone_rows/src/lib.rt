//! The zones of a picture, mended in place: a row is written only where it differs from the one that stands
//! there, and which rows changed is told. Each call works on the rows of a whole picture and on the list that
//! tells, for each row, whether it changed.
#![tactic(auto)]

mod begins;
mod fill;
pub mod laws;
mod row;

pub use begins::{DISPLAY, FLAGS, LAMPS, LEFT, RIGHT};
pub use fill::{blank_rest, put_next};
pub use row::set_row;
