//! The status page: the lines of the active alerts by sections and the cancelled cautions, eighteen rows a page,
//! filled in place.
#![tactic(auto)]

mod active;
mod cancelled;
mod count;
mod fill;
pub mod laws;
mod near;
mod place;
mod sections;

pub use count::{has_status_lines, has_status_rows_among, status_rows};
pub use fill::{fill_status, fill_status_among};
