//! The program's commands. Of a book: `check` tells how much it has, and `migrate` writes it in version 2. Of a record by a
//! book: `replay` tells what the displays show, `why` where each alert stands at the end, `callouts` the heights that are
//! called out, `advise` the values that drift out of the ranges of a file of limits, `report` what occurred in each
//! flight, and `words` the computers' own words. `drill` replays a made record.
#![tactic(auto)]

mod advise;
mod block;
mod changes;
mod commands;
mod drill;
mod error;
mod file;
pub mod laws;
mod load;
mod load_limits;
mod migrate;
mod outcome;
mod play;
mod replay;
mod show;
mod silent;
mod standings;
mod summary;
mod words;

pub use commands::ecam;
pub use outcome::Status;
pub use record_views::{RunError, run_view};
pub use replay::run;
