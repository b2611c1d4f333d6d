//! A record shown: each event is taken by the two computers and then by a view, and what that writes leaves in few calls.
#![tactic(auto)]

mod show;

pub use show::{RunError, run_view};
