//! A sink that gathers output on its way to another, so that it leaves in few calls.
#![tactic(auto)]

mod sink;

pub use sink::{GATHERED, Gathering};
