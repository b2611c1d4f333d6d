//! The master lights and the aural warning, moment by moment: of each alert how its last onset stands, and from
//! that what the lights and the sound are by the definitions over all moments so far.
#![tactic(auto)]

mod callers;
mod calls;
mod latest;
mod moment;
mod state;
mod walk;
mod watch;

pub use state::Attention;
