//! What the crew makes of the alerts by CLR, RCL and EMER CANC, moment by moment: which are cleared, cancelled, recalled
//! and shown, the target of the next press, and NORMAL.
#![tactic(auto)]

mod looked;
mod mark;
mod marks;
mod ranks;
mod sets;
mod stretch;
mod walk;

pub use marks::Marks;
