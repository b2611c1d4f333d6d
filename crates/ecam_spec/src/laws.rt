//! What the definitions say, as theorems: each is the contract of a function that does nothing.

pub mod accounts;
pub mod alerts;
pub mod conditions;
pub mod crew;
pub mod failures;
pub mod history;
pub mod lamps;
pub mod phases;
pub mod rows;
pub mod selection;
pub mod worlds;
