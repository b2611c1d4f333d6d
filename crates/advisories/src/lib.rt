//! Values that drift out of their range call their page, below every alert: the file of their limits, and the view of a
//! replay that tells them.
#![tactic(auto)]

mod document;
mod drift;
mod faults;
mod limits;
mod panel;
mod reading;
mod rules;
mod sums;
mod view;
mod watches;

pub use limits::{Advisory, Limits, LimitsError, LimitsFault};
pub use reading::{LONGEST, read_limits};
pub use view::Advisories;

#[cfg(test)]
mod tests;
