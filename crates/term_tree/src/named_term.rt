// Conditions that have a name.
use crate::cond::Cond;
use arrayvec::ArrayString;
use ecam_spec::limits::NAME;

/// A condition that has a name, of at most 24 bytes, by which the texts of others may ask for it.
#[derive(Debug, PartialEq, Eq, Drop)]
pub struct NamedTerm {
    pub name: ArrayString<NAME>,
    pub cond: Cond,
}
