// The limits that a file sets, and why one is refused.
use book_model::Name;
use ecam_kinds::PhaseSet;
pub use limits_spec::LimitsFault;
use std::alloc::{AllocError, AllocFailed};
use thiserror::Error;

/// The range of a parameter's value, and the page that a value out of it calls.
#[derive(Clone, Copy)]
pub struct Advisory {
    pub name: Name,
    /// The places of the parameter and of the page in the book, from 0.
    pub param: u32,
    pub page: u32,
    /// The range, from `low` to `high`, and by how much inside it a value is back.
    pub low: i64,
    pub high: i64,
    pub margin: i64,
    /// In how many moments of 100 ms before this one the value has to have been out of its range too.
    pub confirm: u32,
    /// The phases in which nothing is told.
    pub inhibit: PhaseSet,
}

/// The advisories of a file, in its order.
#[derive(Drop)]
pub struct Limits {
    pub list: Vec<Advisory>,
}

/// Why limits weren't read: the file has a fault, or memory ran out.
#[derive(Debug, Drop, Error)]
pub enum LimitsError {
    #[error("the limits file has a fault")]
    Fault(LimitsFault),
    #[error("out of memory")]
    Memory,
}

impl From<AllocError> for LimitsError {
    ghost use Rattle.advisories.specs.declared.limits.LimitsError.TheVariants.{Memory};
    ghost use Rattle.std.specs.Prelude.{◌≡◌};

    ghost from_gives = { λ _ e. e ≡ Memory };

    fn from(_: AllocError) -> LimitsError {
        LimitsError::Memory
    }
}

impl<T: Drop> From<AllocFailed<T>> for LimitsError {
    ghost use Rattle.advisories.specs.declared.limits.LimitsError.TheVariants.{Memory};
    ghost use Rattle.std.specs.Prelude.{◌≡◌};

    ghost from_gives = { λ _ e. e ≡ Memory };

    fn from(_: AllocFailed<T>) -> LimitsError {
        LimitsError::Memory
    }
}
