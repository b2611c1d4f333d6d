// Why a book wasn't loaded.
ghost use Rattle.std.specs.Prelude.{◌≡◌};

use ecam_spec::BookFault;
use std::alloc::{AllocError, AllocFailed};
use thiserror::Error;

/// Why a book wasn't loaded: it has a fault, or memory ran out.
#[derive(Debug, Drop, Error)]
pub enum LoadError {
    #[error("the book has a fault")]
    Fault(BookFault),
    #[error("out of memory")]
    Memory,
}

impl From<AllocError> for LoadError {
    ghost use Rattle.book_model.specs.declared.error.LoadError.TheVariants.{Memory};
    ghost use Rattle.std.specs.Prelude.{◌≡◌};

    ghost from_gives = { λ _ e. e ≡ Memory };

    fn from(_: AllocError) -> LoadError {
        LoadError::Memory
    }
}

impl<T: Drop> From<AllocFailed<T>> for LoadError {
    ghost use Rattle.book_model.specs.declared.error.LoadError.TheVariants.{Memory};
    ghost use Rattle.std.specs.Prelude.{◌≡◌};

    ghost from_gives = { λ _ e. e ≡ Memory };

    fn from(_: AllocFailed<T>) -> LoadError {
        LoadError::Memory
    }
}
