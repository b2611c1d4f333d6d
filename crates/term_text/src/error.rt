// Why a condition's text is refused.
ghost use Rattle.std.specs.Prelude.{◌≡◌};

use std::alloc::{AllocError, AllocFailed};
use thiserror::Error;

/// Why a condition's text is refused. A place is a byte's, counted from 0.
#[derive(Debug, Drop, Error)]
pub enum TermError {
    /// The first token that fits nowhere begins here: no condition begins with the tokens before it and it.
    /// The end of the text counts as a last token.
    #[error("a token that fits nowhere at byte {at}")]
    Syntax { at: usize },
    /// A name that isn't known begins here, and nothing is wrong with a name or a number before it.
    #[error("an unknown name at byte {at}")]
    UnknownName { at: usize },
    /// A number out of its range begins here, and nothing is wrong with a name or a number before it.
    #[error("a number out of its range at byte {at}")]
    Number { at: usize },
    /// More than 16 nodes stand on the tree's longest way down.
    #[error("a condition deeper than 16")]
    TooDeep,
    /// The tree has more than 64 nodes.
    #[error("a condition of more than 64 nodes")]
    TooLarge,
    /// Memory ran out, which tells nothing of the text.
    #[error("out of memory")]
    Memory,
}

impl From<AllocError> for TermError {
    ghost use Rattle.term_text.specs.declared.error.TermError.TheVariants.{Memory};
    ghost use Rattle.std.specs.Prelude.{◌≡◌};

    ghost from_gives = { λ _ e. e ≡ Memory };

    fn from(_: AllocError) -> TermError {
        TermError::Memory
    }
}

impl<T: Drop> From<AllocFailed<T>> for TermError {
    ghost use Rattle.term_text.specs.declared.error.TermError.TheVariants.{Memory};
    ghost use Rattle.std.specs.Prelude.{◌≡◌};

    ghost from_gives = { λ _ e. e ≡ Memory };

    fn from(_: AllocFailed<T>) -> TermError {
        TermError::Memory
    }
}
