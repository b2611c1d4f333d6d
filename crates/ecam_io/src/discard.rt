// A sink that keeps nothing.
ghost use Rattle.std.specs.Prelude.{⊤};

use crate::{Failed, Sink};

/// A sink that drops each byte, and never fails.
#[derive(Clone, Copy, Debug, PartialEq, Eq)]
pub struct Discard;

impl Sink for Discard {
    ghost agrees = { λ _ _. ⊤ };

    ghost faults = { λ _. 0 };

    fn write(&mut self, bytes: &[u8]) -> Result<usize, Failed> {
        Ok(bytes.len())
    }
}
