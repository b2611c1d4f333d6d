// A sink that counts what is written.
ghost use Rattle.std.specs.Prelude.{◌≡◌, [], ◌∷◌, true};
ghost use Rattle.ecam_io.specs.Outside.{Appended};
ghost use Rattle.ecam_io.specs.Tally.{IsTallyOf};

use crate::{Failed, Sink};

/// A sink that counts what is written, and never fails. Each count ends at 2^64 - 1.
#[derive(Clone, Copy, Debug, PartialEq, Eq)]
pub struct Tally {
    /// The bytes.
    pub bytes: u64,
    /// The line feeds.
    pub lines: u64,
    /// The lines that begin with `@`, whether they are ended or not.
    pub blocks: u64,
    /// The next byte begins a line: nothing was written, or a line feed last.
    pub fresh: bool,
}

impl Tally {
    /// The tally of no bytes.
    pub fn new() -> Tally
        ensures counts { result ≡ record { bytes = 0; lines = 0; blocks = 0; fresh = true } }
        ensures none { IsTallyOf result [] }
    {
        Tally {
            bytes: 0,
            lines: 0,
            blocks: 0,
            fresh: true,
        }
    }

    // Counts one more byte.
    fn count(&mut self, byte: u8)
        ensures { Appended IsTallyOf self.old self.new (byte ∷ []) }
    {
        let begins_block = self.fresh && byte == b'@';
        self.blocks = self.blocks.saturating_add(u64::from(begins_block));
        self.fresh = byte == b'\n';
        self.lines = self.lines.saturating_add(u64::from(self.fresh));
        self.bytes = self.bytes.saturating_add(1);
    }
}

impl Sink for Tally {
    ghost agrees = { IsTallyOf };

    ghost faults = { λ _. 0 };

    fn write(&mut self, bytes: &[u8]) -> Result<usize, Failed> {
        for byte in bytes {
            self.count(*byte);
        }
        Ok(bytes.len())
    }
}
