// A piece of the input.
ghost use Rattle.std.specs.Prelude.{◌≡◌, ◌≤◌, ◌+◌, [], ◌∷◌, take, drop, length, Some, None, OnOk, OnErr};
ghost use Rattle.std.specs.Io.KnownBytes.{Consumes};
ghost use Rattle.ecam_io.specs.Outside.{Rose, Appended};
ghost use Rattle.record_lines.specs.Reads.{IsSpent, piece_call};

use ecam_io::{Failed, Source};
use std::marker::Model;

// How many bytes a piece has at most.
const PIECE: usize = 4096;

// The bytes that were read last, and how far they were gone through.
#[derive(Drop)]
pub(crate) struct Piece {
    buffer: [u8; PIECE],
    start: usize,
    end: usize,
}

impl Model for Piece {
    ghost use Rattle.std.specs.Prelude.{ℕ, ◌≤◌, List, slice_range};

    ghost Value = { List ℕ };

    ghost view = { λ p. slice_range p.buffer p.start p.end };

    ghost invariant = { λ p. (p.start ≤ p.end) × (p.end ≤ 4096) };
}

impl Piece {
    // A piece with nothing left.
    pub(crate) fn new() -> Piece
        ensures { result ≡ [] }
    {
        Piece {
            buffer: [0; PIECE],
            start: 0,
            end: 0,
        }
    }

    // What is left of it.
    pub(crate) fn bytes(&self) -> &[u8]
        ensures all { result.now ≡ self.now }
        ensures few { length self.now ≤ 4096 }
    {
        &self.buffer[self.start..self.end]
    }

    // Goes past the first of its bytes.
    pub(crate) fn skip(&mut self, count: usize)
        requires { count ≤ length self.old }
        ensures { self.new ≡ drop count self.old }
    {
        self.start += count;
    }

    // Keeps the first of its bytes.
    pub(crate) fn cut(&mut self, count: usize)
        requires { count ≤ length self.old }
        ensures { self.new ≡ take count self.old }
    {
        self.end = self.start + count;
    }

    // Reads the next piece in place of this one. No bytes are the source's end.
    pub(crate) fn read<S: Source>(&mut self, source: &mut S) -> Result<(), Failed>
        ensures moved { OnOk result (Consumes (S.left source.old) (S.left source.new) self.new) }
        ensures end { OnOk result (self.new ≡ []
            → IsSpent (S.left source.old) (S.left source.new)) }
        ensures few { length self.new ≤ 4096 }
        ensures none { OnErr result (self.new ≡ []) }
        ensures kept { OnErr result (S.left source.new ≡ S.left source.old) }
        ensures is_open { S.is_open source.new ≡ S.is_open source.old }
        ensures files { S.files source.new ≡ S.files source.old }
        ensures opens { S.opens source.new ≡ S.opens source.old }
        ensures gave { OnOk result (Appended S.reads source.old source.new
            (piece_call (Some (length self.new)) ∷ [])) }
        ensures failed { OnErr result (Appended S.reads source.old source.new
            (piece_call None ∷ [])) }
        ensures faults { S.faults source.old ≤ S.faults source.new }
        ensures quiet { OnOk result (S.faults source.new ≡ S.faults source.old) }
        ensures cause { OnErr result (Rose (S.faults source.old) (S.faults source.new)) }
    {
        self.start = 0;
        self.end = 0;
        self.end = source.read(&mut self.buffer)?;
        Ok(())
    }
}
