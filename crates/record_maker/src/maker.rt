// The source of a made record.
ghost use Rattle.std.specs.Prelude.{◌≡◌, ◌<◌, ◌≤◌, ◌+◌, ◌^◌, [], take, drop, length, Some};
ghost use Rattle.record_maker.specs.Maker.{left_of};
ghost use Rattle.record_maker.specs.Record.{made};

use crate::draws::start_of;
use crate::lines::{Lines, put, put_moment};
use ecam_io::{Failed, Source};

/// The record that is made of a seed, as a source. It makes a moment at a time, and takes no memory.
#[derive(Drop)]
pub struct Maker {
    // The last draw.
    draw: u64,
    // The number of the next moment, and how many there are.
    moment: u32,
    moments: u32,
    // The lines that were made last, and how many of their bytes were given.
    lines: Lines,
    given: usize,
    // The line that ends the record was made.
    ended: bool,
}

impl Maker {
    /// The record of a seed and so many moments, of which nothing is read yet. Its line `E` is all that stands where
    /// there are no moments. A seed of 0 is a seed of 1.
    pub fn new(seed: u64, moments: u32) -> Maker
        requires { moments ≤ 1000000 }
        ensures left { ⟦<Maker as Source>⟧.left result ≡ Some (made seed moments) }
        ensures faults { ⟦<Maker as Source>⟧.faults result ≡ 0 }
    {
        Maker {
            draw: start_of(seed),
            moment: 0,
            moments,
            lines: Lines::new(),
            given: 0,
            ended: false,
        }
    }

    // What was made and not given yet.
    fn pending(&self) -> &[u8]
        ensures bytes { result.now ≡ drop self.now.given self.now.lines.items }
        ensures fits { self.now.given + length result.now < 2 ^ 64 }
    {
        if self.given < self.lines.len() {
            &self.lines[self.given..]
        } else {
            &[]
        }
    }

    // Makes the next moment, or the line that ends the record, in place of what was given.
    fn make(&mut self)
        requires { drop self.old.given self.old.lines.items ≡ [] }
        ensures left { left_of self.new ≡ left_of self.old }
        ensures some { drop self.new.given self.new.lines.items ≡ [] → left_of self.new ≡ [] }
    {
        self.given = 0;
        self.lines.clear();
        if self.moment < self.moments {
            self.draw = put_moment(&mut self.lines, self.moment, self.draw);
            self.moment += 1;
        } else if !self.ended {
            put(&mut self.lines, b"E\n");
            self.ended = true;
        }
    }

    // Moves the next bytes into the front of `into`, and answers how many: none where none are left.
    fn give(&mut self, into: &mut [u8]) -> usize
        requires { 0 < length into.old }
        ensures bound { result ≤ length into.old }
        ensures there { result ≤ length (left_of self.old) }
        ensures moved { take result into.new ≡ take result (left_of self.old) }
        ensures left { left_of self.new ≡ drop result (left_of self.old) }
        ensures end { result ≡ 0 → left_of self.old ≡ [] }
    {
        if self.pending().is_empty() {
            self.make();
        }
        let bytes = self.pending();
        let n = bytes.len().min(into.len());
        into[..n].copy_from_slice(&bytes[..n]);
        self.given += n;
        n
    }
}

impl Source for Maker {
    ghost left = { λ m. Some (left_of m) };

    ghost faults = { λ _. 0 };

    fn read(&mut self, into: &mut [u8]) -> Result<usize, Failed> {
        let mut n = 0;
        while n < into.len() {
            let given = self.give(&mut into[n..]);
            if given == 0 {
                break;
            }
            n += given;
        }
        Ok(n)
    }
}
