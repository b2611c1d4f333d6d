// A sink whose bytes stay in memory.
ghost use Rattle.std.specs.Prelude.{◌≡◌, ◌+◌, ◌-◌, ◌<◌, ◌≤◌, ◌||◌, ◌==◌, min, List, [], ◌++◌, take, length, IfOk, OnOk, OnErr, is_err, if◌then◌else◌};
ghost use Rattle.ecam_io.specs.Outside.{raised, Rose, fails_after, Appended, IsKept};

use crate::failing::is_failing;
use crate::{Failed, Sink};
use std::alloc::{AllocError, Global};
use std::marker::Model;

/// A sink of bounded room. Chosen calls of it fail, and a write takes a piece at most.
#[derive(Drop)]
pub struct MemorySink {
    bytes: Vec<u8>,
    failing: Vec<u32>,
    piece: usize,
    room: usize,
    calls: u64,
    faults: u64,
}

impl Model for MemorySink {
    ghost use Rattle.std.specs.Prelude.{◌<◌, ◌≤◌, vec_len, vec_capacity};
    ghost use Rattle.ecam_io.specs.MemorySink.{SinkState};

    ghost Value = { SinkState };

    ghost view = { λ s. record {
      bytes = s.bytes.items;
      failing = s.failing.items;
      piece = s.piece;
      room = s.room;
      calls = s.calls;
      faults = s.faults;
    } };

    ghost invariant = { λ s. (0 < s.piece) × (vec_len s.bytes ≤ s.room) × (s.room ≤ vec_capacity s.bytes) };
}

impl MemorySink {
    /// A sink that holds `room` bytes at most, and takes their memory at once. The calls of `write` whose numbers,
    /// from 1, stand in `failing` fail. A write takes `piece` bytes at most.
    pub fn new(
        alloc: Global,
        failing: Vec<u32>,
        piece: usize,
        room: usize,
    ) -> Result<MemorySink, AllocError>
        requires { 0 < piece }
        ensures { IfOk result (λ s. s ≡ record {
          bytes = [];
          failing = failing.items;
          piece = piece;
          room = room;
          calls = 0;
          faults = 0;
        }) }
    {
        let bytes = Vec::with_capacity(alloc, room)?;
        Ok(MemorySink {
            bytes,
            failing,
            piece,
            room,
            calls: 0,
            faults: 0,
        })
    }

    /// What was appended so far.
    pub fn bytes(&self) -> &[u8]
        ensures { result.now ≡ self.now.bytes }
    {
        &self.bytes
    }

    // Counts a call, and the fault where the call fails.
    fn count_call(&mut self) -> Result<(), Failed>
        ensures answer { is_err result ≡ (fails_after self.old.failing self.old.calls
            || length self.old.bytes == self.old.room) }
        ensures faults { self.old.faults ≤ self.new.faults }
        ensures free { OnOk result (length self.old.bytes < self.old.room) }
        ensures quiet { OnOk result (self.new.faults ≡ self.old.faults) }
        ensures state { self.new ≡ record self.old {
          calls = raised self.old.calls;
          faults = (if fails_after self.old.failing self.old.calls || length self.old.bytes
              == self.old.room then raised self.old.faults else self.old.faults);
        } }
    {
        self.calls = self.calls.saturating_add(1);
        if is_failing(&self.failing, self.calls) || self.bytes.len() == self.room {
            self.faults = self.faults.saturating_add(1);
            return Err(Failed);
        }
        Ok(())
    }

    // Appends the first of the bytes.
    fn append(&mut self, bytes: &[u8]) -> usize
        requires free { length self.old.bytes < self.old.room }
        requires some { 0 < length bytes.now }
        ensures count { result ≡ min (min self.old.piece (self.old.room - length self.old.bytes))
            (length bytes.now) }
        ensures some { 0 < result }
        ensures state { self.new ≡ record self.old {
          bytes = self.old.bytes ++ take result bytes.now;
        } }
    {
        let free = self.room - self.bytes.len();
        let n = self.piece.min(free).min(bytes.len());
        self.bytes.extend_from_slice(&bytes[..n]).unwrap();
        n
    }
}

impl Sink for MemorySink {
    ghost agrees = { λ s w. w ≡ s.bytes };

    ghost faults = { λ s. s.faults };

    // What each sink says.
    fn write(&mut self, bytes: &[u8]) -> Result<usize, Failed>
        requires { 0 < length bytes.now }
        ensures some { IfOk result (λ n. 0 < n) }
        ensures bound { IfOk result (λ n. n ≤ length bytes.now) }
        ensures appended { IfOk result (λ n. Appended (λ s w. w ≡ s.bytes) self.old self.new
            (take n bytes.now)) }
        ensures kept { OnErr result (IsKept (λ s w. w ≡ s.bytes) self.old self.new) }
        ensures faults { self.old.faults ≤ self.new.faults }
        ensures quiet { OnOk result (self.new.faults ≡ self.old.faults) }
        ensures cause { OnErr result (Rose self.old.faults self.new.faults) }

        // Which calls fail, how many bytes one takes, and all that it changes.
        ensures fails { is_err result ≡ (fails_after self.old.failing self.old.calls
            || length self.old.bytes == self.old.room) }
        ensures count { IfOk result (λ n. n ≡ min
            (min self.old.piece (self.old.room - length self.old.bytes)) (length bytes.now)) }
        ensures ok { IfOk result (λ n. self.new ≡ record self.old {
          calls = raised self.old.calls;
          bytes = self.old.bytes ++ take n bytes.now;
        }) }
        ensures err { OnErr result (self.new ≡ record self.old {
          calls = raised self.old.calls;
          faults = raised self.old.faults;
        }) }
    {
        self.count_call()?;
        Ok(self.append(bytes))
    }
}
