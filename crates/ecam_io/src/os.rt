// The ends over the real system. They tell nothing of content.
ghost use Rattle.std.specs.Prelude.{◌≡◌, ◌<◌, ◌≤◌, ⊤, None, false, take, length, IfOk, OnOk, OnErr, is_some};
ghost use Rattle.std.specs.Io.KnownBytes.{Appends, Consumes, IsAtEnd, Keeps};
ghost use Rattle.ecam_io.specs.Outside.{raised};

use crate::{Failed, Shelf, Sink, Source};
use std::fs::File;
use std::io;
use std::io::{ErrorKind, Read, Stderr, Stdin, Stdout, Write};

// How often a call that a signal broke off is made.
const TRIES: usize = 64;

// What a shelf over the system reads from.
#[derive(Drop)]
enum Opened {
    File(File),
    Input(Stdin),
}

impl Read for Opened {
    fn read(&mut self, into: &mut [u8]) -> io::Result<usize> {
        match self {
            Opened::File(file) => file.read(into),
            Opened::Input(input) => input.read(into),
        }
    }
}

// Reads once, or again where a signal broke the read off. It gives up at any other error, and after so many tries, and
// counts that alone.
pub(crate) fn read_counted<R: Read>(
    from: &mut R,
    faults: &mut u64,
    into: &mut [u8],
) -> Result<usize, Failed>
    requires { 0 < length into.old }
    ensures bound { IfOk result (λ n. n ≤ length into.old) }
    ensures moved { IfOk result (λ n. Consumes (R.remaining from.old) (R.remaining from.new)
        (take n into.new)) }
    ensures end { IfOk result (λ n. n ≡ 0 → IsAtEnd (R.remaining from.new)) }
    ensures kept { OnErr result (Keeps (R.remaining from.old) (R.remaining from.new)) }
    ensures faults { faults.old ≤ faults.new }
    ensures quiet { OnOk result (faults.new ≡ faults.old) }
    ensures counted { OnErr result (faults.new ≡ raised faults.old) }
{
    for _try in 0..TRIES {
        match from.read(into) {
            Ok(n) => return Ok(n),
            Err(e) if e.kind() == ErrorKind::Interrupted => {}
            Err(_) => break,
        }
    }
    *faults = faults.saturating_add(1);
    Err(Failed)
}

// Writes once, or again where a signal broke the write off. It gives up at any other error, where nothing is taken, and
// after so many tries, and counts that alone.
fn write_counted<W: Write>(to: &mut W, faults: &mut u64, bytes: &[u8]) -> Result<usize, Failed>
    ensures some { IfOk result (λ n. 0 < n) }
    ensures bound { IfOk result (λ n. n ≤ length bytes.now) }
    ensures appended { IfOk result (λ n. Appends (W.contents to.old) (W.contents to.new)
        (take n bytes.now)) }
    ensures faults { faults.old ≤ faults.new }
    ensures quiet { OnOk result (faults.new ≡ faults.old) }
    ensures counted { OnErr result (faults.new ≡ raised faults.old) }
{
    for _try in 0..TRIES {
        match to.write(bytes) {
            Ok(0) => break,
            Ok(n) => return Ok(n),
            Err(e) if e.kind() == ErrorKind::Interrupted => {}
            Err(_) => break,
        }
    }
    *faults = faults.saturating_add(1);
    Err(Failed)
}

/// The system's files by their paths, and `-` as standard input. A file that is missing is a fault like any other
/// that can't be opened.
#[derive(Drop)]
pub struct OsShelf {
    rt: HostRuntime,
    opened: Option<Opened>,
    opens: u64,
    faults: u64,
}

impl OsShelf {
    /// A shelf with nothing open.
    pub fn new(rt: HostRuntime) -> OsShelf
        ensures is_open { ⟦<OsShelf as Source>⟧.is_open result ≡ false }
        ensures opens { ⟦<OsShelf as Source>⟧.opens result ≡ 0 }
        ensures faults { ⟦<OsShelf as Source>⟧.faults result ≡ 0 }
    {
        OsShelf {
            rt,
            opened: None,
            opens: 0,
            faults: 0,
        }
    }
}

impl Source for OsShelf {
    ghost left = { λ _. None };

    ghost is_open = { λ s. is_some s.opened };

    ghost opens = { λ s. s.opens };

    ghost faults = { λ s. s.faults };

    fn read(&mut self, into: &mut [u8]) -> Result<usize, Failed> {
        match &mut self.opened {
            Some(opened) => read_counted(opened, &mut self.faults, into),
            None => Ok(0),
        }
    }
}

impl Shelf for OsShelf {
    fn open(&mut self, name: &str) -> Result<(), Failed> {
        self.opens = self.opens.saturating_add(1);
        self.opened = None;
        if name == "-" {
            self.opened = Some(Opened::Input(self.rt.stdin()));
            return Ok(());
        }
        match File::open(&self.rt, name) {
            Ok(file) => {
                self.opened = Some(Opened::File(file));
                Ok(())
            }
            Err(_) => {
                self.faults = self.faults.saturating_add(1);
                Err(Failed)
            }
        }
    }
}

/// Standard output.
#[derive(Drop)]
pub struct OsOut {
    to: Stdout,
    faults: u64,
}

impl OsOut {
    /// Standard output, with no fault so far.
    pub fn new(rt: HostRuntime) -> OsOut
        ensures { ⟦<OsOut as Sink>⟧.faults result ≡ 0 }
    {
        OsOut {
            to: rt.stdout(),
            faults: 0,
        }
    }
}

impl Sink for OsOut {
    ghost agrees = { λ _ _. ⊤ };

    ghost faults = { λ s. s.faults };

    fn write(&mut self, bytes: &[u8]) -> Result<usize, Failed> {
        write_counted(&mut self.to, &mut self.faults, bytes)
    }
}

/// Standard error.
#[derive(Drop)]
pub struct OsErr {
    to: Stderr,
    faults: u64,
}

impl OsErr {
    /// Standard error, with no fault so far.
    pub fn new(rt: HostRuntime) -> OsErr
        ensures { ⟦<OsErr as Sink>⟧.faults result ≡ 0 }
    {
        OsErr {
            to: rt.stderr(),
            faults: 0,
        }
    }
}

impl Sink for OsErr {
    ghost agrees = { λ _ _. ⊤ };

    ghost faults = { λ s. s.faults };

    fn write(&mut self, bytes: &[u8]) -> Result<usize, Failed> {
        write_counted(&mut self.to, &mut self.faults, bytes)
    }
}
