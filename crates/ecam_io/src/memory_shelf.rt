// A shelf whose files lie in memory.
ghost use Rattle.std.specs.Prelude.{◌≡◌, ◌+◌, ◌^◌, ◌<◌, ◌≤◌, ◌&&◌, not, min, List, [], ◌∷◌, take, drop, length, IfOk, IfSome, IfNone, OnOk, OnErr, Some, None, Ok, is_err, is_ok, is_some, true, false, if◌then◌else◌};
ghost use Rattle.std.specs.Io.KnownBytes.{Consumes, IsAtEnd};
ghost use Rattle.ecam_io.specs.Outside.{raised, Rose, fails_after, file_named, FileHas, MayRefuse, IsClosed, read_call, Appended, IsKept};
ghost use Rattle.ecam_io.specs.MemoryShelf.{files_of, left_of, HasRead};

use crate::failing::is_failing;
use crate::{Failed, Shelf, Source};
use std::marker::Model;

/// A file of a shelf in memory.
#[derive(Drop)]
pub struct MemoryFile {
    pub name: String,
    pub bytes: Vec<u8>,
}

/// A shelf that tells its files. Chosen calls of it fail, and a read gives a piece at most.
#[derive(Drop)]
pub struct MemoryShelf {
    files: Vec<MemoryFile>,
    failing: Vec<u32>,
    piece: usize,
    // The number of the open file, and how many bytes of it were taken.
    file: Option<usize>,
    taken: usize,
    calls: u64,
    opens: u64,
    faults: u64,
}

impl Model for MemoryShelf {
    ghost use Rattle.std.specs.Prelude.{◌<◌, is_some};
    ghost use Rattle.ecam_io.specs.MemoryShelf.{ShelfState, files_of, left_of};

    ghost Value = { ShelfState };

    ghost view = { λ s. record {
      files = files_of s.files.items;
      failing = s.failing.items;
      piece = s.piece;
      is_open = is_some s.file;
      left = left_of (files_of s.files.items) s.file s.taken;
      calls = s.calls;
      opens = s.opens;
      faults = s.faults;
    } };

    ghost invariant = { λ s. 0 < s.piece };
}

// The number of the first file of that name.
fn find(files: &[MemoryFile], name: &str) -> Option<usize>
    ensures found { IfSome result (λ i. file_named (files_of files.now) name.now
        ≡ Some (left_of (files_of files.now) (Some i) 0)) }
    ensures missing { IfNone result (file_named (files_of files.now) name.now ≡ None) }
{
    for (i, file) in files.iter().enumerate() {
        if file.name.as_str() == name {
            return Some(i);
        }
    }
    None
}

// What is left of a file after some bytes of it were taken.
fn unread(files: &[MemoryFile], file: Option<usize>, taken: usize) -> &[u8]
    ensures left { result.now ≡ left_of (files_of files.now) file taken }
    ensures fits { taken + length result.now < 2 ^ 64 }
{
    match file {
        Some(i) if i < files.len() => {
            let bytes = files[i].bytes.as_slice();
            if taken < bytes.len() {
                &bytes[taken..]
            } else {
                &[]
            }
        }
        _ => &[],
    }
}

impl MemoryShelf {
    /// A shelf of these files. The calls of `open` and `read` together whose numbers, from 1, stand in `failing`
    /// fail. A read gives `piece` bytes at most.
    pub fn new(files: Vec<MemoryFile>, failing: Vec<u32>, piece: usize) -> MemoryShelf
        requires { 0 < piece }
        ensures { result ≡ record {
          files = files_of files.items;
          failing = failing.items;
          piece = piece;
          is_open = false;
          left = [];
          calls = 0;
          opens = 0;
          faults = 0;
        } }
    {
        MemoryShelf {
            files,
            failing,
            piece,
            file: None,
            taken: 0,
            calls: 0,
            opens: 0,
            faults: 0,
        }
    }

    // Counts a call, and the fault where the call fails.
    fn count_call(&mut self) -> Result<(), Failed>
        ensures answer { is_err result ≡ fails_after self.old.failing self.old.calls }
        ensures faults { self.old.faults ≤ self.new.faults }
        ensures state { self.new ≡ record self.old {
          calls = raised self.old.calls;
          faults = (if fails_after self.old.failing self.old.calls then raised self.old.faults
              else self.old.faults);
        } }
    {
        self.calls = self.calls.saturating_add(1);
        if is_failing(&self.failing, self.calls) {
            self.faults = self.faults.saturating_add(1);
            return Err(Failed);
        }
        Ok(())
    }

    // Counts an open, and leaves nothing open.
    fn close(&mut self)
        ensures { self.new ≡ record self.old {
          is_open = false;
          left = [];
          opens = raised self.old.opens;
        } }
    {
        self.opens = self.opens.saturating_add(1);
        self.file = None;
    }

    // Opens the first file of that name.
    fn find_file(&mut self, name: &str) -> Result<(), Failed>
        ensures answer { is_ok result ≡ is_some (file_named self.old.files name.now) }
        ensures opened { OnOk result (file_named self.old.files name.now ≡ Some self.new.left) }
        ensures state { self.new ≡ record self.old {
          is_open = self.new.is_open;
          left = self.new.left;
        } }
        ensures is_open { OnOk result (self.new.is_open ≡ true) }
        ensures same { OnErr result (self.new ≡ self.old) }
    {
        let i = find(&self.files, name).ok_or(Failed)?;
        self.file = Some(i);
        self.taken = 0;
        Ok(())
    }

    // Moves the next bytes into the front of `into`.
    fn take(&mut self, into: &mut [u8]) -> usize
        requires { 0 < length into.old }
        ensures count { result ≡ min (min self.old.piece (length self.old.left)) (length into.old) }
        ensures moved { take result into.new ≡ take result self.old.left }
        ensures end { result ≡ 0 → self.new.left ≡ [] }
        ensures state { self.new ≡ record self.old { left = drop result self.old.left } }
    {
        let rest = unread(&self.files, self.file, self.taken);
        let n = self.piece.min(rest.len()).min(into.len());
        into[..n].copy_from_slice(&rest[..n]);
        self.taken += n;
        n
    }
}

impl Source for MemoryShelf {
    ghost left = { λ s. Some s.left };

    ghost files = { λ s. Some s.files };

    ghost is_open = { λ s. s.is_open };

    ghost opens = { λ s. s.opens };

    ghost reads = { HasRead };

    ghost faults = { λ s. s.faults };

    // What each source says.
    fn read(&mut self, into: &mut [u8]) -> Result<usize, Failed>
        requires { 0 < length into.old }
        ensures bound { IfOk result (λ n. n ≤ length into.old) }
        ensures moved { IfOk result (λ n. Consumes (Some self.old.left) (Some self.new.left)
            (take n into.new)) }
        ensures end { IfOk result (λ n. n ≡ 0 → IsAtEnd (Some self.new.left)) }
        ensures kept { OnErr result (Some self.new.left ≡ Some self.old.left) }
        ensures is_open { self.new.is_open ≡ self.old.is_open }
        ensures files { Some self.new.files ≡ Some self.old.files }
        ensures opens { self.new.opens ≡ self.old.opens }
        ensures reads { Appended HasRead self.old self.new
            (read_call (length into.old) result ∷ []) }
        ensures faults { self.old.faults ≤ self.new.faults }
        ensures quiet { OnOk result (self.new.faults ≡ self.old.faults) }
        ensures cause { OnErr result (Rose self.old.faults self.new.faults) }

        // Which calls fail, how many bytes one gives, and all that it changes.
        ensures fails { is_err result ≡ fails_after self.old.failing self.old.calls }
        ensures count { IfOk result (λ n. n ≡ min (min self.old.piece (length self.old.left))
            (length into.old)) }
        ensures ok { IfOk result (λ n. self.new ≡ record self.old {
          calls = raised self.old.calls;
          left = drop n self.old.left;
        }) }
        ensures err { OnErr result (self.new ≡ record self.old {
          calls = raised self.old.calls;
          faults = raised self.old.faults;
        }) }
    {
        self.count_call()?;
        Ok(self.take(into))
    }
}

impl Shelf for MemoryShelf {
    // What each shelf says.
    fn open(&mut self, name: &str) -> Result<(), Failed>
        ensures found { OnOk result (FileHas (Some self.old.files) name.now
            (λ bytes. Some self.new.left ≡ Some bytes)) }
        ensures closed { OnErr result (IsClosed (Some self.old.files) (Some self.new.left)) }
        ensures is_open { self.new.is_open ≡ is_ok result }
        ensures files { Some self.new.files ≡ Some self.old.files }
        ensures opens { self.new.opens ≡ raised self.old.opens }
        ensures reads { IsKept HasRead self.old self.new }
        ensures faults { self.old.faults ≤ self.new.faults }
        ensures quiet { OnOk result (self.new.faults ≡ self.old.faults) }
        ensures cause { OnErr result (MayRefuse (Some self.old.files) name.now self.old.faults
            self.new.faults) }

        // Which calls succeed, which raise the count of faults, and all that one changes.
        ensures succeeds { is_ok result ≡ (not (fails_after self.old.failing self.old.calls)
            && is_some (file_named self.old.files name.now)) }
        ensures counted { self.new.faults ≡ (if fails_after self.old.failing self.old.calls
            then raised self.old.faults else self.old.faults) }
        ensures changed { self.new ≡ record self.old {
          is_open = is_ok result;
          left = self.new.left;
          calls = raised self.old.calls;
          opens = raised self.old.opens;
          faults = self.new.faults;
        } }
        ensures ok { OnOk result (file_named self.old.files name.now ≡ Some self.new.left) }
        ensures err { OnErr result (self.new.left ≡ []) }
    {
        self.close();
        self.count_call()?;
        self.find_file(name)
    }
}
