// Loads the limits of a file by a book.
ghost use Rattle.std.specs.Prelude.{◌≡◌, ◌≢◌, ◌≤◌, IfOk, Err};
ghost use Rattle.ecam_io.specs.Outside.{raised};
ghost use Rattle.book_model.specs.Sealed.{the_book};
ghost use Rattle.view_spec.specs.Advisories.{Fit};
ghost use Rattle.advisories.specs.View.{limits_of};
ghost use Rattle.replay_core.specs.Calls.{shelf_call};
ghost use Rattle.replay_core.specs.Loading.{Taken, past_limits};
ghost use Rattle.replay_core.specs.LimitsLoading.{LoadsLimits};
ghost use Rattle.replay_core.specs.Outcomes.{limits_outcome_of};

use crate::file::{FileError, read_file};
use crate::outcome::Outcome;
use advisories::{LONGEST, Limits, LimitsError, read_limits};
use book_model::Book;
use ecam_io::Shelf;
use limits_spec::LimitsFault;
use std::alloc::Global;

// A limits file of this many bytes is too large, whatever follows.
const ENOUGH: usize = LONGEST + 1;

// Why no limits stand ready.
#[derive(Clone, Copy, Debug, PartialEq, Eq)]
pub(crate) enum UnreadyLimits {
    // Their file has this fault.
    Refused(LimitsFault),
    // It wasn't read.
    Unread,
    // There was too little memory.
    NoMemory,
}

impl UnreadyLimits {
    pub(crate) fn outcome(self) -> Outcome
        ensures { result ≡ limits_outcome_of self }
    {
        match self {
            UnreadyLimits::Refused(fault) => Outcome::LimitsRefused(fault),
            UnreadyLimits::Unread => Outcome::ReadFault,
            UnreadyLimits::NoMemory => Outcome::NoMemory,
        }
    }
}

// The limits of the file of that name.
pub(crate) fn load_limits<F: Shelf>(
    alloc: Global,
    files: &mut F,
    name: &str,
    book: &Book,
) -> Result<Limits, UnreadyLimits>
    ensures loads { LoadsLimits (shelf_call F.Source files.old files.new) name.now
        (the_book book.now) result }
    ensures fit { IfOk result (λ l. Fit (the_book book.now) (limits_of l)) }
    ensures took { result ≢ Err UnreadyLimits.Unread
        → Taken past_limits (F.files files.old) name.now (F.left files.new) }
    ensures quiet { result ≢ Err UnreadyLimits.Unread → F.faults files.new ≡ F.faults files.old }
    ensures files { F.files files.new ≡ F.files files.old }
    ensures opens { F.opens files.new ≡ raised (F.opens files.old) }
    ensures faults { F.faults files.old ≤ F.faults files.new }
{
    let bytes = match read_file(alloc, files, name, ENOUGH) {
        Ok(bytes) => bytes,
        Err(FileError::Failed) => return Err(UnreadyLimits::Unread),
        Err(FileError::Memory) => return Err(UnreadyLimits::NoMemory),
    };
    match read_limits(alloc, &bytes, book) {
        Ok(limits) => Ok(limits),
        Err(LimitsError::Fault(fault)) => Err(UnreadyLimits::Refused(fault)),
        Err(LimitsError::Memory) => Err(UnreadyLimits::NoMemory),
    }
}
