// Shows a record by a book and a file of limits: which values drift, and which page the first of them calls.
ghost use Rattle.std.specs.Prelude.{◌≡◌, ◌≢◌, ◌≤◌, [], IfOk, Err};
ghost use Rattle.book_model.specs.Sealed.{the_book};
ghost use Rattle.ecam_spec.specs.Command.{no_limit};
ghost use Rattle.fwc_pair.specs.PairState.{PairFits};
ghost use Rattle.advisories.specs.View.{limits_of};
ghost use Rattle.advisories.specs.State.{settings_of, StandAfter};
ghost use Rattle.replay_core.specs.Answers.{ByLimits};
ghost use Rattle.replay_core.specs.Calls.{shelf_call, sink_call};
ghost use Rattle.replay_core.specs.LimitsLoading.{Prepares};
ghost use Rattle.replay_core.specs.Outcomes.{limits_ending};
ghost use Rattle.replay_core.specs.ReadEndings.{showing};
ghost use Rattle.replay_core.specs.Showings.{advised};
ghost use Rattle.replay_core.specs.declared.outcome.Outcome.{Outcome};

use crate::error::LimitsError;
use crate::load::{Loaded, Unready, load_book};
use crate::load_limits::{UnreadyLimits, load_limits};
use crate::show::show;
use advisories::{Advisories, Limits};
use book_model::Book;
use ecam_io::{Shelf, Sink};
use fwc_pair::Pair;
use std::alloc::{AllocError, Global};

// A loaded book, and the view of its advisories.
#[derive(Drop)]
pub(crate) struct Prepared {
    pub(crate) loaded: Loaded,
    pub(crate) view: Advisories,
}

// Why they don't stand ready: for want of the book, or of the limits or the memory behind it.
#[derive(Clone, Copy, Debug, PartialEq, Eq)]
pub(crate) enum Unprepared {
    Book(Unready),
    Limits(UnreadyLimits),
}

// Takes all the memory that a replay needs which tells advisories.
fn set_up(alloc: Global, book: Book, limits: Limits) -> Result<Prepared, AllocError>
    ensures book { IfOk result (λ p. p.loaded.book ≡ book) }
    ensures pair { IfOk result (λ p. PairFits (the_book book) p.loaded.pair) }
    ensures settings { IfOk result (λ p. settings_of p.view ≡ limits_of limits) }
    ensures begins { IfOk result (λ p. StandAfter (the_book book) [] p.view) }
{
    let view = Advisories::new(alloc, limits)?;
    let pair = Pair::new(alloc, &book)?;
    Ok(Prepared {
        loaded: Loaded { book, pair },
        view,
    })
}

// The book of the one file and the limits of the other, ready for a replay.
fn prepare<F: Shelf>(
    alloc: Global,
    book_name: &str,
    limits_name: &str,
    files: &mut F,
) -> Result<Prepared, Unprepared>
    ensures prepares { Prepares (shelf_call F.Source files.old files.new)
        book_name.now limits_name.now result }
    ensures files { F.files files.new ≡ F.files files.old }
    ensures faults { F.faults files.old ≤ F.faults files.new }
    ensures quiet { result ≢ Err (Unprepared.Book Unready.Unread)
        → result ≢ Err (Unprepared.Limits UnreadyLimits.Unread)
        → F.faults files.new ≡ F.faults files.old }
{
    let book = match load_book(alloc, files, book_name) {
        Ok(book) => book,
        Err(unready) => return Err(Unprepared::Book(unready)),
    };
    let limits = match load_limits(alloc, files, limits_name, &book) {
        Ok(limits) => limits,
        Err(unready) => return Err(Unprepared::Limits(unready)),
    };
    match set_up(alloc, book, limits) {
        Ok(prepared) => Ok(prepared),
        Err(AllocError) => Err(Unprepared::Limits(UnreadyLimits::NoMemory)),
    }
}

// Shows one file by the book of another and the limits of a third, and writes the advisories.
pub(crate) fn advise<F: Shelf, O: Sink>(
    alloc: Global,
    book_name: &str,
    record_name: &str,
    limits_name: &str,
    files: &mut F,
    out: &mut O,
) -> Result<(), LimitsError>
    ensures advises { ByLimits (shelf_call F.Source files.old files.new)
        (sink_call O.Sink out.old out.new)
        book_name.now record_name.now limits_name.now
        (λ limits. showing (sink_call O.Sink out.old out.new) (advised limits) no_limit)
        (limits_ending result) }
    ensures files { F.files files.new ≡ F.files files.old }
    ensures faults { F.faults files.old ≤ F.faults files.new }
    ensures quiet { limits_ending result ≢ Outcome.ReadFault
        → F.faults files.new ≡ F.faults files.old }
    ensures out_faults { O.faults out.old ≤ O.faults out.new }
    ensures out_quiet { limits_ending result ≢ Outcome.WriteFault
        → O.faults out.new ≡ O.faults out.old }
{
    let prepared = prepare(alloc, book_name, limits_name, files)?;
    show(
        prepared.loaded,
        prepared.view,
        record_name,
        u32::MAX,
        files,
        out,
    )?;
    Ok(())
}
