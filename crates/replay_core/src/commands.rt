// The commands of the program.
ghost use Rattle.std.specs.Prelude.{◌≡◌, ◌≢◌, ◌≤◌, List, Some, map, string_bytes, OnOk, OnErr};
ghost use Rattle.ecam_io.specs.Outside.{Rose, Appended, AppendedPrefix};
ghost use Rattle.ecam_spec.specs.declared.kinds.Event.{Event};
ghost use Rattle.ecam_spec.specs.Book as plain;
ghost use Rattle.ecam_spec.specs.Summary as spec;
ghost use Rattle.book_model.specs.Sealed.{the_book};
ghost use Rattle.record_views.specs.Showing.{blocks_of};
ghost use Rattle.replay_core.specs.Answers.{ByBook, ByRecord, ByNumber, Ends};
ghost use Rattle.replay_core.specs.Showings.{called_out, report_of, words_of};
ghost use Rattle.replay_core.specs.ReadEndings.{showing, explaining};
ghost use Rattle.replay_core.specs.Calls.{shelf_call, sink_call, HasFailed, HasFailedToWrite, Writes};
ghost use Rattle.ecam_spec.specs.Command.{command_of, no_limit};
ghost use Rattle.replay_core.specs.Decides.{Decides, DecidesUsage};
ghost use Rattle.replay_core.specs.Headline.{Replays, all_changes};
ghost use Rattle.replay_core.specs.Outcomes.{status_of, book_ending, record_ending, number_ending, Complains};
ghost use Rattle.replay_core.specs.declared.outcome.Outcome.{Outcome as Ending};

use crate::advise::advise;
use crate::changes::Changes;
use crate::drill::drill;
use crate::error::{BookError, NumberError, RecordError};
use crate::load::{Unready, give_up, load, load_book};
use crate::migrate::migrate;
use crate::outcome::{Outcome, Status};
use crate::play::play;
use crate::show::show;
use crate::silent::Silent;
use crate::standings::put_standings;
use crate::summary::summary;
use crate::words::{Command, parse};
use book_model::Book;
use book_places::number_place;
use callouts::Callouts;
use ecam_io::{Discard, Failed, Shelf, Sink, put_all};
use flight_report::Report;
use std::alloc::{AllocError, Global};
use word_out::WordOut;

/// Runs the command that the words ask for, and answers how the program ends. `words` are the command line's, without
/// the program's name. `check BOOK` writes to `out` how much the file's book has. `replay BOOK RECORD [--limit N]`
/// replays the record of the one file by the book of the other, and writes the blocks of changes. `why BOOK RECORD`
/// replays it too, and writes where each alert stands at the record's end. `drill BOOK SEED MOMENTS` replays the
/// record that is made of a seed and a number of moments, and writes how much the output has. `migrate BOOK` writes the
/// book again as one of version 2 that says the same; all its text is made before any of it is written. `callouts BOOK
/// RECORD NAME` writes the heights that the number parameter of that name comes down to in the record, `advise BOOK RECORD
/// LIMITS` which values drift out of the ranges of a file of limits and which page the first of them calls, `report BOOK
/// RECORD` what occurred in each flight, and `words BOOK RECORD` the words that the computers send of themselves, as a
/// record. Files are opened in the order book, limits, record, each once those before it have no fault. Why the program
/// ends otherwise than `Done` stands as one line on `err`. All memory is taken before the record is opened. `Done` comes
/// only where none of the three counted a fault in this call.
pub fn ecam<F: Shelf, O: Sink, E: Sink>(
    alloc: Global,
    words: &[String],
    files: &mut F,
    out: &mut O,
    err: &mut E,
) -> Status
    // By an accepted book, the bytes written of a record that is read to its end are exactly the changes between the
    // pictures that the book's definitions give for the whole history, and the line that ends it.
    ensures headline { (b : plain.Book) (history : List Event) → result ≡ Status.Done
        → Replays (F.files files.old) (map string_bytes words.now) b history
        → Writes (sink_call O.Sink out.old out.new) (all_changes b history) }

    // Each ending of each command has its cause, and says what is written.
    ensures ends { (ending : Ending) × (result ≡ status_of ending)
        × Ends (shelf_call F.Source files.old files.new) (sink_call O.Sink out.old out.new)
        (command_of (map string_bytes words.now)) ending
        × Complains (sink_call E.Sink err.old err.new) ending }

    // The words alone decide on `Usage`, and the words and the files on the rest where nothing failed.
    ensures usage { DecidesUsage (map string_bytes words.now) result }
    ensures decides { (told : _) → F.files files.old ≡ Some told
        → (HasFailed (shelf_call F.Source files.old files.new) → ⊥)
        → (HasFailedToWrite (sink_call O.Sink out.old out.new) → ⊥)
        → Decides (map string_bytes words.now) told result }

    ensures files { F.files files.new ≡ F.files files.old }
    ensures faults { F.faults files.old ≤ F.faults files.new }
    ensures quiet { result ≢ Status.ReadFault → F.faults files.new ≡ F.faults files.old }
    ensures out_faults { O.faults out.old ≤ O.faults out.new }
    ensures out_quiet { result ≢ Status.WriteFault → O.faults out.new ≡ O.faults out.old }
    ensures err_faults { E.faults err.old ≤ E.faults err.new }
    ensures err_quiet { result ≡ Status.Done → E.faults err.new ≡ E.faults err.old }
{
    let outcome = answer(alloc, words, files, out);
    outcome.tell(err);
    outcome.status()
}

fn answer<F: Shelf, O: Sink>(alloc: Global, words: &[String], files: &mut F, out: &mut O) -> Outcome
    ensures ends { Ends (shelf_call F.Source files.old files.new) (sink_call O.Sink out.old out.new)
        (command_of (map string_bytes words.now)) result }
    ensures files { F.files files.new ≡ F.files files.old }
    ensures faults { F.faults files.old ≤ F.faults files.new }
    ensures quiet { result ≢ Outcome.ReadFault → F.faults files.new ≡ F.faults files.old }
    ensures out_faults { O.faults out.old ≤ O.faults out.new }
    ensures out_quiet { result ≢ Outcome.WriteFault → O.faults out.new ≡ O.faults out.old }
{
    match parse(words) {
        Some(Command::Check { book }) => Outcome::from(check_file(alloc, book, files, out)),
        Some(
            Command::Replay {
                book,
                record,
                limit,
            },
        ) => Outcome::from(replay_files(alloc, book, record, limit, files, out)),
        Some(Command::Why { book, record }) => Outcome::from(explain_files(
            alloc, book, record, files, out,
        )),
        Some(
            Command::Drill {
                book,
                seed,
                moments,
            },
        ) => Outcome::from(drill(alloc, book, seed, moments, files, out)),
        Some(Command::Migrate { book }) => Outcome::from(migrate(alloc, book, files, out)),
        Some(
            Command::Callouts {
                book,
                record,
                parameter,
            },
        ) => Outcome::from(call_out_files(alloc, book, record, parameter, files, out)),
        Some(
            Command::Advise {
                book,
                record,
                limits,
            },
        ) => Outcome::from(advise(alloc, book, record, limits, files, out)),
        Some(Command::Report { book, record }) => Outcome::from(report_files(
            alloc, book, record, files, out,
        )),
        Some(Command::Words { book, record }) => Outcome::from(tell_words(
            alloc, book, record, files, out,
        )),
        None => Outcome::Usage,
    }
}

// Checks the book of a file, and writes how much it has.
fn check_file<F: Shelf, O: Sink>(
    alloc: Global,
    name: &str,
    files: &mut F,
    out: &mut O,
) -> Result<(), BookError>
    ensures checks { ByBook (shelf_call F.Source files.old files.new)
        (sink_call O.Sink out.old out.new)
        name.now spec.summary (book_ending result) }
    ensures files { F.files files.new ≡ F.files files.old }
    ensures faults { F.faults files.old ≤ F.faults files.new }
    ensures quiet { book_ending result ≢ Outcome.ReadFault
        → F.faults files.new ≡ F.faults files.old }
    ensures out_faults { O.faults out.old ≤ O.faults out.new }
    ensures out_quiet { book_ending result ≢ Outcome.WriteFault
        → O.faults out.new ≡ O.faults out.old }
{
    let book = load_book(alloc, files, name)?;
    put_summary(book, out)?;
    Ok(())
}

// Writes how much a book has, and gives up the book.
fn put_summary<O: Sink>(book: Book, out: &mut O) -> Result<(), Failed>
    ensures all { OnOk result (Appended O.agrees out.old out.new
        (spec.summary (the_book book))) }
    ensures prefix { OnErr result (AppendedPrefix O.agrees out.old out.new
        (spec.summary (the_book book))) }
    ensures faults { O.faults out.old ≤ O.faults out.new }
    ensures quiet { OnOk result (O.faults out.new ≡ O.faults out.old) }
    ensures cause { OnErr result (Rose (O.faults out.old) (O.faults out.new)) }
{
    put_all(out, summary(&book).as_slice())
}

// Replays one file by the book of another, and writes the blocks of changes.
fn replay_files<F: Shelf, O: Sink>(
    alloc: Global,
    book_name: &str,
    record_name: &str,
    limit: u32,
    files: &mut F,
    out: &mut O,
) -> Result<(), RecordError>
    ensures replays { ByRecord (shelf_call F.Source files.old files.new)
        (sink_call O.Sink out.old out.new)
        book_name.now record_name.now
        (showing (sink_call O.Sink out.old out.new) blocks_of limit) (record_ending result) }
    ensures files { F.files files.new ≡ F.files files.old }
    ensures faults { F.faults files.old ≤ F.faults files.new }
    ensures quiet { record_ending result ≢ Outcome.ReadFault
        → F.faults files.new ≡ F.faults files.old }
    ensures out_faults { O.faults out.old ≤ O.faults out.new }
    ensures out_quiet { record_ending result ≢ Outcome.WriteFault
        → O.faults out.new ≡ O.faults out.old }
{
    let loaded = load(alloc, files, book_name)?;
    show(loaded, Changes::new(), record_name, limit, files, out)?;
    Ok(())
}

// Shows one file by the book of another, and writes the callouts of a number parameter.
fn call_out_files<F: Shelf, O: Sink>(
    alloc: Global,
    book_name: &str,
    record_name: &str,
    parameter: &str,
    files: &mut F,
    out: &mut O,
) -> Result<(), NumberError>
    ensures calls { ByNumber (shelf_call F.Source files.old files.new)
        (sink_call O.Sink out.old out.new)
        book_name.now record_name.now parameter.now
        (showing (sink_call O.Sink out.old out.new) (called_out parameter.now) no_limit)
        (number_ending result) }
    ensures files { F.files files.new ≡ F.files files.old }
    ensures faults { F.faults files.old ≤ F.faults files.new }
    ensures quiet { number_ending result ≢ Outcome.ReadFault
        → F.faults files.new ≡ F.faults files.old }
    ensures out_faults { O.faults out.old ≤ O.faults out.new }
    ensures out_quiet { number_ending result ≢ Outcome.WriteFault
        → O.faults out.new ≡ O.faults out.old }
{
    let loaded = load(alloc, files, book_name)?;
    match number_place(&loaded.book, parameter) {
        Some(param) => {
            show(
                loaded,
                Callouts::new(param),
                record_name,
                u32::MAX,
                files,
                out,
            )?;
            Ok(())
        }
        None => {
            give_up(loaded);
            Err(NumberError::NoSuch)
        }
    }
}

// Replays one file by the book of another, and writes where each alert stands at the end.
fn explain_files<F: Shelf, O: Sink>(
    alloc: Global,
    book_name: &str,
    record_name: &str,
    files: &mut F,
    out: &mut O,
) -> Result<(), RecordError>
    ensures explains { ByRecord (shelf_call F.Source files.old files.new)
        (sink_call O.Sink out.old out.new)
        book_name.now record_name.now (explaining (sink_call O.Sink out.old out.new))
        (record_ending result) }
    ensures files { F.files files.new ≡ F.files files.old }
    ensures faults { F.faults files.old ≤ F.faults files.new }
    ensures quiet { record_ending result ≢ Outcome.ReadFault
        → F.faults files.new ≡ F.faults files.old }
    ensures out_faults { O.faults out.old ≤ O.faults out.new }
    ensures out_quiet { record_ending result ≢ Outcome.WriteFault
        → O.faults out.new ≡ O.faults out.old }
{
    let mut loaded = load(alloc, files, book_name)?;
    let mut dropped = Discard;
    match play(
        &mut loaded,
        &mut Silent,
        record_name,
        u32::MAX,
        files,
        &mut dropped,
    ) {
        Ok(_) => {
            put_standings(loaded, out)?;
            Ok(())
        }
        Err(error) => {
            give_up(loaded);
            Err(RecordError::Run(error))
        }
    }
}

// Shows one file by the book of another, and writes what occurred in each flight.
fn report_files<F: Shelf, O: Sink>(
    alloc: Global,
    book_name: &str,
    record_name: &str,
    files: &mut F,
    out: &mut O,
) -> Result<(), RecordError>
    ensures reports { ByRecord (shelf_call F.Source files.old files.new)
        (sink_call O.Sink out.old out.new)
        book_name.now record_name.now
        (showing (sink_call O.Sink out.old out.new) report_of no_limit) (record_ending result) }
    ensures files { F.files files.new ≡ F.files files.old }
    ensures faults { F.faults files.old ≤ F.faults files.new }
    ensures quiet { record_ending result ≢ Outcome.ReadFault
        → F.faults files.new ≡ F.faults files.old }
    ensures out_faults { O.faults out.old ≤ O.faults out.new }
    ensures out_quiet { record_ending result ≢ Outcome.WriteFault
        → O.faults out.new ≡ O.faults out.old }
{
    let loaded = load(alloc, files, book_name)?;
    match Report::new(alloc, &loaded.book) {
        Ok(report) => {
            show(loaded, report, record_name, u32::MAX, files, out)?;
            Ok(())
        }
        Err(AllocError) => {
            give_up(loaded);
            Err(RecordError::Unready(Unready::NoMemory))
        }
    }
}

// Shows one file by the book of another, and writes the computers' own words.
fn tell_words<F: Shelf, O: Sink>(
    alloc: Global,
    book_name: &str,
    record_name: &str,
    files: &mut F,
    out: &mut O,
) -> Result<(), RecordError>
    ensures tells { ByRecord (shelf_call F.Source files.old files.new)
        (sink_call O.Sink out.old out.new)
        book_name.now record_name.now
        (showing (sink_call O.Sink out.old out.new) words_of no_limit) (record_ending result) }
    ensures files { F.files files.new ≡ F.files files.old }
    ensures faults { F.faults files.old ≤ F.faults files.new }
    ensures quiet { record_ending result ≢ Outcome.ReadFault
        → F.faults files.new ≡ F.faults files.old }
    ensures out_faults { O.faults out.old ≤ O.faults out.new }
    ensures out_quiet { record_ending result ≢ Outcome.WriteFault
        → O.faults out.new ≡ O.faults out.old }
{
    let loaded = load(alloc, files, book_name)?;
    match WordOut::new(alloc, &loaded.book) {
        Ok(words) => {
            show(loaded, words, record_name, u32::MAX, files, out)?;
            Ok(())
        }
        Err(AllocError) => {
            give_up(loaded);
            Err(RecordError::Unready(Unready::NoMemory))
        }
    }
}
