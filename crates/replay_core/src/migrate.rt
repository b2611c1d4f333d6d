// Writes a book again as one of version 2 that says the same.
ghost use Rattle.std.specs.Prelude.{◌≡◌, ◌≢◌, ◌≤◌, string_bytes, IfOk, IfErr, Err};
ghost use Rattle.ecam_io.specs.Outside.{raised, FileHas};
ghost use Rattle.replay_core.specs.Answers.{ByMigration};
ghost use Rattle.replay_core.specs.Calls.{shelf_call, sink_call};
ghost use Rattle.replay_core.specs.Loading.{Unloaded};
ghost use Rattle.replay_core.specs.Migrations.{IsMigrated};
ghost use Rattle.replay_core.specs.Outcomes.{book_ending};
ghost use Rattle.replay_core.specs.declared.outcome.Outcome.{Outcome};

use crate::error::BookError;
use crate::load::{Unready, load_file};
use book_migration::migrated;
use ecam_io::{Shelf, Sink, put_all};
use std::alloc::{AllocError, Global};

// The text of the book of the file of that name in version 2.
fn load_migrated<F: Shelf>(alloc: Global, files: &mut F, name: &str) -> Result<String, Unready>
    ensures text { IfOk result (λ t. FileHas (F.files files.old) name.now
        (IsMigrated (string_bytes t) (F.left files.new))) }
    ensures unloaded { IfErr result (Unloaded (shelf_call F.Source files.old files.new) name.now) }
    ensures quiet { result ≢ Err Unready.Unread → F.faults files.new ≡ F.faults files.old }
    ensures files { F.files files.new ≡ F.files files.old }
    ensures opens { F.opens files.new ≡ raised (F.opens files.old) }
    ensures faults { F.faults files.old ≤ F.faults files.new }
{
    let file = match load_file(alloc, files, name) {
        Ok(file) => file,
        Err(unready) => return Err(unready),
    };
    match migrated(alloc, &file.bytes) {
        Ok(text) => Ok(text),
        Err(AllocError) => Err(Unready::NoMemory),
    }
}

// Writes the book of a file in version 2.
pub(crate) fn migrate<F: Shelf, O: Sink>(
    alloc: Global,
    book_name: &str,
    files: &mut F,
    out: &mut O,
) -> Result<(), BookError>
    ensures migrates { ByMigration (shelf_call F.Source files.old files.new)
        (sink_call O.Sink out.old out.new)
        book_name.now (book_ending result) }
    ensures files { F.files files.new ≡ F.files files.old }
    ensures faults { F.faults files.old ≤ F.faults files.new }
    ensures quiet { book_ending result ≢ Outcome.ReadFault
        → F.faults files.new ≡ F.faults files.old }
    ensures out_faults { O.faults out.old ≤ O.faults out.new }
    ensures out_quiet { book_ending result ≢ Outcome.WriteFault
        → O.faults out.new ≡ O.faults out.old }
{
    let text = load_migrated(alloc, files, book_name)?;
    put_all(out, text.as_bytes())?;
    Ok(())
}
