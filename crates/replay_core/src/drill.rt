// Replays a made record, and counts what is written of it.
ghost use Rattle.std.specs.Prelude.{◌≡◌, ◌≢◌, ◌≤◌, ◌+◌, ◌++◌, length, decimal, OnOk, OnErr};
ghost use Rattle.ecam_io.specs.Outside.{Rose, Appended, AppendedPrefix};
ghost use Rattle.ecam_io.specs.Tally.{IsTallyOf};
ghost use Rattle.ecam_spec.specs.Book.{Text};
ghost use Rattle.ecam_spec.specs.Command.{no_limit};
ghost use Rattle.ecam_spec.specs.Replay.{reply};
ghost use Rattle.book_model.specs.Sealed.{the_book};
ghost use Rattle.fwc_pair.specs.PairState.{PairFits};
ghost use Rattle.record_maker.specs.Record.{made};
ghost use Rattle.replay_core.specs.Answers.{ByBook};
ghost use Rattle.replay_core.specs.Calls.{shelf_call, sink_call};
ghost use Rattle.replay_core.specs.Drill.{counts_line, drill_line};
ghost use Rattle.replay_core.specs.Outcomes.{book_ending};
ghost use Rattle.replay_core.specs.declared.outcome.Outcome.{Outcome};

use crate::block::put;
use crate::error::BookError;
use crate::load::{Loaded, give_up, load};
use crate::replay::run;
use arrayvec::ArrayVec;
use ecam_io::{Failed, Shelf, Sink, Tally, put_all};
use itoa::Buffer;
use record_maker::Maker;
use std::alloc::Global;

// Four numbers of at most 40 digits, and the words between them, take fewer bytes.
type Counts = ArrayVec<u8, 256>;

// Appends a word and a number.
fn put_count(line: &mut Counts, word: &str, count: u64)
    requires room { length line.old.items + length word.now + 40 ≤ 256 }
    ensures text { line.new.items ≡ line.old.items ++ word.now ++ decimal count }
    ensures short { length line.new.items ≤ length line.old.items + length word.now + 40 }
{
    let mut buffer = Buffer::new();
    put(line, word.as_bytes());
    put(line, buffer.format(count).as_bytes());
}

// The line of the counts of an output.
fn counts(moments: u64, tally: &Tally) -> Counts
    ensures { (w : Text) → IsTallyOf tally.now w → result.items ≡ counts_line moments w }
{
    let mut line = ArrayVec::new();
    put_count(&mut line, "moments ", moments);
    put_count(&mut line, " blocks ", tally.blocks);
    put_count(&mut line, " lines ", tally.lines);
    put_count(&mut line, " bytes ", tally.bytes);
    put(&mut line, b"\n");
    line
}

// The tally of what a replay of the made record writes. The record has no fault, and neither it nor the tally fails. It
// gives up the book.
fn replay_made(mut loaded: Loaded, seed: u64, moments: u32) -> Tally
    requires fits { PairFits (the_book loaded.book) loaded.pair }
    requires moments { moments ≤ 1000000 }
    ensures { IsTallyOf result (reply (the_book loaded.book) (made seed moments) no_limit) }
{
    let mut maker = Maker::new(seed, moments);
    let mut tally = Tally::new();
    let _ = run(
        &loaded.book,
        &mut loaded.pair,
        u32::MAX,
        &mut maker,
        &mut tally,
    );
    give_up(loaded);
    tally
}

// Replays the record that is made of a seed and so many moments by the book of a file, and writes how much the output
// has.
pub(crate) fn drill<F: Shelf, O: Sink>(
    alloc: Global,
    book_name: &str,
    seed: u64,
    moments: u32,
    files: &mut F,
    out: &mut O,
) -> Result<(), BookError>
    requires { moments ≤ 1000000 }
    ensures drills { ByBook (shelf_call F.Source files.old files.new)
        (sink_call O.Sink out.old out.new)
        book_name.now (drill_line seed moments) (book_ending result) }
    ensures files { F.files files.new ≡ F.files files.old }
    ensures faults { F.faults files.old ≤ F.faults files.new }
    ensures quiet { book_ending result ≢ Outcome.ReadFault
        → F.faults files.new ≡ F.faults files.old }
    ensures out_faults { O.faults out.old ≤ O.faults out.new }
    ensures out_quiet { book_ending result ≢ Outcome.WriteFault
        → O.faults out.new ≡ O.faults out.old }
{
    let loaded = load(alloc, files, book_name)?;
    let tally = replay_made(loaded, seed, moments);
    put_counts(moments as u64, &tally, out)?;
    Ok(())
}

// Writes the line of the counts of an output.
fn put_counts<O: Sink>(moments: u64, tally: &Tally, out: &mut O) -> Result<(), Failed>
    ensures all { (w : Text) → IsTallyOf tally.now w
        → OnOk result (Appended O.agrees out.old out.new (counts_line moments w)) }
    ensures prefix { (w : Text) → IsTallyOf tally.now w
        → OnErr result (AppendedPrefix O.agrees out.old out.new (counts_line moments w)) }
    ensures faults { O.faults out.old ≤ O.faults out.new }
    ensures quiet { OnOk result (O.faults out.new ≡ O.faults out.old) }
    ensures cause { OnErr result (Rose (O.faults out.old) (O.faults out.new)) }
{
    put_all(out, counts(moments, tally).as_slice())
}
