// What is reported of the flights of worked records. A slash stands for the end of a line.
ghost use Rattle.book_model.specs.Sealed.{the_book};
ghost use Rattle.fwc_pair.specs.PairState.{PairFits};

use book_checker::seal;
use book_model::{Book, LoadError};
use book_reader::read_book;
use ecam_io::{MemoryFile, MemoryShelf, MemorySink, Shelf};
use flight_report::Report;
use fwc_pair::Pair;
use itoa::Buffer;
use record_views::run_view;
use std::alloc::{AllocError, Global};
use std::process::Abort;
use std::test::Fail;

// One alert, which is one discrete. The flight phase is 1 throughout.
const ADVISORY: &str = "version = 1\nsystems = [\"HYD\"]\n\
[[param]]\nname = \"g_lo\"\nkind = \"disc\"\nstale = 600\nsource = [{ bus = 0, label = \"270\", bit = 11 }]\n\
[[alert]]\nname = \"g_rsvr\"\ntitle = \"HYD G RSVR LO LVL\"\nsystem = \"HYD\"\nlevel = 1\nwhen = \"g_lo\"\n";

// Two alerts by one discrete, of which the second is a warning.
const WARNING_BEHIND: &str = "version = 1\nsystems = [\"HYD\"]\n\
[[param]]\nname = \"g_lo\"\nkind = \"disc\"\nstale = 600\nsource = [{ bus = 0, label = \"270\", bit = 11 }]\n\
[[alert]]\nname = \"low\"\ntitle = \"LOW\"\nsystem = \"HYD\"\nlevel = 1\nwhen = \"g_lo\"\n\
[[alert]]\nname = \"fire\"\ntitle = \"FIRE\"\nsystem = \"HYD\"\nlevel = 3\nwhen = \"g_lo\"\n";

// The first alert, inhibited in phases 3 to 5. Each input of the phase is a discrete.
const INHIBITED: &str = "version = 1\nsystems = [\"HYD\"]\n\
[[param]]\nname = \"g_lo\"\nkind = \"disc\"\nstale = 600\nsource = [{ bus = 0, label = \"270\", bit = 11 }]\n\
[[param]]\nname = \"gnd\"\nkind = \"disc\"\nstale = 600\nsource = [{ bus = 0, label = \"350\", bit = 11 }]\n\
[[param]]\nname = \"run\"\nkind = \"disc\"\nstale = 600\nsource = [{ bus = 0, label = \"350\", bit = 12 }]\n\
[[param]]\nname = \"tp\"\nkind = \"disc\"\nstale = 600\nsource = [{ bus = 0, label = \"350\", bit = 13 }]\n\
[[param]]\nname = \"fast\"\nkind = \"disc\"\nstale = 600\nsource = [{ bus = 0, label = \"350\", bit = 14 }]\n\
[[param]]\nname = \"low\"\nkind = \"disc\"\nstale = 600\nsource = [{ bus = 0, label = \"350\", bit = 15 }]\n\
[[param]]\nname = \"high\"\nkind = \"disc\"\nstale = 600\nsource = [{ bus = 0, label = \"350\", bit = 16 }]\n[phase]\ngnd = \"gnd\"\nrun = \"run\"\ntp = \"tp\"\nfast = \"fast\"\nlow = \"low\"\nhigh = \"high\"\n\
[[alert]]\nname = \"g_rsvr\"\ntitle = \"HYD G RSVR LO LVL\"\nsystem = \"HYD\"\nlevel = 2\nwhen = \"g_lo\"\ninhibit = [3, 4, 5]\n";

// A book, a record, and what is reported of it.
const WORKED: &[(&str, &str, &str)] = &[
    (ADVISORY, "E/", "END 0/"),
    (ADVISORY, "F 1/F 2/T/E/", "END 1/"),
    // an alert that waits in the climb comes up in cruise
    (
        INHIBITED,
        "W 0 00000417/T/W 0 80000c17/T/W 0 00001c17/T/W 0 80003c17/W 0 0000041d/T/W 0 00007017/T/W 0 8000a017/T/E/",
        "FLIGHT 0 FROM 0 ONSETS 1/@5 PHASE 6 g_rsvr/END 6/",
    ),
    // phase 1 is entered once more
    (
        INHIBITED,
        "W 0 00000417/T/W 0 80000c17/T/W 0 00000417/T/E/",
        "FLIGHT 0 FROM 0 ONSETS 0/FLIGHT 1 FROM 2 ONSETS 0/END 3/",
    ),
    // phase 1 goes on, and the alert comes up twice
    (
        ADVISORY,
        "T/W 0 0000041d/T/T/W 0 8000001d/T/W 0 0000041d/T/E/",
        "FLIGHT 0 FROM 0 ONSETS 2/@1 PHASE 1 g_rsvr/@4 PHASE 1 g_rsvr/END 5/",
    ),
    // one computer fails and comes back
    (
        ADVISORY,
        "W 0 0000041d/T/F 1/T/U 1/T/E/",
        "FLIGHT 0 FROM 0 ONSETS 1/@0 PHASE 1 g_rsvr/END 3/",
    ),
    // a cold start within a flight, behind a Tick at which no computer is up
    (
        ADVISORY,
        "W 0 0000041d/T/F 1/F 2/T/U 1/T/W 0 0000041d/T/E/",
        "FLIGHT 0 FROM 0 ONSETS 1/@0 PHASE 1 g_rsvr/FLIGHT 1 FROM 2 ONSETS 1/@3 PHASE 1 g_rsvr/END 4/",
    ),
    // in one moment the warning comes first
    (
        WARNING_BEHIND,
        "W 0 0000041d/T/E/",
        "FLIGHT 0 FROM 0 ONSETS 2/@0 PHASE 1 fire/@0 PHASE 1 low/END 1/",
    ),
];

// The book of a text. A fault counts as want of memory here.
fn book_of(alloc: Global, text: &str) -> Result<Book, AllocError> {
    let draft = match read_book(alloc, text.as_bytes()) {
        Ok(draft) => draft,
        Err(LoadError::Memory) => return Err(AllocError),
        Err(LoadError::Fault(_)) => return Err(AllocError),
    };
    match seal(alloc, draft) {
        Ok(book) => Ok(book),
        Err(LoadError::Memory) => Err(AllocError),
        Err(LoadError::Fault(_)) => Err(AllocError),
    }
}

// Lines, behind each of which a slash stands.
fn lines_of(alloc: Global, text: &str) -> Result<String, AllocError> {
    let mut lines = String::new(alloc);
    for line in text.split('/') {
        if !line.is_empty() {
            lines.push_str(line)?;
            lines.push_str("\n")?;
        }
    }
    Ok(lines)
}

// A shelf with an open record of these lines.
fn open_record(alloc: Global, text: &str) -> Result<MemoryShelf, AllocError> {
    let mut files = Vec::new(alloc);
    files.push(MemoryFile {
        name: String::from_str(alloc, "record")?,
        bytes: lines_of(alloc, text)?.as_bytes().to_vec(alloc)?,
    })?;
    let mut shelf = MemoryShelf::new(files, Vec::new(alloc), 4096);
    let _ = shelf.open("record");
    Ok(shelf)
}

// Replays a record, and compares what is reported of it.
fn reports(
    rt: &impl Abort,
    alloc: Global,
    book: &str,
    record: &str,
    want: &str,
) -> Result<(), Fail> {
    let book = book_of(alloc, book)?;
    let mut pair = Pair::new(alloc, &book)?;
    let told = tells(rt, alloc, &book, &mut pair, record, want);
    pair.give_up();
    told
}

// The same by a pair of the book.
fn tells(
    rt: &impl Abort,
    alloc: Global,
    book: &Book,
    pair: &mut Pair,
    record: &str,
    want: &str,
) -> Result<(), Fail>
    requires { PairFits (the_book book.now) pair.old }
{
    let mut report = Report::new(alloc, book)?;
    let mut shelf = open_record(alloc, record)?;
    let mut out = MemorySink::new(alloc, Vec::new(alloc), 4096, 65536)?;
    let shown = run_view(book, pair, &mut report, 4294967295, &mut shelf, &mut out);
    assert!(rt; shown.is_ok());
    let want = lines_of(alloc, want)?;
    assert_eq!(rt; out.bytes(), want.as_bytes());
    Ok(())
}

// Appends a number and what stands behind it.
fn push_number(text: &mut String, number: u32, behind: &str) -> Result<(), AllocError> {
    let mut buffer = Buffer::new();
    text.push_str(buffer.format(number))?;
    text.push_str(behind)
}

// A flight in which an alert comes up so many times, every other Tick: each of them is counted, and the first 64 are told.
fn many_onsets(rt: &impl Abort, alloc: Global, onsets: u32) -> Result<(), Fail> {
    let mut record = String::new(alloc);
    let mut want = String::from_str(alloc, "FLIGHT 0 FROM 0 ONSETS ")?;
    push_number(&mut want, onsets, "/")?;
    let mut tick: u32 = 0;
    for i in 0..onsets {
        record.push_str("W 0 0000041d/T/W 0 8000001d/T/")?;
        if i < 64 {
            want.push_str("@")?;
            push_number(&mut want, tick, " PHASE 1 g_rsvr/")?;
        }
        tick = tick.saturating_add(2);
    }
    record.push_str("E/")?;
    want.push_str("END ")?;
    push_number(&mut want, tick, "/")?;
    reports(rt, alloc, ADVISORY, record.as_str(), want.as_str())
}

// Ten flights: the engines start and stop ten times.
fn ten_flights(rt: &impl Abort, alloc: Global) -> Result<(), Fail> {
    let mut record = String::new(alloc);
    let mut want = String::new(alloc);
    let mut tick: u32 = 0;
    for flight in 0..10 {
        record.push_str("W 0 00000417/T/W 0 80000c17/T/")?;
        want.push_str("FLIGHT ")?;
        push_number(&mut want, flight, " FROM ")?;
        push_number(&mut want, tick, " ONSETS 0/")?;
        tick = tick.saturating_add(2);
    }
    record.push_str("E/")?;
    want.push_str("END 20/")?;
    reports(rt, alloc, INHIBITED, record.as_str(), want.as_str())
}

#[test]
fn flights_are_reported(rt: HostRuntime) -> Result<(), Fail> {
    let alloc = rt.alloc();
    for (book, record, want) in WORKED {
        reports(&rt, alloc, book, record, want)?;
    }
    for onsets in [63, 64, 65, 1000] {
        many_onsets(&rt, alloc, onsets)?;
    }
    ten_flights(&rt, alloc)
}
