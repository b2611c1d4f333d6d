// What the worked view writes of records.
ghost use Rattle.book_model.specs.Sealed.{the_book};
ghost use Rattle.fwc_pair.specs.PairState.{PairFits};

use crate::RedTicks;
use book_checker::seal;
use book_model::{Book, LoadError};
use book_reader::read_book;
use ecam_io::{MemoryFile, MemoryShelf, MemorySink, Shelf};
use fwc_pair::Pair;
use record_views::run_view;
use std::alloc::{AllocError, Global};
use std::process::Abort;
use std::test::Fail;

// A warning, whose title is red, while its discrete is one.
const WARNING: &str = "version = 1\nsystems = [\"HYD\"]\n\
[[param]]\nname = \"g_lo\"\nkind = \"disc\"\nstale = 600\nsource = [{ bus = 0, label = \"270\", bit = 11 }]\n\
[[alert]]\nname = \"g_rsvr\"\ntitle = \"HYD G RSVR LO LVL\"\nsystem = \"HYD\"\nlevel = 3\nwhen = \"g_lo\"\n";

// The book of a text. A fault counts as want of memory here.
fn book_of(alloc: Global, text: &str) -> Result<Book, AllocError> {
    let draft = match read_book(alloc, text.as_bytes()) {
        Ok(draft) => draft,
        Err(LoadError::Memory) => return Err(AllocError),
        Err(LoadError::Fault(_)) => return Err(AllocError),
    };
    match seal(alloc, draft) {
        Ok(book) => Ok(book),
        Err(LoadError::Memory) => Err(AllocError),
        Err(LoadError::Fault(_)) => Err(AllocError),
    }
}

// A shelf with an open record.
fn open_record(alloc: Global, text: &str) -> Result<MemoryShelf, AllocError> {
    let mut files = Vec::new(alloc);
    files.push(MemoryFile {
        name: String::from_str(alloc, "record")?,
        bytes: text.as_bytes().to_vec(alloc)?,
    })?;
    let mut shelf = MemoryShelf::new(files, Vec::new(alloc), 4096);
    let _ = shelf.open("record");
    Ok(shelf)
}

// What is written of this record.
fn counts(
    rt: &impl Abort,
    alloc: Global,
    book: &Book,
    pair: &mut Pair,
    text: &str,
    written: &str,
) -> Result<(), Fail>
    requires { PairFits (the_book book.now) pair.old }
    ensures { PairFits (the_book book.now) pair.new }
{
    let mut record = open_record(alloc, text)?;
    let mut out = MemorySink::new(alloc, Vec::new(alloc), 4096, 64)?;
    let mut view = RedTicks::new();
    let _ = run_view(book, pair, &mut view, u32::MAX, &mut record, &mut out);
    assert_eq!(rt; out.bytes(), written.as_bytes());
    Ok(())
}

// All records are shown by one pair.
fn all_counts(rt: &impl Abort, alloc: Global, book: &Book, pair: &mut Pair) -> Result<(), Fail>
    requires { PairFits (the_book book.now) pair.old }
{
    counts(rt, alloc, book, pair, "E\n", "RED 0\n")?;
    counts(rt, alloc, book, pair, "T\nT\nE\n", "RED 0\n")?;
    counts(
        rt,
        alloc,
        book,
        pair,
        "W 0 0000041d\nT\nT\nW 0 8000001d\nT\nE\n",
        "RED 2\n",
    )?;
    counts(
        rt,
        alloc,
        book,
        pair,
        "W 0 0000041d\nT\nF 1\nT\nF 2\nT\nU 1\nT\nE\n",
        "RED 2\n",
    )?;
    counts(rt, alloc, book, pair, "W 0 0000041d\nT\n", "")
}

#[test]
fn ticks_with_a_red_row_are_counted(rt: HostRuntime) -> Result<(), Fail> {
    let alloc = rt.alloc();
    let book = book_of(alloc, WARNING)?;
    let mut pair = Pair::new(alloc, &book)?;
    let told = all_counts(&rt, alloc, &book, &mut pair);
    pair.give_up();
    told
}
