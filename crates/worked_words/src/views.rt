// A record and what the view writes of it, in memory.
ghost use Rattle.book_model.specs.Sealed.{the_book};
ghost use Rattle.fwc_pair.specs.PairState.{PairFits};

use book_checker::seal;
use book_model::{Book, LoadError};
use book_reader::read_book;
use ecam_io::{MemoryFile, MemoryShelf, MemorySink, Shelf};
use fwc_pair::Pair;
use record_views::run_view;
use std::alloc::{AllocError, Global};
use word_out::WordOut;

// The book that a text is. A text with a fault counts as want of memory here.
fn book_of(alloc: Global, text: &str) -> Result<Book, AllocError> {
    let draft = match read_book(alloc, text.as_bytes()) {
        Ok(draft) => draft,
        Err(LoadError::Memory) => return Err(AllocError),
        Err(LoadError::Fault(_)) => return Err(AllocError),
    };
    match seal(alloc, draft) {
        Ok(book) => Ok(book),
        Err(LoadError::Memory) => Err(AllocError),
        Err(LoadError::Fault(_)) => Err(AllocError),
    }
}

/// Lines, behind each of which a slash stands.
pub(crate) fn lines_of(alloc: Global, text: &str) -> Result<String, AllocError> {
    let mut lines = String::new(alloc);
    for line in text.split('/') {
        if !line.is_empty() {
            lines.push_str(line)?;
            lines.push_str("\n")?;
        }
    }
    Ok(lines)
}

/// A book of one discrete, and of so many alerts of it, of this level.
pub(crate) fn book_of_alerts(alloc: Global, count: u32, level: u8) -> Result<String, AllocError> {
    let mut text = String::from_str(
        alloc,
        "version = 2\nsystems = [\"HYD\"]\n[[param]]\nname = \"g_lo\"\nkind = \"disc\"\nstale = 600\n\
source = [{ bus = 0, label = \"270\", bit = 11 }]\n",
    )?;
    for i in 0..count {
        let alert = format!(in alloc;
            "[[alert]]\nname = \"a{i}\"\ntitle = \"ALERT\"\nsystem = \"HYD\"\nlevel = {level}\nwhen = \"g_lo\"\n"
        )?;
        text.push_str(&alert)?;
    }
    Ok(text)
}

/// What is written of a record, and its end; where the replay fails, nothing more than was written until then.
pub(crate) fn words_of(
    alloc: Global,
    book: &str,
    record: &str,
    room: usize,
) -> Result<MemorySink, AllocError> {
    let book = book_of(alloc, book)?;
    let mut pair = Pair::new(alloc, &book)?;
    let written = written_of(alloc, &book, &mut pair, record, room);
    pair.give_up();
    written
}

// The same by a pair of the book.
fn written_of(
    alloc: Global,
    book: &Book,
    pair: &mut Pair,
    record: &str,
    room: usize,
) -> Result<MemorySink, AllocError>
    requires { PairFits (the_book book.now) pair.old }
{
    let mut view = WordOut::new(alloc, book)?;
    let mut files = Vec::new(alloc);
    files.push(MemoryFile {
        name: String::from_str(alloc, "record")?,
        bytes: record.as_bytes().to_vec(alloc)?,
    })?;
    let mut shelf = MemoryShelf::new(files, Vec::new(alloc), 4096);
    let mut out = MemorySink::new(alloc, Vec::new(alloc), 4096, room)?;
    let _ = shelf.open("record");
    let _ = run_view(book, pair, &mut view, u32::MAX, &mut shelf, &mut out);
    Ok(out)
}
