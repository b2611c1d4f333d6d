// Loads a book, and takes all the memory that a replay by it needs.
ghost use Rattle.std.specs.Prelude.{◌≡◌, ◌≢◌, ◌≤◌, IfOk, None, Some, Err};
ghost use Rattle.ecam_io.specs.Outside.{raised};
ghost use Rattle.ecam_spec.specs.declared.kinds.BookFault.{BookFault as Fault};
ghost use Rattle.book_spec.specs.BookBytes as spec;
ghost use Rattle.book_model.specs.Sealed.{the_book};
ghost use Rattle.book_model.specs.declared.error.LoadError.TheVariants.{Fault as Refusal};
ghost use Rattle.replay_core.specs.Calls.{shelf_call};
ghost use Rattle.replay_core.specs.Loading.{Reads, Loads, Readies, Taken, past_book};
ghost use Rattle.replay_core.specs.Outcomes.{outcome_of};

use crate::file::{FileError, read_file};
use crate::outcome::Outcome;
use book_checker::seal;
use book_model::{Book, BookFault, LoadError};
use book_reader::read_book;
use ecam_io::Shelf;
use ecam_spec::limits::BOOK_BYTES;
use fwc_pair::Pair;
use std::alloc::{AllocError, Global};

// A book of this many bytes is too large, whatever follows.
const ENOUGH: usize = BOOK_BYTES + 1;

// The bytes of a book's file, and the book that they are.
#[derive(Drop)]
pub(crate) struct BookFile {
    pub(crate) bytes: Vec<u8>,
    pub(crate) book: Book,
}

// A book, and all that a replay by it needs.
#[derive(Drop)]
pub(crate) struct Loaded {
    pub(crate) book: Book,
    pub(crate) pair: Pair,
}

// Gives up the memory of a loaded book, part by part, so that no proof goes through all of them.
pub(crate) fn give_up(loaded: Loaded) {
    let Loaded { book, pair } = loaded;
    give_up_book(book);
    pair.give_up();
}

fn give_up_book(_book: Book) {}

// Why no book stands ready.
#[derive(Clone, Copy, Debug, PartialEq, Eq)]
pub(crate) enum Unready {
    // It has this fault.
    Refused(BookFault),
    // Its file wasn't read.
    Unread,
    // There was too little memory.
    NoMemory,
}

impl Unready {
    pub(crate) fn outcome(self) -> Outcome
        ensures { result ≡ outcome_of self }
    {
        match self {
            Unready::Refused(fault) => Outcome::BookRefused(fault),
            Unready::Unread => Outcome::ReadFault,
            Unready::NoMemory => Outcome::NoMemory,
        }
    }
}

// The book that bytes are.
fn book_of(alloc: Global, bytes: &[u8]) -> Result<Book, LoadError>
    ensures book { IfOk result (λ b. spec.book bytes.now ≡ Some (the_book b)) }
    ensures fault { (f : Fault) → result ≡ Err (Refusal f) → spec.book_fault bytes.now ≡ Some f }
{
    match read_book(alloc, bytes) {
        Ok(draft) => seal(alloc, draft),
        Err(error) => Err(error),
    }
}

// The file of that name and its book.
pub(crate) fn load_file<F: Shelf>(
    alloc: Global,
    files: &mut F,
    name: &str,
) -> Result<BookFile, Unready>
    ensures reads { Reads (shelf_call F.Source files.old files.new) name.now result }
    ensures book { IfOk result (λ f. spec.book f.bytes.items ≡ Some (the_book f.book)) }
    ensures took { result ≢ Err Unready.Unread
        → Taken past_book (F.files files.old) name.now (F.left files.new) }
    ensures quiet { result ≢ Err Unready.Unread → F.faults files.new ≡ F.faults files.old }
    ensures files { F.files files.new ≡ F.files files.old }
    ensures opens { F.opens files.new ≡ raised (F.opens files.old) }
    ensures faults { F.faults files.old ≤ F.faults files.new }
{
    let bytes = match read_file(alloc, files, name, ENOUGH) {
        Ok(bytes) => bytes,
        Err(FileError::Failed) => return Err(Unready::Unread),
        Err(FileError::Memory) => return Err(Unready::NoMemory),
    };
    match book_of(alloc, &bytes) {
        Ok(book) => Ok(BookFile { bytes, book }),
        Err(LoadError::Fault(fault)) => Err(Unready::Refused(fault)),
        Err(LoadError::Memory) => Err(Unready::NoMemory),
    }
}

// The book of the file of that name.
pub(crate) fn load_book<F: Shelf>(alloc: Global, files: &mut F, name: &str) -> Result<Book, Unready>
    ensures loads { Loads (shelf_call F.Source files.old files.new) name.now result }
    ensures took { result ≢ Err Unready.Unread
        → Taken past_book (F.files files.old) name.now (F.left files.new) }
    ensures quiet { result ≢ Err Unready.Unread → F.faults files.new ≡ F.faults files.old }
    ensures files { F.files files.new ≡ F.files files.old }
    ensures opens { F.opens files.new ≡ raised (F.opens files.old) }
    ensures faults { F.faults files.old ≤ F.faults files.new }
{
    match load_file(alloc, files, name) {
        Ok(file) => Ok(file.book),
        Err(unready) => Err(unready),
    }
}

// The book of the file of that name, ready to be replayed.
pub(crate) fn load<F: Shelf>(alloc: Global, files: &mut F, name: &str) -> Result<Loaded, Unready>
    ensures readies { Readies (shelf_call F.Source files.old files.new) name.now result }
    ensures took { result ≢ Err Unready.Unread
        → Taken past_book (F.files files.old) name.now (F.left files.new) }
    ensures quiet { result ≢ Err Unready.Unread → F.faults files.new ≡ F.faults files.old }
    ensures files { F.files files.new ≡ F.files files.old }
    ensures opens { F.opens files.new ≡ raised (F.opens files.old) }
    ensures faults { F.faults files.old ≤ F.faults files.new }
{
    let book = match load_book(alloc, files, name) {
        Ok(book) => book,
        Err(unready) => return Err(unready),
    };
    match Pair::new(alloc, &book) {
        Ok(pair) => Ok(Loaded { book, pair }),
        Err(AllocError) => Err(Unready::NoMemory),
    }
}
