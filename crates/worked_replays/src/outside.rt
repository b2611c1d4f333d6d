// A command on files in memory, and what it ends with, writes and tells.
ghost use Rattle.std.specs.Prelude.{◌<◌};

use ecam_io::{MemoryFile, MemoryShelf, MemorySink};
use replay_core::{Status, ecam};
use std::alloc::{AllocError, Global};
use std::process::Abort;
use std::test::Fail;

// The first block of a record in which an alert's discrete is one at once.
pub(crate) const ONE_BLOCK: &str = "@0\nL1 A HYD G RSVR LO LVL\n";

// Lines, behind each of which a slash stands.
pub(crate) fn lines_of(alloc: Global, text: &str) -> Result<String, AllocError> {
    text.replace(alloc, "/", "\n")
}

// What fails of the outside: the calls of these numbers, where a read gives and a write takes so many bytes, and the
// sink has so much room. What is told goes to a sink of its own, which takes 4096 bytes in one call.
#[derive(Clone, Copy)]
pub(crate) struct Outside<'a> {
    pub(crate) reads_failing: &'a [u32],
    pub(crate) read_piece: usize,
    pub(crate) writes_failing: &'a [u32],
    pub(crate) write_piece: usize,
    pub(crate) room: usize,
    pub(crate) tells_failing: &'a [u32],
}

// Nothing fails.
pub(crate) fn sound<'a>() -> Outside<'a>
    ensures read { 0 < result.read_piece }
    ensures write { 0 < result.write_piece }
{
    Outside {
        reads_failing: &[],
        read_piece: 4096,
        writes_failing: &[],
        write_piece: 4096,
        room: 4096,
        tells_failing: &[],
    }
}

pub(crate) fn file(alloc: Global, name: &str, bytes: &[u8]) -> Result<MemoryFile, AllocError> {
    Ok(MemoryFile {
        name: String::from_str(alloc, name)?,
        bytes: bytes.to_vec(alloc)?,
    })
}

// The file of a book.
pub(crate) fn book_file(alloc: Global, book: &[u8]) -> Result<Vec<MemoryFile>, AllocError> {
    let mut files = Vec::new(alloc);
    files.push(file(alloc, "book", book)?)?;
    Ok(files)
}

// The files of a book and of a record.
pub(crate) fn two_files(
    alloc: Global,
    book: &str,
    record_text: &str,
) -> Result<Vec<MemoryFile>, AllocError> {
    let mut files = book_file(alloc, book.as_bytes())?;
    files.push(file(alloc, "record", record_text.as_bytes())?)?;
    Ok(files)
}

// Words, each behind a blank.
pub(crate) fn words_of(alloc: Global, line: &str) -> Result<Vec<String>, AllocError> {
    let mut words = Vec::new(alloc);
    for word in line.split(' ').skip(1) {
        words.push(String::from_str(alloc, word)?)?;
    }
    Ok(words)
}

// How a command ends, what it writes, and what it tells.
#[derive(Drop)]
pub(crate) struct Ending {
    pub(crate) status: Status,
    pub(crate) written: Vec<u8>,
    pub(crate) told: Vec<u8>,
}

// The ending of a command by these files and sinks.
fn ending_by(
    alloc: Global,
    words: &str,
    shelf: &mut MemoryShelf,
    out: &mut MemorySink,
    err: &mut MemorySink,
) -> Result<Ending, AllocError> {
    let words = words_of(alloc, words)?;
    let status = ecam(alloc, &words, shelf, out, err);
    let written = out.bytes().to_vec(alloc)?;
    let told = err.bytes().to_vec(alloc)?;
    Ok(Ending {
        status,
        written,
        told,
    })
}

// The sinks for what is written, and for what is told.
fn sinks_of(alloc: Global, outside: Outside<'_>) -> Result<(MemorySink, MemorySink), AllocError>
    requires { 0 < outside.write_piece }
{
    let failing = outside.writes_failing.to_vec(alloc)?;
    let out = MemorySink::new(alloc, failing, outside.write_piece, outside.room)?;
    let failing = outside.tells_failing.to_vec(alloc)?;
    let err = MemorySink::new(alloc, failing, 4096, 4096)?;
    Ok((out, err))
}

// The ending of a command with these files.
pub(crate) fn ending_of(
    alloc: Global,
    words: &str,
    files: Vec<MemoryFile>,
    outside: Outside<'_>,
) -> Result<Ending, AllocError>
    requires read { 0 < outside.read_piece }
    requires write { 0 < outside.write_piece }
{
    let failing = outside.reads_failing.to_vec(alloc)?;
    let mut shelf = MemoryShelf::new(files, failing, outside.read_piece);
    let (mut out, mut err) = sinks_of(alloc, outside)?;
    ending_by(alloc, words, &mut shelf, &mut out, &mut err)
}

// Whether a command with these files ends so, writes this, and tells this.
pub(crate) fn does(
    rt: &impl Abort,
    alloc: Global,
    words: &str,
    files: Vec<MemoryFile>,
    outside: Outside<'_>,
    want: (Status, &str, &str),
) -> Result<(), Fail>
    requires read { 0 < outside.read_piece }
    requires write { 0 < outside.write_piece }
{
    let ending = ending_of(alloc, words, files, outside)?;
    assert_eq!(rt; ending.status, want.0);
    assert_eq!(rt; ending.written.as_slice(), want.1.as_bytes());
    assert_eq!(rt; ending.told.as_slice(), want.2.as_bytes());
    Ok(())
}
