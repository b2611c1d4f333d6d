// A book that is written again in version 2 says the same.
use crate::books::{ADVISORY, HYDRAULICS, LEVEL_FOUR, SLOTS};
use crate::checks::checks;
use crate::each_failure::{FAILURE, FAILURE_SHOWN};
use crate::named::NAMED;
use crate::outside::{Ending, book_file, does, ending_of, file, sound};
use replay_core::Status;
use std::alloc::Global;
use std::process::Abort;
use std::test::Fail;

// What `migrate` writes of a book.
fn migrated(rt: &impl Abort, alloc: Global, book: &[u8]) -> Result<Vec<u8>, Fail> {
    let files = book_file(alloc, book)?;
    let Ending {
        status,
        written,
        told,
    } = ending_of(alloc, " migrate book", files, sound())?;
    assert_eq!(rt; status, Status::Done);
    assert_eq!(rt; told.len(), 0);
    Ok(written)
}

// Written once more it stays the same text, and what is told of it is what is told of the book.
#[test]
fn a_migrated_book_has_as_much(rt: HostRuntime) -> Result<(), Fail> {
    let alloc = rt.alloc();
    for (book, line) in [
        (
            "version = 1",
            "OK alerts 0 params 0 memos 0 pages 0 slots 0\n",
        ),
        (ADVISORY, "OK alerts 1 params 1 memos 0 pages 0 slots 0\n"),
        (NAMED, "OK alerts 1 params 1 memos 0 pages 0 slots 1\n"),
        (HYDRAULICS, "OK alerts 2 params 3 memos 0 pages 1 slots 0\n"),
        (SLOTS, "OK alerts 1 params 1 memos 0 pages 0 slots 3\n"),
    ] {
        let once = migrated(&rt, alloc, book.as_bytes())?;
        checks(&rt, alloc, &once, (Status::Done, line, ""))?;
        let twice = migrated(&rt, alloc, &once)?;
        assert_eq!(rt; once, twice);
    }
    let text = migrated(&rt, alloc, b"version = 1")?;
    assert_eq!(rt; text.as_slice(), b"version = 2\n".as_slice());
    Ok(())
}

#[test]
fn a_migrated_book_shows_the_same(rt: HostRuntime) -> Result<(), Fail> {
    let alloc = rt.alloc();
    let book = migrated(&rt, alloc, HYDRAULICS.as_bytes())?;
    let mut files = book_file(alloc, &book)?;
    files.push(file(alloc, "record", FAILURE.as_bytes())?)?;
    does(
        &rt,
        alloc,
        " replay book record",
        files,
        sound(),
        (Status::Done, FAILURE_SHOWN, ""),
    )
}

#[test]
fn a_book_with_a_fault_is_not_migrated(rt: HostRuntime) -> Result<(), Fail> {
    let alloc = rt.alloc();
    let files = book_file(alloc, LEVEL_FOUR.as_bytes())?;
    let want = (Status::BookRefused, "", "book: F09 alert 1\n");
    does(&rt, alloc, " migrate book", files, sound(), want)
}
