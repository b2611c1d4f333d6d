// What `check` tells of a book.
use crate::books::*;
use crate::outside::{book_file, does, sound};
use replay_core::Status;
use std::alloc::Global;
use std::process::Abort;
use std::test::Fail;

pub(crate) fn checks(
    rt: &impl Abort,
    alloc: Global,
    book: &[u8],
    want: (Status, &str, &str),
) -> Result<(), Fail> {
    let files = book_file(alloc, book)?;
    does(rt, alloc, " check book", files, sound(), want)
}

#[test]
fn a_book_without_a_fault(rt: HostRuntime) -> Result<(), Fail> {
    for (book, line) in [
        (
            "version = 1",
            "OK alerts 0 params 0 memos 0 pages 0 slots 0\n",
        ),
        (ADVISORY, "OK alerts 1 params 1 memos 0 pages 0 slots 0\n"),
        (CAUTION, "OK alerts 1 params 1 memos 0 pages 0 slots 0\n"),
        (HYDRAULICS, "OK alerts 2 params 3 memos 0 pages 1 slots 0\n"),
        (SLOTS, "OK alerts 1 params 1 memos 0 pages 0 slots 3\n"),
    ] {
        checks(&rt, rt.alloc(), book.as_bytes(), (Status::Done, line, ""))?;
    }
    Ok(())
}

#[test]
fn a_book_with_a_fault(rt: HostRuntime) -> Result<(), Fail> {
    for (book, line) in [
        ("", "book: F03 top 0\n"),
        ("version =", "book: F02 top 0\n"),
        (LEVEL_FOUR, "book: F09 alert 1\n"),
        (OTHER_LETTER, "book: F08 alert 1\n"),
        (LATER_ALERT, "book: F21 alert 1\n"),
        (EXCHANGED, "book: F25 alert 2\n"),
        (NEVER_SHOWN, "book: F26 alert 1\n"),
    ] {
        checks(
            &rt,
            rt.alloc(),
            book.as_bytes(),
            (Status::BookRefused, "", line),
        )?;
    }
    Ok(())
}

#[test]
fn a_title_that_is_no_text(rt: HostRuntime) -> Result<(), Fail> {
    let mut book = ADVISORY.as_bytes().to_vec(rt.alloc())?;
    for byte in &mut book {
        if *byte == b'G' {
            *byte = 255;
        }
    }
    checks(
        &rt,
        rt.alloc(),
        &book,
        (Status::BookRefused, "", "book: F02 top 0\n"),
    )
}

#[test]
fn a_book_that_is_too_long(rt: HostRuntime) -> Result<(), Fail> {
    for (count, line) in [
        (4_194_304, "book: F03 top 0\n"),
        (4_194_305, "book: F01 top 0\n"),
    ] {
        let mut book = Vec::new(rt.alloc());
        book.resize(count, b'#')?;
        checks(&rt, rt.alloc(), &book, (Status::BookRefused, "", line))?;
    }
    Ok(())
}
