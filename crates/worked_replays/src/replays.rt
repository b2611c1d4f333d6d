// What `replay` writes of a record by a book.
use crate::books::*;
use crate::outside::{ONE_BLOCK, does, sound, two_files};
use replay_core::Status;
use std::alloc::Global;
use std::process::Abort;
use std::test::Fail;

fn replays(
    rt: &impl Abort,
    alloc: Global,
    book: &str,
    record_text: &str,
    want: (Status, &str, &str),
) -> Result<(), Fail> {
    let files = two_files(alloc, book, record_text)?;
    does(rt, alloc, " replay book record", files, sound(), want)
}

#[test]
fn a_record_without_a_fault(rt: HostRuntime) -> Result<(), Fail> {
    for (book, record_text, output) in [
        (
            SHORT_BOOK,
            "W 0 0000041d\nT\nT\nT\nT\nE\n",
            "@0\nL1 A HYD G RSVR LO LVL\n@3\nL1 -\nEND 4\n",
        ),
        (
            SECOND_SOURCE,
            "W 0 6000041d\nW 1 0000041d\nT\nE\n",
            "@0\nL1 A HYD G RSVR LO LVL\nEND 1\n",
        ),
        (
            SECOND_SOURCE,
            "W 0 8000001d\nW 1 0000041d\nT\nE\n",
            "END 1\n",
        ),
        (
            SDI_ONE,
            "W 0 0000041d\nT\nW 0 8000051d\nT\nE\n",
            "@1\nL1 A HYD G RSVR LO LVL\nEND 2\n",
        ),
        ("version = 1\n", "T\nE\n", "END 1\n"),
        (
            ADVISORY,
            "P TOCFG\nW 0 0000041d\nR TOCFG\nT\nE\n",
            "@0\nL1 A HYD G RSVR LO LVL\nEND 1\n",
        ),
    ] {
        replays(
            &rt,
            rt.alloc(),
            book,
            record_text,
            (Status::Done, output, ""),
        )?;
    }
    Ok(())
}

// A record with a fault, what is written of it, and what is told.
const FAULTS: &[(&str, &str, &str)] = &[
    ("", "", "record: NoEnd line 1\n"),
    ("T", "", "record: Cut line 1\n"),
    ("W 0 0000041d\nT\n", ONE_BLOCK, "record: NoEnd line 3\n"),
    ("E\nT\n", "", "record: AfterEnd line 2\n"),
    (
        "AAAAAAAAAAAAAAAAAAAAAAAAAAAAAAAAA",
        "",
        "record: Long line 1\n",
    ),
    (
        "AAAAAAAAAAAAAAAAAAAAAAAAAAAAAAAA\n",
        "",
        "record: Form line 1\n",
    ),
    ("T\nW 16 0000041d\n", "", "record: Form line 2\n"),
    ("\n", "", "record: Form line 1\n"),
    (
        "W 0 0000041d\nT\nF FWC1\nE\n",
        ONE_BLOCK,
        "record: Form line 3\n",
    ),
    (
        "W 0 0000041d\nT\nU 3\nE\n",
        ONE_BLOCK,
        "record: Form line 3\n",
    ),
];

#[test]
fn a_record_with_a_fault(rt: HostRuntime) -> Result<(), Fail> {
    for (record_text, output, line) in FAULTS {
        replays(
            &rt,
            rt.alloc(),
            ADVISORY,
            record_text,
            (Status::RecordRefused, *output, *line),
        )?;
    }
    Ok(())
}

#[test]
fn a_limit_on_the_bytes_of_a_record(rt: HostRuntime) -> Result<(), Fail> {
    let whole = "@0\nL1 A HYD G RSVR LO LVL\nEND 1\n";
    for (words, want) in [
        (" replay book record --limit 17", (Status::Done, whole, "")),
        (
            " replay book record --limit 4294967295",
            (Status::Done, whole, ""),
        ),
        (
            " replay book record --limit 16",
            (Status::RecordRefused, ONE_BLOCK, "record: Limit line 3\n"),
        ),
    ] {
        let files = two_files(rt.alloc(), ADVISORY, "W 0 0000041d\nT\nE\n")?;
        does(&rt, rt.alloc(), words, files, sound(), want)?;
    }
    Ok(())
}

#[test]
fn a_book_that_is_not_replayed(rt: HostRuntime) -> Result<(), Fail> {
    for (book, line) in [
        ("", "book: F03 top 0\n"),
        ("version =", "book: F02 top 0\n"),
        (LEVEL_FOUR, "book: F09 alert 1\n"),
    ] {
        replays(
            &rt,
            rt.alloc(),
            book,
            "E\n",
            (Status::BookRefused, "", line),
        )?;
    }
    Ok(())
}

// `why` writes nothing of a record with a fault.
#[test]
fn a_record_that_is_not_explained(rt: HostRuntime) -> Result<(), Fail> {
    for (record_text, line) in [
        ("W 0 0000041d\nT\n", "record: NoEnd line 3\n"),
        ("W 0 0000041d\nT\nE\nE\n", "record: AfterEnd line 4\n"),
    ] {
        let files = two_files(rt.alloc(), ADVISORY, record_text)?;
        does(
            &rt,
            rt.alloc(),
            " why book record",
            files,
            sound(),
            (Status::RecordRefused, "", line),
        )?;
    }
    Ok(())
}
