// Books and conditions as large as they may be.
use crate::checks::checks;
use crate::items::put_items;
use replay_core::Status;
use std::alloc::Global;
use std::test::Fail;

const FIRST: &str =
    "[[param]]\nname = \"p0\"\nkind = \"disc\"\nstale = 600\nsource = [{ bus = 0, label = \"270\", bit = 11 }]\n";

// Further items, in which a number sign stands for the item's number.
const PAGE: &str = "[[page]]\nname = \"g#\"\ntitle = \"HYD\"\nrow = []\n";

const PARAM: &str =
    "[[param]]\nname = \"p#\"\nkind = \"bcd\"\nstale = 600\nsource = [{ bus = 0, label = \"270\" }]\n";

const ALERT: &str =
    "[[alert]]\nname = \"a#\"\ntitle = \"A\"\nsystem = \"HYD\"\nlevel = 1\nwhen = \"p0\"\n";

const MEMO: &str = "[[memo]]\nname = \"m#\"\ntext = \"M\"\nzone = \"left\"\nwhen = \"p0\"\n";

// A book with so many items in each section.
fn book_of(
    alloc: Global,
    systems: u16,
    pages: u16,
    params: u16,
    alerts: u16,
    memos: u16,
) -> Result<String, Fail> {
    let mut book = String::from_str(alloc, "version = 1\nsystems = [\"HYD\"")?;
    put_items(alloc, &mut book, 1..systems, ", \"S#\"")?;
    book.push_str("]\n")?;
    book.push_str(FIRST)?;
    put_items(alloc, &mut book, 0..pages, PAGE)?;
    put_items(alloc, &mut book, 1..params, PARAM)?;
    put_items(alloc, &mut book, 0..alerts, ALERT)?;
    put_items(alloc, &mut book, 0..memos, MEMO)?;
    Ok(book)
}

#[test]
fn a_book_with_as_many_items_as_it_may_have(rt: HostRuntime) -> Result<(), Fail> {
    let alloc = rt.alloc();
    let book = book_of(alloc, 64, 16, 1024, 1024, 128)?;
    let line = "OK alerts 1024 params 1024 memos 128 pages 16 slots 0\n";
    checks(&rt, alloc, book.as_bytes(), (Status::Done, line, ""))?;
    for (counts, line) in [
        ((65, 0, 1, 0, 0), "book: F10 system 0\n"),
        ((1, 17, 1, 0, 0), "book: F10 page 0\n"),
        ((1, 0, 1025, 0, 0), "book: F10 param 0\n"),
        ((1, 0, 1, 1025, 0), "book: F10 alert 0\n"),
        ((1, 0, 1, 0, 129), "book: F10 memo 0\n"),
    ] {
        let (systems, pages, params, alerts, memos) = counts;
        let book = book_of(alloc, systems, pages, params, alerts, memos)?;
        checks(&rt, alloc, book.as_bytes(), (Status::BookRefused, "", line))?;
    }
    Ok(())
}

// A book with one alert, up to its condition.
const CONDITIONED: &str = "version = 1\nsystems = [\"HYD\"]\n\
[[param]]\nname = \"p0\"\nkind = \"disc\"\nstale = 600\nsource = [{ bus = 0, label = \"270\", bit = 11 }]\n\
[[alert]]\nname = \"a\"\ntitle = \"A\"\nsystem = \"HYD\"\nlevel = 1\nwhen = \"";

// A book with one alert, whose condition has so many bytes: blanks, and an end.
fn with_condition(alloc: Global, length: usize, end: &str) -> Result<String, Fail> {
    let blanks = " ".repeat(alloc, length.saturating_sub(end.len()))?;
    let book = format!(in alloc; "{CONDITIONED}{blanks}{end}\"\n")?;
    Ok(book)
}

#[test]
fn a_condition_as_long_as_it_may_be(rt: HostRuntime) -> Result<(), Fail> {
    let alloc = rt.alloc();
    let one = "OK alerts 1 params 1 memos 0 pages 0 slots 0\n";
    for (length, end, want) in [
        (2048, "p0", (Status::Done, one, "")),
        (2049, "p0", (Status::BookRefused, "", "book: F08 alert 1\n")),
        (
            2048,
            "p0)",
            (Status::BookRefused, "", "book: F16 alert 1\n"),
        ),
        (
            2048,
            "all(p0, p9)",
            (Status::BookRefused, "", "book: F17 alert 1\n"),
        ),
        (
            2048,
            "any(p0, hold(p0, 36001))",
            (Status::BookRefused, "", "book: F19 alert 1\n"),
        ),
    ] {
        let book = with_condition(alloc, length, end)?;
        checks(&rt, alloc, book.as_bytes(), want)?;
    }
    // Sixty-four nodes of names with 23 bytes, and one bracket too few or one node too many.
    for (more, line) in [
        ("", "book: F16 alert 1\n"),
        (", p0)", "book: F18 alert 1\n"),
    ] {
        let names = ", p0                          ".repeat(alloc, 62)?;
        let end = format!(in alloc; "any(p0{names}{more}")?;
        let book = with_condition(alloc, 2048, end.as_str())?;
        checks(&rt, alloc, book.as_bytes(), (Status::BookRefused, "", line))?;
    }
    Ok(())
}
