use super::*;
use crate::test_books::{FAULTS, Faulty, ITEMS, TOP};
use crate::test_named::{NAMED, SECOND, USED};
use crate::test_order::ORDER;
use book_model::{BookFault, Draft, LoadError, Section};
use std::alloc::Global;
use std::process::Abort;
use std::test::*;

fn told(read: Result<Draft, LoadError>) -> Option<BookFault> {
    match read {
        Err(LoadError::Fault(fault)) => Some(fault),
        _ => None,
    }
}

fn have_these_faults(rt: &impl Abort, alloc: Global, books: &[Faulty]) -> Result<(), Fail> {
    for (i, (top, tail, code, section, item)) in books.iter().enumerate() {
        let text = format!(in alloc; "{top}{ITEMS}{tail}")?;
        let fault = BookFault {
            code: *code,
            section: *section,
            item: *item,
        };
        assert_eq!(rt;
            told(read_book(alloc, text.as_bytes())),
            Some(fault),
            "book {i}"
        );
    }
    Ok(())
}

#[test]
fn books_with_a_fault(rt: HostRuntime) -> Result<(), Fail> {
    have_these_faults(&rt, rt.alloc(), FAULTS)?;
    have_these_faults(&rt, rt.alloc(), NAMED)
}

#[test]
fn books_with_several_faults(rt: HostRuntime) -> Result<(), Fail> {
    have_these_faults(&rt, rt.alloc(), ORDER)
}

fn loaded(read: Result<Draft, LoadError>) -> Option<Draft> {
    match read {
        Ok(draft) => Some(draft),
        Err(_) => None,
    }
}

#[test]
fn books_without_a_fault(rt: HostRuntime) -> Result<(), Fail> {
    let text = format!(in rt.alloc(); "{TOP}{ITEMS}")?;
    let draft = loaded(read_book(rt.alloc(), text.as_bytes())).ok_or("no draft")?;
    assert_eq!(rt; draft.systems.len(), 2);
    assert_eq!(rt; draft.pages.len(), 1);
    assert_eq!(rt; draft.params.len(), 2);
    assert_eq!(rt; draft.alerts.len(), 1);
    assert_eq!(rt; draft.memos.len(), 1);
    assert!(rt; loaded(read_book(rt.alloc(), b"version = 1")).is_some());
    Ok(())
}

#[test]
fn bytes_that_are_no_document(rt: HostRuntime) -> Result<(), Fail> {
    let none = BookFault {
        code: 3,
        section: Section::Top,
        item: 0,
    };
    assert_eq!(rt; told(read_book(rt.alloc(), b"")), Some(none));
    let no_text = BookFault { code: 2, ..none };
    assert_eq!(rt;
        told(read_book(rt.alloc(), b"version = 1 # \xff")),
        Some(no_text)
    );
    let long = vec![in rt.alloc(); b'#'; LONGEST + 1]?;
    let too_long = BookFault { code: 1, ..none };
    assert_eq!(rt;
        told(read_book(rt.alloc(), long.as_slice())),
        Some(too_long)
    );
    Ok(())
}

#[test]
fn named_conditions_stand_where_they_are_used(rt: HostRuntime) -> Result<(), Fail> {
    for (i, (tail, nodes)) in USED.iter().enumerate() {
        let text = format!(in rt.alloc(); "{SECOND}{ITEMS}{tail}")?;
        let draft = loaded(read_book(rt.alloc(), text.as_bytes())).ok_or("no draft")?;
        let last = draft.alerts.as_slice().last().ok_or("no alert")?;
        assert_eq!(rt; last.when.cond.size(), *nodes, "book {i}");
    }
    Ok(())
}

fn with_many(
    alloc: Global,
    version: u32,
    terms: usize,
    alerts: usize,
) -> Result<Option<BookFault>, Fail> {
    let mut text = format!(in alloc; "version = {version}\nsystems = [\"HYD\"]\n")?;
    for i in 0..terms {
        let item = format!(in alloc; "[[term]]\nname = \"t{i}\"\nwhen = \"true\"\n")?;
        text.push_str(item.as_str())?;
    }
    for i in 0..alerts {
        let item = format!(in alloc;
            "[[alert]]\nname = \"a{i}\"\ntitle = \"A\"\nsystem = \"HYD\"\nlevel = 1\nwhen = \"true\"\n"
        )?;
        text.push_str(item.as_str())?;
    }
    Ok(told(read_book(alloc, text.as_bytes())))
}

const MANY: &[(u32, usize, usize, Option<(u8, Section)>)] = &[
    (1, 0, 1024, None),
    (1, 0, 1025, Some((10, Section::Alert))),
    (2, 0, 1025, None),
    (2, 256, 2048, None),
    (2, 0, 2049, Some((10, Section::Alert))),
    (2, 257, 2049, Some((10, Section::Term))),
];

#[test]
fn lists_have_their_limits(rt: HostRuntime) -> Result<(), Fail> {
    for (version, terms, alerts, wanted) in MANY {
        let fault = with_many(rt.alloc(), *version, *terms, *alerts)?;
        let wanted = match wanted {
            Some((code, section)) => Some(BookFault {
                code: *code,
                section: *section,
                item: 0,
            }),
            None => None,
        };
        assert_eq!(rt; fault, wanted, "{terms} terms, {alerts} alerts");
    }
    Ok(())
}
