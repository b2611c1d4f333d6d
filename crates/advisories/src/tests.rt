// Files with a fault, and values that drift. What is expected was read off the rules by hand.
ghost use Rattle.book_model.specs.Sealed.{the_book};
ghost use Rattle.fwc_lane.specs.LaneFits.{LaneFits};

use super::*;
use crate::drift::Drift;
use crate::panel::{Panel, block, counted_name, name_text};
use bitflags::Flags;
use book_checker::seal;
use book_model::{Book, LoadError, Name};
use book_reader::read_book;
use ecam_kinds::{Event, PhaseSet};
use fwc_pair::Lane;
use std::alloc::{AllocError, Global};
use std::process::Abort;
use std::test::*;

const BOOK: &str = r#"
version = 1
systems = ["HYD"]
[[page]]
name = "hyd"
title = "HYD"
[[param]]
name = "g_lo"
kind = "disc"
stale = 600
source = [{ bus = 0, label = "270", bit = 11 }]
[[param]]
name = "g_press"
kind = "bnr"
stale = 10
source = [{ bus = 1, label = "300", low = 17, range = 4096 }]
"#;

const GOOD: &str =
    r#"{ name = "one", param = "g_press", page = "hyd", low = 1450, high = 3200, margin = 875, confirm = 1 }"#;

/// What stands after a good advisory, with the fault of the file.
const AFTER_A_GOOD_ONE: &[(&str, u8, u32)] = &[
    (
        r#"{ name = "two", param = "g_press", page = "hyd", low = 1, high = 9, margin = 0, confirm = 0, unit = "PSI" }"#,
        4,
        2,
    ),
    (
        r#"{ name = "two", param = "g_press", page = "hyd", low = 1, high = 9, margin = 0 }"#,
        5,
        2,
    ),
    (
        r#"{ name = "two", param = "g_press", page = "hyd", low = "1", high = 9, margin = 0, confirm = 0 }"#,
        6,
        2,
    ),
    (
        r#"{ name = "two", param = "g_press", page = "hyd", low = 1.0, high = 9, margin = 0, confirm = 0 }"#,
        6,
        2,
    ),
    (
        r#"{ name = "two", param = "g_press", page = "hyd", low = 1, high = 9, margin = 0, confirm = 0, inhibit = 5 }"#,
        6,
        2,
    ),
    (r#"5"#, 6, 2),
    (
        r#"{ name = "Two", param = "g_press", page = "hyd", low = 1, high = 9, margin = 0, confirm = 0 }"#,
        7,
        2,
    ),
    (
        r#"{ name = "two", param = "g_press", page = "hyd", low = -1000001, high = 9, margin = 0, confirm = 0 }"#,
        8,
        2,
    ),
    (
        r#"{ name = "two", param = "g_press", page = "hyd", low = 1, high = 9, margin = -1, confirm = 0 }"#,
        8,
        2,
    ),
    (
        r#"{ name = "two", param = "g_press", page = "hyd", low = 1, high = 9, margin = 0, confirm = 36001 }"#,
        8,
        2,
    ),
    (
        r#"{ name = "two", param = "g_press", page = "hyd", low = 1, high = 9, margin = 0, confirm = 0, inhibit = [11] }"#,
        8,
        2,
    ),
    (
        r#"{ name = "two", param = "g_press", page = "hyd", low = 1, high = 9, margin = 0, confirm = 0, inhibit = [1, 1, 1, 1, 1, 1, 1, 1, 1, 1, 1] }"#,
        9,
        2,
    ),
    (
        r#"{ name = "two", param = "g_press", page = "hyd", low = 1, high = 9, margin = 0, confirm = 0 }, { name = "two", param = "g_press", page = "hyd", low = 1, high = 9, margin = 0, confirm = 0 }"#,
        10,
        2,
    ),
    (
        r#"{ name = "two", param = "g_lo", page = "hyd", low = 1, high = 9, margin = 0, confirm = 0 }"#,
        11,
        2,
    ),
    (
        r#"{ name = "two", param = "b_press", page = "hyd", low = 1, high = 9, margin = 0, confirm = 0 }"#,
        11,
        2,
    ),
    (
        r#"{ name = "two", param = "g_press", page = "elec", low = 1, high = 9, margin = 0, confirm = 0 }"#,
        12,
        2,
    ),
    (
        r#"{ name = "two", param = "g_press", page = "hyd", low = 1, high = 9, margin = 5, confirm = 0 }"#,
        13,
        2,
    ),
    // of two faults that of the lesser code, at a later advisory too
    (
        r#"{ name = "two", param = "g_press", page = "hyd", low = 1, high = 9, margin = 5, confirm = 0 }, { name = "three", param = "g_lo", page = "hyd", low = 1, high = 9, margin = 0, confirm = 0 }"#,
        11,
        3,
    ),
    (
        r#"{ name = "two", param = "g_press", page = "hyd", low = 1, high = 9, margin = 0 }, { name = "three", param = "g_press", page = "hyd", low = 1, high = 9, margin = 0, confirm = 0, unit = "" }"#,
        4,
        3,
    ),
    (
        r#"{ name = "Two", param = "g_press", page = "hyd", low = 1, high = 9, margin = 0, confirm = 0 }, 5"#,
        6,
        3,
    ),
    // of two with one code that of the earlier advisory
    (
        r#"{ name = "two", param = "g_press", page = "elec", low = 1, high = 9, margin = 0, confirm = 0 }, { name = "three", param = "g_press", page = "elec", low = 1, high = 9, margin = 0, confirm = 0 }"#,
        12,
        2,
    ),
    // the name of the first stands at another one too
    (
        r#"{ name = "one", param = "g_press", page = "elec", low = 1, high = 9, margin = 0, confirm = 0 }"#,
        10,
        1,
    ),
];

/// Whole files, with their fault.
const FILES: &[(&str, u8, u32)] = &[
    ("version =", 2, 0),
    ("advisory = []", 3, 0),
    ("version = 2", 3, 0),
    ("version = 1.0", 3, 0),
    ("version = 1\nadvisory = [5]\npage = 5", 4, 0),
    ("version = 1", 5, 0),
    ("version = 1\nadvisory = 5", 6, 0),
    ("version = 1\nadvisory = []", 9, 0),
];

fn book_of(alloc: Global) -> Result<Book, AllocError> {
    let draft = match read_book(alloc, BOOK.as_bytes()) {
        Ok(draft) => draft,
        Err(LoadError::Memory) => return Err(AllocError),
        Err(LoadError::Fault(_)) => return Err(AllocError),
    };
    match seal(alloc, draft) {
        Ok(book) => Ok(book),
        Err(LoadError::Memory) => Err(AllocError),
        Err(LoadError::Fault(_)) => Err(AllocError),
    }
}

fn told(read: Result<Limits, LimitsError>) -> Option<LimitsFault> {
    match read {
        Err(LimitsError::Fault(fault)) => Some(fault),
        _ => None,
    }
}

fn have_these_faults(rt: &impl Abort, alloc: Global, book: &Book) -> Result<(), Fail> {
    for (i, (tail, code, item)) in AFTER_A_GOOD_ONE.iter().enumerate() {
        let text = format!(in alloc; "version = 1\nadvisory = [{GOOD}, {tail}]")?;
        let fault = told(read_limits(alloc, text.as_bytes(), book));
        assert_eq!(rt;
            fault,
            Some(LimitsFault {
                code: *code,
                item: *item
            }),
            "after {i}"
        );
    }
    for (i, (text, code, item)) in FILES.iter().enumerate() {
        let fault = told(read_limits(alloc, text.as_bytes(), book));
        assert_eq!(rt;
            fault,
            Some(LimitsFault {
                code: *code,
                item: *item
            }),
            "file {i}"
        );
    }
    Ok(())
}

#[test]
fn files_have_their_faults(rt: HostRuntime) -> Result<(), Fail> {
    let book = book_of(rt.alloc())?;
    have_these_faults(&rt, rt.alloc(), &book)?;
    let long = vec![in rt.alloc(); b'\n'; LONGEST + 1]?;
    let fault = told(read_limits(rt.alloc(), &long, &book));
    assert_eq!(rt; fault, Some(LimitsFault { code: 1, item: 0 }));
    let fault = told(read_limits(rt.alloc(), &long[..LONGEST], &book));
    assert_eq!(rt; fault, Some(LimitsFault { code: 3, item: 0 }));
    let text = format!(in rt.alloc(); "version = 1\nadvisory = [{GOOD}]")?;
    assert!(rt; read_limits(rt.alloc(), text.as_bytes(), &book).is_ok());
    Ok(())
}

fn pressure(margin: i64, confirm: u32) -> Advisory {
    Advisory {
        name: Name::new(),
        param: 0,
        page: 0,
        low: 1450,
        high: 3200,
        margin,
        confirm,
        inhibit: PhaseSet::empty(),
    }
}

#[test]
fn values_drift(rt: HostRuntime) {
    // The margin and the moments to confirm, and per moment the value, and whether it drifts then.
    let runs: &[(i64, u32, &[(Option<i64>, bool)])] = &[
        // inside its range, but not by the margin, it isn't back
        (
            100,
            1,
            &[
                (Some(3300), false),
                (Some(3300), true),
                (Some(3150), true),
                (Some(3000), false),
            ],
        ),
        (100, 1, &[(Some(0), false), (Some(0), true)]),
        // a moment without a value breaks the run, and ends what drifts
        (
            100,
            1,
            &[
                (Some(0), false),
                (None, false),
                (Some(0), false),
                (Some(0), true),
                (None, false),
            ],
        ),
        // without moments to confirm it drifts at once, and the ends of the range are inside
        (
            0,
            0,
            &[
                (Some(1450), false),
                (Some(1449), true),
                (Some(1450), false),
                (Some(3201), true),
                (Some(3200), false),
            ],
        ),
        // a long run stays one
        (
            0,
            2,
            &[
                (Some(0), false),
                (Some(0), false),
                (Some(0), true),
                (Some(0), true),
                (Some(0), true),
            ],
        ),
    ];
    for (i, (margin, confirm, moments)) in runs.iter().enumerate() {
        let advisory = pressure(*margin, *confirm);
        let mut drift = Drift::new();
        for (k, (value, drifts)) in moments.iter().enumerate() {
            drift = drift.next(&advisory, *value);
            assert_eq!(rt; drift.drifts, *drifts, "run {i}, moment {k}");
        }
    }
}

// The value of the discrete in the last whole moment.
fn discrete_of(lane: &Lane, book: &Book) -> Option<i64>
    requires { LaneFits (the_book book.now) lane.now }
{
    if book.params().is_empty() {
        return None;
    }
    lane.value(book, 0)
}

#[test]
fn values_are_told_that_nothing_asks_for(rt: HostRuntime) -> Result<(), Fail> {
    // The book has no condition and no page that asks for a value.
    let book = book_of(rt.alloc())?;
    let set = Event::Word {
        bus: 0,
        bits: 0x41d,
    };
    let unset = Event::Word {
        bus: 0,
        bits: 0x8000_001d,
    };
    let mut lane = Lane::new(rt.alloc(), &book)?;
    // before the first moment there is none
    lane.event(&book, &set, true, false);
    assert_eq!(rt; discrete_of(&lane, &book), None);
    lane.event(&book, &Event::Tick, true, false);
    assert_eq!(rt; discrete_of(&lane, &book), Some(1));
    // words of the moment that hasn't ended change nothing
    lane.event(&book, &unset, true, false);
    lane.event(&book, &set, true, false);
    lane.event(&book, &unset, true, false);
    assert_eq!(rt; discrete_of(&lane, &book), Some(1));
    lane.event(&book, &Event::Tick, true, false);
    assert_eq!(rt; discrete_of(&lane, &book), Some(0));
    lane.event(&book, &Event::Tick, true, false);
    assert_eq!(rt; discrete_of(&lane, &book), Some(0));
    Ok(())
}

#[test]
fn changed_rows_are_written(rt: HostRuntime) {
    let blank = Panel::blank();
    let both = Panel {
        advisory: counted_name(b"hyd_press", 1),
        page: name_text(b"hyd"),
    };
    assert_eq!(rt;
        block(1, &blank, &both).as_slice(),
        b"@1\nAD hyd_press 1\nPG hyd\n".as_slice()
    );
    assert_eq!(rt;
        block(3, &both, &blank).as_slice(),
        b"@3\nAD -\nPG -\n".as_slice()
    );
    assert!(rt; block(4, &both, &both).as_slice().is_empty());
}
