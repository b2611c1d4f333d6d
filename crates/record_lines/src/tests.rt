// That the definitions of a record say what its guide says.
ghost use Rattle.std.specs.Prelude.{◌<◌};

use super::*;
use ecam_io::{MemoryFile, MemoryShelf, Shelf};
use ecam_kinds::{Event, Key};
use std::alloc::{AllocError, Global};

// A shelf with one open file, which gives pieces of this size, and fails at the call of this number, from 1.
fn open_record(
    alloc: Global,
    text: &str,
    piece: usize,
    failing: u32,
) -> Result<MemoryShelf, AllocError>
    requires { 0 < piece }
{
    let mut files = Vec::new(alloc);
    files.push(MemoryFile {
        name: String::from_str(alloc, "record")?,
        bytes: text.as_bytes().to_vec(alloc)?,
    })?;
    let mut numbers = Vec::new(alloc);
    numbers.push(failing)?;
    let mut shelf = MemoryShelf::new(files, numbers, piece);
    let _ = shelf.open("record");
    Ok(shelf)
}

#[test]
fn answers(rt: HostRuntime) -> Result<(), AllocError> {
    let bad = |kind, line| Err(LineError::Record(RecordFault { kind, line }));
    let whole = "W 0 0000041d\nT\nE\n";
    for (text, limit, answer) in [
        ("", 99, bad(FaultKind::NoEnd, 1)),
        ("T", 99, bad(FaultKind::Cut, 1)),
        ("W 0 0000041d\nT\n", 99, bad(FaultKind::NoEnd, 3)),
        ("E\nT\n", 99, bad(FaultKind::AfterEnd, 2)),
        (
            "AAAAAAAAAAAAAAAAAAAAAAAAAAAAAAAAA",
            99,
            bad(FaultKind::Long, 1),
        ),
        (
            "AAAAAAAAAAAAAAAAAAAAAAAAAAAAAAAA\n",
            99,
            bad(FaultKind::Form, 1),
        ),
        ("T\nW 16 0000041d\n", 99, bad(FaultKind::Form, 2)),
        ("\n", 99, bad(FaultKind::Form, 1)),
        ("T\r\nE\n", 99, bad(FaultKind::Form, 1)),
        (whole, 17, Ok(Event::End)),
        (whole, 16, bad(FaultKind::Limit, 3)),
    ] {
        let mut shelf = open_record(rt.alloc(), text, 7, 0)?;
        let mut reader = LineReader::new(limit);
        let mut last = reader.next(&mut shelf);
        for _ in 0..2 {
            last = reader.next(&mut shelf);
        }
        assert_eq!(rt; last, answer, "{text}");
    }
    Ok(())
}

#[test]
fn forms(rt: HostRuntime) -> Result<(), AllocError> {
    let text = "W 15 0000041D\nR PG16\nP TOCFG\nF 2\nU 1\nE\n";
    let mut shelf = open_record(rt.alloc(), text, 4096, 0)?;
    let mut reader = LineReader::new(99);
    for event in [
        Event::Word {
            bus: 15,
            bits: 0x041d,
        },
        Event::Release(Key::Page(16)),
        Event::Press(Key::ToCfg),
        Event::Fail(2),
        Event::Up(1),
        Event::End,
    ] {
        // All lines come in one piece, and the end in another.
        let reads = matches!(event, Event::Word { .. } | Event::End);
        assert_eq!(rt; reader.reads_next(), reads);
        assert_eq!(rt; reader.next(&mut shelf), Ok(event));
    }
    assert!(rt; !reader.reads_next());
    Ok(())
}

#[test]
fn pieces(rt: HostRuntime) -> Result<(), AllocError> {
    let text =
        "W 1 6bb80003\nT\nW 0 0000041d\nT\nW 1 e0000003\nT\nW 0 80000c1d\nT\nP CLR\nT\nP STS\nT\nP RCL\nT\nE\n";
    let events = [
        Event::Word {
            bus: 1,
            bits: 0x6bb8_0003,
        },
        Event::Tick,
        Event::Word {
            bus: 0,
            bits: 0x041d,
        },
        Event::Tick,
        Event::Word {
            bus: 1,
            bits: 0xe000_0003,
        },
        Event::Tick,
        Event::Word {
            bus: 0,
            bits: 0x8000_0c1d,
        },
        Event::Tick,
        Event::Press(Key::Clr),
        Event::Tick,
        Event::Press(Key::Sts),
        Event::Tick,
        Event::Press(Key::Rcl),
        Event::Tick,
        Event::End,
        Event::End,
    ];
    for piece in [1, 2, 3, 31, 4096] {
        // The second read fails, and the reader goes on after it.
        let mut shelf = open_record(rt.alloc(), text, piece, 3)?;
        let mut reader = LineReader::new(99);
        let mut failures = 0u8;
        for event in events {
            let mut answer = reader.next(&mut shelf);
            if answer == Err(LineError::Failed) {
                failures = failures.saturating_add(1);
                answer = reader.next(&mut shelf);
            }
            assert_eq!(rt; answer, Ok(event), "in pieces of {piece}");
        }
        assert_eq!(rt; failures, 1);
    }
    Ok(())
}
