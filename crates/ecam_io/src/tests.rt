use super::*;
use crate::os::read_counted;
use std::alloc::{AllocError, Global};
use std::fmt::Write as _;
use std::io::ErrorKind;
use std::test::Fail;
use std::{env, fs, io, process};

#[derive(Clone, Copy)]
enum Step {
    Open(&'static str, bool),
    Read(usize, Result<&'static str, Failed>),
}

fn file(alloc: Global, name: &str, bytes: &str) -> Result<MemoryFile, AllocError> {
    Ok(MemoryFile {
        name: String::from_str(alloc, name)?,
        bytes: bytes.as_bytes().to_vec(alloc)?,
    })
}

// Opens a file and reads it to its end, or until `into` is full.
fn read_file<F: Shelf>(files: &mut F, name: &str, into: &mut [u8]) -> Result<usize, Failed> {
    files.open(name)?;
    let mut at = 0;
    for _ in 0..into.len() {
        if at >= into.len() {
            break;
        }
        let n = files.read(&mut into[at..])?;
        if n == 0 {
            break;
        }
        at += n;
    }
    Ok(at)
}

#[test]
fn a_shelf_in_memory(rt: HostRuntime) -> Result<(), Fail> {
    let alloc = rt.alloc();
    let files = vec![in alloc;
        file(alloc, "book", "abcdefg")?,
        file(alloc, "record", "xyz")?,
        file(alloc, "book", "other")?,
    ]?;
    let mut shelf = MemoryShelf::new(files, vec![in alloc; 3, 7]?, 3);
    let steps = [
        Step::Open("book", true),
        Step::Read(8, Ok("abc")),
        Step::Read(8, Err(Failed)),
        Step::Read(2, Ok("de")),
        Step::Read(8, Ok("fg")),
        Step::Read(8, Ok("")),
        Step::Open("record", false),
        Step::Read(8, Ok("")),
        Step::Open("record", true),
        Step::Read(1, Ok("x")),
        Step::Open("none", false),
        Step::Read(8, Ok("")),
        Step::Open("record", true),
        Step::Read(3, Ok("xyz")),
    ];
    for (i, step) in steps.iter().enumerate() {
        match step {
            Step::Open(name, there) => {
                assert_eq!(rt; shelf.open(*name).is_ok(), *there, "step {i}");
            }
            Step::Read(room, want) => {
                let mut buffer = [0u8; 8];
                assert!(rt; 0 < *room && *room <= 8);
                let got = shelf.read(&mut buffer[..*room]).map(|n| &buffer[..n]);
                assert_eq!(rt; got, want.map(|text| text.as_bytes()), "step {i}");
            }
        }
    }
    Ok(())
}

#[test]
fn a_sink_in_memory(rt: HostRuntime) -> Result<(), Fail> {
    let alloc = rt.alloc();
    let mut sink = MemorySink::new(alloc, vec![in alloc; 2]?, 3, 7)?;
    let writes = [
        ("abcd", Ok(3)),
        ("d", Err(Failed)),
        ("d", Ok(1)),
        ("efgh", Ok(3)),
        ("h", Err(Failed)),
    ];
    for (text, want) in writes {
        assert!(rt; !text.is_empty());
        assert_eq!(rt; sink.write(text.as_bytes()), want, "{text}");
    }
    assert_eq!(rt; sink.bytes(), b"abcdefg".as_slice());
    Ok(())
}

#[test]
fn all_is_put_in_pieces(rt: HostRuntime) -> Result<(), Fail> {
    let alloc = rt.alloc();
    let mut sink = MemorySink::new(alloc, vec![in alloc; 4]?, 2, 9)?;
    let puts = [
        ("abc", Ok(()), "abc"),
        ("", Ok(()), "abc"),
        ("defgh", Err(Failed), "abcde"),
        ("fgh", Ok(()), "abcdefgh"),
        ("ij", Err(Failed), "abcdefghi"),
    ];
    for (text, want, holds) in puts {
        assert_eq!(rt; put_all(&mut sink, text.as_bytes()), want, "{text}");
        assert_eq!(rt; sink.bytes(), holds.as_bytes(), "{text}");
    }
    Ok(())
}

#[test]
fn a_sink_that_drops_all(rt: HostRuntime) {
    let mut sink = Discard;
    for text in ["", "a", "@1\nL1 -\n"] {
        assert_eq!(rt; put_all(&mut sink, text.as_bytes()), Ok(()), "{text}");
    }
}

// What is written to a tally, one text after the other, and its four numbers after each.
const WRITTEN: &[(&str, (u64, u64, u64, bool))] = &[
    ("", (0, 0, 0, true)),
    ("@0\n", (3, 1, 1, true)),
    ("L1 A HYD G RSVR LO LVL\n", (26, 2, 1, true)),
    ("FL @ @\n", (33, 3, 1, true)),
    ("@", (34, 3, 2, false)),
    ("@7\n\n", (38, 5, 2, true)),
    ("\n@9\n@", (43, 7, 4, false)),
    ("END 10\n", (50, 8, 4, true)),
];

#[test]
fn a_sink_that_counts(rt: HostRuntime) {
    let mut tally = Tally::new();
    for (text, (bytes, lines, blocks, fresh)) in WRITTEN {
        assert_eq!(rt; put_all(&mut tally, text.as_bytes()), Ok(()), "{text}");
        let want = Tally {
            bytes: *bytes,
            lines: *lines,
            blocks: *blocks,
            fresh: *fresh,
        };
        assert_eq!(rt; tally, want, "{text}");
    }
}

#[test]
fn counts_that_end(rt: HostRuntime) {
    let mut tally = Tally {
        bytes: u64::MAX - 2,
        lines: u64::MAX - 1,
        blocks: u64::MAX,
        fresh: true,
    };
    assert_eq!(rt; put_all(&mut tally, b"@1\n\n"), Ok(()));
    let want = Tally {
        bytes: u64::MAX,
        lines: u64::MAX,
        blocks: u64::MAX,
        fresh: true,
    };
    assert_eq!(rt; tally, want);
}

#[test]
fn the_system(rt: HostRuntime) -> Result<(), Fail> {
    let mut path = env::temp_dir(&rt)?.into_string();
    write!(path, "/ecam_io_test_{}", process::id(rt.process()))?;
    fs::write(&rt, path.as_str(), "T\nE\n")?;
    let mut files = OsShelf::new(rt);
    let mut buffer = [0u8; 8];
    let got = read_file(&mut files, path.as_str(), &mut buffer);
    fs::remove_file(&rt, path.as_str())?;
    assert_eq!(rt; got, Ok(4));
    assert_eq!(rt; &buffer[..4], b"T\nE\n".as_slice());
    assert_eq!(rt;
        read_file(&mut files, path.as_str(), &mut buffer),
        Err(Failed)
    );
    assert_eq!(rt;
        put_all(&mut OsOut::new(rt), b"to standard output\n"),
        Ok(())
    );
    assert_eq!(rt;
        put_all(&mut OsErr::new(rt), b"to standard error\n"),
        Ok(())
    );
    Ok(())
}

// A reader that a signal breaks off so often before it gives its bytes.
#[derive(Drop)]
struct Interrupted {
    times: u8,
}

impl io::Read for Interrupted {
    fn read(&mut self, into: &mut [u8]) -> io::Result<usize> {
        if self.times > 0 {
            self.times -= 1;
            return Err(io::Error::from(ErrorKind::Interrupted));
        }
        Ok(into.len().min(3))
    }
}

#[test]
fn a_call_that_a_signal_breaks_off(rt: HostRuntime) {
    for (times, answer, counted) in [(0, Ok(3), 7), (63, Ok(3), 7), (64, Err(Failed), 8)] {
        let mut faults = 7;
        let mut into = [0u8; 8];
        let got = read_counted(&mut Interrupted { times }, &mut faults, &mut into);
        assert_eq!(rt; (got, faults), (answer, counted), "{times}");
    }
}
