// What comes of each failing call, one after another, of a record that ends at each byte, and of a book that is full.
ghost use Rattle.std.specs.Prelude.{◌<◌, ◌≤◌};

use crate::books::{ADVISORY, HYDRAULICS, LEVEL_FOUR};
use crate::items::put_items;
use crate::outside::{Ending, ONE_BLOCK, Outside, ending_of, sound, two_files};
use replay_core::Status;
use std::alloc::{AllocError, Global};
use std::process::Abort;
use std::test::Fail;

const RECORD: &str = "W 0 0000041d\nT\nE\n";

const WHOLE: &str = "@0\nL1 A HYD G RSVR LO LVL\nEND 1\n";

// A failure with its procedure and its secondary.
pub(crate) const FAILURE: &str =
    "W 1 6bb80003\nT\nW 0 0000041d\nT\nW 1 e0000003\nT\nW 0 80000c1d\nT\nP CLR\nT\nP STS\nT\nP RCL\nT\nE\n";

pub(crate) const FAILURE_SHOWN: &str =
    "@1\nL1 A HYD G RSVR LO LVL\nL2 C -G ENG 1 PUMP.....OFF\nFL W STS\nS01 W HYD\nS02 G GREEN PRESS                 3000 PSI\nMC A MASTER CAUT\nAU W SC\n@2\nR1 A *HYD\nS02 G GREEN PRESS                    0 PSI\n@3\nL2 -\n@4\nL1 -\nS01 -\nS02 -\nMC -\nAU -\n@5\nS01 A GREEN HYD\n@6\nL1 A HYD G RSVR LO LVL\nMC A MASTER CAUT\nEND 7\n";

// How `replay` ends, what it writes, and what it tells.
pub(crate) fn replay(
    alloc: Global,
    book: &str,
    record_text: &str,
    outside: Outside<'_>,
) -> Result<Ending, AllocError>
    requires read { 0 < outside.read_piece }
    requires write { 0 < outside.write_piece }
{
    let files = two_files(alloc, book, record_text)?;
    ending_of(alloc, " replay book record", files, outside)
}

// Asserts that it is so in the case of this number.
pub(crate) fn holds(rt: &impl Abort, is_so: bool, what: &str, number: u32) {
    assert!(rt; is_so, "{what} in case {number}");
}

// Asserts that a replay ends so, writes this, and tells this.
fn ends_so(rt: &impl Abort, ending: &Ending, number: u32, want: (Status, &[u8], &str)) {
    let (status, written, told) = want;
    holds(rt, ending.status == status, "status", number);
    holds(rt, ending.written.as_slice() == written, "written", number);
    holds(
        rt,
        ending.told.as_slice() == told.as_bytes(),
        "told",
        number,
    );
}

// What comes of a replay whose write of this number fails. The 32 bytes are written one by one.
fn stops_at_write(rt: &impl Abort, ending: &Ending, n: u32)
    requires { 1 ≤ n }
{
    let whole = WHOLE.as_bytes();
    let want = match whole.get(..n as usize - 1) {
        Some(written) if n < 33 => (Status::WriteFault, written, "write fault\n"),
        _ => (Status::Done, whole, ""),
    };
    ends_so(rt, ending, n, want);
}

#[test]
fn each_write_fails(rt: HostRuntime) -> Result<(), Fail> {
    for n in 1..=33_u32 {
        let outside = Outside {
            writes_failing: &[n],
            write_piece: 1,
            ..sound()
        };
        let ending = replay(rt.alloc(), ADVISORY, RECORD, outside)?;
        stops_at_write(&rt, &ending, n);
    }
    let outside = Outside {
        tells_failing: &[1],
        ..sound()
    };
    let ending = replay(rt.alloc(), LEVEL_FOUR, "E\n", outside)?;
    assert_eq!(rt; ending.status, Status::BookRefused);
    assert_eq!(rt; ending.told.len(), 0);
    Ok(())
}

// What comes of a replay whose opening or reading call of this number fails. In pieces of 7 bytes the book takes the calls 1
// to 116, and the record the calls 117 to 131.
fn stops_at_call(rt: &impl Abort, ending: &Ending, n: u32) {
    let whole = FAILURE_SHOWN.as_bytes();
    let (status, told) = if n < 132 {
        (Status::ReadFault, "read fault\n")
    } else {
        (Status::Done, "")
    };
    holds(rt, ending.status == status, "status", n);
    holds(rt, ending.told.as_slice() == told.as_bytes(), "told", n);
    holds(rt, whole.starts_with(&ending.written), "written", n);
    holds(rt, n > 117 || ending.written.is_empty(), "early", n);
    holds(
        rt,
        (ending.written.len() == whole.len()) == (n == 132),
        "whole",
        n,
    );
}

#[test]
fn each_open_and_each_read_fails(rt: HostRuntime) -> Result<(), Fail> {
    for n in 1..=132_u32 {
        let outside = Outside {
            reads_failing: &[n],
            read_piece: 7,
            ..sound()
        };
        let ending = replay(rt.alloc(), HYDRAULICS, FAILURE, outside)?;
        stops_at_call(&rt, &ending, n);
    }
    Ok(())
}

// An alert, in which a number sign stands for its number.
const ALERT: &str =
    "[[alert]]\nname = \"n#\"\ntitle = \"ALERT #\"\nsystem = \"HYD\"\nlevel = 1\nwhen = \"g_lo\"\n";

// So many alerts of one discrete, by one parameter.
fn alerts(alloc: Global, count: u16) -> Result<String, Fail> {
    let mut book = String::from_str(
        alloc,
        "version = 1\nsystems = [\"HYD\"]\n[[param]]\nname = \"g_lo\"\nkind = \"disc\"\nstale = 600\nsource = [{ bus = 0, label = \"270\", bit = 11 }]\n",
    )?;
    put_items(alloc, &mut book, 1..count.saturating_add(1), ALERT)?;
    Ok(book)
}

// What comes of so many bytes of the record.
fn cut_ending(count: u32) -> (Status, &'static [u8], &'static str) {
    let refused = Status::RecordRefused;
    match count {
        0 => (refused, b"", "record: NoEnd line 1\n"),
        1..=12 => (refused, b"", "record: Cut line 1\n"),
        13 => (refused, b"", "record: NoEnd line 2\n"),
        14 => (refused, b"", "record: Cut line 2\n"),
        15 => (refused, ONE_BLOCK.as_bytes(), "record: NoEnd line 3\n"),
        16 => (refused, ONE_BLOCK.as_bytes(), "record: Cut line 3\n"),
        _ => (Status::Done, WHOLE.as_bytes(), ""),
    }
}

fn a_full_book(rt: &impl Abort, alloc: Global) -> Result<(), Fail> {
    let book = alerts(alloc, 1024)?;
    let ending = replay(alloc, book.as_str(), RECORD, sound())?;
    assert_eq!(rt; ending.status, Status::Done);
    let shown =
        b"@0\nL1 A ALERT 1\nL2 A ALERT 2\nL3 A ALERT 3\nL4 A ALERT 4\nL5 A ALERT 5\nL6 A ALERT 6\nL7 A ALERT 7\nFL W v OVF 1017\nEND 1\n";
    assert_eq!(rt; ending.written.as_slice(), shown.as_slice());
    Ok(())
}

#[test]
fn a_cut_record_and_a_full_book(rt: HostRuntime) -> Result<(), Fail> {
    for count in 0..=17_u32 {
        let record_text = RECORD.get(..count as usize).unwrap_or("");
        let ending = replay(rt.alloc(), ADVISORY, record_text, sound())?;
        ends_so(&rt, &ending, count, cut_ending(count));
    }
    a_full_book(&rt, rt.alloc())
}
