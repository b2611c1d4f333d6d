// How many calls of its sink a replay makes: blocks are gathered, and leave together before each read of 4096 bytes, where
// 64 KiB wouldn't hold one more, and at the record's end.
use crate::books::{ADVISORY, TWO};
use crate::each_failure::{holds, replay};
use crate::outside::{Outside, sound};
use replay_core::Status;
use std::alloc::{AllocError, Global};
use std::process::Abort;
use std::test::Fail;

// The first of the two calls is the last that a replay makes, so it writes all where the second fails.
fn writes(
    rt: &impl Abort,
    alloc: Global,
    files: (&str, &str),
    calls: (u32, u32),
    count: usize,
) -> Result<(), Fail> {
    for (failing, status) in [(calls.0, Status::WriteFault), (calls.1, Status::Done)] {
        let outside = Outside {
            writes_failing: &[failing],
            write_piece: 400_000,
            room: 400_000,
            ..sound()
        };
        let ending = replay(alloc, files.0, files.1, outside)?;
        holds(rt, ending.status == status, "status", failing);
        let is_whole = ending.written.len() == count;
        holds(rt, is_whole || status != Status::Done, "written", failing);
    }
    Ok(())
}

// The lines so many times, and the line that ends the record.
fn record_of(alloc: Global, lines: &str, times: usize) -> Result<String, AllocError> {
    let mut record_text = lines.repeat(alloc, times)?;
    record_text.push_str("E\n")?;
    Ok(record_text)
}

// A page of 17 rows, each of 36 letters.
fn page(alloc: Global, number: &str, letter: &str) -> Result<String, Fail> {
    let letters = letter.repeat(alloc, 36)?;
    let row = format!(in alloc; "{{ text = \"{letters}\" }}, ")?;
    let rows = row.repeat(alloc, 17)?;
    let page = format!(in alloc;
        "[[page]]\nname = \"p{number}\"\ntitle = \"P{number}\"\nrow = [{rows}]\n"
    )?;
    Ok(page)
}

// Two pages, so that a block in which the one takes the place of the other has 740 bytes beside the line of its number.
fn two_pages(alloc: Global) -> Result<String, Fail> {
    let one = page(alloc, "1", "A")?;
    let two = page(alloc, "2", "B")?;
    let book = format!(in alloc; "version = 1\n{one}{two}")?;
    Ok(book)
}

#[test]
fn blocks_leave_in_few_calls(rt: HostRuntime) -> Result<(), Fail> {
    let alloc = rt.alloc();
    // One block, and the line at the end.
    let short = record_of(alloc, "W 0 0000041d\nT\n", 1)?;
    writes(&rt, alloc, (ADVISORY, short.as_str()), (2, 3), 32)?;
    // Nothing but the line at the end, of two pieces.
    let quiet = record_of(alloc, "T\n", 3000)?;
    writes(&rt, alloc, (ADVISORY, quiet.as_str()), (1, 2), 9)?;
    // A call for each of three pieces, in which there are 600 blocks.
    let turning = record_of(alloc, "W 0 0000041d\nT\nW 0 8000001d\nT\n", 300)?;
    writes(&rt, alloc, (TWO, turning.as_str()), (4, 5), 8298)?;
    // 510 blocks in one piece: five calls with 87 or 88 blocks each, as many as 65536 bytes hold, and one with the rest.
    let pages = two_pages(alloc)?;
    let full = record_of(alloc, "P PG1\nT\nP PG2\nT\n", 255)?;
    writes(&rt, alloc, (pages.as_str(), full.as_str()), (7, 8), 379848)
}
