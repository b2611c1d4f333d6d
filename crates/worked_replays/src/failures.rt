// What comes of failing reads and writes, of missing files, and of words without a form.
ghost use Rattle.std.specs.Prelude.{◌<◌};

use crate::books::ADVISORY;
use crate::outside::{ONE_BLOCK, Outside, does, sound, two_files};
use replay_core::Status;
use std::test::Fail;

const RECORD: &str = "W 0 0000041d\nT\nE\n";

const UNREAD: (Status, &str, &str) = (Status::ReadFault, "", "read fault\n");

// The third write fails, of one byte each.
fn third_write_fails<'a>() -> Outside<'a>
    ensures read { 0 < result.read_piece }
    ensures write { 0 < result.write_piece }
{
    Outside {
        writes_failing: &[3],
        write_piece: 1,
        ..sound()
    }
}

// Nothing fails, and a read gives so many bytes.
pub(crate) fn in_pieces<'a>(piece: usize) -> Outside<'a>
    requires { 0 < piece }
    ensures read { 0 < result.read_piece }
    ensures write { 0 < result.write_piece }
{
    a_read_fails(&[], piece)
}

// The call of this number fails, where a read gives so many bytes.
fn a_read_fails<'a>(failing: &'a [u32], piece: usize) -> Outside<'a>
    requires { 0 < piece }
    ensures read { 0 < result.read_piece }
    ensures write { 0 < result.write_piece }
{
    Outside {
        reads_failing: failing,
        read_piece: piece,
        ..sound()
    }
}

#[test]
fn a_write_fails(rt: HostRuntime) -> Result<(), Fail> {
    for (words, written) in [
        (" replay book record", "@0"),
        (" why book record", "g_"),
        (" drill book 1 1", "mo"),
        (" check book", "OK"),
        (" migrate book", "sy"),
    ] {
        let files = two_files(rt.alloc(), ADVISORY, RECORD)?;
        does(
            &rt,
            rt.alloc(),
            words,
            files,
            third_write_fails(),
            (Status::WriteFault, written, "write fault\n"),
        )?;
    }
    Ok(())
}

// The book takes the calls 1 to 16, of 16 bytes each; the record is opened by call 17, and its first block stands in
// what call 18 reads.
#[test]
fn a_read_fails_in_mid_record(rt: HostRuntime) -> Result<(), Fail> {
    for (failing, written) in [(17, ""), (18, ""), (19, ONE_BLOCK)] {
        let files = two_files(rt.alloc(), ADVISORY, RECORD)?;
        does(
            &rt,
            rt.alloc(),
            " replay book record",
            files,
            a_read_fails(&[failing], 16),
            (Status::ReadFault, written, "read fault\n"),
        )?;
    }
    Ok(())
}

#[test]
fn a_file_is_not_read(rt: HostRuntime) -> Result<(), Fail> {
    for words in [
        " replay book record",
        " why book record",
        " drill book 1 1",
        " check book",
        " migrate book",
        " advise book record limits",
    ] {
        let files = two_files(rt.alloc(), ADVISORY, RECORD)?;
        does(
            &rt,
            rt.alloc(),
            words,
            files,
            a_read_fails(&[1], 4096),
            UNREAD,
        )?;
    }
    for words in [
        " replay other record",
        " replay book other",
        " why other record",
        " why book other",
        " drill other 1 1",
        " check other",
        " migrate other",
        " advise other record limits",
        " advise book record other",
    ] {
        let files = two_files(rt.alloc(), ADVISORY, RECORD)?;
        does(&rt, rt.alloc(), words, files, sound(), UNREAD)?;
    }
    Ok(())
}

// Words that are no command's.
const FORMLESS: &[&str] = &[
    "",
    " replay",
    " replay book",
    " check",
    " check book record",
    " Check book",
    " play book record",
    " replay book record --limit",
    " replay book record --limit ",
    " replay book record --limit 4294967296",
    " replay book record --limit 1x",
    " replay book record --most 17",
    " replay book record --limit 17 more",
    " why book",
    " why book record more",
    " why book record --limit 17",
    " drill book 1",
    " drill book 1 1 1",
    " drill book 18446744073709551616 1",
    " drill book 000000000000000000001 1",
    " drill book 1 1000001",
    " drill book 1 00000001",
    " drill book +1 1",
    " drill book 1 -1",
    " migrate",
    " migrate book book",
    " advise book record",
    " advise book record limits limits",
];

#[test]
fn words_without_a_form(rt: HostRuntime) -> Result<(), Fail> {
    let usage =
        "usage: check BOOK | replay BOOK RECORD [--limit N] | why BOOK RECORD | drill BOOK SEED MOMENTS | migrate BOOK | callouts BOOK RECORD NAME | advise BOOK RECORD LIMITS | report BOOK RECORD | words BOOK RECORD\n";
    for words in FORMLESS {
        let files = two_files(rt.alloc(), ADVISORY, "E\n")?;
        does(
            &rt,
            rt.alloc(),
            words,
            files,
            sound(),
            (Status::Usage, "", usage),
        )?;
    }
    Ok(())
}
