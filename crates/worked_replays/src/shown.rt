// What the commands that show a record write of it: callouts, the report of flights, and the computers' own words. A slash
// stands for the end of a line.
ghost use Rattle.std.specs.Prelude.{◌<◌};

use crate::books::*;
use crate::outside::{Outside, does, lines_of, sound, two_files};
use replay_core::Status;
use std::alloc::Global;
use std::process::Abort;
use std::test::Fail;

// The values 120, 95, 95, 110, 95, 130, 45 of a parameter, without the end of the record.
const DESCENT: &str =
    "W 1 e0780003/T/W 1 e05f0003/T/T/W 1 606e0003/T/W 1 e05f0003/T/W 1 e0820003/T/W 1 e02d0003/T/";

// The record of the descent has no end: the text stands without the closing.
const NO_END: (Status, &str, &str) = (
    Status::RecordRefused,
    "@1 CALL 100/@6 CALL 50/",
    "record: NoEnd line 14\n",
);

// A book, the words, a record, and what is written.
const SHOWN: &[(&str, &str, &str, &str)] = &[
    (
        HYDRAULICS,
        " callouts book record g_press",
        "W 1 e0780003/T/W 1 e05f0003/T/T/W 1 606e0003/T/W 1 e05f0003/T/W 1 e0820003/T/W 1 e02d0003/T/E/",
        "@1 CALL 100/@6 CALL 50/END 7/",
    ),
    (
        HYDRAULICS,
        " callouts book record g_press",
        "W 1 e0780003/T/F 1/W 1 e05f0003/T/E/",
        "@1 CALL 100/END 2/",
    ),
    (
        HYDRAULICS,
        " callouts book record g_press",
        "W 1 e0780003/T/F 1/F 2/T/U 1/W 1 e05f0003/T/E/",
        "END 3/",
    ),
    (HYDRAULICS, " callouts book record g_press", "E/", "END 0/"),
    (
        INHIBITED,
        " report book record",
        "W 0 00000417/T/W 0 80000c17/T/W 0 00001c17/T/W 0 80003c17/W 0 0000041d/T/W 0 00007017/T/W 0 8000a017/T/E/",
        "FLIGHT 0 FROM 0 ONSETS 1/@5 PHASE 6 g_rsvr/END 6/",
    ),
    (
        INHIBITED,
        " report book record",
        "W 0 00000417/T/W 0 80000c17/T/W 0 00000417/T/E/",
        "FLIGHT 0 FROM 0 ONSETS 0/FLIGHT 1 FROM 2 ONSETS 0/END 3/",
    ),
    (ADVISORY, " report book record", "E/", "END 0/"),
    (ADVISORY, " report book record", "F 1/F 2/T/E/", "END 1/"),
    (
        ADVISORY,
        " words book record",
        "W 0 0000041d/T/E/",
        "W 15 80008002/W 15 00000482/T/E/",
    ),
    (
        ADVISORY,
        " words book record",
        "F 1/F 2/T/E/",
        "W 15 a0000002/W 15 20000082/T/E/",
    ),
    (ADVISORY, " words book record", "E/", "E/"),
];

fn shows(
    rt: &impl Abort,
    alloc: Global,
    book: &str,
    words: &str,
    record_text: &str,
    outside: Outside<'_>,
    want: (Status, &str, &str),
) -> Result<(), Fail>
    requires read { 0 < outside.read_piece }
    requires write { 0 < outside.write_piece }
{
    let record_text = lines_of(alloc, record_text)?;
    let output = lines_of(alloc, want.1)?;
    let files = two_files(alloc, book, record_text.as_str())?;
    does(
        rt,
        alloc,
        words,
        files,
        outside,
        (want.0, output.as_str(), want.2),
    )
}

#[test]
fn records_are_shown(rt: HostRuntime) -> Result<(), Fail> {
    let alloc = rt.alloc();
    for (book, words, record_text, output) in SHOWN {
        let want = (Status::Done, *output, "");
        shows(&rt, alloc, book, words, record_text, sound(), want)?;
    }
    Ok(())
}

// A parameter that isn't there, and a discrete, whether or not the record is there.
#[test]
fn a_name_without_numbers_is_refused(rt: HostRuntime) -> Result<(), Fail> {
    let alloc = rt.alloc();
    let want = (Status::NoSuch, "", "no such number\n");
    for words in [
        " callouts book record g_lo",
        " callouts book record g_pres",
        " callouts book missing g_lo",
    ] {
        shows(&rt, alloc, HYDRAULICS, words, "A/", sound(), want)?;
    }
    Ok(())
}

// What is shown of the part before a fault is written, also in small pieces, and a prefix where writing fails.
#[test]
fn a_record_is_shown_in_part(rt: HostRuntime) -> Result<(), Fail> {
    let alloc = rt.alloc();
    let words = " callouts book record g_press";
    shows(&rt, alloc, HYDRAULICS, words, DESCENT, sound(), NO_END)?;
    let in_pieces = Outside {
        read_piece: 3,
        write_piece: 5,
        ..sound()
    };
    shows(&rt, alloc, HYDRAULICS, words, DESCENT, in_pieces, NO_END)?;
    let want = (Status::RecordRefused, "", "record: Form line 1\n");
    shows(
        &rt,
        alloc,
        ADVISORY,
        " report book record",
        "A/",
        sound(),
        want,
    )?;
    shows(
        &rt,
        alloc,
        ADVISORY,
        " words book record",
        "A/",
        sound(),
        want,
    )
}
