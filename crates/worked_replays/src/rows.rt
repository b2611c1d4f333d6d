// Worked rows: books, records, and what is written of them.
use crate::books::*;
use crate::each_failure::{FAILURE, FAILURE_SHOWN};
use crate::failures::in_pieces;
use crate::outside::{does, lines_of, sound, two_files};
use crate::records::{FAILURES, RECORDS, row_of};
use replay_core::Status;
use std::alloc::Global;
use std::process::Abort;
use std::test::Fail;

// What `why` writes.
const STANDINGS: &[(&str, &str, &str)] = &[
    (
        HYDRAULICS,
        "W 1 6bb80003\nT\nW 0 0000041d\nT\nW 1 e0000003\nT\nW 0 80000c1d\nT\nP CLR\nT\nP STS\nT\nP RCL\nT\nE\n",
        "g_rsvr titled 1\ng_press_lo starred g_rsvr\n",
    ),
    (
        INHIBITED,
        "W 0 00000417\nT\nW 0 80000c17\nT\nW 0 00001c17\nT\nW 0 80003c17\nW 0 0000041d\nT\nP RCL\nT\nP CLR\nT\nE\n",
        "g_rsvr waiting\n",
    ),
    (
        INHIBITED,
        "W 0 00000417\nT\nW 0 80000c17\nT\nW 0 00001c17\nT\nW 0 80003c17\nW 0 0000041d\nT\nP RCL\nT\nE\n",
        "g_rsvr titled 1\n",
    ),
    (ADVISORY, "E\n", "g_rsvr quiet\n"),
    (ADVISORY, "T\nF 1\nF 2\nT\nE\n", "g_rsvr dead\n"),
    (
        CAUTION,
        "W 0 0000041d\nT\nP EMER\nT\nE\n",
        "g_rsvr cancelled\n",
    ),
    (
        TWO,
        "W 0 80000c1d\nT\nP CLR\nT\nE\n",
        "ax cleared\nay titled 1\n",
    ),
    (
        NINE,
        "W 0 0000041d\nT\nE\n",
        "n1 titled 1\nn2 titled 2\nn3 titled 3\nn4 titled 4\nn5 titled 5\nn6 titled 6\nn7 titled 7\nn8 counted\nn9 counted\n",
    ),
];

// What `drill` writes by a book, a seed and a number of moments.
const DRILLS: &[(&str, &str, &str)] = &[
    (
        ADVISORY,
        " drill book 1 1",
        "moments 1 blocks 0 lines 1 bytes 6\n",
    ),
    (
        ADVISORY,
        " drill book 1 0",
        "moments 0 blocks 0 lines 1 bytes 6\n",
    ),
    (
        HYDRAULICS,
        " drill book 7 600",
        "moments 600 blocks 3 lines 8 bytes 162\n",
    ),
    (
        HYDRAULICS,
        " drill book 0 600",
        "moments 600 blocks 1 lines 4 bytes 66\n",
    ),
];

fn done(rt: &impl Abort, alloc: Global, words: &str, row: (&str, &str, &str)) -> Result<(), Fail> {
    let files = two_files(alloc, row.0, row.1)?;
    does(rt, alloc, words, files, sound(), (Status::Done, row.2, ""))
}

// What `replay` writes of worked records.
fn replays(rt: &impl Abort, alloc: Global, records: &str) -> Result<(), Fail> {
    for line in records.lines() {
        let worked = row_of(line).expect(rt, "a worked record");
        let record_text = lines_of(alloc, worked.record_text)?;
        let output = format!(in alloc; "{}{}", worked.shown, worked.end)?;
        let output = lines_of(alloc, output.as_str())?;
        let row = (worked.book, record_text.as_str(), output.as_str());
        done(rt, alloc, " replay book record", row)?;
    }
    Ok(())
}

#[test]
fn what_replay_writes(rt: HostRuntime) -> Result<(), Fail> {
    replays(&rt, rt.alloc(), RECORDS)?;
    replays(&rt, rt.alloc(), FAILURES)
}

#[test]
fn where_alerts_stand(rt: HostRuntime) -> Result<(), Fail> {
    for (book, record_text, standings) in STANDINGS {
        let row = (*book, *record_text, *standings);
        done(&rt, rt.alloc(), " why book record", row)?;
    }
    Ok(())
}

#[test]
fn what_drill_counts(rt: HostRuntime) -> Result<(), Fail> {
    for (book, words, line) in DRILLS {
        done(&rt, rt.alloc(), words, (*book, "", *line))?;
    }
    Ok(())
}

// Whatever pieces the book and the record come in.
#[test]
fn a_record_in_pieces(rt: HostRuntime) -> Result<(), Fail> {
    let alloc = rt.alloc();
    for piece in [1, 2, 3, 31, 4096] {
        assert!(rt; piece > 0);
        let files = two_files(alloc, HYDRAULICS, FAILURE)?;
        does(
            &rt,
            alloc,
            " replay book record",
            files,
            in_pieces(piece),
            (Status::Done, FAILURE_SHOWN, ""),
        )?;
    }
    Ok(())
}
