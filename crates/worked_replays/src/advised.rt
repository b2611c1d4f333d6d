// Advisories by a file of limits. A slash stands for the end of a line.
use crate::books::{HYDRAULICS, LEVEL_FOUR};
use crate::outside::{does, file, lines_of, sound, two_files};
use ecam_io::MemoryFile;
use replay_core::Status;
use std::alloc::{AllocError, Global};
use std::process::Abort;
use std::test::Fail;

const LIMITS: &str =
    "version = 1\n[[advisory]]\nname = \"hyd_press\"\nparam = \"g_press\"\npage = \"hyd\"\nlow = 1450\nhigh = 3200\nmargin = 100\nconfirm = 1\n";

// A record, and what is written of it.
const ADVISED: &[(&str, &str)] = &[
    (
        "W 1 ece40003/T/T/W 1 ec4e0003/T/W 1 6bb80003/T/E/",
        "@1/AD hyd_press 1/PG hyd/@3/AD -/PG -/END 4/",
    ),
    // an alert is shown
    ("W 1 e0000003/T/T/E/", "@1/AD hyd_press 1/END 2/"),
    (
        "W 1 e0000003/T/P CLR/T/E/",
        "@1/AD hyd_press 1/PG hyd/END 2/",
    ),
    ("E/", "END 0/"),
];

// What stands in the place of what in the limits, and what is told of them.
const FAULTS: &[(&str, &str, &str)] = &[
    ("margin = 100", "margin = 900", "limits: A13 item 1\n"),
    ("\"g_press\"", "\"g_lo\"", "limits: A11 item 1\n"),
    ("version = 1", "version = 2", "limits: A03 item 0\n"),
    ("version = 1", "version =", "limits: A02 item 0\n"),
];

// The files of a book, of a record, and of limits.
fn three_files(alloc: Global, texts: (&str, &str, &[u8])) -> Result<Vec<MemoryFile>, AllocError> {
    let record_text = lines_of(alloc, texts.1)?;
    let mut files = two_files(alloc, texts.0, record_text.as_str())?;
    files.push(file(alloc, "limits", texts.2)?)?;
    Ok(files)
}

fn advises(
    rt: &impl Abort,
    alloc: Global,
    words: &str,
    texts: (&str, &str, &[u8]),
    want: (Status, &str, &str),
) -> Result<(), Fail> {
    let output = lines_of(alloc, want.1)?;
    let files = three_files(alloc, texts)?;
    let want = (want.0, output.as_str(), want.2);
    does(rt, alloc, words, files, sound(), want)
}

#[test]
fn values_that_drift_are_told(rt: HostRuntime) -> Result<(), Fail> {
    let alloc = rt.alloc();
    let words = " advise book record limits";
    for (record_text, output) in ADVISED {
        let texts = (HYDRAULICS, *record_text, LIMITS.as_bytes());
        advises(&rt, alloc, words, texts, (Status::Done, *output, ""))?;
    }
    let texts = (HYDRAULICS, "W 1 e0000003/T/T/A/", LIMITS.as_bytes());
    let want = (
        Status::RecordRefused,
        "@1/AD hyd_press 1/",
        "record: Form line 4\n",
    );
    advises(&rt, alloc, words, texts, want)
}

// Whether or not the record is there. No more than 65537 bytes of them are read.
#[test]
fn limits_with_a_fault_are_refused(rt: HostRuntime) -> Result<(), Fail> {
    let alloc = rt.alloc();
    for words in [" advise book record limits", " advise book missing limits"] {
        for (old, new, line) in FAULTS {
            let limits = LIMITS.replace(alloc, *old, new)?;
            let texts = (HYDRAULICS, "E/", limits.as_bytes());
            let want = (Status::LimitsRefused, "", *line);
            advises(&rt, alloc, words, texts, want)?;
        }
        for (count, line) in [
            (65536, "limits: A03 item 0\n"),
            (65537, "limits: A01 item 0\n"),
            (65538, "limits: A01 item 0\n"),
        ] {
            let mut limits = Vec::new(alloc);
            limits.resize(count, b'#')?;
            let texts = (HYDRAULICS, "E/", limits.as_slice());
            let want = (Status::LimitsRefused, "", line);
            advises(&rt, alloc, words, texts, want)?;
        }
    }
    Ok(())
}

// The book comes first, then the limits, then the record.
#[test]
fn files_are_opened_in_order(rt: HostRuntime) -> Result<(), Fail> {
    let alloc = rt.alloc();
    let faulty = LIMITS.replace(alloc, "version = 1", "version = 2")?;
    let texts = (LEVEL_FOUR, "E/", faulty.as_bytes());
    let want = (Status::BookRefused, "", "book: F09 alert 1\n");
    for words in [" advise book missing limits", " advise book record missing"] {
        advises(&rt, alloc, words, texts, want)?;
    }
    let texts = (HYDRAULICS, "A/", LIMITS.as_bytes());
    let want = (Status::ReadFault, "", "read fault\n");
    for words in [" advise book record missing", " advise book missing limits"] {
        advises(&rt, alloc, words, texts, want)?;
    }
    Ok(())
}
