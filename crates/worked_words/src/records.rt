// Records, and the words that are written of them.
use crate::views::{book_of_alerts, lines_of, words_of};
use std::test::Fail;

/// The level of the one alert, a record, and what is written of it.
const RECORDS: &[(u8, &str, &str)] = &[
    (1, "W 0 0000041d/T/E/", "W 15 80008002/W 15 00000482/T/E/"),
    (1, "F 1/F 2/T/E/", "W 15 a0000002/W 15 20000082/T/E/"),
    // A record without a moment has no word.
    (1, "E/", "E/"),
    // What is without change isn't written again, while no computer is up either.
    (
        1,
        "W 0 0000041d/T/T/F 1/T/F 2/T/T/U 1/T/E/",
        "W 15 80008002/W 15 00000482/T/T/T/W 15 a0000002/W 15 20000082/T/T/W 15 80008002/W 15 80000082/T/E/",
    ),
    // MASTER CAUT and the chime end by a press.
    (
        2,
        "W 0 0000041d/T/T/P MC/T/E/",
        "W 15 80009802/W 15 00000482/T/T/W 15 80008002/T/E/",
    ),
    // MASTER WARN and the repetitive chime; EMER CANC ends both, and a warning stays shown.
    (
        3,
        "W 0 0000041d/T/P EMER/T/E/",
        "W 15 8000a402/W 15 00000482/T/W 15 80008002/T/E/",
    ),
];

/// So many alerts, and what is written while all are shown.
const MANY: &[(u32, &str)] = &[
    (1, "W 15 80008002/W 15 00000482/T/E/"),
    (16, "W 15 80008002/W 15 83fffc82/T/E/"),
    (17, "W 15 80008002/W 15 83fffc82/W 15 80000582/T/E/"),
    (
        64,
        "W 15 80008002/W 15 83fffc82/W 15 03fffd82/W 15 03fffe82/W 15 83ffff82/T/E/",
    ),
    (
        65,
        "W 15 80008002/W 15 83fffc82/W 15 03fffd82/W 15 03fffe82/W 15 83ffff82/W 15 00000442/T/E/",
    ),
];

#[test]
fn words_of_records(rt: HostRuntime) -> Result<(), Fail> {
    let alloc = rt.alloc();
    for (level, record, written) in RECORDS {
        let book = book_of_alerts(alloc, 1, *level)?;
        let out = words_of(alloc, &book, &lines_of(alloc, record)?, 4096)?;
        assert_eq!(rt;
            out.bytes(),
            lines_of(alloc, written)?.as_bytes(),
            "{record}"
        );
    }
    for (count, written) in MANY {
        let book = book_of_alerts(alloc, *count, 1)?;
        let out = words_of(alloc, &book, "W 0 0000041d\nT\nE\n", 4096)?;
        assert_eq!(rt;
            out.bytes(),
            lines_of(alloc, written)?.as_bytes(),
            "{count}"
        );
    }
    // A full book: the status word and 128 others, of which the last is that of label 140 and SDI 3.
    let book = book_of_alerts(alloc, 2048, 1)?;
    let out = words_of(alloc, &book, "W 0 0000041d\nT\nE\n", 4096)?;
    assert_eq!(rt; out.bytes().len(), 129 * 14 + 4);
    assert!(rt; out.bytes().ends_with(b"\nW 15 83ffff06\nT\nE\n"));
    Ok(())
}

// A hundred Ticks after the first all words are written again, whatever became of the computers in between.
#[test]
fn words_are_repeated(rt: HostRuntime) -> Result<(), Fail> {
    let alloc = rt.alloc();
    let book = book_of_alerts(alloc, 1, 1)?;
    for begin in ["W 0 0000041d/T/", "F 1/F 2/U 1/W 0 0000041d/T/"] {
        let mut record = lines_of(alloc, begin)?;
        let mut written = lines_of(alloc, "W 15 80008002/W 15 00000482/T/")?;
        for _ in 0..99 {
            record.push_str("T\n")?;
            written.push_str("T\n")?;
        }
        record.push_str("T\nT\nE\n")?;
        written.push_str(&lines_of(alloc, "W 15 80008002/W 15 00000482/T/T/E/")?)?;
        let out = words_of(alloc, &book, &record, 4096)?;
        assert_eq!(rt; out.bytes(), written.as_bytes(), "{begin}");
    }
    Ok(())
}
