// A zone of three rows, filled twice: which rows stand, and which are told as changed.
use ecam_kinds::{Colour, Picture, ROWS, Row};
use std::process::Abort;
use zone_rows::{blank_rest, put_next, set_row};

// Fills the zone of three rows from the eighth on with these texts in amber.
fn fill(picture: &mut Picture, changed: &mut [bool; ROWS], texts: &[&[u8]]) -> usize {
    let mut count = 0;
    for text in texts {
        if text.len() <= 40 {
            count = put_next(&mut picture.rows, changed, 7, 3, count, Colour::Amber, text);
        }
    }
    blank_rest(&mut picture.rows, changed, 7, 3, count);
    count
}

// The texts, and what the zone counts; then the texts of the rows from the one before the zone to the one behind it, and
// which of them are told as changed.
type Mended = (
    &'static [&'static [u8]],
    usize,
    [&'static [u8]; 5],
    [bool; 5],
);

const MENDED: &[Mended] = &[
    (
        &[],
        0,
        [b"", b"", b"", b"", b""],
        [false, false, false, false, false],
    ),
    (
        &[b"HYD", b"ELEC"],
        2,
        [b"", b"HYD", b"ELEC", b"", b""],
        [false, true, true, false, false],
    ),
    (
        &[b"HYD", b"ELEC"],
        2,
        [b"", b"HYD", b"ELEC", b"", b""],
        [false, false, false, false, false],
    ),
    (
        &[b"HYD", b"FUEL", b"AIR"],
        3,
        [b"", b"HYD", b"FUEL", b"AIR", b""],
        [false, false, true, true, false],
    ),
    (
        &[b"HYD", b"FUEL", b"ICE", b"NAV", b"COM"],
        4,
        [b"", b"HYD", b"FUEL", b"ICE", b""],
        [false, false, false, true, false],
    ),
    (
        &[b"FUEL"],
        1,
        [b"", b"FUEL", b"", b"", b""],
        [false, true, true, true, false],
    ),
];

fn has_text(row: &Row, text: &[u8]) -> bool {
    row.text.as_slice() == text
}

// Fills the zone by a row of MENDED.
fn mended(rt: &impl Abort, picture: &mut Picture, row: usize, wanted: &Mended) {
    let (texts, count, shown, told) = wanted;
    let mut changed = [false; ROWS];
    assert_eq!(rt; fill(picture, &mut changed, texts), *count, "fill {row}");
    for i in 0..5 {
        assert!(rt;
            has_text(&picture.rows[6 + i], shown[i]),
            "fill {row}, place {i}"
        );
        assert_eq!(rt; changed[6 + i], told[i], "fill {row}, place {i}");
    }
}

#[test]
fn a_zone_is_mended_in_place(rt: HostRuntime) {
    let mut picture = Picture::blank();
    for (row, wanted) in MENDED.iter().enumerate() {
        mended(&rt, &mut picture, row, wanted);
    }
}

#[test]
fn what_was_told_stays_told(rt: HostRuntime) {
    let mut picture = Picture::blank();
    let mut changed = [false; ROWS];
    set_row(&mut picture.rows, &mut changed, 35, Colour::White, b"SC");
    set_row(&mut picture.rows, &mut changed, 35, Colour::White, b"SC");
    assert!(rt; changed[35]);
    changed[35] = false;
    set_row(&mut picture.rows, &mut changed, 35, Colour::Amber, b"SC");
    assert!(rt; changed[35]);
}
