// The left zone with more titles than rows, with more lines than rows, with exactly as many, calm with NORMAL or a memo; and the
// right zone with systems in the book's order, and more rows than fit.
use super::{are_told, book_of, flags_of, is_printed, is_zone};
use book_model::Book;
use ecam_kinds::{Picture, ROWS};
use std::process::Abort;
use std::test::Fail;
use warning_display::{LeftCount, fill_flags, fill_left, fill_right};

// Nine alerts of one condition.
const TITLES: &str = "version = 1\nsystems = [\"HYD\"]\n\
[[param]]\nname = \"g_lo\"\nkind = \"disc\"\nstale = 600\nsource = [{ bus = 0, label = \"270\", bit = 11 }]\n\
[[alert]]\nname = \"n1\"\ntitle = \"ALERT 1\"\nsystem = \"HYD\"\nlevel = 1\nwhen = \"g_lo\"\n\
[[alert]]\nname = \"n2\"\ntitle = \"ALERT 2\"\nsystem = \"HYD\"\nlevel = 1\nwhen = \"g_lo\"\n\
[[alert]]\nname = \"n3\"\ntitle = \"ALERT 3\"\nsystem = \"HYD\"\nlevel = 1\nwhen = \"g_lo\"\n\
[[alert]]\nname = \"n4\"\ntitle = \"ALERT 4\"\nsystem = \"HYD\"\nlevel = 1\nwhen = \"g_lo\"\n\
[[alert]]\nname = \"n5\"\ntitle = \"ALERT 5\"\nsystem = \"HYD\"\nlevel = 1\nwhen = \"g_lo\"\n\
[[alert]]\nname = \"n6\"\ntitle = \"ALERT 6\"\nsystem = \"HYD\"\nlevel = 1\nwhen = \"g_lo\"\n\
[[alert]]\nname = \"n7\"\ntitle = \"ALERT 7\"\nsystem = \"HYD\"\nlevel = 1\nwhen = \"g_lo\"\n\
[[alert]]\nname = \"n8\"\ntitle = \"ALERT 8\"\nsystem = \"HYD\"\nlevel = 1\nwhen = \"g_lo\"\n\
[[alert]]\nname = \"n9\"\ntitle = \"ALERT 9\"\nsystem = \"HYD\"\nlevel = 1\nwhen = \"g_lo\"\n";

// A warning with seven lines, and a memo in each zone.
const LINES: &str = "version = 1\nsystems = [\"HYD\"]\n\
[[param]]\nname = \"g_lo\"\nkind = \"disc\"\nstale = 600\nsource = [{ bus = 0, label = \"270\", bit = 11 }]\n\
[[alert]]\nname = \"g_rsvr\"\ntitle = \"HYD G RSVR LO LVL\"\nsystem = \"HYD\"\nlevel = 3\nwhen = \"g_lo\"\nline = [{ text = \"LINE 1\" }, { text = \"LINE 2\" }, { text = \"LINE 3\" }, { text = \"LINE 4\" }, { text = \"LINE 5\" }, { text = \"LINE 6\" }, { text = \"LINE 7\" }]\n\
[[memo]]\nname = \"m1\"\ntext = \"MEMO 1\"\nzone = \"left\"\nwhen = \"true\"\n\
[[memo]]\nname = \"m2\"\ntext = \"MEMO 2\"\nzone = \"right\"\nwhen = \"true\"\n";

// Three systems, four alerts and six right memos.
const SYSTEMS: &str = "version = 1\nsystems = [\"ELEC\", \"HYD\", \"FUEL\"]\n\
[[param]]\nname = \"g_lo\"\nkind = \"disc\"\nstale = 600\nsource = [{ bus = 0, label = \"270\", bit = 11 }]\n\
[[alert]]\nname = \"s0\"\ntitle = \"ALERT 0\"\nsystem = \"HYD\"\nlevel = 1\nwhen = \"g_lo\"\n\
[[alert]]\nname = \"s1\"\ntitle = \"ALERT 1\"\nsystem = \"FUEL\"\nlevel = 1\nwhen = \"g_lo\"\n\
[[alert]]\nname = \"s2\"\ntitle = \"ALERT 2\"\nsystem = \"ELEC\"\nlevel = 1\nwhen = \"g_lo\"\n\
[[alert]]\nname = \"s3\"\ntitle = \"ALERT 3\"\nsystem = \"HYD\"\nlevel = 1\nwhen = \"g_lo\"\n\
[[memo]]\nname = \"m0\"\ntext = \"MEMO 0\"\nzone = \"right\"\nwhen = \"true\"\n\
[[memo]]\nname = \"m1\"\ntext = \"MEMO 1\"\nzone = \"right\"\nwhen = \"true\"\n\
[[memo]]\nname = \"m2\"\ntext = \"MEMO 2\"\nzone = \"right\"\nwhen = \"true\"\n\
[[memo]]\nname = \"m3\"\ntext = \"MEMO 3\"\nzone = \"right\"\nwhen = \"true\"\n\
[[memo]]\nname = \"m4\"\ntext = \"MEMO 4\"\nzone = \"right\"\nwhen = \"true\"\n\
[[memo]]\nname = \"m5\"\ntext = \"MEMO 5\"\nzone = \"right\"\nwhen = \"true\"\n";

// Seven lines, of which the first is done when the pump is off.
const DONE: &str = "version = 1\nsystems = [\"HYD\"]\n\
[[param]]\nname = \"g_lo\"\nkind = \"disc\"\nstale = 600\nsource = [{ bus = 0, label = \"270\", bit = 11 }]\n\
[[param]]\nname = \"pump_off\"\nkind = \"disc\"\nstale = 600\nsource = [{ bus = 0, label = \"270\", bit = 12 }]\n\
[[alert]]\nname = \"g_rsvr\"\ntitle = \"HYD G RSVR LO LVL\"\nsystem = \"HYD\"\nlevel = 1\nwhen = \"g_lo\"\nline = [{ text = \"LINE 1\", done = \"pump_off\" }, { text = \"LINE 2\" }, { text = \"LINE 3\" }, { text = \"LINE 4\" }, { text = \"LINE 5\" }, { text = \"LINE 6\" }, { text = \"LINE 7\" }]\n";

// Which alerts are shown; then the left zone, the flags, and which rows changed.
type Titled = (
    &'static [u8; 9],
    &'static [u8],
    &'static [u8],
    &'static [u8],
);

const TITLED: &[Titled] = &[
    (
        b"123456789",
        b"A ALERT 1/A ALERT 2/A ALERT 3/A ALERT 4/A ALERT 5/A ALERT 6/A ALERT 7",
        b"W v OVF 2",
        b"*******",
    ),
    (
        b"-23456789",
        b"A ALERT 2/A ALERT 3/A ALERT 4/A ALERT 5/A ALERT 6/A ALERT 7/A ALERT 8",
        b"W v OVF 1",
        b"*******",
    ),
    (
        b"-2345678-",
        b"A ALERT 2/A ALERT 3/A ALERT 4/A ALERT 5/A ALERT 6/A ALERT 7/A ALERT 8",
        b"-",
        b"-------",
    ),
    (b"--------9", b"A ALERT 9", b"-", b"*******"),
    (b"---------", b"-", b"-", b"*------"),
];

// Whether the alert is shown, which lines stand, whether the left memo holds, and NORMAL; then the left zone, whether more
// rows stand than it has, and which rows changed.
type Lined = (
    bool,
    [bool; 7],
    bool,
    bool,
    &'static [u8],
    bool,
    &'static [u8],
);

const LINED: &[Lined] = &[
    (
        true,
        [true, true, true, true, true, true, true],
        true,
        false,
        b"R HYD G RSVR LO LVL/C LINE 1/C LINE 2/C LINE 3/C LINE 4/C LINE 5/C LINE 6",
        true,
        b"*******",
    ),
    (
        true,
        [false, true, true, true, true, true, true],
        false,
        false,
        b"R HYD G RSVR LO LVL/C LINE 2/C LINE 3/C LINE 4/C LINE 5/C LINE 6/C LINE 7",
        false,
        b"-******",
    ),
    (
        true,
        [true, true, true, true, true, true, false],
        true,
        true,
        b"R HYD G RSVR LO LVL/C LINE 1/C LINE 2/C LINE 3/C LINE 4/C LINE 5/C LINE 6",
        false,
        b"-******",
    ),
    (
        true,
        [false, false, false, false, false, false, false],
        true,
        false,
        b"R HYD G RSVR LO LVL",
        false,
        b"-******",
    ),
    (
        false,
        [true, true, true, true, true, true, true],
        true,
        true,
        b"G NORMAL",
        false,
        b"*------",
    ),
    (
        false,
        [true, true, true, true, true, true, true],
        true,
        false,
        b"G MEMO 1",
        false,
        b"*------",
    ),
    (
        false,
        [false, false, false, false, false, false, false],
        false,
        false,
        b"-",
        false,
        b"*------",
    ),
];

// Whether the first line is done; then the left zone, the flags, and which rows changed.
type WhileDone = (bool, &'static [u8], &'static [u8], &'static [u8]);

const WHILE_DONE: &[WhileDone] = &[
    (
        false,
        b"A HYD G RSVR LO LVL/C LINE 1/C LINE 2/C LINE 3/C LINE 4/C LINE 5/C LINE 6",
        b"W v",
        b"*******",
    ),
    (
        true,
        b"A HYD G RSVR LO LVL/C LINE 2/C LINE 3/C LINE 4/C LINE 5/C LINE 6/C LINE 7",
        b"-",
        b"-******",
    ),
    (
        true,
        b"A HYD G RSVR LO LVL/C LINE 2/C LINE 3/C LINE 4/C LINE 5/C LINE 6/C LINE 7",
        b"-",
        b"-------",
    ),
];

// Which alerts are starred, and which right memos hold; then the right zone, how many rows stand beyond it, and which rows
// changed.
type Right = ([bool; 4], [bool; 6], &'static [u8], u32, &'static [u8]);

const RIGHT: &[Right] = &[
    (
        [false, false, false, false],
        [false, false, false, false, false, false],
        b"-",
        0,
        b"-------",
    ),
    (
        [true, false, false, true],
        [false, false, false, false, false, false],
        b"A *HYD",
        0,
        b"*------",
    ),
    (
        [false, true, true, false],
        [true, false, false, false, false, true],
        b"A *ELEC/A *FUEL/G MEMO 0/G MEMO 5",
        0,
        b"****---",
    ),
    (
        [true, true, true, true],
        [true, true, true, true, false, false],
        b"A *ELEC/A *HYD/A *FUEL/G MEMO 0/G MEMO 1/G MEMO 2/G MEMO 3",
        0,
        b"-******",
    ),
    (
        [true, true, true, true],
        [true, true, true, true, true, true],
        b"A *ELEC/A *HYD/A *FUEL/G MEMO 0/G MEMO 1/G MEMO 2/G MEMO 3",
        2,
        b"-------",
    ),
];

// Fills the left zone by a row of TITLED.
fn titled(rt: &impl Abort, book: &Book, picture: &mut Picture, row: usize, wanted: &Titled) {
    let (shown, rows, flags, told) = wanted;
    let shown = flags_of(shown);
    assert_eq!(rt; book.alerts().len(), 9);
    assert_eq!(rt; book.line_count(), 0);
    assert_eq!(rt; book.memos().len(), 0);
    let mut changed = [false; ROWS];
    let count = fill_left(book, &shown, &[], &[], false, picture, &mut changed);
    assert!(rt; is_zone(picture, 0, 7, rows), "row {row}");
    assert!(rt; are_told(&changed, 0, told), "row {row}");
    fill_flags(count, 0, 0, picture, &mut changed);
    assert!(rt; is_printed(&picture.rows[14], flags), "row {row}");
}

fn all_titled(rt: &impl Abort, book: &Book) {
    let mut picture = Picture::blank();
    for (row, wanted) in TITLED.iter().enumerate() {
        titled(rt, book, &mut picture, row, wanted);
    }
}

#[test]
fn titles_beyond_the_seventh_row_are_counted(rt: HostRuntime) -> Result<(), Fail> {
    let book = book_of(rt.alloc(), TITLES)?;
    all_titled(&rt, &book);
    Ok(())
}

// Fills the left zone by a row of LINED.
fn lined(rt: &impl Abort, book: &Book, picture: &mut Picture, row: usize, wanted: &Lined) {
    let (shown, lines, memo, normal, rows, more, told) = wanted;
    assert_eq!(rt; book.alerts().len(), 1);
    assert_eq!(rt; book.line_count(), lines.len());
    assert_eq!(rt; book.memos().len(), 2);
    let mut changed = [false; ROWS];
    let memos = [*memo, true];
    let count = fill_left(
        book,
        &[*shown],
        lines,
        &memos,
        *normal,
        picture,
        &mut changed,
    );
    let wanted = LeftCount {
        beyond: 0,
        more: *more,
    };
    assert!(rt; count == wanted, "row {row}");
    assert!(rt; is_zone(picture, 0, 7, rows), "row {row}");
    assert!(rt; are_told(&changed, 0, told), "row {row}");
    assert!(rt; is_zone(picture, 7, 7, b"-"), "row {row}");
}

fn all_lined(rt: &impl Abort, book: &Book) {
    let mut picture = Picture::blank();
    for (row, wanted) in LINED.iter().enumerate() {
        lined(rt, book, &mut picture, row, wanted);
    }
}

#[test]
fn lines_stand_under_their_title(rt: HostRuntime) -> Result<(), Fail> {
    let book = book_of(rt.alloc(), LINES)?;
    all_lined(&rt, &book);
    Ok(())
}

// Fills the left zone by a row of WHILE_DONE.
fn while_done(rt: &impl Abort, book: &Book, picture: &mut Picture, row: usize, wanted: &WhileDone) {
    let (done, rows, flags, told) = wanted;
    let lines = [!*done, true, true, true, true, true, true];
    assert_eq!(rt; book.alerts().len(), 1);
    assert_eq!(rt; book.line_count(), lines.len());
    assert_eq!(rt; book.memos().len(), 0);
    let mut changed = [false; ROWS];
    let count = fill_left(book, &[true], &lines, &[], false, picture, &mut changed);
    assert!(rt; is_zone(picture, 0, 7, rows), "row {row}");
    assert!(rt; are_told(&changed, 0, told), "row {row}");
    fill_flags(count, 0, 0, picture, &mut changed);
    assert!(rt; is_printed(&picture.rows[14], flags), "row {row}");
}

fn all_while_done(rt: &impl Abort, book: &Book) {
    let mut picture = Picture::blank();
    for (row, wanted) in WHILE_DONE.iter().enumerate() {
        while_done(rt, book, &mut picture, row, wanted);
    }
}

#[test]
fn a_line_that_is_done_makes_room(rt: HostRuntime) -> Result<(), Fail> {
    let book = book_of(rt.alloc(), DONE)?;
    all_while_done(&rt, &book);
    Ok(())
}

// Fills the right zone by a row of RIGHT.
fn starred(rt: &impl Abort, book: &Book, picture: &mut Picture, row: usize, wanted: &Right) {
    let (starred, memos, rows, beyond, told) = wanted;
    assert_eq!(rt; book.alerts().len(), starred.len());
    assert_eq!(rt; book.memos().len(), memos.len());
    let mut changed = [false; ROWS];
    let count = fill_right(book, starred, memos, picture, &mut changed);
    assert_eq!(rt; count, *beyond, "row {row}");
    assert!(rt; is_zone(picture, 7, 7, rows), "row {row}");
    assert!(rt; are_told(&changed, 7, told), "row {row}");
}

fn all_starred(rt: &impl Abort, book: &Book) {
    let mut picture = Picture::blank();
    for (row, wanted) in RIGHT.iter().enumerate() {
        starred(rt, book, &mut picture, row, wanted);
    }
}

#[test]
fn systems_stand_in_the_books_order(rt: HostRuntime) -> Result<(), Fail> {
    let book = book_of(rt.alloc(), SYSTEMS)?;
    all_starred(&rt, &book);
    Ok(())
}
