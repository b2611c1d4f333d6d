// A failure from its first moment to its recall: a system whose reservoir runs low, the pressure that falls with it, the line
// that is done, CLR, STS and RCL; and a value that is gone.
use super::{book_of, is_printed, is_zone, short};
use book_model::Book;
use ecam_kinds::{Picture, ROWS};
use status_page::{fill_status, status_rows};
use std::process::Abort;
use std::test::Fail;
use system_display::{Choice, fill_page};
use warning_display::{fill_flags, fill_left, fill_right};

// A caution with a line, a status line and a page, and a second one that it explains.
const BOOK: &str = "version = 1\nsystems = [\"HYD\"]\n\
[[page]]\nname = \"hyd\"\ntitle = \"HYD\"\nrow = [{ text = \"GREEN PRESS\", show = \"g_press\", unit = \"PSI\" }]\n\
[[param]]\nname = \"g_lo\"\nkind = \"disc\"\nstale = 600\nsource = [{ bus = 0, label = \"270\", bit = 11 }]\n\
[[param]]\nname = \"pump_off\"\nkind = \"disc\"\nstale = 600\nsource = [{ bus = 0, label = \"270\", bit = 12 }]\n\
[[param]]\nname = \"g_press\"\nkind = \"bnr\"\nstale = 10\nsource = [{ bus = 1, label = \"300\", low = 17, range = 4096 }]\n\
[[alert]]\nname = \"g_rsvr\"\ntitle = \"HYD G RSVR LO LVL\"\nsystem = \"HYD\"\nlevel = 2\npage = \"hyd\"\nwhen = \"g_lo\"\nsecondary = [\"g_press_lo\"]\nline = [{ text = \"-G ENG 1 PUMP.....OFF\", done = \"pump_off\" }]\nstatus = [{ section = \"inop\", text = \"GREEN HYD\" }]\n\
[[alert]]\nname = \"g_press_lo\"\ntitle = \"HYD G SYS LO PR\"\nsystem = \"HYD\"\nlevel = 2\nwhen = \"g_press < 1450\"\n";

// Whether the first alert is active, and whether the second, which it explains; whether the first is shown, and its line
// stands; the pressure; the page or the status page. Then the left zone, the first right row, the flags, the system display,
// and which of L1, L2, R1, FL, S01 and S02 changed.
type Moment = (
    bool,
    bool,
    bool,
    bool,
    Option<i64>,
    Choice,
    &'static [u8],
    &'static [u8],
    &'static [u8],
    &'static [u8],
    &'static [u8],
);

const MOMENTS: &[Moment] = &[
    (
        false,
        false,
        false,
        true,
        Some(3000),
        Choice::Auto,
        b"-",
        b"-",
        b"-",
        b"-",
        b"------",
    ),
    (
        true,
        false,
        true,
        true,
        Some(3000),
        Choice::Page(0),
        b"A HYD G RSVR LO LVL/C -G ENG 1 PUMP.....OFF",
        b"-",
        b"W STS",
        b"W HYD/G GREEN PRESS                 3000 PSI",
        b"**-***",
    ),
    (
        true,
        true,
        true,
        true,
        Some(0),
        Choice::Page(0),
        b"A HYD G RSVR LO LVL/C -G ENG 1 PUMP.....OFF",
        b"A *HYD",
        b"W STS",
        b"W HYD/G GREEN PRESS                    0 PSI",
        b"--*--*",
    ),
    (
        true,
        true,
        true,
        false,
        Some(0),
        Choice::Page(0),
        b"A HYD G RSVR LO LVL",
        b"A *HYD",
        b"W STS",
        b"W HYD/G GREEN PRESS                    0 PSI",
        b"-*----",
    ),
    (
        true,
        true,
        false,
        false,
        Some(0),
        Choice::Auto,
        b"-",
        b"A *HYD",
        b"W STS",
        b"-",
        b"*---**",
    ),
    (
        true,
        true,
        false,
        false,
        Some(0),
        Choice::Status(0),
        b"-",
        b"A *HYD",
        b"W STS",
        b"A GREEN HYD",
        b"----*-",
    ),
    (
        true,
        true,
        true,
        false,
        Some(0),
        Choice::Status(0),
        b"A HYD G RSVR LO LVL",
        b"A *HYD",
        b"W STS",
        b"A GREEN HYD",
        b"*-----",
    ),
    // nothing is active, and the page is called by its key; then the pressure is gone
    (
        false,
        false,
        false,
        true,
        Some(3000),
        Choice::Page(0),
        b"-",
        b"-",
        b"-",
        b"W HYD/G GREEN PRESS                 3000 PSI",
        b"*-****",
    ),
    (
        false,
        false,
        false,
        true,
        None,
        Choice::Page(0),
        b"-",
        b"-",
        b"-",
        b"W HYD/A GREEN PRESS                   XX PSI",
        b"-----*",
    ),
];

// Which of L1, L2, R1, FL, S01 and S02 are told as changed, at the asterisks.
fn are_told(changed: &[bool; ROWS], letters: &[u8]) -> bool {
    let told = [
        changed[0],
        changed[1],
        changed[7],
        changed[14],
        changed[15],
        changed[16],
    ];
    for i in 0..6 {
        if told[i] != (letters.get(i) == Some(&b'*')) {
            return false;
        }
    }
    true
}

// Whether a moment's zones, flags and display are shown, and its changes told.
fn shows(rt: &impl Abort, picture: &Picture, changed: &[bool; ROWS], k: usize, moment: &Moment) {
    let (_, _, _, _, _, _, left, right, flags, display, told) = moment;
    assert!(rt; is_zone(picture, 0, 7, left), "moment {k}");
    assert!(rt; is_zone(picture, 7, 7, right), "moment {k}");
    assert!(rt; is_printed(&picture.rows[14], flags), "moment {k}");
    assert!(rt; is_zone(picture, 15, 18, display), "moment {k}");
    assert!(rt; are_told(changed, told), "moment {k}");
}

// Fills the left zone, the right zone and the flags by a moment.
fn fill_warnings(
    rt: &impl Abort,
    book: &Book,
    picture: &mut Picture,
    changed: &mut [bool; ROWS],
    moment: &Moment,
) {
    let (first, second, shown, stands, _, _, _, _, _, _, _) = moment;
    assert_eq!(rt; book.alerts().len(), 2);
    assert_eq!(rt; book.line_count(), 1);
    assert_eq!(rt; book.memos().len(), 0);
    let beyond = fill_left(
        book,
        &[*shown, false],
        &[*stands],
        &[],
        false,
        picture,
        changed,
    );
    let starred = fill_right(book, &[false, *second], &[], picture, changed);
    let many = status_rows(book, &[*first, *second], &[false, false]);
    fill_flags(beyond, starred, many, picture, changed);
}

// Fills the system display by a moment.
fn fill_display(
    rt: &impl Abort,
    book: &Book,
    picture: &mut Picture,
    changed: &mut [bool; ROWS],
    moment: &Moment,
) {
    let (first, second, _, _, pressure, choice, _, _, _, _, _) = moment;
    assert_eq!(rt; book.alerts().len(), 2);
    assert_eq!(rt; book.params().len(), 3);
    let values = [None, None, short(*pressure)];
    match choice {
        Choice::Auto => fill_page(book, None, &values, picture, changed),
        Choice::Page(page) => {
            assert!(rt; *page < book.pages().len());
            fill_page(book, Some(*page), &values, picture, changed);
        }
        Choice::Status(page) => {
            let active = [*first, *second];
            fill_status(book, &active, &[false, false], *page, picture, changed);
        }
    }
}

fn all_moments(rt: &impl Abort, book: &Book) {
    let mut picture = Picture::blank();
    for (k, moment) in MOMENTS.iter().enumerate() {
        let mut changed = [false; ROWS];
        fill_warnings(rt, book, &mut picture, &mut changed, moment);
        fill_display(rt, book, &mut picture, &mut changed, moment);
        shows(rt, &picture, &changed, k, moment);
    }
}

#[test]
fn a_failure_is_shown_moment_by_moment(rt: HostRuntime) -> Result<(), Fail> {
    let book = book_of(rt.alloc(), BOOK)?;
    all_moments(&rt, &book);
    Ok(())
}
