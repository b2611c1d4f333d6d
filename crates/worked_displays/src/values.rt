// A page by its values: both ends of their range, negative, five digits wide, a discrete, none, each with a unit and
// without; a page without rows; and no page.
use super::{are_told, book_of, is_display, short};
use book_model::Book;
use ecam_kinds::{Picture, ROWS};
use std::process::Abort;
use std::test::Fail;
use system_display::fill_page;

// A number and a discrete; a page with rows, and one without.
const BOOK: &str = "version = 1\n\
[[page]]\nname = \"hyd\"\ntitle = \"HYD\"\nrow = [{ text = \"GREEN PRESS\", show = \"number\", unit = \"PSI\" }, { text = \"PUMP\", show = \"bit\" }, { text = \"PUMP 2\", show = \"bit\", unit = \"ENG\" }, { text = \"QTY\", show = \"number\" }, { text = \"RESERVE\", colour = \"C\" }]\n\
[[page]]\nname = \"p2\"\ntitle = \"P2\"\n\
[[param]]\nname = \"number\"\nkind = \"bnr\"\nstale = 10\nsource = [{ bus = 1, label = \"300\", low = 11, range = 1000000 }]\n\
[[param]]\nname = \"bit\"\nkind = \"disc\"\nstale = 10\nsource = [{ bus = 0, label = \"270\", bit = 11 }]\n";

// The page, the values of the number and of the discrete; then the system display, and which of its rows changed.
type Shown = (
    Option<usize>,
    Option<i64>,
    Option<i64>,
    &'static [u8],
    &'static [u8],
);

const SHOWN: &[Shown] = &[
    (
        Some(0),
        Some(3000),
        Some(1),
        b"W HYD/G GREEN PRESS                 3000 PSI/\
G PUMP                          ON/G PUMP 2                        ON ENG/\
G QTY                         3000/C RESERVE",
        b"******",
    ),
    (
        Some(0),
        Some(0),
        Some(0),
        b"W HYD/G GREEN PRESS                    0 PSI/\
G PUMP                         OFF/G PUMP 2                       OFF ENG/\
G QTY                            0/C RESERVE",
        b"-****-",
    ),
    (
        Some(0),
        None,
        None,
        b"W HYD/A GREEN PRESS                   XX PSI/\
A PUMP                          XX/A PUMP 2                        XX ENG/\
A QTY                           XX/C RESERVE",
        b"-****-",
    ),
    (
        Some(0),
        Some(-1000000),
        Some(1),
        b"W HYD/G GREEN PRESS             -1000000 PSI/\
G PUMP                          ON/G PUMP 2                        ON ENG/\
G QTY                     -1000000/C RESERVE",
        b"-****-",
    ),
    (
        Some(0),
        Some(1000000),
        Some(1),
        b"W HYD/G GREEN PRESS              1000000 PSI/\
G PUMP                          ON/G PUMP 2                        ON ENG/\
G QTY                      1000000/C RESERVE",
        b"-*--*-",
    ),
    (
        Some(0),
        Some(12345),
        Some(1),
        b"W HYD/G GREEN PRESS                12345 PSI/\
G PUMP                          ON/G PUMP 2                        ON ENG/\
G QTY                        12345/C RESERVE",
        b"-*--*-",
    ),
    (
        Some(0),
        Some(-12345),
        Some(1),
        b"W HYD/G GREEN PRESS               -12345 PSI/\
G PUMP                          ON/G PUMP 2                        ON ENG/\
G QTY                       -12345/C RESERVE",
        b"-*--*-",
    ),
    (
        Some(0),
        Some(-12345),
        Some(0),
        b"W HYD/G GREEN PRESS               -12345 PSI/\
G PUMP                         OFF/G PUMP 2                       OFF ENG/\
G QTY                       -12345/C RESERVE",
        b"--**--",
    ),
    (
        Some(0),
        Some(-12345),
        Some(0),
        b"W HYD/G GREEN PRESS               -12345 PSI/\
G PUMP                         OFF/G PUMP 2                       OFF ENG/\
G QTY                       -12345/C RESERVE",
        b"------",
    ),
    (Some(1), None, None, b"W P2", b"******"),
    (None, None, None, b"-", b"*-----"),
];

// Fills the page by a row of SHOWN.
fn shown(rt: &impl Abort, book: &Book, picture: &mut Picture, row: usize, wanted: &Shown) {
    let (page, number, bit, shown, told) = wanted;
    assert_eq!(rt; book.params().len(), 2);
    let values = [short(*number), short(*bit)];
    let mut changed = [false; ROWS];
    if let Some(page) = page {
        assert!(rt; *page < book.pages().len());
    }
    fill_page(book, *page, &values, picture, &mut changed);
    assert!(rt; is_display(picture, shown), "row {row}");
    assert!(rt; are_told(&changed, 15, told), "row {row}");
}

fn all_shown(rt: &impl Abort, book: &Book) {
    let mut picture = Picture::blank();
    for (row, wanted) in SHOWN.iter().enumerate() {
        shown(rt, book, &mut picture, row, wanted);
    }
}

#[test]
fn a_page_shows_its_values(rt: HostRuntime) -> Result<(), Fail> {
    let book = book_of(rt.alloc(), BOOK)?;
    all_shown(&rt, &book);
    Ok(())
}
