// Status pages of no rows, of 17, 18, 19, 37 and more rows, of cancelled cautions, and page numbers beyond the last.
ghost use Rattle.std.specs.Prelude.{◌≡◌, ◌+◌, ◌<◌, ◌^◌, length, IfSome};
ghost use Rattle.book_model.specs.Sealed.{the_book};
ghost use Rattle.system_display.specs.Selecting.{SelectorFits, CanGoOn};

use super::{book_of, flags_of, is_display};
use book_model::Book;
use ecam_kinds::{Key, Keys, Picture, ROWS};
use status_page::{fill_status, status_rows};
use std::process::Abort;
use std::test::Fail;
use system_display::{Choice, Selector};

// Nine alerts: four with eight status lines and five with one, over the five sections in turn.
const BOOK: &str = "version = 1\nsystems = [\"HYD\", \"ELEC\"]\n\
[[param]]\nname = \"g\"\nkind = \"disc\"\nstale = 600\nsource = [{ bus = 0, label = \"270\", bit = 11 }]\n\
[[alert]]\nname = \"a0\"\ntitle = \"ALERT 0\"\nsystem = \"HYD\"\nlevel = 2\nwhen = \"g\"\nstatus = [{ section = \"limitations\", text = \"S00\" }, { section = \"approach\", text = \"S01\" }, { section = \"procedure\", text = \"S02\" }, { section = \"information\", text = \"S03\" }, { section = \"inop\", text = \"S04\" }, { section = \"limitations\", text = \"S05\" }, { section = \"approach\", text = \"S06\" }, { section = \"procedure\", text = \"S07\" }]\n\
[[alert]]\nname = \"a1\"\ntitle = \"ALERT 1\"\nsystem = \"HYD\"\nlevel = 2\nwhen = \"g\"\nstatus = [{ section = \"approach\", text = \"S10\" }, { section = \"procedure\", text = \"S11\" }, { section = \"information\", text = \"S12\" }, { section = \"inop\", text = \"S13\" }, { section = \"limitations\", text = \"S14\" }, { section = \"approach\", text = \"S15\" }, { section = \"procedure\", text = \"S16\" }, { section = \"information\", text = \"S17\" }]\n\
[[alert]]\nname = \"a2\"\ntitle = \"ALERT 2\"\nsystem = \"HYD\"\nlevel = 2\nwhen = \"g\"\nstatus = [{ section = \"procedure\", text = \"S20\" }, { section = \"information\", text = \"S21\" }, { section = \"inop\", text = \"S22\" }, { section = \"limitations\", text = \"S23\" }, { section = \"approach\", text = \"S24\" }, { section = \"procedure\", text = \"S25\" }, { section = \"information\", text = \"S26\" }, { section = \"inop\", text = \"S27\" }]\n\
[[alert]]\nname = \"a3\"\ntitle = \"ALERT 3\"\nsystem = \"HYD\"\nlevel = 2\nwhen = \"g\"\nstatus = [{ section = \"information\", text = \"S30\" }, { section = \"inop\", text = \"S31\" }, { section = \"limitations\", text = \"S32\" }, { section = \"approach\", text = \"S33\" }, { section = \"procedure\", text = \"S34\" }, { section = \"information\", text = \"S35\" }, { section = \"inop\", text = \"S36\" }, { section = \"limitations\", text = \"S37\" }]\n\
[[alert]]\nname = \"a4\"\ntitle = \"ALERT 4\"\nsystem = \"HYD\"\nlevel = 2\nwhen = \"g\"\nstatus = [{ section = \"inop\", text = \"S40\" }]\n\
[[alert]]\nname = \"a5\"\ntitle = \"ALERT 5\"\nsystem = \"HYD\"\nlevel = 2\nwhen = \"g\"\nstatus = [{ section = \"limitations\", text = \"S50\" }]\n\
[[alert]]\nname = \"a6\"\ntitle = \"ALERT 6\"\nsystem = \"HYD\"\nlevel = 2\nwhen = \"g\"\nstatus = [{ section = \"approach\", text = \"S60\" }]\n\
[[alert]]\nname = \"a7\"\ntitle = \"ALERT 7\"\nsystem = \"HYD\"\nlevel = 2\nwhen = \"g\"\nstatus = [{ section = \"procedure\", text = \"S70\" }]\n\
[[alert]]\nname = \"a8\"\ntitle = \"ALERT 8\"\nsystem = \"HYD\"\nlevel = 2\nwhen = \"g\"\nstatus = [{ section = \"information\", text = \"S80\" }]\n";

// Which alerts are active, which cancelled, the number of the page, how many rows there are on all pages, and the rows of
// the page.
type Page = (&'static [u8; 9], &'static [u8; 9], u32, u32, &'static [u8]);

const PAGES: &[Page] = &[
    (b"---------", b"012345678", 0, 0, b"G NORMAL"),
    (
        b"01--4----",
        b"---------",
        0,
        17,
        b"C S00/C S05/C S14/W S01/W S06/W S10/W S15/C S02/C S07/C S11/C S16/G S03/\
G S12/G S17/A S04/A S13/A S40",
    ),
    (
        b"01--4----",
        b"---------",
        1,
        17,
        b"C S00/C S05/C S14/W S01/W S06/W S10/W S15/C S02/C S07/C S11/C S16/G S03/\
G S12/G S17/A S04/A S13/A S40",
    ),
    (
        b"01--45---",
        b"---------",
        0,
        18,
        b"C S00/C S05/C S14/C S50/W S01/W S06/W S10/W S15/C S02/C S07/C S11/C S16/\
G S03/G S12/G S17/A S04/A S13/A S40",
    ),
    (
        b"01--45---",
        b"---------",
        1,
        18,
        b"C S00/C S05/C S14/C S50/W S01/W S06/W S10/W S15/C S02/C S07/C S11/C S16/\
G S03/G S12/G S17/A S04/A S13/A S40",
    ),
    (
        b"01--45---",
        b"---------",
        7,
        18,
        b"C S00/C S05/C S14/C S50/W S01/W S06/W S10/W S15/C S02/C S07/C S11/C S16/\
G S03/G S12/G S17/A S04/A S13/A S40",
    ),
    (
        b"01--456--",
        b"---------",
        0,
        19,
        b"C S00/C S05/C S14/C S50/W S01/W S06/W S10/W S15/W S60/C S02/C S07/C S11/\
C S16/G S03/G S12/G S17/A S04/A S13",
    ),
    (b"01--456--", b"---------", 1, 19, b"A S40"),
    (
        b"01--456--",
        b"---------",
        2,
        19,
        b"C S00/C S05/C S14/C S50/W S01/W S06/W S10/W S15/W S60/C S02/C S07/C S11/\
C S16/G S03/G S12/G S17/A S04/A S13",
    ),
    (
        b"012345678",
        b"---------",
        0,
        37,
        b"C S00/C S05/C S14/C S23/C S32/C S37/C S50/W S01/W S06/W S10/W S15/W S24/\
W S33/W S60/C S02/C S07/C S11/C S16",
    ),
    (
        b"012345678",
        b"---------",
        1,
        37,
        b"C S20/C S25/C S34/C S70/G S03/G S12/G S17/G S21/G S26/G S30/G S35/G S80/\
A S04/A S13/A S22/A S27/A S31/A S36",
    ),
    (b"012345678", b"---------", 2, 37, b"A S40"),
    (b"012345678", b"---------", 5, 37, b"A S40"),
    (
        b"0--------",
        b"01-------",
        0,
        10,
        b"C S00/C S05/W S01/W S06/C S02/C S07/G S03/A S04/W CANCELLED CAUTION/\
A ALERT 0",
    ),
    (
        b"--2-----8",
        b"--23----8",
        0,
        12,
        b"C S23/W S24/C S20/C S25/G S21/G S26/G S80/A S22/A S27/\
W CANCELLED CAUTION/A ALERT 2/A ALERT 8",
    ),
    (
        b"012345678",
        b"012345678",
        2,
        47,
        b"A S40/W CANCELLED CAUTION/A ALERT 0/A ALERT 1/A ALERT 2/A ALERT 3/\
A ALERT 4/A ALERT 5/A ALERT 6/A ALERT 7/A ALERT 8",
    ),
    (
        b"012345678",
        b"012345678",
        4294967295,
        47,
        b"C S00/C S05/C S14/C S23/C S32/C S37/C S50/W S01/W S06/W S10/W S15/W S24/\
W S33/W S60/C S02/C S07/C S11/C S16",
    ),
];

// Fills the status page by a row of PAGES, and fills it again, which changes nothing.
fn status_page(rt: &impl Abort, book: &Book, picture: &mut Picture, row: usize, wanted: &Page) {
    let (active, cancelled, page, many, shown) = wanted;
    let active = flags_of(active);
    let cancelled = flags_of(cancelled);
    assert_eq!(rt; book.alerts().len(), 9);
    let mut changed = [false; ROWS];
    fill_status(book, &active, &cancelled, *page, picture, &mut changed);
    assert_eq!(rt; status_rows(book, &active, &cancelled), *many, "page {row}");
    assert!(rt; is_display(picture, shown), "page {row}");
    let mut again = [false; ROWS];
    fill_status(book, &active, &cancelled, *page, picture, &mut again);
    assert!(rt; again == [false; ROWS], "page {row}");
}

fn all_status_pages(rt: &impl Abort, book: &Book) {
    let mut picture = Picture::blank();
    for (row, wanted) in PAGES.iter().enumerate() {
        status_page(rt, book, &mut picture, row, wanted);
    }
}

#[test]
fn status_pages_show_their_rows(rt: HostRuntime) -> Result<(), Fail> {
    let book = book_of(rt.alloc(), BOOK)?;
    all_status_pages(&rt, &book);
    Ok(())
}

// With nineteen rows, and so two pages: STS, EMER CANC of a caution, or CLR, by its letter, and the rows that stand then.
// At CLR no status page is shown, and what stood is left.
const STRUCK: &[(u8, &[u8])] = &[
    (b'S', FIRST_OF_TWO),
    (b'S', b"A S40"),
    (b'S', FIRST_OF_TWO),
    (b'S', b"A S40"),
    (b'E', FIRST_OF_TWO),
    (b'S', b"A S40"),
    (b'S', FIRST_OF_TWO),
    (b'C', FIRST_OF_TWO),
    (b'S', FIRST_OF_TWO),
];

const FIRST_OF_TWO: &[u8] =
    b"C S00/C S05/C S14/C S50/W S01/W S06/W S10/W S15/W S60/C S02/C S07/C S11/\
C S16/G S03/G S12/G S17/A S04/A S13";

// The first alert of a book.
fn first_of(book: &Book) -> Option<u32>
    ensures { IfSome result (λ a. a < length book.now.alerts.items) }
{
    if book.alerts().is_empty() {
        None
    } else {
        Some(0)
    }
}

// One moment, in which a key is pressed: the number of the status page, where one is shown then.
fn strike(selector: &mut Selector, book: &Book, letter: u8) -> Option<u32>
    requires goes_on { CanGoOn selector.old }
    requires fits { SelectorFits (the_book book.now) selector.old }
    ensures fits { SelectorFits (the_book book.now) selector.new }
    ensures moments { selector.new.moments ≡ selector.old.moments + 1 }
{
    let mut keys = Keys::new();
    match letter {
        b'S' => keys.press(Key::Sts),
        b'E' => keys.press(Key::Emer),
        _ => keys.press(Key::Clr),
    }
    selector.step(book, &keys, first_of(book));
    match selector.choice() {
        Choice::Status(page) => Some(page),
        _ => None,
    }
}

// Fills the status page that is shown, if one is, with nineteen rows on two pages.
fn show(rt: &impl Abort, book: &Book, page: Option<u32>, picture: &mut Picture) {
    assert_eq!(rt; book.alerts().len(), 9);
    let active = flags_of(b"01--456--");
    if let Some(page) = page {
        let mut changed = [false; ROWS];
        fill_status(book, &active, &[false; 9], page, picture, &mut changed);
    }
}

fn all_struck(rt: &impl Abort, book: &Book) {
    let mut selector = Selector::new();
    let mut picture = Picture::blank();
    for (row, (letter, shown)) in STRUCK.iter().enumerate() {
        let page = strike(&mut selector, book, *letter);
        show(rt, book, page, &mut picture);
        assert!(rt; is_display(&picture, shown), "row {row}");
    }
}

#[test]
fn the_key_goes_round(rt: HostRuntime) -> Result<(), Fail> {
    let book = book_of(rt.alloc(), BOOK)?;
    all_struck(&rt, &book);
    Ok(())
}
