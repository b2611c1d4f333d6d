// A page that stands on the system display, S01 to S18, mended where values may have turned.
ghost use Rattle.std.specs.Prelude.{◌≡◌, ◌<◌, ◌≤◌, ◌+◌, ℕ, List, [], ◌∷◌, map, length, slice_get, false, All, IfSome};
ghost use Rattle.std.specs.Option.{option_and_then};
ghost use Rattle.ecam_spec.specs.KeepsLimits.{IsSoundRow};
ghost use Rattle.ecam_spec.specs.SystemDisplay.{Display, page_row, page_rows};
ghost use Rattle.ecam_kinds.specs.Shown.{rows_of};
ghost use Rattle.wakes.specs.Marks.{is_marked, room};
ghost use Rattle.book_model.specs.Sealed.{the_book};
ghost use Rattle.book_model.specs.View.{row_of};
ghost use Rattle.zone_rows.specs.Tracked.{tracked, IsWhole};
ghost use Rattle.zone_rows.specs.Mended.{Mends};
ghost use Rattle.zone_rows.specs.Zones.{StandAt};
ghost use Rattle.system_display.specs.Pages.{Displays, DifferBy, AreShort, lines_of};

use crate::row_text::{RowText, write_row};
use book_model::{Book, PageRow};
use ecam_kinds::{Picture, ROWS, Row};
use wakes::Marked;
use zone_rows::{DISPLAY, set_row};

/// Where the first row of a page stands, behind its title.
const FIRST: usize = DISPLAY + 1;

/// Mends a page of the book that stands in S01 to S18 with other values. `turned` has the parameters whose values may be
/// others than those that are shown; `values` has the values to show, from -1000000 to 1000000. Only a row that shows one
/// of these parameters is compared, and it is written, and noted in `changed`, only where it differs. Costs a look at each
/// row of the page, and a comparison of each of these rows.
pub fn mend_page(
    book: &Book,
    page: Option<usize>,
    values: &[Option<i64>],
    turned: &Marked,
    picture: &mut Picture,
    changed: &mut [bool; ROWS],
)
    requires page { IfSome page (λ i. i < length book.now.pages.items) }
    requires values { length values.now ≡ length book.now.params.items }
    requires turned { length book.now.params.items ≤ room turned.now }
    requires short { AreShort values.now }
    requires whole { IsWhole (tracked picture.old.rows changed.old) }
    ensures whole { IsWhole (tracked picture.new.rows changed.new) }
    ensures rows { (d was : Display) → Displays (the_book book.now) values.now d
        → DifferBy (the_book book.now) turned.now was d
        → StandAt 15 (page_rows was (option_and_then (slice_get (the_book book.now).pages) page))
        (rows_of picture.old.rows)
        → Mends 15 (page_rows d (option_and_then (slice_get (the_book book.now).pages) page))
        (tracked picture.old.rows changed.old) (tracked picture.new.rows changed.new) }
{
    mend_zone(&mut picture.rows, changed, book, page, values, turned);
}

fn mend_zone(
    rows: &mut [Row],
    changed: &mut [bool],
    book: &Book,
    page: Option<usize>,
    values: &[Option<i64>],
    turned: &Marked,
)
    requires whole { IsWhole (tracked rows.old changed.old) }
    requires page { IfSome page (λ i. i < length book.now.pages.items) }
    requires values { length values.now ≡ length book.now.params.items }
    requires turned { length book.now.params.items ≤ room turned.now }
    requires short { AreShort values.now }
    ensures whole { IsWhole (tracked rows.new changed.new) }
    ensures rows { (d was : Display) → Displays (the_book book.now) values.now d
        → DifferBy (the_book book.now) turned.now was d
        → StandAt 15 (page_rows was (option_and_then (slice_get (the_book book.now).pages) page))
        (rows_of rows.old)
        → Mends 15 (page_rows d (option_and_then (slice_get (the_book book.now).pages) page))
        (tracked rows.old changed.old) (tracked rows.new changed.new) }
{
    match page {
        None => {}
        Some(page) => mend_lines(
            rows,
            changed,
            book,
            &book.pages()[page].rows,
            values,
            turned,
        ),
    }
}

// Mends the rows of a page that stand behind its title.
fn mend_lines(
    rows: &mut [Row],
    changed: &mut [bool],
    book: &Book,
    lines: &[PageRow],
    values: &[Option<i64>],
    turned: &Marked,
)
    requires whole { IsWhole (tracked rows.old changed.old) }
    requires few { length lines.now ≤ 17 }
    requires lines { All (IsSoundRow (length book.now.params.items)) (map row_of lines.now) }
    requires values { length values.now ≡ length book.now.params.items }
    requires turned { length book.now.params.items ≤ room turned.now }
    requires short { AreShort values.now }
    ensures whole { IsWhole (tracked rows.new changed.new) }
    ensures rows { (d was : Display) → Displays (the_book book.now) values.now d
        → DifferBy (the_book book.now) turned.now was d
        → StandAt FIRST (lines_of was (map row_of lines.now)) (rows_of rows.old)
        → Mends FIRST (lines_of d (map row_of lines.now)) (tracked rows.old changed.old)
        (tracked rows.new changed.new) }
{
    for i in 0..lines.len() {
        mend_line(rows, changed, FIRST + i, book, &lines[i], values, turned);
    }
}

// Mends the row that stands at `place`.
fn mend_line(
    rows: &mut [Row],
    changed: &mut [bool],
    place: usize,
    book: &Book,
    line: &PageRow,
    values: &[Option<i64>],
    turned: &Marked,
)
    requires whole { IsWhole (tracked rows.old changed.old) }
    requires place { place < ROWS }
    requires line { IsSoundRow (length book.now.params.items) (row_of line.now) }
    requires values { length values.now ≡ length book.now.params.items }
    requires turned { length book.now.params.items ≤ room turned.now }
    requires short { AreShort values.now }
    ensures whole { IsWhole (tracked rows.new changed.new) }
    ensures row { (d was : Display) → Displays (the_book book.now) values.now d
        → DifferBy (the_book book.now) turned.now was d
        → StandAt place (page_row was (row_of line.now) line.now.show ∷ []) (rows_of rows.old)
        → Mends place (page_row d (row_of line.now) line.now.show ∷ [])
        (tracked rows.old changed.old) (tracked rows.new changed.new) }
{
    if shows_turned(line, turned) {
        let mut text = RowText::new();
        let colour = write_row(&mut text, book, line, values);
        set_row(rows, changed, place, colour, text.as_slice());
    }
}

// Whether a row shows a parameter whose value may have turned.
fn shows_turned(line: &PageRow, turned: &Marked) -> bool
    requires { IfSome line.now.show (λ p. p < room turned.now) }
    ensures { result ≡ false
        → IfSome line.now.show (λ p. is_marked turned.now p ≡ false) }
{
    match line.show {
        None => false,
        Some(param) => turned.has(param as usize),
    }
}
