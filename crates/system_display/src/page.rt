// A page on the system display, S01 to S18.
ghost use Rattle.std.specs.Prelude.{◌≡◌, ◌<◌, ◌≤◌, ℕ, List, [], ◌∷◌, map, length, Option, Some, slice_get, All, IfSome};
ghost use Rattle.std.specs.Option.{option_and_then};
ghost use Rattle.ecam_spec.specs.KeepsLimits.{IsSoundRow, IsSoundPage};
ghost use Rattle.ecam_spec.specs.SystemDisplay.{Display, page_rows};
ghost use Rattle.book_model.specs.Sealed.{the_book};
ghost use Rattle.book_model.specs.View.{page_of, row_of};
ghost use Rattle.zone_rows.specs.Tracked.{tracked, IsWhole};
ghost use Rattle.zone_rows.specs.Mended.{Mends, IsFilled, Appends};
ghost use Rattle.system_display.specs.Pages.{Displays, AreShort, lines_of, rows_on};

use crate::row_text::{RowText, write_row};
use book_model::{Book, Page, PageRow};
use ecam_kinds::{Colour, Picture, ROWS, Row};
use ecam_spec::limits;
use zone_rows::{DISPLAY, blank_rest, put_next};

/// How many rows the system display has.
const ROOM: usize = limits::DISPLAY_ROWS;

/// Shows a page of the book in S01 to S18: its title in white, then its rows with their values, then blank rows;
/// without a page all 18 rows become blank. `values` has the value of each parameter, from -1000000 to 1000000.
/// A row is written, and noted in `changed`, only where it differs from what stands there. Costs a comparison of
/// each of the 18 rows, and one look-up of a value for each row that shows one.
pub fn fill_page(
    book: &Book,
    page: Option<usize>,
    values: &[Option<i64>],
    picture: &mut Picture,
    changed: &mut [bool; ROWS],
)
    requires page { IfSome page (λ i. i < length book.now.pages.items) }
    requires values { length values.now ≡ length book.now.params.items }
    requires short { AreShort values.now }
    ensures whole { IsWhole (tracked picture.new.rows changed.new) }
    ensures rows { (d : Display) → Displays (the_book book.now) values.now d
        → Mends 15 (page_rows d (option_and_then (slice_get (the_book book.now).pages) page))
        (tracked picture.old.rows changed.old) (tracked picture.new.rows changed.new) }
{
    fill_zone(&mut picture.rows, changed, book, page, values);
}

fn fill_zone(
    rows: &mut [Row],
    changed: &mut [bool],
    book: &Book,
    page: Option<usize>,
    values: &[Option<i64>],
)
    requires whole { IsWhole (tracked rows.old changed.old) }
    requires page { IfSome page (λ i. i < length book.now.pages.items) }
    requires values { length values.now ≡ length book.now.params.items }
    requires short { AreShort values.now }
    ensures whole { IsWhole (tracked rows.new changed.new) }
    ensures rows { (d : Display) → Displays (the_book book.now) values.now d
        → Mends 15 (page_rows d (option_and_then (slice_get (the_book book.now).pages) page))
        (tracked rows.old changed.old) (tracked rows.new changed.new) }
{
    match page {
        None => blank_rest(rows, changed, DISPLAY, ROOM, 0),
        Some(page) => {
            let count = put_page(rows, changed, book, &book.pages()[page], values);
            blank_rest(rows, changed, DISPLAY, ROOM, count);
        }
    }
}

// Puts the title of a page and its rows, and answers how many these are.
fn put_page(
    rows: &mut [Row],
    changed: &mut [bool],
    book: &Book,
    page: &Page,
    values: &[Option<i64>],
) -> usize
    requires whole { IsWhole (tracked rows.old changed.old) }
    requires page { IsSoundPage (length book.now.params.items) (page_of page.now) }
    requires values { length values.now ≡ length book.now.params.items }
    requires short { AreShort values.now }
    ensures whole { IsWhole (tracked rows.new changed.new) }
    ensures put { (d : Display) → Displays (the_book book.now) values.now d
        → IsFilled DISPLAY ROOM (rows_on d (Some (page_of page.now))) result
        (tracked rows.old changed.old) (tracked rows.new changed.new) }
{
    let count = put_next(
        rows,
        changed,
        DISPLAY,
        ROOM,
        0,
        Colour::White,
        page.title.as_bytes(),
    );
    put_lines(rows, changed, count, book, &page.rows, values)
}

// Puts lines of a page after the `before` rows that were put, and answers how many there are then.
fn put_lines(
    rows: &mut [Row],
    changed: &mut [bool],
    before: usize,
    book: &Book,
    lines: &[PageRow],
    values: &[Option<i64>],
) -> usize
    requires whole { IsWhole (tracked rows.old changed.old) }
    requires lines { All (IsSoundRow (length book.now.params.items)) (map row_of lines.now) }
    requires values { length values.now ≡ length book.now.params.items }
    requires short { AreShort values.now }
    ensures whole { IsWhole (tracked rows.new changed.new) }
    ensures put { (d : Display) → Displays (the_book book.now) values.now d
        → Appends DISPLAY ROOM (lines_of d (map row_of lines.now)) before result
        (tracked rows.old changed.old) (tracked rows.new changed.new) }
{
    let mut text = RowText::new();
    let mut count = before;
    for line in lines {
        let colour = write_row(&mut text, book, line, values);
        count = put_next(rows, changed, DISPLAY, ROOM, count, colour, text.as_slice());
    }
    count
}
