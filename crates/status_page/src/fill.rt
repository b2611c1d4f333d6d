// The eighteen rows of one status page.
ghost use Rattle.std.specs.Prelude.{◌≡◌, ◌+◌, ◌*◌, ◌/◌, ◌%◌, ◌≤◌, ◌<◌, ℕ, Bool, true, false, [], ◌∷◌, codes, drop, length, get_or, All, IfSome};
ghost use Rattle.ecam_spec.specs.declared.kinds.Colour.TheVariants.{Green};
ghost use Rattle.ecam_spec.specs.declared.limits.TheConstants.{ALERTS, DISPLAY_ROWS, STATUS_LINES};
ghost use Rattle.ecam_spec.specs.Picture.{row, zone};
ghost use Rattle.ecam_spec.specs.StatusPage.{status_page};
ghost use Rattle.book_model.specs.Sealed.{the_book};
ghost use Rattle.zone_rows.specs.Tracked.{tracked, IsWhole};
ghost use Rattle.zone_rows.specs.Mended.{Mends};
ghost use Rattle.status_page.specs.Behind.{AppendsBehind};
ghost use Rattle.book_model.specs.Told.{TellsBelow, flagged};
ghost use Rattle.wakes.specs.Marks.{is_marked};
ghost use Rattle.status_page.specs.StatusOf.{TellsStatusLines, rows_at, status_of};

use crate::active::{Places, gather};
use crate::cancelled::put_cancelled;
use crate::count::{count_rows, is_surely_bare};
use crate::place::{Place, ROOM};
use crate::sections::put_section;
use book_model::Book;
use ecam_kinds::{Colour, Picture, ROWS, Row};
use ecam_spec::limits;
use wakes::Marked;
use zone_rows::{DISPLAY, blank_rest, put_next};

// The rows of a page.
const PAGE: u32 = limits::DISPLAY_ROWS as u32;

/// Fills S01 to S18 with the rows of status page `page`, counted from 0 and round: the lines of the active alerts by
/// sections, limitations, approach, procedure, information and inop, then the cancelled cautions; NORMAL where there
/// are none. `active` and `cancelled` have a flag for each alert of the book. Costs two looks at each flag of `active`,
/// one at each active alert for its count, each section and the cancelled ones, room for their places, and the rows that
/// differ from what stands; NORMAL costs the count and the rows alone.
pub fn fill_status(
    book: &Book,
    active: &[bool],
    cancelled: &[bool],
    page: u32,
    picture: &mut Picture,
    changed: &mut [bool; ROWS],
)
    requires active { length active.now ≡ length book.now.alerts.items }
    requires cancelled { length cancelled.now ≡ length book.now.alerts.items }
    ensures whole { IsWhole (tracked picture.new.rows changed.new) }
    ensures rows { (is_active is_cancelled : ℕ → Bool)
        → TellsBelow (length book.now.alerts.items) active.now is_active
        → TellsBelow (length book.now.alerts.items) cancelled.now is_cancelled
        → Mends 15 (status_page page (status_of (the_book book.now) is_active is_cancelled))
        (tracked picture.old.rows changed.old) (tracked picture.new.rows changed.new) }
{
    fill_known(book, None, active, cancelled, page, picture, changed)
}

/// The same, where each active alert is near, and `has_status_lines` tells whether any alert of the book has status lines.
/// Where it isn't set, it first costs a look at each flag of `cancelled`, and where none is set, the rows alone besides. Else,
/// or where one is, it costs in place of the two looks at each flag of `active` as often a look for each 64 alerts, and at the
/// flag of each near one.
pub fn fill_status_among(
    book: &Book,
    has_status_lines: bool,
    near: &Marked,
    active: &[bool],
    cancelled: &[bool],
    page: u32,
    picture: &mut Picture,
    changed: &mut [bool; ROWS],
)
    requires active { length active.now ≡ length book.now.alerts.items }
    requires cancelled { length cancelled.now ≡ length book.now.alerts.items }
    requires lines { TellsStatusLines (the_book book.now) has_status_lines }
    requires near { (a : ℕ) → get_or active.now a false ≡ true → is_marked near.now a ≡ true }
    ensures whole { IsWhole (tracked picture.new.rows changed.new) }
    ensures rows { (is_active is_cancelled : ℕ → Bool)
        → TellsBelow (length book.now.alerts.items) active.now is_active
        → TellsBelow (length book.now.alerts.items) cancelled.now is_cancelled
        → Mends 15 (status_page page (status_of (the_book book.now) is_active is_cancelled))
        (tracked picture.old.rows changed.old) (tracked picture.new.rows changed.new) }
{
    if is_surely_bare(book, has_status_lines, active, cancelled) {
        fill_normal(&mut picture.rows, changed);
        return;
    }
    fill_known(book, Some(near), active, cancelled, page, picture, changed)
}

// The same, where it may be known which alerts are near.
fn fill_known(
    book: &Book,
    near: Option<&Marked>,
    active: &[bool],
    cancelled: &[bool],
    page: u32,
    picture: &mut Picture,
    changed: &mut [bool; ROWS],
)
    requires active { length active.now ≡ length book.now.alerts.items }
    requires cancelled { length cancelled.now ≡ length book.now.alerts.items }
    requires near { IfSome near (λ n. (a : ℕ) → get_or active.now a false ≡ true
        → is_marked n.now a ≡ true) }
    ensures whole { IsWhole (tracked picture.new.rows changed.new) }
    ensures rows { (is_active is_cancelled : ℕ → Bool)
        → TellsBelow (length book.now.alerts.items) active.now is_active
        → TellsBelow (length book.now.alerts.items) cancelled.now is_cancelled
        → Mends 15 (status_page page (status_of (the_book book.now) is_active is_cancelled))
        (tracked picture.old.rows changed.old) (tracked picture.new.rows changed.new) }
{
    let many = count_rows(book, near, active, cancelled);
    if many == 0 {
        fill_normal(&mut picture.rows, changed);
        return;
    }
    let mut places = Places::new();
    gather(&mut places, book, near, active);
    let first = first_row(page, many);
    fill_page(
        &mut picture.rows,
        changed,
        book,
        places.as_slice(),
        cancelled,
        first,
    );
}

// The number of the first row of a page, of so many rows in all, counted round.
fn first_row(page: u32, many: u32) -> usize
    requires some { 0 < many }
    requires few { many ≤ STATUS_LINES * ALERTS + ALERTS + 1 }
    ensures { result ≡ 18 * (page % ((many + 17) / 18)) }
{
    let pages = (many + (PAGE - 1)) / PAGE;
    (PAGE * (page % pages)) as usize
}

// Where the status page has no row, NORMAL stands alone.
fn fill_normal(rows: &mut [Row], changed: &mut [bool])
    requires whole { IsWhole (tracked rows.old changed.old) }
    ensures whole { IsWhole (tracked rows.new changed.new) }
    ensures rows { Mends 15 (zone DISPLAY_ROWS (row Green (codes "NORMAL") ∷ []))
        (tracked rows.old changed.old) (tracked rows.new changed.new) }
{
    let count = put_next(rows, changed, DISPLAY, ROOM, 0, Colour::Green, b"NORMAL");
    blank_rest(rows, changed, DISPLAY, ROOM, count);
}

// Fills the page that begins at row `first` of the status page of the active alerts at these places.
fn fill_page(
    rows: &mut [Row],
    changed: &mut [bool],
    book: &Book,
    places: &[u16],
    cancelled: &[bool],
    first: usize,
)
    requires whole { IsWhole (tracked rows.old changed.old) }
    requires within { All (λ a. a < length book.now.alerts.items) places.now }
    requires cancelled { length cancelled.now ≡ length book.now.alerts.items }
    ensures whole { IsWhole (tracked rows.new changed.new) }
    ensures rows { Mends 15 (zone DISPLAY_ROWS
        (drop first (rows_at (the_book book.now) places.now (flagged cancelled.now))))
        (tracked rows.old changed.old) (tracked rows.new changed.new) }
{
    let start = Place {
        skip: first,
        count: 0,
    };
    let last = put_all(rows, changed, start, book, places, cancelled);
    blank_rest(rows, changed, DISPLAY, ROOM, last.count);
}

// Puts all rows of the status page, of which those of earlier pages are passed over.
fn put_all(
    rows: &mut [Row],
    changed: &mut [bool],
    place: Place,
    book: &Book,
    places: &[u16],
    cancelled: &[bool],
) -> Place
    requires whole { IsWhole (tracked rows.old changed.old) }
    requires within { All (λ a. a < length book.now.alerts.items) places.now }
    requires cancelled { length cancelled.now ≡ length book.now.alerts.items }
    ensures whole { IsWhole (tracked rows.new changed.new) }
    ensures rows { AppendsBehind
        (rows_at (the_book book.now) places.now (flagged cancelled.now)) place result
        (tracked rows.old changed.old) (tracked rows.new changed.new) }
{
    let limitations = put_section(rows, changed, place, book, places, 0, Colour::Cyan);
    let approach = put_section(rows, changed, limitations, book, places, 1, Colour::White);
    let procedure = put_section(rows, changed, approach, book, places, 2, Colour::Cyan);
    let information = put_section(rows, changed, procedure, book, places, 3, Colour::Green);
    let inop = put_section(rows, changed, information, book, places, 4, Colour::Amber);
    put_cancelled(rows, changed, inop, book, places, cancelled)
}
