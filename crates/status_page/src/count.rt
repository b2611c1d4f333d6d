// How many rows the status page has, and whether it has any.
ghost use Rattle.std.specs.Prelude.{◌≡◌, ◌+◌, ◌*◌, ◌≤◌, ℕ, Bool, nat_lt, length, get_or, true, false, IfSome};
ghost use Rattle.ecam_spec.specs.declared.limits.TheConstants.{ALERTS, STATUS_LINES};
ghost use Rattle.book_model.specs.Sealed.{the_book};
ghost use Rattle.book_model.specs.Told.{TellsBelow};
ghost use Rattle.wakes.specs.Marks.{is_marked};
ghost use Rattle.status_page.specs.StatusOf.{TellsStatusLines, status_of};

use crate::near::{next_among, next_known};
use book_model::Book;
use wakes::Marked;

/// How many rows the status page has, on all its pages: the status lines of the active alerts, and where some of these
/// alerts are cancelled, their heading and their titles. `active` and `cancelled` have a flag for each alert of the
/// book. Costs a look at each flag of `active`, and at each active alert; it gathers none.
pub fn status_rows(book: &Book, active: &[bool], cancelled: &[bool]) -> u32
    requires active { length active.now ≡ length book.now.alerts.items }
    requires cancelled { length cancelled.now ≡ length book.now.alerts.items }
    ensures few { result ≤ STATUS_LINES * ALERTS + ALERTS + 1 }
    ensures rows { (is_active is_cancelled : ℕ → Bool)
        → TellsBelow (length book.now.alerts.items) active.now is_active
        → TellsBelow (length book.now.alerts.items) cancelled.now is_cancelled
        → result ≡ length (status_of (the_book book.now) is_active is_cancelled) }
{
    count_rows(book, None, active, cancelled)
}

/// The same, where it may be known which alerts are near: then it costs a look for each 64 alerts, at the flag of each near
/// one, and at each active alert.
pub(crate) fn count_rows(
    book: &Book,
    near: Option<&Marked>,
    active: &[bool],
    cancelled: &[bool],
) -> u32
    requires active { length active.now ≡ length book.now.alerts.items }
    requires cancelled { length cancelled.now ≡ length book.now.alerts.items }
    requires near { IfSome near (λ n. (a : ℕ) → get_or active.now a false ≡ true
        → is_marked n.now a ≡ true) }
    ensures few { result ≤ STATUS_LINES * ALERTS + ALERTS + 1 }
    ensures rows { (is_active is_cancelled : ℕ → Bool)
        → TellsBelow (length book.now.alerts.items) active.now is_active
        → TellsBelow (length book.now.alerts.items) cancelled.now is_cancelled
        → result ≡ length (status_of (the_book book.now) is_active is_cancelled) }
{
    let alerts = book.alerts();
    let mut lines = 0u32;
    let mut titles = 0u32;
    let mut next = next_known(near, active, 0);
    while next < alerts.len() {
        lines += alerts[next].status.len() as u32;
        titles += u32::from(cancelled[next]);
        next = next_known(near, active, next + 1);
    }
    if titles > 0 {
        lines + titles + 1
    } else {
        lines
    }
}

/// Whether any alert of the book has status lines. Costs a look at each alert, up to the first that has some.
pub fn has_status_lines(book: &Book) -> bool
    ensures { TellsStatusLines (the_book book.now) result }
{
    let alerts = book.alerts();
    for alert in 0..alerts.len() {
        if !alerts[alert].status.is_empty() {
            return true;
        }
    }
    false
}

// Whether a flag is set. It looks at each, and doesn't end at the first that is set, so that it looks at many at once.
fn has_any(flags: &[bool]) -> bool
    ensures { result ≡ false → (i : ℕ) → get_or flags.now i false ≡ false }
{
    let mut any = false;
    for i in 0..flags.len() {
        any |= flags[i];
    }
    any
}

/// Whether it is known without a look at any alert that the status page has no row, since no alert of the book has status
/// lines and none is cancelled. Costs a look at each flag of `cancelled` where there are no such lines.
pub(crate) fn is_surely_bare(
    _book: &Book,
    has_status_lines: bool,
    _active: &[bool],
    cancelled: &[bool],
) -> bool
    requires lines { TellsStatusLines (the_book _book.now) has_status_lines }
    ensures { result ≡ true → (is_active is_cancelled : ℕ → Bool)
        → TellsBelow (length _book.now.alerts.items) _active.now is_active
        → TellsBelow (length _book.now.alerts.items) cancelled.now is_cancelled
        → length (status_of (the_book _book.now) is_active is_cancelled) ≡ 0 }
{
    if has_status_lines {
        return false;
    }
    !has_any(cancelled)
}

/// Whether the status page has any row, where each active alert is near, and `has_status_lines` tells whether any alert of the
/// book has status lines. Where it isn't set it costs a look at each flag of `cancelled`, and nothing more where none is set.
/// Else, or where one is, it costs a look for each 64 alerts and at each near one, up to the first that has rows there.
pub fn has_status_rows_among(
    book: &Book,
    has_status_lines: bool,
    near: &Marked,
    active: &[bool],
    cancelled: &[bool],
) -> bool
    requires lines { TellsStatusLines (the_book book.now) has_status_lines }
    requires active { length active.now ≡ length book.now.alerts.items }
    requires cancelled { length cancelled.now ≡ length book.now.alerts.items }
    requires near { (a : ℕ) → get_or active.now a false ≡ true → is_marked near.now a ≡ true }
    ensures { (is_active is_cancelled : ℕ → Bool)
        → TellsBelow (length book.now.alerts.items) active.now is_active
        → TellsBelow (length book.now.alerts.items) cancelled.now is_cancelled
        → result ≡ nat_lt 0 (length (status_of (the_book book.now) is_active is_cancelled)) }
{
    if is_surely_bare(book, has_status_lines, active, cancelled) {
        return false;
    }
    let alerts = book.alerts();
    let mut next = next_among(near, active, 0);
    while next < alerts.len() {
        let has_rows = !alerts[next].status.is_empty() | cancelled[next];
        if has_rows {
            return true;
        }
        next = next_among(near, active, next + 1);
    }
    false
}
