// The left zone.
ghost use Rattle.std.specs.Prelude.{◌≡◌, ◌+◌, ◌≤◌, ◌<◌, ℕ, Bool, List, [], length, nat_le, if◌then◌else◌};
ghost use Rattle.ecam_spec.specs.Book as plain;
ghost use Rattle.ecam_spec.specs.BookTerms.{lines_of};
ghost use Rattle.ecam_spec.specs.LeftZone.{LeftRow, left_rows, overflow};
ghost use Rattle.book_model.specs.View.{memo_of};
ghost use Rattle.book_model.specs.Sealed.{the_book};
ghost use Rattle.zone_rows.specs.Tracked.{TrackedRows, tracked, IsWhole};
ghost use Rattle.zone_rows.specs.Mended.{Appends, IsFilled};
ghost use Rattle.std.specs.Prelude.{filter, map, take, true, IfSome};
ghost use Rattle.ecam_spec.specs.declared.limits.TheConstants.{MEMOS};
ghost use Rattle.ecam_spec.specs.Screen.{order};
ghost use Rattle.book_model.specs.Told.{TellsOf, flagged, TellsBelow};
ghost use Rattle.warning_display.specs.Memos.{memo_rows};
ghost use Rattle.warning_display.specs.ShownPlaces.{HasPlaces};
ghost use Rattle.warning_display.specs.LeftRows.{alert_block, in_order, rows_in, blocks, left_of, FillsLeft};

use crate::counted::ZONE;
use crate::memos::put_memos;
use crate::procedure::{part, put_alert};
use crate::search::{count_shown, next_shown};
use book_model::{Book, Memo};
use ecam_kinds::{Colour, Picture, ROWS, Row};
use wakes::Marked;
use zone_rows::{LEFT, blank_rest, put_next};

/// What doesn't fit into the seven rows of the left zone: how many titles stand beyond them, and whether any row
/// does.
#[derive(Clone, Copy, Debug, PartialEq, Eq)]
pub struct LeftCount {
    pub beyond: u32,
    pub more: bool,
}

// Puts the rows of an alert.
fn put_block(
    rows: &mut [Row],
    changed: &mut [bool],
    count: usize,
    book: &Book,
    alert: usize,
    lines: &[bool],
) -> usize
    requires whole { IsWhole (tracked rows.old changed.old) }
    requires alert { alert < length book.now.alerts.items }
    requires lines { length lines.now ≡ length (lines_of (the_book book.now).alerts) }
    ensures whole { IsWhole (tracked rows.new changed.new) }
    ensures rows { (stands : plain.Line → Bool)
        → TellsOf lines.now (lines_of (the_book book.now).alerts) stands
        → Appends 0 7 (alert_block (the_book book.now) stands alert) count result
        (tracked rows.old changed.old) (tracked rows.new changed.new) }
{
    let own = &book.alerts()[alert];
    let stands = part(lines, book.line_at(alert), own.lines.len());
    put_alert(rows, changed, count, own, stands)
}

// Puts the rows of the shown alerts in their order, until seven rows stand. Answers how many rows were put, as
// `put_next` counts them, and the place of the next shown alert, which is the end where there is none.
fn put_first(
    rows: &mut [Row],
    changed: &mut [bool],
    book: &Book,
    shown: &[bool],
    ranked: Option<&Marked>,
    lines: &[bool],
) -> (usize, usize)
    requires whole { IsWhole (tracked rows.old changed.old) }
    requires shown { length shown.now ≡ length book.now.alerts.items }
    requires ranked { IfSome ranked
        (λ set. HasPlaces (order (the_book book.now)) shown.now set.now) }
    requires lines { length lines.now ≡ length (lines_of (the_book book.now).alerts) }
    ensures whole { IsWhole (tracked rows.new changed.new) }
    ensures next { result.1 ≤ length (order (the_book book.now)) }
    ensures all { result.0 < 7 → result.1 ≡ length (order (the_book book.now)) }
    ensures rows { (stands : plain.Line → Bool)
        → TellsOf lines.now (lines_of (the_book book.now).alerts) stands
        → let alerts = filter (flagged shown.now) (take result.1 (order (the_book book.now))) in
        Appends 0 7 (rows_in (blocks (the_book book.now) stands alerts)) 0 result.0
        (tracked rows.old changed.old) (tracked rows.new changed.new) }
    ensures titles { (stands : plain.Line → Bool)
        → TellsOf lines.now (lines_of (the_book book.now).alerts) stands
        → let alerts = filter (flagged shown.now) (take result.1 (order (the_book book.now))) in
        overflow (blocks (the_book book.now) stands alerts) ≡ 0 }
{
    let order = book.order();
    let mut count = 0;
    let mut next = next_shown(order, shown, ranked, 0);
    while next < order.len() {
        if count >= ZONE {
            return (count, next);
        }
        count = put_block(rows, changed, count, book, order[next] as usize, lines);
        next = next_shown(order, shown, ranked, next + 1);
    }
    (count, next)
}

// Puts the rows of the shown alerts in their order. Answers how many rows were put, as `put_next` counts them, and
// how many titles stand beyond the seventh.
fn put_alerts(
    rows: &mut [Row],
    changed: &mut [bool],
    book: &Book,
    shown: &[bool],
    ranked: Option<&Marked>,
    lines: &[bool],
) -> (usize, u32)
    requires whole { IsWhole (tracked rows.old changed.old) }
    requires shown { length shown.now ≡ length book.now.alerts.items }
    requires ranked { IfSome ranked
        (λ set. HasPlaces (order (the_book book.now)) shown.now set.now) }
    requires lines { length lines.now ≡ length (lines_of (the_book book.now).alerts) }
    ensures whole { IsWhole (tracked rows.new changed.new) }
    ensures rows { (stands : plain.Line → Bool)
        → TellsOf lines.now (lines_of (the_book book.now).alerts) stands
        → let alerts = in_order (the_book book.now) (flagged shown.now) in
        Appends 0 7 (rows_in (blocks (the_book book.now) stands alerts)) 0 result.0
        (tracked rows.old changed.old) (tracked rows.new changed.new) }
    ensures titles { (stands : plain.Line → Bool)
        → TellsOf lines.now (lines_of (the_book book.now).alerts) stands
        → result.1 ≡ overflow (blocks (the_book book.now) stands
        (in_order (the_book book.now) (flagged shown.now))) }
{
    let (count, next) = put_first(rows, changed, book, shown, ranked, lines);
    let beyond = count_shown(book.order(), shown, ranked, next);
    if beyond > 0 {
        return (ZONE + 1, beyond);
    }
    (count, 0)
}

// Where no row was put, puts NORMAL or the left memos that hold.
fn put_calm(
    rows: &mut [Row],
    changed: &mut [bool],
    count: usize,
    memos: &[Memo],
    holds: &[bool],
    normal: bool,
) -> usize
    requires whole { IsWhole (tracked rows.old changed.old) }
    requires told { length holds.now ≡ length memos.now }
    requires few { length memos.now ≤ MEMOS }
    ensures whole { IsWhole (tracked rows.new changed.new) }
    ensures rows { (test : plain.Memo → Bool) → TellsOf holds.now (map memo_of memos.now) test
        → (left : List LeftRow) (start : TrackedRows)
        → IsFilled 0 7 (rows_in left) count start (tracked rows.old changed.old)
        → IsFilled 0 7 (rows_in (left_rows left normal
        (memo_rows true test (map memo_of memos.now)))) result start
        (tracked rows.new changed.new) }
{
    if count > 0 {
        return count;
    }
    if normal {
        return put_next(rows, changed, LEFT, ZONE, 0, Colour::Green, b"NORMAL");
    }
    put_memos(rows, changed, LEFT, 0, memos, true, holds).min(ZONE + 1)
}

fn fill_zone(
    rows: &mut [Row],
    changed: &mut [bool],
    book: &Book,
    shown: &[bool],
    ranked: Option<&Marked>,
    lines: &[bool],
    memos: &[bool],
    normal: bool,
) -> LeftCount
    requires whole { IsWhole (tracked rows.old changed.old) }
    requires shown { length shown.now ≡ length book.now.alerts.items }
    requires ranked { IfSome ranked
        (λ set. HasPlaces (order (the_book book.now)) shown.now set.now) }
    requires lines { length lines.now ≡ length (lines_of (the_book book.now).alerts) }
    requires memos { length memos.now ≡ length book.now.memos.items }
    ensures whole { IsWhole (tracked rows.new changed.new) }
    ensures rows { (stands : plain.Line → Bool) (holds : plain.Memo → Bool)
        → TellsOf lines.now (lines_of (the_book book.now).alerts) stands
        → TellsOf memos.now (the_book book.now).memos holds
        → let alerts = in_order (the_book book.now) (flagged shown.now) in
        FillsLeft (left_of (the_book book.now) stands holds alerts normal) result
        (tracked rows.old changed.old) (tracked rows.new changed.new) }
{
    let (titled, beyond) = put_alerts(rows, changed, book, shown, ranked, lines);
    let count = put_calm(rows, changed, titled, book.memos(), memos, normal);
    blank_rest(rows, changed, LEFT, ZONE, count);
    LeftCount {
        beyond,
        more: count > ZONE,
    }
}

/// Fills L1 to L7: of each shown alert, in order, the title and the lines that stand; where nothing is shown,
/// NORMAL or the left memos that hold. `shown` has a flag for each alert of the book, `lines` for each procedure
/// line, `memos` for each memo. Costs a look at the flag of each alert, and at the lines of those that are drawn; behind
/// the seventh row nothing is drawn, and of each alert only its flag is counted.
pub fn fill_left(
    book: &Book,
    shown: &[bool],
    lines: &[bool],
    memos: &[bool],
    normal: bool,
    picture: &mut Picture,
    changed: &mut [bool; ROWS],
) -> LeftCount
    requires shown { length shown.now ≡ length book.now.alerts.items }
    requires lines { length lines.now ≡ length (lines_of (the_book book.now).alerts) }
    requires memos { length memos.now ≡ length book.now.memos.items }
    ensures whole { IsWhole (tracked picture.new.rows changed.new) }
    ensures rows { (is_shown : ℕ → Bool) (stands : plain.Line → Bool) (holds : plain.Memo → Bool)
        → TellsBelow (length book.now.alerts.items) shown.now is_shown
        → TellsOf lines.now (lines_of (the_book book.now).alerts) stands
        → TellsOf memos.now (the_book book.now).memos holds
        → let alerts = in_order (the_book book.now) is_shown in
        FillsLeft (left_of (the_book book.now) stands holds alerts normal) result
        (tracked picture.old.rows changed.old) (tracked picture.new.rows changed.new) }
{
    fill_zone(
        &mut picture.rows,
        changed,
        book,
        shown,
        None,
        lines,
        memos,
        normal,
    )
}

/// The same, where `ranked` has the places of the shown alerts in the book's order. Costs a look for each 64 alerts, and at
/// the lines of those that are drawn.
pub fn fill_left_ranked(
    book: &Book,
    shown: &[bool],
    ranked: &Marked,
    lines: &[bool],
    memos: &[bool],
    normal: bool,
    picture: &mut Picture,
    changed: &mut [bool; ROWS],
) -> LeftCount
    requires shown { length shown.now ≡ length book.now.alerts.items }
    requires ranked { HasPlaces (order (the_book book.now)) shown.now ranked.now }
    requires lines { length lines.now ≡ length (lines_of (the_book book.now).alerts) }
    requires memos { length memos.now ≡ length book.now.memos.items }
    ensures whole { IsWhole (tracked picture.new.rows changed.new) }
    ensures rows { (is_shown : ℕ → Bool) (stands : plain.Line → Bool) (holds : plain.Memo → Bool)
        → TellsBelow (length book.now.alerts.items) shown.now is_shown
        → TellsOf lines.now (lines_of (the_book book.now).alerts) stands
        → TellsOf memos.now (the_book book.now).memos holds
        → let alerts = in_order (the_book book.now) is_shown in
        FillsLeft (left_of (the_book book.now) stands holds alerts normal) result
        (tracked picture.old.rows changed.old) (tracked picture.new.rows changed.new) }
{
    fill_zone(
        &mut picture.rows,
        changed,
        book,
        shown,
        Some(ranked),
        lines,
        memos,
        normal,
    )
}
