// The right zone.
ghost use Rattle.std.specs.Prelude.{◌≡◌, ◌+◌, ◌≤◌, ◌<◌, ◌^◌, ℕ, Bool, [], ◌∷◌, map, length, slice_index_or, false};
ghost use Rattle.ecam_spec.specs.Book as plain;
ghost use Rattle.ecam_spec.specs.Screen.{alert_numbers};
ghost use Rattle.book_model.specs.View.{bytes_of};
ghost use Rattle.book_model.specs.Sealed.{the_book};
ghost use Rattle.zone_rows.specs.Tracked.{tracked, IsWhole};
ghost use Rattle.book_model.specs.Told.{TellsOf, flagged, TellsBelow};
ghost use Rattle.warning_display.specs.Counted.{Adds};
ghost use Rattle.warning_display.specs.RightRows.{is_marked, marked_rows, system_row, right_of, FillsRight};

use crate::counted::{ZONE, put_counted};
use crate::memos::put_memos;
use crate::search::next_set;
use arrayvec::ArrayVec;
use book_model::{Book, Text};
use ecam_kinds::{Colour, Picture, ROW_TEXT, ROWS, Row};
use ecam_spec::limits;
use zone_rows::{RIGHT, blank_rest};

// The most systems that a book has.
const SYSTEMS: usize = limits::SYSTEMS;

// Marks each system of which an alert is starred.
fn mark_systems(marks: &mut [bool], book: &Book, starred: &[bool])
    requires marks { length marks.old ≡ SYSTEMS }
    requires clear { (s : ℕ) → slice_index_or marks.old s false ≡ false }
    requires starred { length starred.now ≡ length book.now.alerts.items }
    ensures count { length marks.new ≡ SYSTEMS }
    ensures marked { (s : ℕ) → s < SYSTEMS → slice_index_or marks.new s false
        ≡ is_marked (the_book book.now) (flagged starred.now) (alert_numbers (the_book book.now))
        s }
{
    let alerts = book.alerts();
    let mut next = next_set(starred, 0, alerts.len());
    while next < alerts.len() {
        marks[alerts[next].system as usize] = true;
        next = next_set(starred, next + 1, alerts.len());
    }
}

fn put_system(rows: &mut [Row], changed: &mut [bool], total: usize, system: &Text) -> usize
    requires whole { IsWhole (tracked rows.old changed.old) }
    requires few { total < 2 ^ 63 }
    ensures whole { IsWhole (tracked rows.new changed.new) }
    ensures row { Adds 7 (system_row system.now.bytes ∷ []) total result
        (tracked rows.old changed.old) (tracked rows.new changed.new) }
{
    let mut text: ArrayVec<u8, ROW_TEXT> = ArrayVec::new();
    text.push(b'*');
    let _ = text.try_extend_from_slice(system.as_str().as_bytes());
    put_counted(rows, changed, RIGHT, total, Colour::Amber, text.as_slice())
}

// Puts the marked systems in their order, and answers how many they are.
fn put_systems(rows: &mut [Row], changed: &mut [bool], systems: &[Text], marks: &[bool]) -> usize
    requires whole { IsWhole (tracked rows.old changed.old) }
    requires few { length systems.now ≤ SYSTEMS }
    requires marks { length marks.now ≡ SYSTEMS }
    ensures whole { IsWhole (tracked rows.new changed.new) }
    ensures few { result ≤ SYSTEMS }
    ensures rows { Adds 7 (marked_rows (map bytes_of systems.now) marks.now (length systems.now)) 0
        result
        (tracked rows.old changed.old) (tracked rows.new changed.new) }
{
    let mut total = 0;
    let mut next = next_set(marks, 0, systems.len());
    while next < systems.len() {
        total = put_system(rows, changed, total, &systems[next]);
        next = next_set(marks, next + 1, systems.len());
    }
    total
}

fn fill_zone(
    rows: &mut [Row],
    changed: &mut [bool],
    book: &Book,
    starred: &[bool],
    memos: &[bool],
) -> u32
    requires whole { IsWhole (tracked rows.old changed.old) }
    requires starred { length starred.now ≡ length book.now.alerts.items }
    requires memos { length memos.now ≡ length book.now.memos.items }
    ensures whole { IsWhole (tracked rows.new changed.new) }
    ensures rows { (holds : plain.Memo → Bool) → TellsOf memos.now (the_book book.now).memos holds
        → FillsRight (right_of (the_book book.now) (flagged starred.now) holds) result
        (tracked rows.old changed.old) (tracked rows.new changed.new) }
{
    let mut marks = [false; SYSTEMS];
    mark_systems(&mut marks, book, starred);
    let systems = put_systems(rows, changed, book.systems(), &marks);
    let total = put_memos(rows, changed, RIGHT, systems, book.memos(), false, memos);
    blank_rest(rows, changed, RIGHT, ZONE, total.min(ZONE + 1));
    total.saturating_sub(ZONE) as u32
}

/// Fills R1 to R7: an asterisk and the name of each system, in the book's order, of which an alert is starred, and
/// then the right memos that hold. `starred` has a flag for each alert of the book, `memos` for each memo. Answers
/// how many rows stand beyond the seventh. Costs a look at the flag of each alert, at the mark of each system, at each
/// memo, and at the starred alerts.
pub fn fill_right(
    book: &Book,
    starred: &[bool],
    memos: &[bool],
    picture: &mut Picture,
    changed: &mut [bool; ROWS],
) -> u32
    requires starred { length starred.now ≡ length book.now.alerts.items }
    requires memos { length memos.now ≡ length book.now.memos.items }
    ensures whole { IsWhole (tracked picture.new.rows changed.new) }
    ensures rows { (is_starred : ℕ → Bool) (holds : plain.Memo → Bool)
        → TellsBelow (length book.now.alerts.items) starred.now is_starred
        → TellsOf memos.now (the_book book.now).memos holds
        → FillsRight (right_of (the_book book.now) is_starred holds) result
        (tracked picture.old.rows changed.old) (tracked picture.new.rows changed.new) }
{
    fill_zone(&mut picture.rows, changed, book, starred, memos)
}
