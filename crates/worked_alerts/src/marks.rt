// What the crew makes of the alerts, moment by moment. The expected values follow from the rules by hand.
ghost use Rattle.std.specs.Prelude.{◌≡◌, ◌+◌, ◌*◌, ◌≤◌, length, vec_len, IfOk, OnOk};
ghost use Rattle.book_model.specs.Sealed.{the_book};
ghost use Rattle.crew_marks.specs.CrewMarks.{CanGoOn};
ghost use Rattle.crew_marks.specs.MarksState.{MarksFit};

use super::small_book;
use book_model::Book;
use crew_marks::Marks;
use ecam_kinds::{Key, Keys};
use std::alloc::{AllocError, Global};
use std::process::Abort;
use std::test::Fail;

/// The alerts of the book by a letter each: a caution of level 2, a warning, which is shown before it, two that stay away,
/// and a caution of level 1, which is shown after them.
const LETTERS: &[u8] = b"yw??x";

// A flag for each of so many alerts: whether its letter is there.
fn flags(alloc: Global, alerts: usize, letters: &[u8]) -> Result<Vec<bool>, AllocError>
    ensures { IfOk result (λ v. vec_len v ≡ alerts) }
{
    let mut flags = Vec::new(alloc);
    for alert in 0..alerts {
        let letter = LETTERS.get(alert).copied().unwrap_or(b'-');
        flags.push(letters.contains(&letter))?;
    }
    Ok(flags)
}

// The keys that go down (`C`lear, `R`ecall, `E`mergency cancel) and RCL that goes up (`r`).
fn strike(keys: &mut Keys, letters: &[u8]) {
    if letters.contains(&b'C') {
        keys.press(Key::Clr);
    }
    if letters.contains(&b'R') {
        keys.press(Key::Rcl);
    }
    if letters.contains(&b'r') {
        keys.release(Key::Rcl);
    }
    if letters.contains(&b'E') {
        keys.press(Key::Emer);
    }
}

// One moment with these keys, in which phase 1 may start (`1`), and the alerts of a row are up and waiting.
fn step(
    alloc: Global,
    marks: &mut Marks,
    book: &Book,
    keys: &Keys,
    letters: &[u8],
    row: &[u8],
) -> Result<(), AllocError>
    requires fits { MarksFit (the_book book.now) marks.old }
    requires goes_on { CanGoOn marks.old }
    ensures fits { OnOk result (MarksFit (the_book book.now) marks.new) }
    ensures moments { OnOk result (marks.new.moments ≡ marks.old.moments + 1) }
{
    let alerts = marks.shown().len();
    let up = flags(alloc, alerts, column(row, 0))?;
    let waiting = flags(alloc, alerts, column(row, 1))?;
    marks.step(
        book,
        up.as_slice(),
        waiting.as_slice(),
        keys,
        letters.contains(&b'1'),
    );
    Ok(())
}

fn is(flags: &[bool], letters: &[u8]) -> bool {
    flags
        .iter()
        .zip(LETTERS)
        .all(|(flag, letter)| *flag == letters.contains(letter))
}

// The number of the first of these alerts.
fn first(letters: &[u8]) -> Option<u32> {
    match letters.first() {
        Some(b'y') => Some(0),
        Some(b'w') => Some(1),
        Some(b'x') => Some(4),
        _ => None,
    }
}

// Which letters stand in a column of a row.
fn column(row: &[u8], n: usize) -> &[u8] {
    row.split(|byte| *byte == b' ').nth(n).unwrap_or(b"-")
}

// Whether the marks are those of a row.
fn are(marks: &Marks, row: &[u8], normal: bool) -> bool {
    is(marks.shown(), column(row, 3))
        && is(marks.cleared(), column(row, 4))
        && is(marks.cancelled(), column(row, 5))
        && is(marks.recalled(), column(row, 6))
        && marks.first() == first(column(row, 3))
        && marks.target() == first(column(row, 7))
        && marks.normal() == normal
}

// Whether two rows have the same sets.
fn same_sets(row: &[u8], other: &[u8]) -> bool {
    (3..7usize).all(|n| column(row, n) == column(other, n))
}

/// What comes in the first of some moments, how many moments these are (0: all moments are forgotten), and then the alerts
/// that are up, and that wait; those that are shown, in order, cleared, cancelled, and recalled; the target. At the end
/// stands NORMAL.
type Row = (&'static [u8], u8, &'static [u8], bool);

// The moments of a row.
fn play(
    alloc: Global,
    marks: &mut Marks,
    other: &mut Marks,
    book: &Book,
    keys: &mut Keys,
    told: Row,
) -> Result<(), AllocError>
    requires fits { MarksFit (the_book book.now) marks.old }
    requires other { MarksFit (the_book book.now) other.old }
    requires few { marks.old.moments ≤ 256 * 64 }
    ensures fits { OnOk result (MarksFit (the_book book.now) marks.new) }
    ensures other { OnOk result (MarksFit (the_book book.now) other.new) }
    ensures moments { OnOk result (marks.new.moments ≤ marks.old.moments + 255) }
{
    let (letters, times, expected, _) = told;
    if times == 0 {
        marks.clear();
        *keys = Keys::new();
    }
    strike(keys, letters);
    for _time in 0..times {
        // another computer takes the moment, and lends its marks back
        other.copy_from(marks);
        step(alloc, other, book, keys, letters, expected)?;
        marks.copy_from(other);
        keys.tick();
    }
    Ok(())
}

// Whether the marks are those of a row, and are changed where the sets of the row before were others.
fn agree(rt: &impl Abort, marks: &Marks, row: usize, told: Row, before: &[u8]) {
    let (_, times, expected, normal) = told;
    assert_eq!(rt; marks.shown().len(), LETTERS.len());
    assert!(rt; are(marks, expected, normal), "row {row}");
    let changed = times == 1 && !same_sets(expected, before);
    assert_eq!(rt; marks.changed(), changed, "row {row}");
}

// All rows, one after another.
fn each_row_holds(
    rt: &impl Abort,
    alloc: Global,
    marks: &mut Marks,
    other: &mut Marks,
    book: &Book,
    rows: &[Row],
) -> Result<(), Fail>
    requires fits { MarksFit (the_book book.now) marks.old }
    requires other { MarksFit (the_book book.now) other.old }
    requires begun { marks.old.moments ≡ 0 }
    requires few { length rows.now ≤ 64 }
{
    let mut keys = Keys::new();
    let mut before: &[u8] = b"";
    for row in 0..rows.len() {
        play(alloc, marks, other, book, &mut keys, rows[row])?;
        agree(rt, marks, row, rows[row], before);
        before = rows[row].2;
    }
    Ok(())
}

// The same of two computers of a book.
fn rows_hold_by(rt: &impl Abort, alloc: Global, book: &Book, rows: &[Row]) -> Result<(), Fail>
    requires { length rows.now ≤ 64 }
{
    let mut marks = Marks::new(alloc, book)?;
    let mut other = Marks::new(alloc, book)?;
    each_row_holds(rt, alloc, &mut marks, &mut other, book, rows)
}

fn rows_hold(rt: &impl Abort, alloc: Global, rows: &[Row]) -> Result<(), Fail>
    requires { length rows.now ≤ 64 }
{
    let book = small_book(alloc)?;
    rows_hold_by(rt, alloc, &book, rows)
}

#[test]
fn cleared_alerts_come_back_by_a_press_of_rcl(rt: HostRuntime) -> Result<(), Fail> {
    let rows: [Row; 10] = [
        // CLR acts on what the moment before showed
        (b"", 1, b"x - | x - - - -", false),
        (b"C", 1, b"y - | y - - - x", false),
        // RCL brings back what was cleared before, and not what CLR strikes in that moment
        (b"", 0, b"", false),
        (b"", 1, b"yx - | yx - - - -", false),
        (b"C", 1, b"yx - | x y - - y", false),
        (b"CR", 1, b"yx - | y x - - x", false),
        (b"R", 1, b"yx - | yx - - - y", false),
        // what was cleared and ended comes back shown
        (b"C", 1, b"yx - | x y - - y", false),
        (b"", 1, b"x - | x - - - x", false),
        (b"", 1, b"yx - | yx - - - x", false),
    ];
    rows_hold(&rt, rt.alloc(), &rows)
}

#[test]
fn cancelled_cautions_come_back_by_a_long_recall(rt: HostRuntime) -> Result<(), Fail> {
    let rows: [Row; 20] = [
        // a cancelled caution stays so while it comes and goes, until a long recall
        (b"", 1, b"x - | x - - - -", false),
        (b"E", 1, b"x - | - - x - x", false),
        (b"", 1, b"- - | - - x - -", false),
        (b"", 1, b"x - | - - x - -", false),
        (b"R", 29, b"x - | - - x - -", true),
        (b"", 1, b"x - | x - - - -", false),
        // held for 29 moments it is no long recall; NORMAL stands for thirty moments
        (b"", 0, b"", false),
        (b"", 1, b"x - | x - - - -", false),
        (b"E", 1, b"x - | - - x - x", false),
        (b"R", 29, b"x - | - - x - -", true),
        (b"r", 1, b"x - | - - x - -", true),
        (b"", 1, b"x - | - - x - -", false),
        // NORMAL ends with what is shown, and a press before that doesn't count
        (b"", 0, b"", false),
        (b"Rr", 2, b"- - | - - - - -", true),
        (b"", 1, b"x - | x - - - -", false),
        (b"", 1, b"- - | - - - - x", false),
        // one that is cancelled in the moment in which it ends
        (b"", 0, b"", false),
        (b"", 1, b"x - | x - - - -", false),
        (b"E", 1, b"- - | - - x - x", false),
        (b"", 1, b"x - | - - x - -", false),
    ];
    rows_hold(&rt, rt.alloc(), &rows)
}

#[test]
fn cancellations_end_but_for_those_of_the_moment(rt: HostRuntime) -> Result<(), Fail> {
    let rows: [Row; 15] = [
        // a warning isn't cancelled
        (b"", 1, b"wx - | wx - - - -", false),
        (b"E", 1, b"wx - | wx - - - w", false),
        (b"C", 1, b"wx - | x w - - w", false),
        (b"E", 1, b"wx - | - w x - x", false),
        // the start of phase 1 ends a cancellation, but for one of its own moment
        (b"", 0, b"", false),
        (b"", 1, b"yx - | yx - - - -", false),
        (b"E", 1, b"yx - | x - y - y", false),
        (b"E1", 1, b"yx - | y - x - x", false),
        (b"1", 1, b"yx - | yx - - - y", false),
        // and so does a long recall, in each of its moments
        (b"", 0, b"", false),
        (b"R", 1, b"yx - | yx - - - -", false),
        (b"E", 1, b"yx - | x - y - y", false),
        (b"", 27, b"yx - | x - y - x", false),
        (b"E", 1, b"yx - | y - x - x", false),
        (b"", 1, b"yx - | yx - - - y", false),
    ];
    rows_hold(&rt, rt.alloc(), &rows)
}

#[test]
fn waiting_alerts_are_shown_by_a_press_of_rcl(rt: HostRuntime) -> Result<(), Fail> {
    let rows: [Row; 15] = [
        // RCL shows what waits, and it stays shown when it becomes active
        (b"", 1, b"- y | - - - - -", false),
        (b"R", 1, b"- y | y - - y -", false),
        (b"", 1, b"y - | y - - - y", false),
        // until it is struck, in the moment of a new press too
        (b"", 0, b"", false),
        (b"R", 1, b"- y | y - - y -", false),
        (b"C", 1, b"- y | - - - - y", false),
        (b"R", 1, b"- y | y - - y -", false),
        (b"CR", 1, b"- y | - - - - y", true),
        // until it ends, so that it isn't shown when it comes back
        (b"", 0, b"", false),
        (b"R", 2, b"- y | y - - y y", false),
        (b"", 1, b"- - | - - - - y", false),
        (b"", 1, b"- y | - - - - -", false),
        // and EMER CANC hides it, though it stays recalled
        (b"R", 1, b"- y | y - - y -", false),
        (b"E", 1, b"- y | - - y y y", false),
        (b"1", 1, b"- y | y - - y -", false),
    ];
    rows_hold(&rt, rt.alloc(), &rows)
}
