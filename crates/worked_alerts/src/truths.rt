// What is active, waiting, starred and up, moment by moment. The expected values follow from the rules by hand.
ghost use Rattle.std.specs.Prelude.{◌≡◌, ◌+◌, ◌<◌, ◌≤◌, length};
ghost use Rattle.book_model.specs.Sealed.{the_book};
ghost use Rattle.alert_truth.specs.TruthsState.{TruthsFit, CanGoOn};

use super::small_book;
use alert_truth::Truths;
use book_model::Book;
use ecam_kinds::Phase;
use std::alloc::Global;
use std::process::Abort;
use std::test::Fail;

// One moment, in which the conditions marked by an `x` hold.
fn step(truths: &mut Truths, book: &Book, holding: &[u8], phase: Phase)
    requires fits { TruthsFit (the_book book.now) truths.old }
    requires goes_on { CanGoOn truths.old }
    requires first { 1 ≤ phase.number }
    requires last { phase.number ≤ 10 }
    ensures fits { TruthsFit (the_book book.now) truths.new }
    ensures moments { truths.new.moments ≡ truths.old.moments + 1 }
{
    for alert in 0..book.alerts().len() {
        let holds = alert < holding.len() && holding[alert] == b'x';
        truths.step_one(book, alert, holds, phase);
    }
    truths.settle(book);
}

fn is(flags: &[bool], alert: usize) -> bool {
    alert < flags.len() && flags[alert]
}

// An alert as a letter: quiet, waiting, up, or the number of the alert that it is starred by.
fn letter(truths: &Truths, alert: usize) -> u8 {
    if is(truths.starred(), alert) {
        return match truths.starred_by(alert) {
            Some(0) => b'0',
            Some(_) => b'1',
            None => b'?',
        };
    }
    if is(truths.up(), alert) {
        return b'u';
    }
    if is(truths.waiting(), alert) {
        return b'w';
    }
    if is(truths.present(), alert) || is(truths.active(), alert) {
        b'?'
    } else {
        b'.'
    }
}

// Whether the truths are these of each alert.
fn tells(truths: &Truths, letters: &[u8]) -> bool {
    for alert in 0..letters.len() {
        let letter = letter(truths, alert);
        let present = letter != b'.';
        let active = present && letter != b'w';
        if letter != letters[alert]
            || is(truths.present(), alert) != present
            || is(truths.active(), alert) != active
        {
            return false;
        }
    }
    true
}

// The phase, or 0 where all moments are forgotten; which conditions hold; what the alerts are then; and whether
// anything changed.
type Row = (u8, &'static [u8], &'static [u8], bool);

const ROWS: [Row; 38] = [
    // three moments are too few, and an interruption begins anew: present in the fourth of a run
    (6, b"x...", b"....", false),
    (6, b"x...", b"....", false),
    (6, b"x...", b"....", false),
    (6, b"....", b"....", false),
    (6, b"x...", b"....", false),
    (6, b"x...", b"....", false),
    (6, b"x...", b"....", false),
    (6, b"x...", b"u...", true),
    (6, b"x...", b"u...", false),
    (6, b"....", b"....", true),
    // what occurs in an inhibited phase waits for its end
    (0, b"....", b"....", false),
    (1, b"....", b"....", false),
    (2, b"....", b"....", false),
    (3, b"....", b"....", false),
    (4, b"....", b"....", false),
    (5, b".x..", b".w..", true),
    (6, b".x..", b".u..", true),
    // and what was active before stays
    (0, b"....", b"....", false),
    (1, b"....", b"....", false),
    (2, b".x..", b".u..", true),
    (3, b".x..", b".u..", false),
    (4, b".x..", b".u..", false),
    (5, b".x..", b".u..", false),
    (5, b"....", b"....", true),
    (5, b".x..", b".w..", true),
    // an alert that waits explains nothing, and of two that are active the first in the book's order counts
    (0, b"....", b"....", false),
    (5, b"...x", b"...u", true),
    (5, b".x.x", b".w.u", true),
    (6, b".x.x", b".u.1", true),
    (6, b"xx.x", b".u.1", false),
    (6, b"xx.x", b".u.1", false),
    (6, b"xx.x", b".u.1", false),
    (6, b"xx.x", b"uu.0", true),
    (6, b"xxxx", b"uu10", true),
    (6, b".xxx", b".u11", true),
    (6, b".xxx", b".u11", false),
    (6, b"..xx", b"..uu", true),
    (6, b"....", b"....", true),
];

// Goes through rows from the beginning, and answers whether each tells what the alerts are.
fn agree(truths: &mut Truths, other: &mut Truths, book: &Book, rows: &[Row]) -> bool
    requires fits { TruthsFit (the_book book.now) truths.old }
    requires other { TruthsFit (the_book book.now) other.old }
    requires begun { truths.old.moments ≡ 0 }
    requires few { length rows.now < 1000 }
{
    for row in 0..rows.len() {
        let (number, holding, letters, changed) = rows[row];
        if number == 0 {
            truths.clear();
        } else {
            // another computer takes the moment, and lends its truths back
            other.copy_from(truths);
            let phase = Phase {
                number: number.clamp(1, 10),
            };
            step(other, book, holding, phase);
            truths.copy_from(other);
        }
        if !tells(truths, letters) || truths.changed() != changed {
            return false;
        }
    }
    true
}

// The same of the rows above, by two computers of a book.
fn rows_agree(rt: &impl Abort, alloc: Global, book: &Book) -> Result<(), Fail> {
    let mut truths = Truths::new(alloc, book)?;
    let mut other = Truths::new(alloc, book)?;
    let agree = agree(&mut truths, &mut other, book, &ROWS);
    assert!(rt; agree);
    Ok(())
}

#[test]
fn alerts_are_what_the_rules_say(rt: HostRuntime) -> Result<(), Fail> {
    let alloc = rt.alloc();
    let book = small_book(alloc)?;
    rows_agree(&rt, alloc, &book)
}
