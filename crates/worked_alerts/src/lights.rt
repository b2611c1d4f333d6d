// The lights and the sound, moment by moment. The expected values follow from the rules by hand.
ghost use Rattle.std.specs.Prelude.{◌≡◌, ◌≤◌, ◌+◌, length};
ghost use Rattle.book_model.specs.Sealed.{the_book};
ghost use Rattle.attention.specs.State.{AttentionFits, CanGoOn};

use super::small_book;
use attention::Attention;
use book_model::Book;
use ecam_kinds::{Key, Keys, Sound};
use std::alloc::Global;
use std::process::Abort;
use std::test::Fail;

const NONE: u8 = 0;

// The alerts, one bit each.
const CHIMING: u8 = 1;

const WARNING: u8 = 2;

const SILENT: u8 = 4;

const SECOND: u8 = 8;

const ADVISORY: u8 = 16;

// The keys, or that nothing comes, or that a history begins.
const MW: u8 = 1;

const MC: u8 = 2;

const EMER: u8 = 4;

const REST: u8 = 8;

const START: u8 = 16;

fn flags(alerts: u8) -> [bool; 5] {
    [
        alerts & CHIMING != 0,
        alerts & WARNING != 0,
        alerts & SILENT != 0,
        alerts & SECOND != 0,
        alerts & ADVISORY != 0,
    ]
}

fn keys(pressed: u8) -> Keys {
    let mut keys = Keys::new();
    if pressed & MW != 0 {
        keys.press(Key::Mw);
    }
    if pressed & MC != 0 {
        keys.press(Key::Mc);
    }
    if pressed & EMER != 0 {
        keys.press(Key::Emer);
    }
    keys
}

// One moment of a history.
fn moment(attention: &mut Attention, book: &Book, up: u8, shown: u8, pressed: u8)
    requires fits { AttentionFits (the_book book.now) attention.old }
    requires goes_on { CanGoOn attention.old }
    requires five { length book.now.alerts.items ≡ 5 }
    ensures fits { AttentionFits (the_book book.now) attention.new }
    ensures moments { attention.new.moments ≡ attention.old.moments + 1 }
{
    if pressed == REST {
        attention.rest();
        return;
    }
    attention.step(book, &flags(up), &flags(shown), &keys(pressed));
}

// The same, or the start of a history. Another computer takes the moment, and lends what it keeps back.
fn turn(
    attention: &mut Attention,
    other: &mut Attention,
    book: &Book,
    up: u8,
    shown: u8,
    pressed: u8,
)
    requires fits { AttentionFits (the_book book.now) attention.old }
    requires other { AttentionFits (the_book book.now) other.old }
    requires goes_on { CanGoOn attention.old }
    requires five { length book.now.alerts.items ≡ 5 }
    ensures fits { AttentionFits (the_book book.now) attention.new }
    ensures other { AttentionFits (the_book book.now) other.new }
    ensures moments { attention.new.moments ≤ attention.old.moments + 1 }
{
    if pressed == START {
        attention.clear();
        return;
    }
    other.copy_from(attention);
    moment(other, book, up, shown, pressed);
    attention.copy_from(other);
}

/// Who is up, who is shown, the keys; then whether MASTER WARN and MASTER CAUT are lit, and the sound.
type Row = (u8, u8, u8, bool, bool, Sound);

// Whether MASTER WARN and MASTER CAUT are lit, and the sound.
type Lit = (bool, bool, Sound);

// One row, after another.
fn row_holds(
    rt: &impl Abort,
    attention: &mut Attention,
    other: &mut Attention,
    book: &Book,
    row: usize,
    told: Row,
    before: Lit,
)
    requires fits { AttentionFits (the_book book.now) attention.old }
    requires other { AttentionFits (the_book book.now) other.old }
    requires goes_on { CanGoOn attention.old }
    requires five { length book.now.alerts.items ≡ 5 }
    ensures fits { AttentionFits (the_book book.now) attention.new }
    ensures other { AttentionFits (the_book book.now) other.new }
    ensures moments { attention.new.moments ≤ attention.old.moments + 1 }
{
    let (up, shown, pressed, warn, caut, sound) = told;
    turn(attention, other, book, up, shown, pressed);
    let lit = (attention.warn(), attention.caut(), attention.sound());
    assert_eq!(rt; lit, (warn, caut, sound), "row {row}");
    let changed = pressed != START && before != lit;
    assert_eq!(rt; attention.changed(), changed, "row {row}");
}

// All rows, one after another.
fn each_row_holds(
    rt: &impl Abort,
    attention: &mut Attention,
    other: &mut Attention,
    book: &Book,
    rows: &[Row],
)
    requires fits { AttentionFits (the_book book.now) attention.old }
    requires other { AttentionFits (the_book book.now) other.old }
    requires begun { attention.old.moments ≡ 0 }
    requires five { length book.now.alerts.items ≡ 5 }
    requires few { length rows.now ≤ 64 }
{
    let mut before = (false, false, Sound::Quiet);
    for row in 0..rows.len() {
        row_holds(rt, attention, other, book, row, rows[row], before);
        let (_, _, _, warn, caut, sound) = rows[row];
        before = (warn, caut, sound);
    }
}

// The same of two computers of a book.
fn rows_hold_by(rt: &impl Abort, alloc: Global, book: &Book, rows: &[Row]) -> Result<(), Fail>
    requires { length rows.now ≤ 64 }
{
    assert_eq!(rt; book.alerts().len(), 5);
    let mut attention = Attention::new(alloc, book)?;
    let mut other = Attention::new(alloc, book)?;
    each_row_holds(rt, &mut attention, &mut other, book, rows);
    Ok(())
}

fn rows_hold(rt: &impl Abort, alloc: Global, rows: &[Row]) -> Result<(), Fail>
    requires { length rows.now ≤ 64 }
{
    let book = small_book(alloc)?;
    rows_hold_by(rt, alloc, &book, rows)
}

#[test]
fn a_chime_ends_by_itself(rt: HostRuntime) -> Result<(), Fail> {
    let rows: [Row; 16] = [
        // a chime ends by itself after five moments
        (NONE, NONE, START, false, false, Sound::Quiet),
        (NONE, NONE, NONE, false, false, Sound::Quiet),
        (CHIMING, CHIMING, NONE, false, true, Sound::Chime),
        (CHIMING, CHIMING, NONE, false, true, Sound::Chime),
        (CHIMING, CHIMING, REST, false, true, Sound::Chime),
        (CHIMING, CHIMING, REST, false, true, Sound::Chime),
        (CHIMING, CHIMING, NONE, false, true, Sound::Chime),
        (CHIMING, CHIMING, NONE, false, true, Sound::Quiet),
        (CHIMING, CHIMING, REST, false, true, Sound::Quiet),
        // and by nothing else while nothing comes
        (NONE, NONE, START, false, false, Sound::Quiet),
        (CHIMING, CHIMING, NONE, false, true, Sound::Chime),
        (CHIMING, CHIMING, REST, false, true, Sound::Chime),
        (CHIMING, CHIMING, REST, false, true, Sound::Chime),
        (CHIMING, CHIMING, REST, false, true, Sound::Chime),
        (CHIMING, CHIMING, REST, false, true, Sound::Chime),
        (CHIMING, CHIMING, REST, false, true, Sound::Quiet),
    ];
    rows_hold(&rt, rt.alloc(), &rows)
}

#[test]
fn a_chime_ends_by_a_key_or_with_its_alert(rt: HostRuntime) -> Result<(), Fail> {
    let rows: [Row; 11] = [
        // by MASTER CAUT, which doesn't act on an onset of its own moment; a second onset is as good as the first
        (NONE, NONE, START, false, false, Sound::Quiet),
        (CHIMING, CHIMING, MC, false, true, Sound::Chime),
        (CHIMING, CHIMING, MW, false, true, Sound::Chime),
        (CHIMING, CHIMING, MC, false, false, Sound::Quiet),
        (CHIMING, CHIMING, REST, false, false, Sound::Quiet),
        (NONE, NONE, NONE, false, false, Sound::Quiet),
        (CHIMING, CHIMING, NONE, false, true, Sound::Chime),
        // by EMER CANC, and by the alert's end
        (CHIMING, CHIMING, EMER, false, false, Sound::Quiet),
        (NONE, NONE, NONE, false, false, Sound::Quiet),
        (CHIMING, CHIMING, EMER, false, true, Sound::Chime),
        (NONE, NONE, NONE, false, false, Sound::Quiet),
    ];
    rows_hold(&rt, rt.alloc(), &rows)
}

#[test]
fn the_first_shown_warning_sounds(rt: HostRuntime) -> Result<(), Fail> {
    let rows: [Row; 10] = [
        // the first warning in order sounds, of those that are shown; MASTER CAUT acknowledges none
        (NONE, NONE, START, false, false, Sound::Quiet),
        (SECOND, SECOND, NONE, true, false, Sound::Cavalry),
        (
            WARNING | SECOND,
            WARNING | SECOND,
            NONE,
            true,
            false,
            Sound::Repetitive,
        ),
        (
            WARNING | SECOND,
            WARNING | SECOND,
            MC,
            true,
            false,
            Sound::Repetitive,
        ),
        (WARNING | SECOND, SECOND, NONE, true, false, Sound::Cavalry),
        (WARNING | SECOND, SECOND, MW, false, false, Sound::Quiet),
        (
            WARNING | SECOND,
            WARNING | SECOND,
            REST,
            false,
            false,
            Sound::Quiet,
        ),
        (SECOND, SECOND, NONE, false, false, Sound::Quiet),
        (
            WARNING | SECOND,
            WARNING | SECOND,
            NONE,
            true,
            false,
            Sound::Repetitive,
        ),
        (
            WARNING | SECOND,
            WARNING | SECOND,
            EMER,
            false,
            false,
            Sound::Quiet,
        ),
    ];
    rows_hold(&rt, rt.alloc(), &rows)
}

#[test]
fn a_warning_sounds_over_a_chime(rt: HostRuntime) -> Result<(), Fail> {
    let rows: [Row; 8] = [
        // a warning sounds over a chime, and the chime goes on behind it
        (NONE, NONE, START, false, false, Sound::Quiet),
        (
            CHIMING | WARNING,
            CHIMING | WARNING,
            NONE,
            true,
            true,
            Sound::Repetitive,
        ),
        (
            CHIMING | WARNING,
            CHIMING | WARNING,
            MW,
            false,
            true,
            Sound::Chime,
        ),
        (
            CHIMING | WARNING,
            CHIMING | WARNING,
            REST,
            false,
            true,
            Sound::Chime,
        ),
        (
            CHIMING | WARNING | SILENT,
            CHIMING | WARNING | SILENT,
            NONE,
            false,
            true,
            Sound::Chime,
        ),
        (
            CHIMING | WARNING | SILENT,
            CHIMING | WARNING | SILENT,
            NONE,
            false,
            true,
            Sound::Chime,
        ),
        (
            CHIMING | WARNING | SILENT,
            CHIMING | WARNING | SILENT,
            NONE,
            false,
            true,
            Sound::Quiet,
        ),
        (
            CHIMING | WARNING | SILENT,
            CHIMING | WARNING | SILENT,
            MC,
            false,
            false,
            Sound::Quiet,
        ),
    ];
    rows_hold(&rt, rt.alloc(), &rows)
}

#[test]
fn an_onset_counts_while_its_alert_is_hidden(rt: HostRuntime) -> Result<(), Fail> {
    let rows: [Row; 7] = [
        // an onset counts while its alert isn't shown, and a press acknowledges it
        (NONE, NONE, START, false, false, Sound::Quiet),
        (CHIMING | WARNING, NONE, NONE, false, false, Sound::Quiet),
        (CHIMING | WARNING, NONE, REST, false, false, Sound::Quiet),
        (CHIMING | WARNING, NONE, MW, false, false, Sound::Quiet),
        (
            CHIMING | WARNING,
            CHIMING | WARNING,
            NONE,
            false,
            true,
            Sound::Chime,
        ),
        (
            CHIMING | WARNING,
            CHIMING | WARNING,
            REST,
            false,
            true,
            Sound::Chime,
        ),
        (
            CHIMING | WARNING,
            CHIMING | WARNING,
            NONE,
            false,
            true,
            Sound::Quiet,
        ),
    ];
    rows_hold(&rt, rt.alloc(), &rows)
}

#[test]
fn what_is_not_up_lights_nothing(rt: HostRuntime) -> Result<(), Fail> {
    let rows: [Row; 11] = [
        // what is shown and not up lights nothing, whatever its last onset
        (NONE, NONE, START, false, false, Sound::Quiet),
        (
            CHIMING | WARNING | SILENT,
            CHIMING | WARNING | SILENT,
            NONE,
            true,
            true,
            Sound::Repetitive,
        ),
        (
            NONE,
            CHIMING | WARNING | SILENT,
            NONE,
            false,
            false,
            Sound::Quiet,
        ),
        (
            SILENT,
            CHIMING | WARNING | SILENT,
            NONE,
            false,
            true,
            Sound::Quiet,
        ),
        // a recalled alert is silent until it comes up
        (NONE, NONE, START, false, false, Sound::Quiet),
        (NONE, CHIMING, NONE, false, false, Sound::Quiet),
        (CHIMING, CHIMING, NONE, false, true, Sound::Chime),
        // level 1 lights nothing, and level 2 without a sound is silent
        (NONE, NONE, START, false, false, Sound::Quiet),
        (ADVISORY, ADVISORY, NONE, false, false, Sound::Quiet),
        (
            ADVISORY | SILENT,
            SILENT | ADVISORY,
            MW,
            false,
            true,
            Sound::Quiet,
        ),
        (
            ADVISORY | SILENT,
            SILENT | ADVISORY,
            MC,
            false,
            false,
            Sound::Quiet,
        ),
    ];
    rows_hold(&rt, rt.alloc(), &rows)
}

#[test]
fn a_key_acts_on_the_onsets_before_its_moment(rt: HostRuntime) -> Result<(), Fail> {
    let rows: [Row; 9] = [
        // one warning, and MASTER WARN
        (NONE, NONE, START, false, false, Sound::Quiet),
        (WARNING, WARNING, NONE, true, false, Sound::Repetitive),
        (WARNING, WARNING, MW, false, false, Sound::Quiet),
        // which doesn't act on an onset of its own moment, but on one of the moment before, as MASTER CAUT does
        (NONE, NONE, START, false, false, Sound::Quiet),
        (WARNING, WARNING, MW, true, false, Sound::Repetitive),
        (WARNING, WARNING, MW, false, false, Sound::Quiet),
        (NONE, NONE, START, false, false, Sound::Quiet),
        (CHIMING, CHIMING, NONE, false, true, Sound::Chime),
        (CHIMING, CHIMING, MC, false, false, Sound::Quiet),
    ];
    rows_hold(&rt, rt.alloc(), &rows)
}
