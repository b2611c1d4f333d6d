// The codes of all conditions of a book, in the order in which a moment steps them.
ghost use Rattle.std.specs.Prelude.{◌≡◌, ℕ, ◌<◌, length, map, get_or, OnOk};
ghost use Rattle.std.specs.List.{flat_map};
ghost use Rattle.book_model.specs.Slots.{phase_places, when_place, lines_places, memo_place};
ghost use Rattle.book_model.specs.Sealed.{the_book};
ghost use Rattle.book_model.specs.Conditions.{places};
ghost use Rattle.condition_codes.specs.Pieces.{AddsCodes};

use crate::pieces::Pieces;
use book_model::{Alert, Book};
use std::alloc::AllocError;

/// Adds the code of each condition. An error is want of memory.
pub fn add_all(pieces: &mut Pieces, book: &Book) -> Result<(), AllocError>
    ensures { OnOk result (AddsCodes (places (the_book book.now)) pieces.old pieces.new) }
{
    book.sealed();
    add_phase(pieces, book)?;
    add_alerts(pieces, book)?;
    add_procedures(pieces, book)?;
    add_memos(pieces, book)
}

// The inputs of the phase.
fn add_phase(pieces: &mut Pieces, book: &Book) -> Result<(), AllocError>
    ensures { OnOk result (AddsCodes (phase_places book.now.phase) pieces.old pieces.new) }
{
    let terms = book.phase_terms();
    pieces.add(&terms.gnd)?;
    pieces.add(&terms.run)?;
    pieces.add(&terms.tp)?;
    pieces.add(&terms.fast)?;
    pieces.add(&terms.high)?;
    pieces.add(&terms.low)
}

// The alerts' own.
fn add_alerts(pieces: &mut Pieces, book: &Book) -> Result<(), AllocError>
    ensures { OnOk result (AddsCodes (map when_place book.now.alerts.items)
        pieces.old pieces.new) }
{
    let alerts = book.alerts();
    for alert in alerts {
        pieces.add(&alert.when)?;
    }
    Ok(())
}

// Two for each line.
fn add_procedures(pieces: &mut Pieces, book: &Book) -> Result<(), AllocError>
    ensures { OnOk result (AddsCodes (flat_map lines_places book.now.alerts.items)
        pieces.old pieces.new) }
{
    let alerts = book.alerts();
    for alert in alerts {
        add_lines(pieces, book, alert)?;
    }
    Ok(())
}

// Those of the lines of one alert of the book.
fn add_lines(pieces: &mut Pieces, book: &Book, alert: &Alert) -> Result<(), AllocError>
    requires { (i : ℕ) × (i < length book.now.alerts.items)
        × (alert.now ≡ get_or book.now.alerts.items i alert.now) }
    ensures { OnOk result (AddsCodes (lines_places alert.now) pieces.old pieces.new) }
{
    book.sealed();
    let lines = alert.lines.as_slice();
    for line in lines {
        pieces.add(&line.when)?;
        pieces.add(&line.done)?;
    }
    Ok(())
}

// The memos'.
fn add_memos(pieces: &mut Pieces, book: &Book) -> Result<(), AllocError>
    ensures { OnOk result (AddsCodes (map memo_place book.now.memos.items)
        pieces.old pieces.new) }
{
    let memos = book.memos();
    for memo in memos {
        pieces.add(&memo.when)?;
    }
    Ok(())
}
