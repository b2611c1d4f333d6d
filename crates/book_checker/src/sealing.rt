// Sealing a draft: its first fault, or the book.
ghost use Rattle.std.specs.Prelude.{◌≡◌, ◌<◌, ◌^◌, None, IfOk, IfErr, length, map};
ghost use Rattle.ecam_spec.specs.Draft.{book_of};
ghost use Rattle.ecam_spec.specs.KeepsLimits.{IsSound};
ghost use Rattle.ecam_spec.specs.DraftFaults.{draft_fault};
ghost use Rattle.book_model.specs.NamePlaces.{FindsPlaces};
ghost use Rattle.book_model.specs.View.{draft_of, name_of};
ghost use Rattle.book_model.specs.Sealed.{IsSealed, the_book};
ghost use Rattle.book_checker.specs.Sealing.{Refuses};

use crate::alerts::AlertFlaw;
use crate::atoms::AtomFlaw;
use crate::searches::{alert_fault, memo_fault, named_fault, phase_fault};
use book_model::{Book, BookFault, Draft, LoadError, NamePlaces, alert_places};
use std::alloc::{AllocError, Global};

/// Seals a draft. A fault is the first by its code, 20 to 26, among these by its section, and among these by its
/// item, counted from 1, where the phase table is item 0: 20 a phase input asks for a phase or an alert, 21 an
/// alert's condition asks for that alert or a later one, 22 a condition, a named one too, tests a number as a discrete or
/// compares a discrete, 23 a level doesn't have its alert's sound, 24 a secondary is no alert's name, 25 a secondary stands
/// not later in the book than its primary, 26 an alert is inhibited in all phases. `LoadError::Memory` tells that
/// memory ran out, and nothing of the draft. It goes once through the draft for each code and section, and
/// finds a secondary by a map of the alerts' names.
pub fn seal(alloc: Global, draft: Draft) -> Result<Book, LoadError>
    requires sound { IsSound (draft_of draft) }
    ensures book { IfOk result (λ b. the_book b ≡ book_of (draft_of draft)) }
    ensures same { IfOk result (λ b. draft_of b ≡ draft_of draft) }
    ensures sealed { IfOk result IsSealed }
    ensures faultless { IfOk result (λ b. draft_fault (draft_of draft) ≡ None) }
    ensures fault { IfErr result (Refuses (draft_of draft)) }
{
    match first_fault(alloc, &draft)? {
        Some(fault) => Err(LoadError::Fault(fault)),
        None => {
            let book = Book::build(alloc, draft)?;
            Ok(book)
        }
    }
}

pub(crate) fn first_fault(alloc: Global, draft: &Draft) -> Result<Option<BookFault>, AllocError>
    requires alerts { length draft.now.alerts.items < 2 ^ 32 }
    requires terms { length draft.now.terms.items < 2 ^ 32 }
    requires memos { length draft.now.memos.items < 2 ^ 32 }
    ensures { IfOk result (λ f. f ≡ draft_fault (draft_of draft.now)) }
{
    let places = alert_places(alloc, draft.alerts.as_slice())?;
    Ok(fault_by(draft, &places))
}

fn fault_by(draft: &Draft, places: &NamePlaces<'_>) -> Option<BookFault>
    requires alerts { length draft.now.alerts.items < 2 ^ 32 }
    requires terms { length draft.now.terms.items < 2 ^ 32 }
    requires memos { length draft.now.memos.items < 2 ^ 32 }
    requires places { FindsPlaces (map name_of draft.now.alerts.items) places.now }
    ensures { result ≡ draft_fault (draft_of draft.now) }
{
    let alerts = draft.alerts.as_slice();
    let params = draft.params.as_slice();
    let misread = AtomFlaw::Misread(params);
    phase_fault(20, &draft.phase, &AtomFlaw::PhaseOrAlert)
        .or(alert_fault(21, alerts, &AlertFlaw::AsksLaterAlert))
        .or(named_fault(22, draft.terms.as_slice(), &misread))
        .or(phase_fault(22, &draft.phase, &misread))
        .or(alert_fault(22, alerts, &AlertFlaw::MisreadsParameter(params)))
        .or(memo_fault(22, draft.memos.as_slice(), &misread))
        .or(alert_fault(23, alerts, &AlertFlaw::HasWrongSound))
        .or(alert_fault(24, alerts, &AlertFlaw::HasUnknownSecondary(places)))
        .or(alert_fault(25, alerts, &AlertFlaw::HasEarlySecondary(places)))
        .or(alert_fault(26, alerts, &AlertFlaw::IsAlwaysInhibited))
}
