// The searches for faults: each goes once through a section of a draft.
ghost use Rattle.std.specs.Prelude.{◌≡◌, suc, ◌<◌, ◌^◌, length, map};
ghost use Rattle.std.specs.List.{list_any};
ghost use Rattle.ecam_spec.specs.declared.kinds.Section.TheVariants as section;
ghost use Rattle.ecam_spec.specs.BookTerms.{phase_terms};
ghost use Rattle.ecam_spec.specs.DraftFaults.{has_atom};
ghost use Rattle.ecam_spec.specs.Faults.{first_item, fault_at, whole};
ghost use Rattle.term_tree.specs.View.{named_terms};
ghost use Rattle.book_model.specs.View.{name_of, alert_of, memo_of, phase_of};
ghost use Rattle.book_checker.specs.Flaws.{has_flaw, is_flawed, Knows};

use crate::alerts::AlertFlaw;
use crate::atoms::{AtomFlaw, has_atom, phase_has_atom};
use book_model::{Alert, BookFault, Memo, PhaseTerms, Section};
use term_tree::NamedTerm;

/// The fault of this code in the phase table, where one of its conditions has the flaw.
pub(crate) fn phase_fault(code: u8, phase: &PhaseTerms, flaw: &AtomFlaw<'_>) -> Option<BookFault>
    ensures { result ≡ fault_at code section.Phase
        (whole (list_any (has_atom (is_flawed flaw.now)) (phase_terms (phase_of phase.now)))) }
{
    if phase_has_atom(phase, flaw) {
        Some(BookFault {
            code,
            section: Section::Phase,
            item: 0,
        })
    } else {
        None
    }
}

// The fault of this code at an item of the section, by its place from 0.
fn at_item(code: u8, section: Section, place: usize) -> BookFault
    requires { suc place < 2 ^ 32 }
    ensures { result ≡ record { code = code; section = section; item = suc place } }
{
    BookFault {
        code,
        section,
        item: place as u32 + 1,
    }
}

/// The fault of this code at the first alert that has the flaw.
pub(crate) fn alert_fault(code: u8, alerts: &[Alert], flaw: &AlertFlaw<'_, '_>) -> Option<BookFault>
    requires count { length alerts.now < 2 ^ 32 }
    requires names { Knows (map name_of alerts.now) flaw.now }
    ensures { result ≡ fault_at code section.Alert
        (first_item (has_flaw (map name_of alerts.now) flaw.now) (map alert_of alerts.now)) }
{
    for (place, alert) in alerts.iter().enumerate() {
        if flaw.is_in(place, alert) {
            return Some(at_item(code, Section::Alert, place));
        }
    }
    None
}

/// The fault of this code at the first named condition that has the flaw.
pub(crate) fn named_fault(code: u8, terms: &[NamedTerm], flaw: &AtomFlaw<'_>) -> Option<BookFault>
    requires count { length terms.now < 2 ^ 32 }
    ensures { result ≡ fault_at code section.Term
        (first_item (λ i t. has_atom (is_flawed flaw.now) t.tree) (named_terms terms.now)) }
{
    for (place, term) in terms.iter().enumerate() {
        if has_atom(&term.cond, flaw) {
            return Some(at_item(code, Section::Term, place));
        }
    }
    None
}

/// The fault of this code at the first memo whose condition has the flaw.
pub(crate) fn memo_fault(code: u8, memos: &[Memo], flaw: &AtomFlaw<'_>) -> Option<BookFault>
    requires count { length memos.now < 2 ^ 32 }
    ensures { result ≡ fault_at code section.Memo
        (first_item (λ i m. has_atom (is_flawed flaw.now) m.when) (map memo_of memos.now)) }
{
    for (place, memo) in memos.iter().enumerate() {
        if has_atom(&memo.when.cond, flaw) {
            return Some(at_item(code, Section::Memo, place));
        }
    }
    None
}
