// The conditions in whose text no condition stands.
ghost use Rattle.std.specs.Prelude.{◌<◌, ◌^◌, [], length, IfOk};
ghost use Rattle.ecam_spec.specs.Book.{Text};
ghost use Rattle.ecam_spec.specs.Grammar.{name_of, compare_of, valid_of, alert_of, fwc_of, phase_of};
ghost use Rattle.ecam_spec.specs.TermText.{TermNames};
ghost use Rattle.term_text.specs.Parts.{JudgesForm};

use crate::flaw::{Flaw, earlier_of};
use crate::names::Dictionary;
use crate::part::Part;
use crate::resolve::{alert_at, amount_at, bytes_of, compared_at, param_at};
use ecam_kinds::{Phase, PhaseSet};
use ecam_spec::{Op, Span};
use std::alloc::{AllocError, Global};
use term_tree::Cond;

/// What a name by itself stands for: that a discrete is 1, or a copy of the condition that has this name.
pub(crate) fn named<D: Dictionary>(
    alloc: Global,
    text: &[u8],
    names: &D,
    name: Span,
) -> Result<Part, AllocError>
    requires { length (D.known names.now).parameters < 2 ^ 32 }
    ensures { IfOk result (λ p. JudgesForm (D.known names.now) text.now p (name_of name)) }
{
    let word = bytes_of(text, name);
    if let Some(param) = names.param(word) {
        return Ok(Part::atom(None, Cond::Disc(param)));
    }
    match names.term(word) {
        Some(cond) => Part::copy_of(alloc, cond),
        None => {
            let flaw = Flaw::UnknownName(name.at);
            Ok(Part::atom(Some(flaw), Cond::Const(false)))
        }
    }
}

/// That the value of a parameter stands so to a number.
pub(crate) fn compared<D: Dictionary>(
    text: &[u8],
    names: &D,
    name: Span,
    op: Op,
    number: Span,
) -> Part
    requires { length (D.known names.now).parameters < 2 ^ 32 }
    ensures { JudgesForm (D.known names.now) text.now result (compare_of name op number) }
{
    let param = param_at(text, names, name);
    let number = compared_at(text, number);
    let flaw = earlier_of(param.flaw, number.flaw);
    Part::atom(flaw, Cond::Cmp(param.value, op, number.value))
}

/// That a parameter has a value.
pub(crate) fn valid<D: Dictionary>(text: &[u8], names: &D, name: Span) -> Part
    requires { length (D.known names.now).parameters < 2 ^ 32 }
    ensures { JudgesForm (D.known names.now) text.now result (valid_of name) }
{
    let param = param_at(text, names, name);
    Part::atom(param.flaw, Cond::Valid(param.value))
}

/// That an alert is active.
pub(crate) fn alerted<D: Dictionary>(text: &[u8], names: &D, name: Span) -> Part
    requires { length (D.known names.now).alerts < 2 ^ 32 }
    ensures { JudgesForm (D.known names.now) text.now result (alert_of name) }
{
    let alert = alert_at(text, names, name);
    Part::atom(alert.flaw, Cond::Alert(alert.value))
}

/// That a computer is up.
pub(crate) fn computer(text: &[u8], number: Span) -> Part
    ensures { (names : TermNames) → JudgesForm names text.now result (fwc_of number) }
{
    let computer = amount_at(text, number, 1, 2);
    Part::atom(computer.flaw, Cond::Fwc(computer.value as u8))
}

/// That the flight phase is this one.
pub(crate) fn in_phase(text: &[u8], number: Span) -> Part
    ensures { (names : TermNames) → JudgesForm names text.now result (phase_of number []) }
{
    let phase = amount_at(text, number, 1, 10);
    let only = PhaseSet::only(Phase {
        number: phase.value as u8,
    });
    Part::atom(phase.flaw, Cond::InPhase(only))
}
