// The tree of a condition, from the steps that its text makes.
ghost use Rattle.std.specs.Prelude.{◌≡◌, ◌<◌, ◌^◌, [], ◌∷◌, List, Some, IfOk, OnOk, length};
ghost use Rattle.ecam_spec.specs.Grammar.{Form};
ghost use Rattle.ecam_spec.specs.TermText.{judged};
ghost use Rattle.ecam_spec.proofs.TermReading.{after_step, after_all};
ghost use Rattle.term_text.specs.Answer.{Tells};
ghost use Rattle.term_text.specs.Parts.{IsLastName, StandFor, last_name, parts};

use crate::atoms::{alerted, compared, computer, in_phase, named, valid};
use crate::error::TermError;
use crate::names::Dictionary;
use crate::part::Part;
use crate::parts::Parts;
use ecam_spec::{Span, Step};
use std::alloc::{AllocError, Global};
use term_tree::Cond;

/// The tree of the steps that a text makes, or why it is refused.
pub(crate) fn condition_of<D: Dictionary>(
    alloc: Global,
    text: &[u8],
    names: &D,
    steps: &[Step],
) -> Result<Cond, TermError>
    requires few_parameters { length (D.known names.now).parameters < 2 ^ 32 }
    requires few_alerts { length (D.known names.now).alerts < 2 ^ 32 }
    ensures { (f : Form) → after_all steps.now [] ≡ Some (f ∷ [])
        → Tells (judged (D.known names.now) text.now f) result }
{
    let mut read = Parts::new(alloc);
    let mut name = Span { at: 0, end: 0 };
    for step in steps {
        apply(alloc, text, names, name, *step, &mut read)?;
        name = last_name(*step, name);
    }
    read.pop().judged()
}

// The last name by itself, after a step.
fn last_name(step: Step, before: Span) -> Span
    ensures { result ≡ last_name step before }
{
    match step {
        Step::Named(name) => name,
        _ => before,
    }
}

// Makes one step, before which this was the last name by itself.
fn apply<D: Dictionary>(
    alloc: Global,
    text: &[u8],
    names: &D,
    name: Span,
    step: Step,
    read: &mut Parts,
) -> Result<(), AllocError>
    requires few_parameters { length (D.known names.now).parameters < 2 ^ 32 }
    requires few_alerts { length (D.known names.now).alerts < 2 ^ 32 }
    ensures { (forms after : List Form) → StandFor (D.known names.now) text.now (parts read.old)
        forms → IsLastName name forms → after_step step forms ≡ Some after
        → OnOk result (StandFor (D.known names.now) text.now (parts read.new) after) }
{
    let part = part_of(alloc, text, names, name, step, read)?;
    read.push(part)
}

// The condition that a step makes, of those that were read. What is compared is the last name by itself, which then
// stands for no condition.
fn part_of<D: Dictionary>(
    alloc: Global,
    text: &[u8],
    names: &D,
    name: Span,
    step: Step,
    read: &mut Parts,
) -> Result<Part, AllocError>
    requires few_parameters { length (D.known names.now).parameters < 2 ^ 32 }
    requires few_alerts { length (D.known names.now).alerts < 2 ^ 32 }
    ensures { (forms after : List Form) → StandFor (D.known names.now) text.now (parts read.old)
        forms → IsLastName name forms → after_step step forms ≡ Some after
        → IfOk result (λ p. StandFor (D.known names.now) text.now (p ∷ parts read.new) after) }
{
    match step {
        Step::Constant(value) => Ok(Part::atom(None, Cond::Const(value))),
        Step::Named(name) => named(alloc, text, names, name),
        Step::Valid(name) => Ok(valid(text, names, name)),
        Step::Alerted(name) => Ok(alerted(text, names, name)),
        Step::Pressed(key) => Ok(Part::atom(None, Cond::Press(key))),
        Step::Computer(number) => Ok(computer(text, number)),
        Step::Phase(number) => Ok(in_phase(text, number)),
        Step::Compared(op, number) => {
            drop(read.pop());
            Ok(compared(text, names, name, op, number))
        }
        Step::AlsoPhase(number) => Ok(read.pop().also_in_phase(text, number)),
        Step::Negation => read.pop().negated(alloc),
        Step::Risen => read.pop().risen(alloc),
        Step::Confirmed(number) => read.pop().confirmed(alloc, text, number),
        Step::Held(number) => read.pop().held(alloc, text, number),
        Step::Latched => {
            let reset = read.pop();
            read.pop().latched(alloc, reset)
        }
        Step::Over(list, count) => {
            let members = read.take(alloc, count)?;
            Ok(members.listed(text, list))
        }
    }
}
