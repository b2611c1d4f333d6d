// What the names and the numbers of a condition's text stand for.
ghost use Rattle.std.specs.Prelude.{◌≡◌, ◌<◌, ◌≤◌, ◌^◌, None, pos, length, unwrap_or};
ghost use Rattle.ecam_spec.specs.Token.{bytes_of};
ghost use Rattle.ecam_spec.specs.TermText.{TermNames, earliest, name_flaw, number_flaw, compared_flaw, name_place, parameter_of, alert_place, amount};
ghost use Rattle.ecam_spec.specs.TermNumber.{value};
ghost use Rattle.term_text.specs.Flaws.{flaw_in};

use crate::flaw::Flaw;
use crate::names::Dictionary;
use crate::number::{amount_within, compared_number};
use ecam_spec::Span;

/// The bytes of a text that a span has.
pub(crate) fn bytes_of(text: &[u8], span: Span) -> &[u8]
    ensures { result.now ≡ bytes_of text.now span }
{
    let end = span.end.min(text.len());
    if span.at < end {
        &text[span.at..end]
    } else {
        &[]
    }
}

/// What a name or a number stands for, and what is wrong with it.
#[derive(Clone, Copy)]
pub(crate) struct Resolved<T> {
    pub value: T,
    pub flaw: Option<Flaw>,
}

/// The parameter of this name, by its place.
#[tactic(auto, unfolding(ecam_spec::specs::TermText::name_flaw, ecam_spec::specs::TermText::earlier))]
pub(crate) fn param_at<D: Dictionary>(text: &[u8], names: &D, name: Span) -> Resolved<u32>
    requires { length (D.known names.now).parameters < 2 ^ 32 }
    ensures value { result.value ≡ parameter_of (D.known names.now) text.now name }
    ensures flaw { flaw_in result.flaw ≡ earliest
        (name_flaw (D.known names.now) text.now (D.known names.now).parameters name) }
{
    match names.param(bytes_of(text, name)) {
        Some(value) => Resolved { value, flaw: None },
        None => Resolved {
            value: 0,
            flaw: Some(Flaw::UnknownName(name.at)),
        },
    }
}

/// The alert of this name, by its place.
#[tactic(auto, unfolding(ecam_spec::specs::TermText::name_flaw, ecam_spec::specs::TermText::earlier))]
pub(crate) fn alert_at<D: Dictionary>(text: &[u8], names: &D, name: Span) -> Resolved<u32>
    requires { length (D.known names.now).alerts < 2 ^ 32 }
    ensures value { result.value ≡ alert_place (D.known names.now) text.now name }
    ensures flaw { flaw_in result.flaw ≡ earliest
        (name_flaw (D.known names.now) text.now (D.known names.now).alerts name) }
{
    match names.alert(bytes_of(text, name)) {
        Some(value) => Resolved { value, flaw: None },
        None => Resolved {
            value: 0,
            flaw: Some(Flaw::UnknownName(name.at)),
        },
    }
}

/// A number from `low` to `high`. In place of one out of this range stands `low`.
#[tactic(auto, unfolding(ecam_spec::specs::TermText::number_flaw, ecam_spec::specs::TermText::earlier))]
pub(crate) fn amount_at(text: &[u8], number: Span, low: u64, high: u64) -> Resolved<u64>
    requires { high < u64.MAX }
    ensures value { (names : TermNames) → flaw_in result.flaw ≡ None
        → result.value ≡ amount names text.now number }
    ensures flaw { (names : TermNames) → flaw_in result.flaw
        ≡ earliest (number_flaw names text.now (pos low) (pos high) number) }
    ensures range { low ≤ high → (low ≤ result.value) × (result.value ≤ high) }
{
    match amount_within(bytes_of(text, number), low, high) {
        Some(value) => Resolved { value, flaw: None },
        None => Resolved {
            value: low,
            flaw: Some(Flaw::OutOfRange(number.at)),
        },
    }
}

/// A number that something is compared with. In place of one out of its range stands 0.
#[tactic(auto, unfolding(ecam_spec::specs::TermText::number_flaw, ecam_spec::specs::TermText::earlier))]
pub(crate) fn compared_at(text: &[u8], number: Span) -> Resolved<i64>
    ensures value { flaw_in result.flaw ≡ None → result.value ≡ value (bytes_of text.now number) }
    ensures flaw { (names : TermNames) → flaw_in result.flaw
        ≡ earliest (compared_flaw names text.now number) }
{
    match compared_number(bytes_of(text, number)) {
        Some(value) => Resolved { value, flaw: None },
        None => Resolved {
            value: 0,
            flaw: Some(Flaw::OutOfRange(number.at)),
        },
    }
}
