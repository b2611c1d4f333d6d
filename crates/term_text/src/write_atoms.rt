// Writing the parts of a condition that have no conditions in them.
ghost use Rattle.std.specs.Prelude.{◌≡◌, ◌++◌, ◌<◌, length, codes, decimal, string_bytes, IfOk};
ghost use Rattle.std.specs.Fmt.{signed_decimal};
ghost use Rattle.term_text.specs.Known.{texts_of};
ghost use Rattle.term_text.specs.Written as spec;

use arrayvec::ArrayString;
use ecam_kinds::{Key, Phase, PhaseSet};
use ecam_spec::Op;
use ecam_spec::limits::NAME;
use itoa::{Buffer, Integer};
use std::alloc::AllocError;

/// The name at a place.
pub(crate) fn name_at(names: &[ArrayString<NAME>], place: u32) -> &str
    requires { place < length names.now }
    ensures { result.now ≡ spec.name_at (texts_of names.now) place }
{
    names[place as usize].as_str()
}

/// Adds a number in decimal.
pub(crate) fn push_number<I: Integer>(text: &mut String, number: I) -> Result<(), AllocError>
    ensures { IfOk result (λ _. string_bytes text.new ≡ string_bytes text.old ++ I.text number) }
{
    let mut buffer = Buffer::new();
    text.push_str(buffer.format(number))
}

/// Adds a word with an opening bracket, what stands in the brackets, and the closing bracket.
pub(crate) fn push_enclosed(
    text: &mut String,
    opening: &str,
    inside: &str,
) -> Result<(), AllocError>
    ensures { IfOk result (λ _. string_bytes text.new
        ≡ string_bytes text.old ++ spec.enclosed opening.now inside.now) }
{
    text.push_str(opening)?;
    text.push_str(inside)?;
    text.push_str(")")
}

fn sign_of(op: Op) -> &'static str
    ensures { result.now ≡ spec.sign_of op }
{
    match op {
        Op::Less => "<",
        Op::LessEq => "<=",
        Op::More => ">",
        Op::MoreEq => ">=",
        Op::Equal => "=",
        Op::Differ => "!=",
    }
}

/// Adds a comparison of a parameter with a number.
pub(crate) fn push_comparison(
    text: &mut String,
    name: &str,
    op: Op,
    number: i64,
) -> Result<(), AllocError>
    ensures { IfOk result (λ _. string_bytes text.new ≡ string_bytes text.old
        ++ (name.now ++ spec.spaced (spec.sign_of op) ++ signed_decimal number)) }
{
    text.push_str(name)?;
    text.push_str(" ")?;
    text.push_str(sign_of(op))?;
    text.push_str(" ")?;
    push_number(text, number)
}

fn push_key(text: &mut String, key: Key) -> Result<(), AllocError>
    ensures { IfOk result (λ _. string_bytes text.new
        ≡ string_bytes text.old ++ spec.key_word key) }
{
    match key {
        Key::Clr => text.push_str("CLR"),
        Key::Rcl => text.push_str("RCL"),
        Key::Sts => text.push_str("STS"),
        Key::All => text.push_str("ALL"),
        Key::Emer => text.push_str("EMER"),
        Key::ToCfg => text.push_str("TOCFG"),
        Key::Mw => text.push_str("MW"),
        Key::Mc => text.push_str("MC"),
        Key::Page(page) => push_page(text, page),
    }
}

fn push_page(text: &mut String, page: u8) -> Result<(), AllocError>
    ensures { IfOk result (λ _. string_bytes text.new
        ≡ string_bytes text.old ++ (codes "PG" ++ decimal page)) }
{
    text.push_str("PG")?;
    push_number(text, page)
}

/// Adds that a key is pressed.
pub(crate) fn push_press(text: &mut String, key: Key) -> Result<(), AllocError>
    ensures { IfOk result (λ _. string_bytes text.new
        ≡ string_bytes text.old ++ spec.enclosed (codes "press(") (spec.key_word key)) }
{
    text.push_str("press(")?;
    push_key(text, key)?;
    text.push_str(")")
}

/// Adds that a computer is up.
pub(crate) fn push_computer(text: &mut String, number: u8) -> Result<(), AllocError>
    ensures { IfOk result (λ _. string_bytes text.new
        ≡ string_bytes text.old ++ spec.enclosed (codes "fwc(") (decimal number)) }
{
    text.push_str("fwc(")?;
    push_number(text, number)?;
    text.push_str(")")
}

/// What stands before the first of a list, and before each other.
pub(crate) fn separator(is_first: bool) -> &'static str
    ensures { result.now ≡ spec.separator is_first }
{
    if is_first { "" } else { ", " }
}

fn push_phases(text: &mut String, phases: PhaseSet) -> Result<(), AllocError>
    ensures { IfOk result (λ _. string_bytes text.new
        ≡ string_bytes text.old ++ spec.listed_numbers (spec.phases_of phases.0)) }
{
    let mut is_first = true;
    for number in 1..11 {
        if phases.has(Phase { number }) {
            text.push_str(separator(is_first))?;
            push_number(text, number)?;
            is_first = false;
        }
    }
    Ok(())
}

/// Adds that the flight phase is one of these: their numbers stand rising.
pub(crate) fn push_in_phase(text: &mut String, phases: PhaseSet) -> Result<(), AllocError>
    ensures { IfOk result (λ _. string_bytes text.new ≡ string_bytes text.old
        ++ spec.enclosed (codes "phase(") (spec.listed_numbers (spec.phases_of phases.0))) }
{
    text.push_str("phase(")?;
    push_phases(text, phases)?;
    text.push_str(")")
}
