// Writing a condition as text.
ghost use Rattle.std.specs.Prelude.{◌≡◌, ◌++◌, ◌≤◌, true, length, codes, string_bytes, decimal, IfOk};
ghost use Rattle.ecam_spec.specs.TermText.{means};
ghost use Rattle.ecam_spec.specs.TermVerdict.{IsVerdict};
ghost use Rattle.ecam_spec.specs.TermNames.{IsWithin, AreWithin};
ghost use Rattle.term_tree.specs.View.{tree_of, trees_of};
ghost use Rattle.term_text.specs.Known.{known_names};
ghost use Rattle.term_text.specs.Written.{enclosed, written, listed};
ghost use Rattle.term_text.specs.Readable.{CanBeRead, TermsCanBeRead};

use crate::names::Names;
use crate::write_atoms::{
    name_at, push_comparison, push_computer, push_enclosed, push_in_phase, push_number, push_press,
    separator,
};
use std::alloc::{AllocError, Global};
use term_tree::Cond;

/// The text of a condition that some text means with these names: words, names and numbers without blanks in
/// them, a blank after each comma and on each side of a comparison's sign, numbers without leading zeros, and
/// phases rising, each once. It names no condition. It has at most 4096 bytes, and read with the same names it is
/// the condition again. The named conditions are ones that can be read without them.
pub fn write_term(alloc: Global, cond: &Cond, names: &Names<'_>) -> Result<String, AllocError>
    requires terms { TermsCanBeRead (known_names names.now) }
    requires readable { CanBeRead (known_names names.now) (tree_of cond.now) }
    ensures normal { IfOk result (λ t. string_bytes t
        ≡ written (known_names names.now) (tree_of cond.now)) }
    ensures short { IfOk result (λ t. length (string_bytes t) ≤ 4096) }
    ensures reads_back { IfOk result (λ t. IsVerdict (known_names names.now) (string_bytes t)
        (means (tree_of cond.now))) }
{
    let mut text = String::new(alloc);
    push_condition(&mut text, cond, names)?;
    Ok(text)
}

// Adds a condition.
#[cycle(condition)]
#[tactic(auto, unfolding(crate::specs::Written::written, ecam_spec::specs::TermNames::IsWithin))]
fn push_condition(text: &mut String, cond: &Cond, names: &Names<'_>) -> Result<(), AllocError>
    requires { IsWithin (length names.now.params.now) (length names.now.alerts.now)
        (tree_of cond.now) }
    ensures { IfOk result (λ _. string_bytes text.new
        ≡ string_bytes text.old ++ written (known_names names.now) (tree_of cond.now)) }
{
    match cond {
        Cond::Const(true) => text.push_str("true"),
        Cond::Const(false) => text.push_str("false"),
        Cond::Disc(place) => text.push_str(name_at(names.params, *place)),
        Cond::Valid(place) => push_enclosed(text, "valid(", name_at(names.params, *place)),
        Cond::Cmp(place, op, number) => {
            push_comparison(text, name_at(names.params, *place), *op, *number)
        }
        Cond::InPhase(phases) => push_in_phase(text, *phases),
        Cond::Alert(place) => push_enclosed(text, "alert(", name_at(names.alerts, *place)),
        Cond::Press(key) => push_press(text, *key),
        Cond::Fwc(number) => push_computer(text, *number),
        Cond::Not(of) => push_over(text, "not(", of, names),
        Cond::Rise(of) => push_over(text, "rise(", of, names),
        Cond::All(members) => push_list(text, "all(", members, names),
        Cond::Any(members) => push_list(text, "any(", members, names),
        Cond::AtLeast(least, members) => push_at_least(text, *least, members, names),
        Cond::Conf(of, moments) => push_timed(text, "conf(", of, *moments, names),
        Cond::Hold(of, moments) => push_timed(text, "hold(", of, *moments, names),
        Cond::Latch(set, reset) => {
            text.push_str("latch(")?;
            push_condition(text, set, names)?;
            text.push_str(", ")?;
            push_condition(text, reset, names)?;
            text.push_str(")")
        }
    }
}

// Adds an operator over one condition.
#[cycle(condition)]
fn push_over(
    text: &mut String,
    opening: &str,
    of: &Cond,
    names: &Names<'_>,
) -> Result<(), AllocError>
    requires { IsWithin (length names.now.params.now) (length names.now.alerts.now)
        (tree_of of.now) }
    ensures { IfOk result (λ _. string_bytes text.new ≡ string_bytes text.old
        ++ enclosed opening.now (written (known_names names.now) (tree_of of.now))) }
{
    text.push_str(opening)?;
    push_condition(text, of, names)?;
    text.push_str(")")
}

// Adds an operator over a condition and a number of moments.
#[cycle(condition)]
fn push_timed(
    text: &mut String,
    opening: &str,
    of: &Cond,
    moments: u32,
    names: &Names<'_>,
) -> Result<(), AllocError>
    requires { IsWithin (length names.now.params.now) (length names.now.alerts.now)
        (tree_of of.now) }
    ensures { IfOk result (λ _. string_bytes text.new ≡ string_bytes text.old
        ++ enclosed opening.now (written (known_names names.now) (tree_of of.now) ++ codes ", "
        ++ decimal moments)) }
{
    text.push_str(opening)?;
    push_condition(text, of, names)?;
    text.push_str(", ")?;
    push_number(text, moments)?;
    text.push_str(")")
}

// Adds an operator over a list of conditions.
#[cycle(condition)]
fn push_list(
    text: &mut String,
    opening: &str,
    members: &[Cond],
    names: &Names<'_>,
) -> Result<(), AllocError>
    requires { AreWithin (length names.now.params.now) (length names.now.alerts.now)
        (trees_of members.now) }
    ensures { IfOk result (λ _. string_bytes text.new ≡ string_bytes text.old
        ++ enclosed opening.now (listed (known_names names.now) true (trees_of members.now))) }
{
    text.push_str(opening)?;
    push_members(text, members, names)?;
    text.push_str(")")
}

// Adds a least count of a list of conditions.
#[cycle(condition)]
fn push_at_least(
    text: &mut String,
    least: u32,
    members: &[Cond],
    names: &Names<'_>,
) -> Result<(), AllocError>
    requires { AreWithin (length names.now.params.now) (length names.now.alerts.now)
        (trees_of members.now) }
    ensures { IfOk result (λ _. string_bytes text.new ≡ string_bytes text.old
        ++ enclosed (codes "atleast(") (decimal least ++ codes ", "
        ++ listed (known_names names.now) true (trees_of members.now))) }
{
    text.push_str("atleast(")?;
    push_number(text, least)?;
    text.push_str(", ")?;
    push_members(text, members, names)?;
    text.push_str(")")
}

// Adds conditions with commas between them.
#[cycle(condition)]
fn push_members(text: &mut String, members: &[Cond], names: &Names<'_>) -> Result<(), AllocError>
    requires { AreWithin (length names.now.params.now) (length names.now.alerts.now)
        (trees_of members.now) }
    ensures { IfOk result (λ _. string_bytes text.new ≡ string_bytes text.old
        ++ listed (known_names names.now) true (trees_of members.now)) }
{
    let mut is_first = true;
    for member in members {
        text.push_str(separator(is_first))?;
        push_condition(text, member, names)?;
        is_first = false;
    }
    Ok(())
}
