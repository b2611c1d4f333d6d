// The rules that values without tables keep.
ghost use Rattle.std.specs.Prelude.{◌≡◌, ◌≤◌, not, is_some, length, option_copied, IfOk, IfSome};
ghost use Rattle.std.specs.List.{list_any};
ghost use Rattle.toml.specs.Data.{as_array};
ghost use Rattle.toml.specs.View.{view};
ghost use Rattle.book_spec.specs.Verdict.{verdict};
ghost use Rattle.book_spec.specs.Schema.{is_word};
ghost use Rattle.book_spec.specs.Rules as spec;
ghost use Rattle.book_faults.specs.Asked.{leaf_fails, unread_rules, read_rules};
ghost use Rattle.book_tables.specs.Catalogue.{names_in};
ghost use Rattle.book_faults.specs.Refused.{refused_by, refuses};
ghost use Rattle.book_tables.specs.Reading.{views};
ghost use Rattle.book_faults.specs.declared.rules.Asked.TheVariants.{Every};

use book_spec::{Leaf, Rule, Words};
use book_tables::Scope;
use book_tables::conditions::read_condition;
use book_tables::fields::{members_of, term_text_in};
use book_tables::texts::{is_name, is_term_text, is_text, label_from};
use book_tables::words::{colour_of, kind_of, section_of, sound_of, zone_of};
use ecam_spec::limits::{self, TERM_TEXT};
use std::alloc::{AllocError, Global};
use term_text::TermError;
use toml::Value;

/// The rules that are asked for: one, every one, or those for which no condition is read.
#[derive(Clone, Copy)]
pub(crate) enum Asked {
    One(Rule),
    Every,
    Unread,
}

fn is_string(value: &Value) -> bool
    ensures { result ≡ spec.is_string (view value.now) }
{
    value.as_str().is_some()
}

fn is_whole_number(value: &Value) -> bool
    ensures { result ≡ spec.is_whole_number (view value.now) }
{
    value.as_integer().is_some()
}

fn is_list(value: &Value) -> bool
    ensures { result ≡ is_some (as_array (view value.now)) }
{
    value.as_array().is_some()
}

fn has_other_than_strings(values: &[Value]) -> bool
    ensures { result ≡ list_any (λ d. not (spec.is_string d)) (views values.now) }
{
    for value in values {
        if !is_string(value) {
            return true;
        }
    }
    false
}

/// Whether one of these is no whole number.
pub fn has_other_than_numbers(values: &[Value]) -> bool
    ensures { result ≡ list_any (λ d. not (spec.is_whole_number d)) (views values.now) }
{
    for value in values {
        if !is_whole_number(value) {
            return true;
        }
    }
    false
}

/// Whether a value has another type than the one that is listed.
#[tactic(auto, unfolding(book_spec::specs::Rules::has_wrong_type))]
fn has_wrong_type(leaf: Leaf, value: &Value) -> bool
    ensures { result ≡ spec.has_wrong_type leaf (view value.now) }
{
    match leaf {
        Leaf::Number(_, _) => !is_whole_number(value),
        Leaf::Phases => !is_list(value) || has_other_than_numbers(members_of(value)),
        Leaf::Alerts => !is_list(value) || has_other_than_strings(members_of(value)),
        _ => !is_string(value),
    }
}

fn name_fails(leaf: Leaf, value: &Value) -> bool
    ensures { result ≡ spec.name_fails leaf (view value.now) }
{
    match (leaf, value.as_str()) {
        (Leaf::Name, Some(text)) => !is_name(text),
        _ => false,
    }
}

/// Whether a text, or a condition's text, hasn't its form.
fn has_wrong_form(leaf: Leaf, value: &Value) -> bool
    ensures { result ≡ spec.has_wrong_form leaf (view value.now) }
{
    match (leaf, value.as_str()) {
        (Leaf::Text(most), Some(text)) => !is_text(text, most),
        (Leaf::Term, Some(text)) => !is_term_text(text),
        _ => false,
    }
}

fn number_fails(low: u32, high: u32, value: &Value) -> bool
    ensures { result ≡ spec.number_fails low high (view value.now) }
{
    match value.as_integer() {
        Some(number) => !(i64::from(low) <= number && number <= i64::from(high)),
        None => false,
    }
}

/// Whether one of these is a whole number and no flight phase.
pub fn has_wrong_phase(values: &[Value]) -> bool
    ensures { result ≡ list_any (spec.number_fails 1 10) (views values.now) }
{
    for value in values {
        if number_fails(1, 10, value) {
            return true;
        }
    }
    false
}

fn is_out_of_range(leaf: Leaf, value: &Value) -> bool
    ensures { result ≡ spec.is_out_of_range leaf (view value.now) }
{
    match leaf {
        Leaf::Number(low, high) => number_fails(low, high, value),
        Leaf::Phases => has_wrong_phase(members_of(value)),
        _ => false,
    }
}

/// Whether a list has fewer members than `low` or more than `high`.
pub fn has_wrong_count(low: usize, high: usize, value: &Value) -> bool
    ensures { result ≡ spec.has_wrong_count low high (view value.now) }
{
    let count = members_of(value).len();
    is_list(value) && !(low <= count && count <= high)
}

fn is_too_long(leaf: Leaf, value: &Value) -> bool
    ensures { result ≡ spec.is_too_long leaf (view value.now) }
{
    match leaf {
        Leaf::Phases => has_wrong_count(0, limits::PHASES, value),
        Leaf::Alerts => has_wrong_count(0, limits::SECONDARIES, value),
        _ => false,
    }
}

#[tactic(auto, unfolding(book_spec::specs::Schema::is_word))]
fn is_word(list: Words, word: &str) -> bool
    ensures { result ≡ is_word list word.now }
{
    match list {
        Words::Kind => kind_of(word).is_some(),
        Words::Sound => sound_of(word).is_some(),
        Words::Section => section_of(word).is_some(),
        Words::Zone => zone_of(word).is_some(),
        Words::Colour => colour_of(word).is_some(),
    }
}

fn is_no_word(leaf: Leaf, value: &Value) -> bool
    ensures { result ≡ spec.is_no_word leaf (view value.now) }
{
    match (leaf, value.as_str()) {
        (Leaf::Word(list), Some(word)) => !is_word(list, word),
        _ => false,
    }
}

fn label_fails(leaf: Leaf, value: &Value) -> bool
    ensures { result ≡ spec.label_fails leaf (view value.now) }
{
    match (leaf, value.as_str()) {
        (Leaf::Label, Some(text)) => label_from(text).is_none(),
        _ => false,
    }
}

#[tactic(auto, using(book_tables::proofs::NamePlaces::no_place))]
fn page_fails(names: &Scope<'_, '_>, leaf: Leaf, value: &Value) -> bool
    ensures { result ≡ spec.page_fails (names_in names.now) leaf (view value.now) }
{
    match (leaf, value.as_str()) {
        (Leaf::Page, Some(name)) => names.page(name).is_none(),
        _ => false,
    }
}

#[tactic(auto, using(book_tables::proofs::NamePlaces::no_place))]
fn system_fails(names: &Scope<'_, '_>, leaf: Leaf, value: &Value) -> bool
    ensures { result ≡ spec.system_fails (names_in names.now) leaf (view value.now) }
{
    match (leaf, value.as_str()) {
        (Leaf::System, Some(name)) => names.system(name).is_none(),
        _ => false,
    }
}

#[tactic(auto, using(book_tables::proofs::NamePlaces::no_place))]
fn parameter_fails(names: &Scope<'_, '_>, leaf: Leaf, value: &Value) -> bool
    ensures { result ≡ spec.parameter_fails (names_in names.now) leaf (view value.now) }
{
    match (leaf, value.as_str()) {
        (Leaf::Parameter, Some(name)) => names.parameter(name).is_none(),
        _ => false,
    }
}

/// Whether a condition's text is refused for this rule.
fn is_refused(
    alloc: Global,
    rule: Rule,
    names: &Scope<'_, '_>,
    text: &str,
) -> Result<bool, AllocError>
    requires { length text.now ≤ TERM_TEXT }
    ensures { IfOk result (λ b. b ≡ refused_by rule
        (verdict (names_in names.now).of_terms text.now)) }
{
    match read_condition(alloc, text, names) {
        Ok(_) => Ok(false),
        Err(TermError::Syntax { .. }) => Ok(matches!(rule, Rule::Spelled)),
        Err(TermError::UnknownName { .. }) => Ok(matches!(rule, Rule::Found)),
        Err(TermError::TooDeep) => Ok(matches!(rule, Rule::Small)),
        Err(TermError::TooLarge) => Ok(matches!(rule, Rule::Small)),
        Err(TermError::Number { .. }) => Ok(matches!(rule, Rule::Measured)),
        Err(TermError::Memory) => Err(AllocError),
    }
}

/// Whether a condition is refused for this rule.
#[tactic(auto, unfolding(book_spec::specs::Rules::outcome_in))]
fn term_fails(
    alloc: Global,
    rule: Rule,
    names: &Scope<'_, '_>,
    leaf: Leaf,
    value: &Value,
) -> Result<bool, AllocError>
    ensures { IfOk result (λ b. b ≡ spec.term_fails (names_in names.now) (refused_by rule) leaf
        (view value.now)) }
{
    match (leaf, term_text_in(value)) {
        (Leaf::Term, Some(text)) => is_refused(alloc, rule, names, text),
        _ => Ok(false),
    }
}

/// Whether a value breaks this rule.
#[tactic(auto, unfolding(book_spec::specs::Rules::leaf_breaks))]
fn one_rule_breaks(
    alloc: Global,
    rule: Rule,
    names: &Scope<'_, '_>,
    leaf: Leaf,
    value: &Value,
) -> Result<bool, AllocError>
    ensures { IfOk result (λ b. b ≡ spec.leaf_breaks (names_in names.now) rule leaf
        (view value.now)) }
{
    match rule {
        Rule::Known => Ok(false),
        Rule::Needed => Ok(false),
        Rule::Typed => Ok(has_wrong_type(leaf, value)),
        Rule::Named => Ok(name_fails(leaf, value)),
        Rule::Written => Ok(has_wrong_form(leaf, value)),
        Rule::Ranged => Ok(is_out_of_range(leaf, value)),
        Rule::Counted => Ok(is_too_long(leaf, value)),
        Rule::Worded => Ok(is_no_word(leaf, value)),
        Rule::Labelled => Ok(label_fails(leaf, value)),
        Rule::Paged => Ok(page_fails(names, leaf, value)),
        Rule::Grouped => Ok(system_fails(names, leaf, value)),
        Rule::Spelled => term_fails(alloc, rule, names, leaf, value),
        Rule::Found => {
            let unknown = term_fails(alloc, rule, names, leaf, value)?;
            Ok(unknown || parameter_fails(names, leaf, value))
        }
        Rule::Small => term_fails(alloc, rule, names, leaf, value),
        Rule::Measured => term_fails(alloc, rule, names, leaf, value),
    }
}

/// Whether a condition's text is refused, for whichever rule.
fn is_unreadable(alloc: Global, names: &Scope<'_, '_>, text: &str) -> Result<bool, AllocError>
    requires { length text.now ≤ TERM_TEXT }
    ensures { IfOk result (λ b. b ≡ refuses (verdict (names_in names.now).of_terms text.now)) }
{
    match read_condition(alloc, text, names) {
        Ok(_) => Ok(false),
        Err(TermError::Memory) => Err(AllocError),
        Err(_) => Ok(true),
    }
}

/// Whether a value breaks one of the rules for which no condition is read.
#[tactic(auto, unfolding(book_spec::specs::Rules::leaf_breaks))]
fn unread_breaks(names: &Scope<'_, '_>, leaf: Leaf, value: &Value) -> bool
    ensures { result ≡ list_any (λ rule. spec.leaf_breaks (names_in names.now) rule leaf
        (view value.now)) unread_rules }
{
    has_wrong_type(leaf, value)
        || name_fails(leaf, value)
        || has_wrong_form(leaf, value)
        || is_out_of_range(leaf, value)
        || is_too_long(leaf, value)
        || is_no_word(leaf, value)
        || label_fails(leaf, value)
        || page_fails(names, leaf, value)
        || system_fails(names, leaf, value)
}

/// Whether a value breaks one of the rules for which a condition is read. It is read once for all of them.
#[tactic(auto, using(crate::proofs::EveryRule::refused_once), unfolding(book_spec::specs::Rules::leaf_breaks, book_spec::specs::Rules::outcome_in))]
fn read_breaks(
    alloc: Global,
    names: &Scope<'_, '_>,
    leaf: Leaf,
    value: &Value,
) -> Result<bool, AllocError>
    ensures { IfOk result (λ b. b ≡ list_any (λ rule. spec.leaf_breaks (names_in names.now) rule
        leaf (view value.now)) read_rules) }
{
    match (leaf, term_text_in(value)) {
        (Leaf::Term, Some(text)) => is_unreadable(alloc, names, text),
        _ => Ok(parameter_fails(names, leaf, value)),
    }
}

/// Whether a value breaks a rule, whichever it is.
fn any_rule_breaks(
    alloc: Global,
    names: &Scope<'_, '_>,
    leaf: Leaf,
    value: &Value,
) -> Result<bool, AllocError>
    ensures { IfOk result (λ b. b ≡ leaf_fails (names_in names.now) Every leaf (view value.now)) }
{
    if unread_breaks(names, leaf, value) {
        return Ok(true);
    }
    read_breaks(alloc, names, leaf, value)
}

/// Whether a value breaks a rule that is asked for. A condition is read at most once, and only where a rule is asked
/// for that it can be refused by.
#[tactic(auto, using(crate::proofs::EveryRule::unread_alone))]
pub(crate) fn leaf_breaks(
    alloc: Global,
    asked: Asked,
    names: &Scope<'_, '_>,
    leaf: Leaf,
    value: &Value,
) -> Result<bool, AllocError>
    ensures { IfOk result (λ b. b ≡ leaf_fails (names_in names.now) asked leaf (view value.now)) }
{
    match asked {
        Asked::One(rule) => one_rule_breaks(alloc, rule, names, leaf, value),
        Asked::Every => any_rule_breaks(alloc, names, leaf, value),
        Asked::Unread => Ok(unread_breaks(names, leaf, value)),
    }
}
