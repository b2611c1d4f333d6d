// The rules that an advisory's table keeps.
ghost use Rattle.std.specs.Prelude.{◌≡◌, not, is_none, is_some, codes};
ghost use Rattle.toml.specs.Data.{get_member};
ghost use Rattle.toml.specs.View.{view, table_view};
ghost use Rattle.ecam_spec.specs.declared.limits.TheConstants.{PHASES};
ghost use Rattle.ecam_spec.specs.BookText.{is_name};
ghost use Rattle.ecam_spec.specs.KeepsLimits.{is_repeated};
ghost use Rattle.book_spec.specs.Rules.{is_no_list_of, is_string, is_whole_number, string_fails, has_wrong_count};
ghost use Rattle.view_spec.specs.Places as places;
ghost use Rattle.limits_spec.specs.Rules as spec;
ghost use Rattle.advisories.specs.Document.{book_in, listed_names};

use crate::document::Document;
use crate::sums::{difference, sum};
use book_faults::rules::{has_other_than_numbers, has_wrong_count, has_wrong_phase};
use book_places::{number_place, page_place};
use book_tables::fields::{find, has_only, list_in, members_of, string_at};
use book_tables::texts::is_name;
use ecam_spec::limits;
use limits_spec::Rule;
use toml::{Table, Value};

/// The keys of an advisory, all but the last of which are needed.
const KEYS: [&str; 8] = [
    "name", "param", "page", "low", "high", "margin", "confirm", "inhibit",
];

fn lacks(table: &Table, key: &str) -> bool
    ensures { result ≡ is_none (get_member key.now (table_view table.now)) }
{
    find(table, key).is_none()
}

#[tactic(auto, unfolding(limits_spec::specs::Rules::lacks_key, limits_spec::specs::Rules::needed_keys, limits_spec::specs::Rules::text_keys, limits_spec::specs::Rules::number_keys))]
fn lacks_key(table: &Table) -> bool
    ensures { result ≡ spec.lacks_key (table_view table.now) }
{
    lacks(table, "name")
        || lacks(table, "param")
        || lacks(table, "page")
        || lacks(table, "low")
        || lacks(table, "high")
        || lacks(table, "margin")
        || lacks(table, "confirm")
}

fn holds_no_text(table: &Table, key: &str) -> bool
    ensures { result ≡ spec.so_at key.now (λ value. not (is_string value)) (table_view table.now) }
{
    match find(table, key) {
        Some(value) => value.as_str().is_none(),
        None => false,
    }
}

fn holds_no_number(table: &Table, key: &str) -> bool
    ensures { result ≡ spec.so_at key.now (λ value. not (is_whole_number value))
        (table_view table.now) }
{
    match find(table, key) {
        Some(value) => value.as_integer().is_none(),
        None => false,
    }
}

fn is_no_list_of_numbers(value: &Value) -> bool
    ensures { result ≡ is_no_list_of is_whole_number (view value.now) }
{
    value.as_array().is_none() || has_other_than_numbers(members_of(value))
}

fn holds_no_phases(table: &Table) -> bool
    ensures { result ≡ spec.so_at (codes "inhibit") (is_no_list_of is_whole_number)
        (table_view table.now) }
{
    match find(table, "inhibit") {
        Some(value) => is_no_list_of_numbers(value),
        None => false,
    }
}

#[tactic(auto, unfolding(limits_spec::specs::Rules::has_wrong_type, limits_spec::specs::Rules::text_keys, limits_spec::specs::Rules::number_keys))]
fn has_wrong_type(table: &Table) -> bool
    ensures { result ≡ spec.has_wrong_type (table_view table.now) }
{
    holds_no_text(table, "name")
        || holds_no_text(table, "param")
        || holds_no_text(table, "page")
        || holds_no_number(table, "low")
        || holds_no_number(table, "high")
        || holds_no_number(table, "margin")
        || holds_no_number(table, "confirm")
        || holds_no_phases(table)
}

// Whether a whole number stands at a key that isn't from `low` to `high`.
fn is_outside(table: &Table, key: &str, low: i64, high: i64) -> bool
    ensures { result ≡ spec.so_at key.now (spec.integer_fails low high) (table_view table.now) }
{
    match find(table, key) {
        Some(value) => match value.as_integer() {
            Some(number) => !(low <= number && number <= high),
            None => false,
        },
        None => false,
    }
}

#[tactic(auto, unfolding(limits_spec::specs::Rules::has_wrong_number))]
fn has_wrong_number(table: &Table) -> bool
    ensures { result ≡ spec.has_wrong_number (table_view table.now) }
{
    let most = i64::from(limits::NUMBER);
    is_outside(table, "low", -most, most)
        || is_outside(table, "high", -most, most)
        || is_outside(table, "margin", 0, most)
        || is_outside(table, "confirm", 0, i64::from(limits::WAIT))
        || has_wrong_phase(list_in(table, "inhibit"))
}

fn has_long_list(table: &Table) -> bool
    ensures { result
        ≡ spec.so_at (codes "inhibit") (has_wrong_count 0 PHASES) (table_view table.now) }
{
    match find(table, "inhibit") {
        Some(value) => has_wrong_count(0, limits::PHASES, value),
        None => false,
    }
}

/// The whole number at a key, or 0.
pub(crate) fn integer_at(table: &Table, key: &str) -> i64
    ensures { result ≡ spec.integer_at key.now (table_view table.now) }
{
    match find(table, key) {
        Some(value) => value.as_integer().unwrap_or(0),
        None => 0,
    }
}

#[tactic(auto, unfolding(limits_spec::specs::Rules::has_no_room))]
fn has_no_room(table: &Table) -> bool
    ensures { result ≡ spec.has_no_room (table_view table.now) }
{
    let margin = integer_at(table, "margin");
    let low = integer_at(table, "low");
    let high = integer_at(table, "high");
    difference(high, margin) < sum(low, margin)
}

#[tactic(auto, unfolding(book_spec::specs::Fields::string_at))]
fn has_bad_name(table: &Table) -> bool
    ensures { result ≡ spec.so_at (codes "name") (string_fails is_name) (table_view table.now) }
{
    match string_at(table, "name") {
        Some(name) => !is_name(name),
        None => false,
    }
}

#[tactic(auto, unfolding(book_spec::specs::Fields::string_at))]
fn has_repeated_name(document: &Document<'_>, table: &Table) -> bool
    ensures { result ≡ spec.so_at (codes "name")
        (string_fails (λ name. not (is_repeated (listed_names document.now) name)))
        (table_view table.now) }
{
    match string_at(table, "name") {
        Some(name) => document.is_repeated(name),
        None => false,
    }
}

#[tactic(auto, unfolding(book_spec::specs::Fields::string_at))]
fn has_no_parameter(document: &Document<'_>, table: &Table) -> bool
    ensures { result ≡ spec.so_at (codes "param")
        (string_fails (λ name. is_some (places.number_place (book_in document.now) name)))
        (table_view table.now) }
{
    match string_at(table, "param") {
        Some(name) => number_place(document.book, name).is_none(),
        None => false,
    }
}

#[tactic(auto, unfolding(book_spec::specs::Fields::string_at))]
fn has_no_page(document: &Document<'_>, table: &Table) -> bool
    ensures { result ≡ spec.so_at (codes "page")
        (string_fails (λ name. is_some (places.page_place (book_in document.now) name)))
        (table_view table.now) }
{
    match string_at(table, "page") {
        Some(name) => page_place(document.book, name).is_none(),
        None => false,
    }
}

/// Whether the table of an advisory breaks a rule.
#[tactic(auto, unfolding(limits_spec::specs::Rules::table_breaks, limits_spec::specs::Rules::known_keys, limits_spec::specs::Rules::needed_keys, limits_spec::specs::Rules::text_keys, limits_spec::specs::Rules::number_keys))]
fn table_breaks(rule: Rule, document: &Document<'_>, table: &Table) -> bool
    ensures { result ≡ spec.table_breaks (book_in document.now) (listed_names document.now) rule
        (table_view table.now) }
{
    match rule {
        Rule::Known => !has_only(table, &KEYS),
        Rule::Needed => lacks_key(table),
        Rule::Typed => has_wrong_type(table),
        Rule::Named => has_bad_name(table),
        Rule::Ranged => has_wrong_number(table),
        Rule::Counted => has_long_list(table),
        Rule::Single => has_repeated_name(document, table),
        Rule::Measured => has_no_parameter(document, table),
        Rule::Paged => has_no_page(document, table),
        Rule::Roomy => has_no_room(table),
    }
}

/// Whether an advisory breaks a rule. What is no table breaks that of types.
#[tactic(auto, unfolding(limits_spec::specs::Rules::item_breaks))]
pub(crate) fn item_breaks(rule: Rule, document: &Document<'_>, value: &Value) -> bool
    ensures { result ≡ spec.item_breaks (book_in document.now) (listed_names document.now) rule
        (view value.now) }
{
    match value.as_table() {
        Some(table) => table_breaks(rule, document, table),
        None => matches!(rule, Rule::Typed),
    }
}
