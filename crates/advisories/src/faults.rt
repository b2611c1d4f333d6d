// The first fault of a limits file's table.
ghost use Rattle.std.specs.Prelude.{◌≡◌, ◌<◌, ◌^◌, length, is_none, is_some, codes};
ghost use Rattle.toml.specs.Data.{as_array, get_member};
ghost use Rattle.toml.specs.View.{view, table_view};
ghost use Rattle.ecam_spec.specs.Faults.{first_item};
ghost use Rattle.book_tables.specs.Reading.{views};
ghost use Rattle.limits_spec.specs.Rules.{item_breaks};
ghost use Rattle.limits_spec.specs.Document as spec;
ghost use Rattle.advisories.specs.Document.{table_in, book_in, listed_names};

use crate::document::Document;
use crate::rules::item_breaks;
use book_faults::rules::has_wrong_count;
use book_tables::fields::{find, has_only, number_at};
use limits_spec::form::ADVISORIES;
use limits_spec::{LimitsFault, Rule};
use toml::{Table, Value};

/// The rules by their codes.
const CODED_RULES: [(u8, Rule); 10] = [
    (4, Rule::Known),
    (5, Rule::Needed),
    (6, Rule::Typed),
    (7, Rule::Named),
    (8, Rule::Ranged),
    (9, Rule::Counted),
    (10, Rule::Single),
    (11, Rule::Measured),
    (12, Rule::Paged),
    (13, Rule::Roomy),
];

/// The keys of the whole document.
const TOP_KEYS: [&str; 2] = ["version", "advisory"];

fn fault_at(code: u8, item: Option<u32>) -> Option<LimitsFault>
    ensures { result ≡ spec.fault_at code item }
{
    let item = item?;
    Some(LimitsFault { code, item })
}

// Whether the version is the whole number 1.
fn has_version(top: &Table) -> bool
    ensures { result ≡ is_some (spec.version (table_view top.now)) }
{
    number_at(top, 1, 1, "version").is_some()
}

fn is_no_list(value: &Value) -> bool
    ensures { result ≡ is_none (as_array (view value.now)) }
{
    value.as_array().is_none()
}

/// Whether the top, or the list as a whole, breaks a rule.
#[tactic(auto, unfolding(limits_spec::specs::Document::top_breaks, limits_spec::specs::Document::top_keys))]
fn top_breaks(rule: Rule, top: &Table) -> bool
    ensures { result ≡ spec.top_breaks rule (table_view top.now) }
{
    match (rule, find(top, "advisory")) {
        (Rule::Known, _) => !has_only(top, &TOP_KEYS),
        (Rule::Needed, None) => true,
        (Rule::Typed, Some(value)) => is_no_list(value),
        (Rule::Counted, Some(value)) => has_wrong_count(1, ADVISORIES, value),
        _ => false,
    }
}

// The number, from 1, of the first advisory that breaks a rule.
fn first_item(rule: Rule, document: &Document<'_>, values: &[Value]) -> Option<u32>
    requires { length values.now < 2 ^ 32 }
    ensures { result ≡ first_item (λ i d. item_breaks (book_in document.now)
        (listed_names document.now) rule d) (views values.now) }
{
    for (i, value) in values.iter().enumerate() {
        if item_breaks(rule, document, value) {
            return Some(i as u32 + 1);
        }
    }
    None
}

// Where a rule is broken: 0 for the top, else the number of the first advisory that breaks it.
#[tactic(auto, unfolding(limits_spec::specs::Document::place_of_break))]
fn place_of_break(rule: Rule, document: &Document<'_>) -> Option<u32>
    requires { length (spec.advisories_in (table_in document.now)) < 2 ^ 32 }
    ensures { result ≡ spec.place_of_break (book_in document.now) (table_in document.now) rule }
{
    if top_breaks(rule, document.top) {
        return Some(0);
    }
    first_item(rule, document, document.advisories())
}

// The first of these codes whose rule is broken.
fn rules_fault(rules: &[(u8, Rule)], document: &Document<'_>) -> Option<LimitsFault>
    requires { length (spec.advisories_in (table_in document.now)) < 2 ^ 32 }
    ensures { result ≡ spec.rules_fault (book_in document.now) (table_in document.now) rules.now }
{
    for (code, rule) in rules {
        let fault = fault_at(*code, place_of_break(*rule, document));
        if fault.is_some() {
            return fault;
        }
    }
    None
}

/// The first fault that the table of a document shows: by code, then by advisory. Each code is one search through the
/// advisories.
#[tactic(auto, unfolding(limits_spec::specs::Document::table_fault, limits_spec::specs::Document::coded_rules))]
pub(crate) fn table_fault(document: &Document<'_>) -> Option<LimitsFault>
    requires { length (spec.advisories_in (table_in document.now)) < 2 ^ 32 }
    ensures { result ≡ spec.table_fault (book_in document.now) (table_in document.now) }
{
    if !has_version(document.top) {
        return Some(LimitsFault { code: 3, item: 0 });
    }
    rules_fault(&CODED_RULES, document)
}
