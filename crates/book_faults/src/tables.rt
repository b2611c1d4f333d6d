// The rules that the tables of a document keep, and what their keys hold.
ghost use Rattle.std.specs.Prelude.{◌≡◌, ◌&&◌, not, IfOk};
ghost use Rattle.std.specs.List.{list_any};
ghost use Rattle.toml.specs.Data.{get_member};
ghost use Rattle.toml.specs.View.{view, table_view};
ghost use Rattle.ecam_spec.specs.Bytes.{same_text};
ghost use Rattle.book_spec.specs.Fields.{has_only};
ghost use Rattle.book_spec.specs.Schema as schema;
ghost use Rattle.book_spec.specs.Rules.{leaf_breaks};
ghost use Rattle.book_spec.specs.TableRules.{if_there, shape_breaks};
ghost use Rattle.book_spec.specs.TableRules as spec;
ghost use Rattle.book_faults.specs.Asked.{any_asked, list_fails, table_fails, inner_fails, item_fails};
ghost use Rattle.book_faults.specs.KeysOnce.{asks_known, asks_needed, key_fails};
ghost use Rattle.book_tables.specs.Catalogue.{names_in};
ghost use Rattle.book_faults.specs.Keys.{keys_of, key_of, key_names};
ghost use Rattle.book_tables.specs.Reading.{views};

use crate::keys::{
    Key, alert_keys, any_source_keys, bcd_keys, bnr_keys, disc_keys, kind_at, line_keys, memo_keys,
    named_keys, page_keys, param_keys, phase_keys, status_keys, text_row_keys, value_row_keys,
};
use crate::rules::{Asked, has_wrong_count, leaf_breaks};
use book_spec::{Inner, Item, Leaf, Rule, Shape};
use book_tables::Scope;
use book_tables::fields::{find, members_of};
use ecam_spec::Kind;
use std::alloc::{AllocError, Global};
use term_text::is_same;
use toml::{Table, Value};

fn has_key<S>(keys: &[Key<S>], name: &str) -> bool
    ensures { result ≡ list_any (same_text name.now) (key_names keys.now) }
{
    for key in keys {
        if is_same(name.as_bytes(), key.name.as_bytes()) {
            return true;
        }
    }
    false
}

fn has_only<S>(keys: &[Key<S>], table: &Table) -> bool
    ensures { result ≡ has_only (key_names keys.now) (table_view table.now) }
{
    table.keys().all(|key| has_key(keys, key.as_str()))
}

/// Whether a table has a key that isn't listed, where that is asked for.
fn has_strange_key<S>(asked: Asked, keys: &[Key<S>], table: &Table) -> bool
    ensures { result ≡ (asks_known asked && not (has_only (key_names keys.now)
        (table_view table.now))) }
{
    match asked {
        Asked::One(Rule::Known) => !has_only(keys, table),
        Asked::One(_) => false,
        Asked::Every | Asked::Unread => !has_only(keys, table),
    }
}

/// Whether it is asked for that a key which is needed be there.
fn asks_needed(asked: Asked) -> bool
    ensures { result ≡ asks_needed asked }
{
    match asked {
        Asked::One(Rule::Needed) => true,
        Asked::One(_) => false,
        Asked::Every | Asked::Unread => true,
    }
}

/// What a key holds: a value without tables, or tables.
trait Held: Copy {
    ghost use Rattle.std.specs.Prelude.{Bool};
    ghost use Rattle.toml.specs.Data.{Data};
    ghost use Rattle.book_spec.specs.Rules.{Names};
    ghost use Rattle.book_spec.specs.declared.schema.Rule.{Rule};

    /// Whether a value that it is to hold breaks a rule.
    ghost fails: { Names → Rule → Self → Data → Bool };

    /// Whether a value that it is to hold breaks a rule that is asked for.
    fn breaks(
        self,
        alloc: Global,
        asked: Asked,
        names: &Scope<'_, '_>,
        value: &Value,
    ) -> Result<bool, AllocError>
        ensures { IfOk result (λ b. b ≡ any_asked asked
            (λ rule. fails (names_in names.now) rule self (view value.now))) };
}

/// Whether a key is needed and not there, or holds what breaks a rule that is asked for.
fn key_breaks<S: Held>(
    alloc: Global,
    asked: Asked,
    names: &Scope<'_, '_>,
    key: &Key<S>,
    table: &Table,
) -> Result<bool, AllocError>
    ensures { IfOk result (λ b. b ≡ key_fails asked (S.fails (names_in names.now))
        (table_view table.now) (key_of key.now)) }
{
    match find(table, key.name) {
        Some(value) => key.holds.breaks(alloc, asked, names, value),
        None => Ok(asks_needed(asked) && key.needed),
    }
}

fn any_key_breaks<S: Held>(
    alloc: Global,
    asked: Asked,
    names: &Scope<'_, '_>,
    keys: &[Key<S>],
    table: &Table,
) -> Result<bool, AllocError>
    ensures { IfOk result (λ b. b ≡ list_any (key_fails asked (S.fails (names_in names.now))
        (table_view table.now)) (keys_of keys.now)) }
{
    for key in keys {
        if key_breaks(alloc, asked, names, key, table)? {
            return Ok(true);
        }
    }
    Ok(false)
}

/// Whether a table with these keys breaks a rule that is asked for. Each of them is looked up once.
fn table_breaks<S: Held>(
    alloc: Global,
    asked: Asked,
    names: &Scope<'_, '_>,
    keys: &[Key<S>],
    table: &Table,
) -> Result<bool, AllocError>
    ensures { IfOk result (λ b. b ≡ table_fails asked (S.fails (names_in names.now))
        (keys_of keys.now) (table_view table.now)) }
{
    if has_strange_key(asked, keys, table) {
        return Ok(true);
    }
    any_key_breaks(alloc, asked, names, keys, table)
}

impl Held for Leaf {
    ghost fails = { leaf_breaks };

    fn breaks(
        self,
        alloc: Global,
        asked: Asked,
        names: &Scope<'_, '_>,
        value: &Value,
    ) -> Result<bool, AllocError> {
        leaf_breaks(alloc, asked, names, self, value)
    }
}

#[tactic(auto, unfolding(book_spec::specs::Schema::inner_keys, book_spec::specs::Schema::row_keys))]
fn row_breaks(
    alloc: Global,
    asked: Asked,
    names: &Scope<'_, '_>,
    table: &Table,
) -> Result<bool, AllocError>
    ensures { IfOk result (λ b. b ≡ table_fails asked (leaf_breaks (names_in names.now))
        (schema.inner_keys Inner.Row (table_view table.now)) (table_view table.now)) }
{
    if find(table, "show").is_some() {
        table_breaks(alloc, asked, names, &value_row_keys(), table)
    } else {
        table_breaks(alloc, asked, names, &text_row_keys(), table)
    }
}

fn source_breaks(
    alloc: Global,
    asked: Asked,
    names: &Scope<'_, '_>,
    kind: Option<Kind>,
    table: &Table,
) -> Result<bool, AllocError>
    ensures { IfOk result (λ b. b ≡ table_fails asked (leaf_breaks (names_in names.now))
        (schema.source_keys kind) (table_view table.now)) }
{
    match kind {
        Some(Kind::Disc) => table_breaks(alloc, asked, names, &disc_keys(), table),
        Some(Kind::Bnr) => table_breaks(alloc, asked, names, &bnr_keys(), table),
        Some(Kind::Bcd) => table_breaks(alloc, asked, names, &bcd_keys(), table),
        None => table_breaks(alloc, asked, names, &any_source_keys(), table),
    }
}

#[tactic(auto, unfolding(book_spec::specs::Schema::inner_keys))]
fn keyed_inner_breaks(
    alloc: Global,
    asked: Asked,
    names: &Scope<'_, '_>,
    inner: Inner,
    table: &Table,
) -> Result<bool, AllocError>
    ensures { IfOk result (λ b. b ≡ table_fails asked (leaf_breaks (names_in names.now))
        (schema.inner_keys inner (table_view table.now)) (table_view table.now)) }
{
    match inner {
        Inner::Row => row_breaks(alloc, asked, names, table),
        Inner::Source(kind) => source_breaks(alloc, asked, names, kind, table),
        Inner::Line => table_breaks(alloc, asked, names, &line_keys(), table),
        Inner::Status => table_breaks(alloc, asked, names, &status_keys(), table),
    }
}

/// Whether a value is no table, where one is listed.
fn is_no_table(asked: Asked, value: &Value) -> bool
    ensures { result ≡ any_asked asked (λ rule. spec.is_no_table rule (view value.now)) }
{
    match asked {
        Asked::One(Rule::Typed) => value.as_table().is_none(),
        Asked::One(_) => false,
        Asked::Every | Asked::Unread => value.as_table().is_none(),
    }
}

/// Whether a table inside an item breaks a rule that is asked for.
#[tactic(auto, unfolding(book_spec::specs::TableRules::inner_breaks))]
fn inner_breaks(
    alloc: Global,
    asked: Asked,
    names: &Scope<'_, '_>,
    inner: Inner,
    value: &Value,
) -> Result<bool, AllocError>
    ensures { IfOk result (λ b. b ≡ inner_fails (names_in names.now) asked inner (view value.now)) }
{
    match value.as_table() {
        Some(table) => keyed_inner_breaks(alloc, asked, names, inner, table),
        None => Ok(is_no_table(asked, value)),
    }
}

fn any_inner_breaks(
    alloc: Global,
    asked: Asked,
    names: &Scope<'_, '_>,
    inner: Inner,
    values: &[Value],
) -> Result<bool, AllocError>
    ensures { IfOk result (λ b. b ≡ list_any (inner_fails (names_in names.now) asked inner)
        (views values.now)) }
{
    for value in values {
        if inner_breaks(alloc, asked, names, inner, value)? {
            return Ok(true);
        }
    }
    Ok(false)
}

/// Whether a list of `low` to `high` members has another type or length.
pub(crate) fn list_breaks(asked: Asked, low: usize, high: usize, value: &Value) -> bool
    ensures { result ≡ list_fails asked low high (view value.now) }
{
    match asked {
        Asked::One(Rule::Typed) => value.as_array().is_none(),
        Asked::One(Rule::Counted) => has_wrong_count(low, high, value),
        Asked::One(_) => false,
        Asked::Every | Asked::Unread => {
            value.as_array().is_none() || has_wrong_count(low, high, value)
        }
    }
}

impl Held for Shape {
    ghost fails = { shape_breaks };

    #[tactic(auto, unfolding(book_spec::specs::TableRules::shape_breaks))]
    fn breaks(
        self,
        alloc: Global,
        asked: Asked,
        names: &Scope<'_, '_>,
        value: &Value,
    ) -> Result<bool, AllocError> {
        match self {
            Shape::Leaf(leaf) => leaf_breaks(alloc, asked, names, leaf, value),
            Shape::Tables(inner, low, high) => {
                if list_breaks(asked, low, high, value) {
                    return Ok(true);
                }
                any_inner_breaks(alloc, asked, names, inner, members_of(value))
            }
        }
    }
}

#[tactic(auto, unfolding(book_spec::specs::Schema::item_keys))]
fn keyed_item_breaks(
    alloc: Global,
    asked: Asked,
    names: &Scope<'_, '_>,
    item: Item,
    table: &Table,
) -> Result<bool, AllocError>
    ensures { IfOk result (λ b. b ≡ table_fails asked (shape_breaks (names_in names.now))
        (schema.item_keys item (table_view table.now)) (table_view table.now)) }
{
    match item {
        Item::Page => table_breaks(alloc, asked, names, &page_keys(), table),
        Item::Param => table_breaks(alloc, asked, names, &param_keys(kind_at(table)), table),
        Item::Term => table_breaks(alloc, asked, names, &named_keys(), table),
        Item::Phase => table_breaks(alloc, asked, names, &phase_keys(), table),
        Item::Alert => table_breaks(alloc, asked, names, &alert_keys(), table),
        Item::Memo => table_breaks(alloc, asked, names, &memo_keys(), table),
    }
}

/// Whether an item, or the table of the flight phase, breaks a rule that is asked for. It costs a look-up for each
/// key that the table may have, and for each of its keys a comparison with those.
#[tactic(auto, unfolding(book_spec::specs::TableRules::item_breaks))]
pub(crate) fn item_breaks(
    alloc: Global,
    asked: Asked,
    names: &Scope<'_, '_>,
    item: Item,
    value: &Value,
) -> Result<bool, AllocError>
    ensures { IfOk result (λ b. b ≡ item_fails (names_in names.now) asked item (view value.now)) }
{
    match value.as_table() {
        Some(table) => keyed_item_breaks(alloc, asked, names, item, table),
        None => Ok(is_no_table(asked, value)),
    }
}
