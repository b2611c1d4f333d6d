// What stands in a table of a document.
ghost use Rattle.std.specs.Prelude.{◌≡◌, ◌≤◌, codes, length, map, option_map, option_copied, IfSome, IfOk};
ghost use Rattle.toml.specs.Data.{get_member, no_members};
ghost use Rattle.toml.specs.View.{view, table_view};
ghost use Rattle.book_model.specs.View.{bytes_of};
ghost use Rattle.book_spec.specs.Fields as spec;
ghost use Rattle.book_spec.specs.Rules.{members_of, list_in};
ghost use Rattle.book_spec.specs.Document.{text_of, name_of};
ghost use Rattle.book_spec.specs.Defaults as defaults;
ghost use Rattle.book_tables.specs.Reading.{texts_of, views, item_name};

use crate::texts::{is_name, is_one_of, is_term_text, label_from, name_from, text_from};
use book_model::{Name, Text};
use ecam_spec::limits::{TERM_TEXT, TEXT};
use std::alloc::{AllocError, Global};
use toml::{Table, Value};

/// The value at a key, if the table has it.
pub fn find<'a>(table: &'a Table, key: &str) -> Option<&'a Value>
    ensures { option_map (λ v. view v.now) result ≡ get_member key.now (table_view table.now) }
{
    table.get(key)
}

/// Whether a table has no key but these.
pub fn has_only(table: &Table, known: &[&str]) -> bool
    ensures { result ≡ spec.has_only (texts_of known.now) (table_view table.now) }
{
    table.keys().all(|key| is_one_of(known, key.as_str()))
}

/// The string at a key, if one stands there.
#[tactic(auto, unfolding(book_spec::specs::Fields::string_at))]
pub fn string_at<'a>(table: &'a Table, key: &str) -> Option<&'a str>
    ensures { option_copied result ≡ spec.string_at key.now (table_view table.now) }
{
    find(table, key)?.as_str()
}

/// The name at a key, if a string of a name's form stands there.
#[tactic(auto, unfolding(book_spec::specs::Fields::name_at))]
pub fn name_at(table: &Table, key: &str) -> Option<Name>
    ensures { option_map bytes_of result ≡ spec.name_at key.now (table_view table.now) }
{
    name_from(string_at(table, key)?)
}

/// The table that a value is, or an empty one.
pub fn table_or<'a>(value: &'a Value, empty: &'a Table) -> &'a Table
    requires { table_view empty.now ≡ no_members }
    ensures { table_view result.now ≡ defaults.table_in (view value.now) }
{
    match value.as_table() {
        Some(table) => table,
        None => empty,
    }
}

/// The name at the key `name`, or the empty one.
pub fn name_or_none(table: &Table) -> Name
    ensures { result.bytes ≡ defaults.name_or_none (table_view table.now) }
{
    match name_at(table, "name") {
        Some(name) => name,
        None => Name::new(),
    }
}

/// The text of 1 to `most` bytes that a value is, if it is a string of a text's form.
#[tactic(auto, unfolding(book_spec::specs::Fields::text_in))]
pub fn text_in(value: &Value, most: usize) -> Option<Text>
    requires { most ≤ TEXT }
    ensures { option_map bytes_of result ≡ spec.text_in most (view value.now) }
{
    text_from(value.as_str()?, most)
}

/// The text of 1 to `most` bytes at a key, if a string of a text's form stands there.
#[tactic(auto, unfolding(book_spec::specs::Fields::text_at))]
pub fn text_at(table: &Table, most: usize, key: &str) -> Option<Text>
    requires { most ≤ TEXT }
    ensures { option_map bytes_of result ≡ spec.text_at most key.now (table_view table.now) }
{
    text_in(find(table, key)?, most)
}

/// The text of a condition that a value is, if it has the form of one.
pub fn term_text_in(value: &Value) -> Option<&str>
    ensures text { option_copied result ≡ spec.term_text_in (view value.now) }
    ensures short { IfSome result (λ t. length t.now ≤ TERM_TEXT) }
{
    let text = value.as_str()?;
    if is_term_text(text) { Some(text) } else { None }
}

/// A whole number as one from `low` to `high`, if it is in that range.
pub fn number_from(value: i64, low: u32, high: u32) -> Option<u32>
    ensures value { result ≡ spec.number_from low high value }
    ensures within { IfSome result (λ n. n ≤ high) }
{
    let number = u32::try_from(value).ok()?;
    if low <= number && number <= high {
        Some(number)
    } else {
        None
    }
}

/// The whole number from `low` to `high` at a key, if one stands there.
#[tactic(auto, unfolding(book_spec::specs::Fields::number_at))]
pub fn number_at(table: &Table, low: u32, high: u32, key: &str) -> Option<u32>
    ensures value { result ≡ spec.number_at low high key.now (table_view table.now) }
    ensures within { IfSome result (λ n. n ≤ high) }
{
    let value = find(table, key)?.as_integer()?;
    number_from(value, low, high)
}

/// The label at a key, if a string of three octal digits stands there, at most 377.
#[tactic(auto, unfolding(book_spec::specs::Fields::label_at))]
pub fn label_at(table: &Table, key: &str) -> Option<u8>
    ensures { result ≡ spec.label_at key.now (table_view table.now) }
{
    label_from(string_at(table, key)?)
}

/// The members of the list that a value is, none where it is no list.
pub fn members_of(value: &Value) -> &[Value]
    ensures { views result.now ≡ members_of (view value.now) }
{
    match value.as_array() {
        Some(list) => list.as_slice(),
        None => &[],
    }
}

/// The members of the list at a key, none where there is none.
#[tactic(auto, unfolding(book_spec::specs::Rules::list_in))]
pub fn list_in<'a>(table: &'a Table, key: &str) -> &'a [Value]
    ensures { views result.now ≡ list_in key.now (table_view table.now) }
{
    match find(table, key) {
        Some(value) => members_of(value),
        None => &[],
    }
}

/// The text that a value is, empty where it is none.
pub(crate) fn text_of(value: &Value) -> &str
    ensures { result.now ≡ text_of (view value.now) }
{
    match value.as_str() {
        Some(text) => text,
        None => "",
    }
}

fn name_in(value: &Value) -> Option<&str>
    ensures { option_copied result ≡ item_name (view value.now) }
{
    string_at(value.as_table()?, "name")
}

/// The name that an item has, empty where it has none.
pub(crate) fn name_of(value: &Value) -> &str
    ensures { result.now ≡ name_of (view value.now) }
{
    match name_in(value) {
        Some(name) => name,
        None => "",
    }
}

// The name that an item has, if it has the form of one.
#[tactic(auto, unfolding(book_spec::specs::Fields::name_at, book_spec::specs::Fields::string_at))]
fn name_in_form(value: &Value) -> Option<&str>
    ensures { option_copied result ≡ spec.name_at (codes "name")
        (defaults.table_in (view value.now)) }
{
    let name = string_at(value.as_table()?, "name")?;
    if is_name(name) { Some(name) } else { None }
}

// The same, and the empty text where there is none.
fn proper_name(value: &Value) -> &str
    ensures { result.now ≡ defaults.name_or_none (defaults.table_in (view value.now)) }
{
    match name_in_form(value) {
        Some(name) => name,
        None => "",
    }
}

/// The texts that these values are, the empty one for what is none. An error is want of memory.
pub fn texts_in<'a>(alloc: Global, values: &'a [Value]) -> Result<Vec<&'a str>, AllocError>
    ensures { IfOk result (λ v. texts_of v.items ≡ map text_of (views values.now)) }
{
    let mut texts = Vec::with_capacity(alloc, values.len())?;
    for value in values {
        texts.push(text_of(value))?;
    }
    Ok(texts)
}

/// The names that these items have, the empty one for what has none. An error is want of memory.
pub fn names_in<'a>(alloc: Global, items: &'a [Value]) -> Result<Vec<&'a str>, AllocError>
    ensures { IfOk result (λ v. texts_of v.items ≡ map name_of (views items.now)) }
{
    let mut names = Vec::with_capacity(alloc, items.len())?;
    for item in items {
        names.push(name_of(item))?;
    }
    Ok(names)
}

/// The names that these items have, the empty one for what has no name of the form of one. An error is want of memory.
pub fn proper_names_in<'a>(alloc: Global, items: &'a [Value]) -> Result<Vec<&'a str>, AllocError>
    ensures { IfOk result (λ v. texts_of v.items
        ≡ map (λ d. defaults.name_or_none (defaults.table_in d)) (views items.now)) }
{
    let mut names = Vec::with_capacity(alloc, items.len())?;
    for item in items {
        names.push(proper_name(item))?;
    }
    Ok(names)
}
