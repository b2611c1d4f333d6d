// The first item of a section that breaks a rule, or whose name stands twice.
ghost use Rattle.std.specs.Prelude.{◌≡◌, ◌<◌, ◌^◌, List, length, IfOk};
ghost use Rattle.toml.specs.View.{view};
ghost use Rattle.ecam_spec.specs.Book.{Text};
ghost use Rattle.ecam_spec.specs.Faults.{first_item};
ghost use Rattle.ecam_spec.specs.KeepsLimits.{is_repeated};
ghost use Rattle.book_spec.specs.Rules.{leaf_breaks, members_of};
ghost use Rattle.book_spec.specs.Document.{names_at};
ghost use Rattle.book_spec.specs.TableRules.{item_breaks};
ghost use Rattle.book_faults.specs.Asked.{leaf_fails, item_fails, place_in_list};
ghost use Rattle.book_faults.specs.FaultParts.{is_taken_among};
ghost use Rattle.book_tables.specs.Catalogue.{table_in, names_in, IsComplete};
ghost use Rattle.book_tables.specs.Places.{CountsNames};
ghost use Rattle.book_tables.specs.Reading.{texts_of, views};

use crate::rules::{Asked, leaf_breaks};
use crate::tables::{item_breaks, list_breaks};
use book_spec::{Item, Leaf};
use book_tables::fields::members_of;
use book_tables::places::{Counts, counts_of, times_in};
use book_tables::{Catalogue, Scope};
use std::alloc::{AllocError, Global};
use toml::Value;

fn first_leaf(
    alloc: Global,
    asked: Asked,
    names: &Scope<'_, '_>,
    leaf: Leaf,
    values: &[Value],
) -> Result<Option<u32>, AllocError>
    requires { length values.now < 2 ^ 32 }
    ensures { IfOk result (λ r. r ≡ first_item (λ i d. leaf_fails (names_in names.now) asked leaf d)
        (views values.now)) }
{
    for (i, value) in values.iter().enumerate() {
        if leaf_breaks(alloc, asked, names, leaf, value)? {
            return Ok(Some(i as u32 + 1));
        }
    }
    Ok(None)
}

fn first_table(
    alloc: Global,
    asked: Asked,
    names: &Catalogue<'_>,
    item: Item,
    values: &[Value],
) -> Result<Option<u32>, AllocError>
    requires complete { IsComplete names.now }
    requires few { length values.now < 2 ^ 32 }
    ensures { IfOk result (λ r. r ≡ first_item
        (λ i d. item_fails (names_at (table_in names.now) item i) asked item d) (views values.now)) }
{
    for (i, value) in values.iter().enumerate() {
        let known = names.scope(item, i);
        if item_breaks(alloc, asked, &known, item, value)? {
            return Ok(Some(i as u32 + 1));
        }
    }
    Ok(None)
}

/// Where a list of at most `most` values without tables breaks a rule: 0 for the list as a whole, else the number
/// of the first value that does, counted from 1.
pub(crate) fn place_among_leaves(
    alloc: Global,
    asked: Asked,
    names: &Scope<'_, '_>,
    leaf: Leaf,
    most: usize,
    value: &Value,
) -> Result<Option<u32>, AllocError>
    requires { length (members_of (view value.now)) < 2 ^ 32 }
    ensures { IfOk result (λ r. r ≡ place_in_list asked most
        (λ i rule. leaf_breaks (names_in names.now) rule leaf) (view value.now)) }
{
    if list_breaks(asked, 0, most, value) {
        return Ok(Some(0));
    }
    first_leaf(alloc, asked, names, leaf, members_of(value))
}

/// Where a list of at most `most` items breaks a rule: 0 for the list as a whole, else the number of the first item
/// that does, counted from 1.
pub(crate) fn place_among_items(
    alloc: Global,
    asked: Asked,
    names: &Catalogue<'_>,
    item: Item,
    most: usize,
    value: &Value,
) -> Result<Option<u32>, AllocError>
    requires complete { IsComplete names.now }
    requires few { length (members_of (view value.now)) < 2 ^ 32 }
    ensures { IfOk result (λ r. r ≡ place_in_list asked most
        (λ i rule. item_breaks (names_at (table_in names.now) item i) rule item)
        (view value.now)) }
{
    if list_breaks(asked, 0, most, value) {
        return Ok(Some(0));
    }
    first_table(alloc, asked, names, item, members_of(value))
}

// Whether a name was counted more than once.
fn is_repeated(counts: &Counts<'_>, name: &str) -> bool
    ensures { (names : List Text) → CountsNames names counts.now
        → result ≡ is_repeated names name.now }
{
    times_in(counts, name.as_bytes()) > 1
}

// Whether a name was counted more than once, or is a parameter's.
fn is_taken(counts: &Counts<'_>, known: &Scope<'_, '_>, name: &str) -> bool
    ensures { (names : List Text) → CountsNames names counts.now
        → result ≡ is_taken_among names (names_in known.now).of_terms.parameters name.now }
{
    is_repeated(counts, name) || known.parameter(name).is_some()
}

fn first_counted_twice(counts: &Counts<'_>, names: &[&str]) -> Option<u32>
    requires few { length names.now < 2 ^ 32 }
    requires counted { CountsNames (texts_of names.now) counts.now }
    ensures { result ≡ first_item (λ i n. is_repeated (texts_of names.now) n) (texts_of names.now) }
{
    for (i, name) in names.iter().enumerate() {
        if is_repeated(counts, name) {
            return Some(i as u32 + 1);
        }
    }
    None
}

/// The number, counted from 1, of the first name that stands at another place too. It costs two hashes of each
/// name.
pub(crate) fn first_repeated(alloc: Global, names: &[&str]) -> Result<Option<u32>, AllocError>
    requires { length names.now < 2 ^ 32 }
    ensures { IfOk result (λ r. r ≡ first_item (λ i n. is_repeated (texts_of names.now) n)
        (texts_of names.now)) }
{
    let counts = counts_of(alloc, names)?;
    Ok(first_counted_twice(&counts, names))
}

fn first_taken_of(counts: &Counts<'_>, known: &Scope<'_, '_>, names: &[&str]) -> Option<u32>
    requires few { length names.now < 2 ^ 32 }
    requires counted { CountsNames (texts_of names.now) counts.now }
    ensures { result ≡ first_item (λ i n. is_taken_among (texts_of names.now)
        (names_in known.now).of_terms.parameters n) (texts_of names.now) }
{
    for (i, name) in names.iter().enumerate() {
        if is_taken(counts, known, name) {
            return Some(i as u32 + 1);
        }
    }
    None
}

/// The number, counted from 1, of the first of these names that stands at another place too, or is a parameter's. It
/// costs two hashes of each name.
pub(crate) fn first_taken(
    alloc: Global,
    known: &Scope<'_, '_>,
    names: &[&str],
) -> Result<Option<u32>, AllocError>
    requires { length names.now < 2 ^ 32 }
    ensures { IfOk result (λ r. r ≡ first_item (λ i n. is_taken_among (texts_of names.now)
        (names_in known.now).of_terms.parameters n) (texts_of names.now)) }
{
    let counts = counts_of(alloc, names)?;
    Ok(first_taken_of(&counts, known, names))
}
