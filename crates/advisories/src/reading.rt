// Reading limits from the bytes of a file.
ghost use Rattle.std.specs.Prelude.{◌≡◌, ◌<◌, ◌^◌, true, length, map, codes, option_and_then, Some, None, IfOk, Err};
ghost use Rattle.toml.specs.View.{view, table_view};
ghost use Rattle.book_model.specs.Sealed.{the_book};
ghost use Rattle.book_spec.specs.Fields.{string_at};
ghost use Rattle.book_spec.specs.BookBytes.{table_of_text};
ghost use Rattle.book_tables.specs.Reading.{views};
ghost use Rattle.view_spec.specs.Advisories.{Fit};
ghost use Rattle.limits_spec.specs.declared.form.LimitsFault.{LimitsFault};
ghost use Rattle.view_spec.specs.Places as places;
ghost use Rattle.limits_spec.specs.Document.{advisories_in};
ghost use Rattle.limits_spec.specs.Document as spec;
ghost use Rattle.limits_spec.specs.LimitsOf as plain;
ghost use Rattle.limits_spec.specs.LimitsBytes as whole;
ghost use Rattle.advisories.specs.declared.limits.LimitsError.TheVariants.{Fault};
ghost use Rattle.advisories.specs.View.{advisory_of, list_of, limits_of};

use crate::document::Document;
use crate::faults::table_fault;
use crate::limits::{Advisory, Limits, LimitsError};
use crate::rules::integer_at;
use book_model::Book;
use book_places::{number_place, page_place};
use book_reader::draft_keys::{number_or_least, phases_at};
use book_tables::fields::{list_in, name_or_none, string_at, table_or};
use ecam_spec::limits::WAIT;
use limits_spec::LimitsFault;
use limits_spec::form::LIMITS_BYTES;
use std::alloc::{AllocError, Global};
use toml::{Table, Value};

/// The most bytes of a limits file. A caller need read no more than one byte beyond them.
pub const LONGEST: usize = LIMITS_BYTES;

fn param_at(book: &Book, table: &Table) -> Option<u32>
    ensures { result ≡ option_and_then (places.number_place (the_book book.now))
        (string_at (codes "param") (table_view table.now)) }
{
    number_place(book, string_at(table, "param")?)
}

fn page_at(book: &Book, table: &Table) -> Option<u32>
    ensures { result ≡ option_and_then (places.page_place (the_book book.now))
        (string_at (codes "page") (table_view table.now)) }
{
    page_place(book, string_at(table, "page")?)
}

#[tactic(auto, unfolding(limits_spec::specs::LimitsOf::advisory_in))]
fn advisory_in(alloc: Global, book: &Book, value: &Value) -> Advisory
    ensures { advisory_of result ≡ plain.advisory_in (the_book book.now) (view value.now) }
{
    let empty = Table::new(alloc);
    let table = table_or(value, &empty);
    Advisory {
        name: name_or_none(table),
        param: param_at(book, table).unwrap_or(0),
        page: page_at(book, table).unwrap_or(0),
        low: integer_at(table, "low"),
        high: integer_at(table, "high"),
        margin: integer_at(table, "margin"),
        confirm: number_or_least(table, 0, WAIT, "confirm"),
        inhibit: phases_at(table, "inhibit"),
    }
}

fn advisories_in(alloc: Global, book: &Book, values: &[Value]) -> Result<Vec<Advisory>, AllocError>
    ensures { IfOk result (λ v. list_of v.items
        ≡ map (plain.advisory_in (the_book book.now)) (views values.now)) }
{
    let mut list = Vec::new(alloc);
    for value in values {
        list.push(advisory_in(alloc, book, value))?;
    }
    Ok(list)
}

#[tactic(auto, unfolding(limits_spec::specs::LimitsOf::limits_of))]
fn limits_in(alloc: Global, book: &Book, top: &Table) -> Result<Limits, AllocError>
    ensures { IfOk result (λ l. limits_of l
        ≡ plain.limits_of (the_book book.now) (table_view top.now)) }
{
    let list = advisories_in(alloc, book, list_in(top, "advisory"))?;
    Ok(Limits { list })
}

fn top_fault(code: u8) -> LimitsError
    ensures { result ≡ Fault (whole.top_fault code) }
{
    LimitsError::Fault(LimitsFault { code, item: 0 })
}

fn table_in(alloc: Global, bytes: &[u8]) -> Result<Table, LimitsError>
    ensures table { IfOk result (λ t. table_of_text bytes.now ≡ Some (table_view t)) }
    ensures fault { (f : LimitsFault) → result ≡ Err (Fault f)
        → (f ≡ whole.top_fault 2) × (table_of_text bytes.now ≡ None) }
{
    match toml::table_from_slice(alloc, bytes) {
        Ok(table) => Ok(table),
        Err(error) => {
            if error.is_memory() {
                Err(LimitsError::Memory)
            } else {
                Err(top_fault(2))
            }
        }
    }
}

fn has_few(top: &Table) -> bool
    ensures { result ≡ true → length (advisories_in (table_view top.now)) < 2 ^ 32 }
{
    list_in(top, "advisory").len() <= u32::MAX as usize
}

fn read_table(alloc: Global, top: &Table, book: &Book) -> Result<Limits, LimitsError>
    ensures limits { IfOk result (λ l. limits_of l
        ≡ plain.limits_of (the_book book.now) (table_view top.now)) }
    ensures faultless { IfOk result (λ l. spec.table_fault (the_book book.now) (table_view top.now)
        ≡ None) }
    ensures fault { (f : LimitsFault) → result ≡ Err (Fault f)
        → spec.table_fault (the_book book.now) (table_view top.now) ≡ Some f }
{
    // No list of a document of 64 KiB is longer.
    if !has_few(top) {
        return Err(LimitsError::Memory);
    }
    let document = Document::new(alloc, top, book)?;
    match table_fault(&document) {
        Some(fault) => Err(LimitsError::Fault(fault)),
        None => Ok(limits_in(alloc, book, top)?),
    }
}

/// Reads a limits file: its advisories, with the places of their parameters and pages in the book, or the first of its
/// faults, with the codes 1 to 13, or `LimitsError::Memory`, which tells that memory ran out and nothing of the file.
/// Each code is one search through the advisories, and a name is looked for among those of the book.
pub fn read_limits(alloc: Global, bytes: &[u8], book: &Book) -> Result<Limits, LimitsError>
    ensures limits { IfOk result (λ l. whole.limits (the_book book.now) bytes.now
        ≡ Some (limits_of l)) }
    ensures fit { IfOk result (λ l. Fit (the_book book.now) (limits_of l)) }
    ensures fault { (f : LimitsFault) → result ≡ Err (Fault f)
        → whole.limits_fault (the_book book.now) bytes.now ≡ Some f }
{
    if bytes.len() > LONGEST {
        return Err(top_fault(1));
    }
    let table = table_in(alloc, bytes)?;
    read_table(alloc, &table, book)
}
