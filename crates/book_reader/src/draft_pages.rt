// The pages of a book, and their rows.
ghost use Rattle.std.specs.Prelude.{◌≡◌, ◌≤◌, map, codes, option_map, IfOk};
ghost use Rattle.toml.specs.View.{view, table_view};
ghost use Rattle.ecam_spec.specs.declared.limits.TheConstants.{TEXT};
ghost use Rattle.ecam_spec.specs.KeepsLimits.{row_text_limit};
ghost use Rattle.book_model.specs.View.{bytes_of, row_of, page_of};
ghost use Rattle.book_spec.specs.Fields.{text_at};
ghost use Rattle.book_spec.specs.DraftOf as spec;
ghost use Rattle.book_tables.specs.Reading.{views};
ghost use Rattle.book_tables.specs.Catalogue.{names_in};
ghost use Rattle.book_reader.specs.Drafting.{parameter_at};

use crate::draft_keys::{colour_or, phases_at, text_or_none};
use book_model::{Page, PageRow};
use book_tables::Scope;
use book_tables::fields::{list_in, name_or_none, string_at, table_or, text_at};
use ecam_kinds::Colour;
use ecam_spec::limits;
use std::alloc::{AllocError, Global};
use toml::{Table, Value};

/// The most bytes of a row's text, and of that of a row that shows a value.
const ROW_TEXT: usize = limits::TEXT;

const VALUE_TEXT: usize = limits::VALUE_ROW_TEXT;

/// The most bytes of a unit, and of a title.
const UNIT: usize = limits::UNIT;

const TITLE: usize = limits::TEXT;

// The place of the parameter that a row shows.
fn shown(names: &Scope<'_, '_>, table: &Table) -> Option<u32>
    ensures { result ≡ parameter_at (names_in names.now) (codes "show") (table_view table.now) }
{
    names.parameter(string_at(table, "show")?)
}

fn row_text(show: Option<u32>) -> usize
    ensures value { result ≡ row_text_limit show }
    ensures within { result ≤ TEXT }
{
    match show {
        Some(_) => VALUE_TEXT,
        None => ROW_TEXT,
    }
}

#[tactic(auto, unfolding(book_spec::specs::DraftOf::row_in))]
fn row_in(alloc: Global, names: &Scope<'_, '_>, value: &Value) -> PageRow
    ensures { row_of result ≡ spec.row_in (names_in names.now) (view value.now) }
{
    let empty = Table::new(alloc);
    let table = table_or(value, &empty);
    let show = shown(names, table);
    PageRow {
        text: text_or_none(table, row_text(show), "text"),
        show,
        unit: text_at(table, UNIT, "unit"),
        colour: colour_or(table, Colour::White),
    }
}

fn rows_in(
    alloc: Global,
    names: &Scope<'_, '_>,
    items: &[Value],
) -> Result<Vec<PageRow>, AllocError>
    ensures { IfOk result (λ v. map row_of v.items
        ≡ map (spec.row_in (names_in names.now)) (views items.now)) }
{
    let mut rows = Vec::with_capacity(alloc, items.len())?;
    for item in items {
        let row = row_in(alloc, names, item);
        // The check follows a row only where its text is named.
        let text = row.text;
        rows.push(PageRow { text, ..row })?;
    }
    Ok(rows)
}

/// The page that a value is.
#[tactic(auto, unfolding(book_spec::specs::DraftOf::page_in))]
fn page_in(alloc: Global, names: &Scope<'_, '_>, value: &Value) -> Result<Page, AllocError>
    ensures { IfOk result (λ p. page_of p ≡ spec.page_in (names_in names.now) (view value.now)) }
{
    let empty = Table::new(alloc);
    let table = table_or(value, &empty);
    Ok(Page {
        name: name_or_none(table),
        title: text_or_none(table, TITLE, "title"),
        phases: phases_at(table, "phases"),
        rows: rows_in(alloc, names, list_in(table, "row"))?,
    })
}

/// The pages that these values are.
pub(crate) fn pages_in(
    alloc: Global,
    names: &Scope<'_, '_>,
    items: &[Value],
) -> Result<Vec<Page>, AllocError>
    ensures { IfOk result (λ v. map page_of v.items
        ≡ map (spec.page_in (names_in names.now)) (views items.now)) }
{
    let mut pages = Vec::with_capacity(alloc, items.len())?;
    for item in items {
        pages.push(page_in(alloc, names, item)?)?;
    }
    Ok(pages)
}
