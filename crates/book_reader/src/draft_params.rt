// The parameters of a book, and their sources.
ghost use Rattle.std.specs.Prelude.{◌≡◌, ◌≤◌, map, codes, IfOk, IfSome};
ghost use Rattle.toml.specs.View.{view, table_view};
ghost use Rattle.book_model.specs.View.{source_of, parameter_of};
ghost use Rattle.book_spec.specs.Fields.{number_at};
ghost use Rattle.book_spec.specs.DraftOf as spec;
ghost use Rattle.book_tables.specs.Reading.{views};

use crate::draft_keys::{kind_or_discrete, label_or_none, number_or_least};
use book_model::{Param, WordSource as Source};
use book_tables::fields::{list_in, name_or_none, number_at, table_or};
use ecam_spec::limits;
use std::alloc::{AllocError, Global};
use toml::{Table, Value};

// The SDI that a source names.
fn sdi_at(table: &Table) -> Option<u8>
    ensures { result ≡ number_at 0 3 (codes "sdi") (table_view table.now) }
{
    let sdi = number_at(table, 0, 3, "sdi")?;
    Some(sdi as u8)
}

#[tactic(auto, unfolding(book_spec::specs::DraftOf::source_in))]
fn source_in(alloc: Global, value: &Value) -> Source
    ensures { source_of result ≡ spec.source_in (view value.now) }
{
    let empty = Table::new(alloc);
    let table = table_or(value, &empty);
    Source {
        bus: number_or_least(table, 0, 15, "bus") as u8,
        label: label_or_none(table),
        sdi: sdi_at(table),
        bit: number_or_least(table, 11, 29, "bit") as u8,
        low: number_or_least(table, 11, 28, "low") as u8,
        range: number_or_least(table, 1, limits::NUMBER, "range"),
    }
}

fn sources_in(alloc: Global, items: &[Value]) -> Result<Vec<Source>, AllocError>
    ensures { IfOk result (λ v. map source_of v.items ≡ map spec.source_in (views items.now)) }
{
    let mut sources = Vec::with_capacity(alloc, items.len())?;
    for item in items {
        sources.push(source_in(alloc, item))?;
    }
    Ok(sources)
}

#[tactic(auto, unfolding(book_spec::specs::DraftOf::parameter_in))]
fn parameter_in(alloc: Global, value: &Value) -> Result<Param, AllocError>
    ensures { IfOk result (λ p. parameter_of p ≡ spec.parameter_in (view value.now)) }
{
    let empty = Table::new(alloc);
    let table = table_or(value, &empty);
    Ok(Param {
        name: name_or_none(table),
        kind: kind_or_discrete(table),
        stale: number_or_least(table, 1, limits::STALE, "stale"),
        sources: sources_in(alloc, list_in(table, "source"))?,
    })
}

/// The parameters that these values are.
pub(crate) fn parameters_in(alloc: Global, items: &[Value]) -> Result<Vec<Param>, AllocError>
    ensures { IfOk result (λ v. map parameter_of v.items
        ≡ map spec.parameter_in (views items.now)) }
{
    let mut params = Vec::with_capacity(alloc, items.len())?;
    for item in items {
        params.push(parameter_in(alloc, item)?)?;
    }
    Ok(params)
}
