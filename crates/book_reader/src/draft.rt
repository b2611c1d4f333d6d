// The draft that a document without a fault is.
ghost use Rattle.std.specs.Prelude.{◌≡◌, false, map, codes, IfOk, All};
ghost use Rattle.std.specs.List.{list_any};
ghost use Rattle.toml.specs.Data.{no_members};
ghost use Rattle.toml.specs.View.{view, table_view};
ghost use Rattle.book_model.specs.View.{bytes_of, phase_of, memo_of, draft_of};
ghost use Rattle.book_spec.specs.DraftOf as spec;
ghost use Rattle.book_tables.specs.Reading.{views};
ghost use Rattle.book_tables.specs.Catalogue.{table_in, names_in, IsComplete};
ghost use Rattle.book_faults.specs.Readable.{refused_in_phase, refused_in_memo, AreReadable};
ghost use Rattle.book_reader.specs.Drafting.{phase_table};
ghost use Rattle.book_reader.specs.Unplaced.{AreUnplacedPhases, IsUnplacedMemo, IsUnplaced};

use crate::draft_alerts::alerts_in;
use crate::draft_keys::{colour_or, is_left, text_or_none};
use crate::draft_pages::pages_in;
use crate::draft_params::parameters_in;
use crate::draft_terms::term_or;
use book_model::{Draft, Memo, PhaseTerms, Text};
use book_tables::fields::{find, list_in, name_or_none, table_or, text_in};
use book_tables::{Catalogue, Scope};
use ecam_kinds::Colour;
use ecam_spec::limits;
use std::alloc::{AllocError, Global};
use term_text::TermError;
use toml::{Table, Value};

/// The most bytes of a system's text, and of a memo's.
const SYSTEM_TEXT: usize = limits::SYSTEM_TEXT;

const MEMO_TEXT: usize = limits::TEXT;

fn system_in(value: &Value) -> Text
    ensures { result.bytes ≡ spec.system_in (view value.now) }
{
    match text_in(value, SYSTEM_TEXT) {
        Some(text) => text,
        None => Text::new(),
    }
}

fn systems_in(alloc: Global, items: &[Value]) -> Result<Vec<Text>, AllocError>
    ensures { IfOk result (λ v. map bytes_of v.items ≡ map spec.system_in (views items.now)) }
{
    let mut systems = Vec::with_capacity(alloc, items.len())?;
    for item in items {
        systems.push(system_in(item))?;
    }
    Ok(systems)
}

// The table of the flight phase, or an empty one.
fn phase_table_or<'a>(top: &'a Table, empty: &'a Table) -> &'a Table
    requires { table_view empty.now ≡ no_members }
    ensures { table_view result.now ≡ phase_table (table_view top.now) }
{
    match find(top, "phase") {
        Some(value) => table_or(value, empty),
        None => empty,
    }
}

#[tactic(auto, unfolding(book_spec::specs::DraftOf::phase_in))]
fn phase_in(alloc: Global, names: &Scope<'_, '_>, table: &Table) -> Result<PhaseTerms, TermError>
    ensures value { IfOk result (λ p. phase_of p
        ≡ spec.phase_in (names_in names.now) (table_view table.now)) }
    ensures read { IfOk result (λ _. refused_in_phase (names_in names.now) (table_view table.now)
        ≡ false) }
    ensures unplaced { IfOk result AreUnplacedPhases }
{
    Ok(PhaseTerms {
        gnd: term_or(alloc, names, table, "gnd", true)?,
        run: term_or(alloc, names, table, "run", false)?,
        tp: term_or(alloc, names, table, "tp", false)?,
        fast: term_or(alloc, names, table, "fast", false)?,
        high: term_or(alloc, names, table, "high", false)?,
        low: term_or(alloc, names, table, "low", false)?,
    })
}

#[tactic(auto, unfolding(book_spec::specs::DraftOf::memo_in))]
fn memo_in(alloc: Global, names: &Scope<'_, '_>, value: &Value) -> Result<Memo, TermError>
    ensures value { IfOk result (λ m. memo_of m
        ≡ spec.memo_in (names_in names.now) (view value.now)) }
    ensures read { IfOk result (λ _. refused_in_memo (names_in names.now) (view value.now)
        ≡ false) }
    ensures unplaced { IfOk result IsUnplacedMemo }
{
    let empty = Table::new(alloc);
    let table = table_or(value, &empty);
    Ok(Memo {
        name: name_or_none(table),
        text: text_or_none(table, MEMO_TEXT, "text"),
        left: is_left(table),
        when: term_or(alloc, names, table, "when", false)?,
        colour: colour_or(table, Colour::Green),
    })
}

fn memos_in(alloc: Global, names: &Scope<'_, '_>, items: &[Value]) -> Result<Vec<Memo>, TermError>
    ensures value { IfOk result (λ v. map memo_of v.items
        ≡ map (spec.memo_in (names_in names.now)) (views items.now)) }
    ensures read { IfOk result (λ _. list_any (refused_in_memo (names_in names.now))
        (views items.now) ≡ false) }
    ensures unplaced { IfOk result (λ v. All IsUnplacedMemo v.items) }
{
    let mut memos = Vec::with_capacity(alloc, items.len())?;
    for item in items {
        memos.push(memo_in(alloc, names, item)?)?;
    }
    Ok(memos)
}

/// The draft that a document is, in one pass, with a look-up by name for each name in it; its named conditions were
/// read with the names. What is missing, or is no value that may stand there, is the empty text, the least number, the
/// usual word or a constant condition; a document that has no fault lacks nothing that isn't optional. An error is what a
/// condition's text is refused for, or want of memory.
#[tactic(auto, unfolding(book_spec::specs::DraftOf::draft_of, book_model::specs::View::draft_of))]
pub(crate) fn draft_of(alloc: Global, top: &Table, names: Catalogue<'_>) -> Result<Draft, TermError>
    requires table { table_in names ≡ table_view top.now }
    requires complete { IsComplete names }
    ensures value { IfOk result (λ d. draft_of d ≡ spec.draft_of (table_view top.now)) }
    ensures read { IfOk result (λ _. AreReadable (table_view top.now)) }
    ensures unplaced { IfOk result IsUnplaced }
{
    let empty = Table::new(alloc);
    let all = names.all();
    Ok(Draft {
        systems: systems_in(alloc, list_in(top, "systems"))?,
        pages: pages_in(alloc, &all, list_in(top, "page"))?,
        params: parameters_in(alloc, list_in(top, "param"))?,
        phase: phase_in(alloc, &all, phase_table_or(top, &empty))?,
        alerts: alerts_in(alloc, &all, list_in(top, "alert"))?,
        memos: memos_in(alloc, &all, list_in(top, "memo"))?,
        terms: names.terms,
    })
}
