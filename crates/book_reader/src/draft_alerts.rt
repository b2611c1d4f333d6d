// The alerts of a book, with the lines of their procedures and of the status page.
ghost use Rattle.std.specs.Prelude.{◌≡◌, false, map, codes, unwrap_or, IfOk, All};
ghost use Rattle.std.specs.List.{list_any};
ghost use Rattle.toml.specs.View.{view, table_view};
ghost use Rattle.book_model.specs.View.{bytes_of, line_of, status_of, alert_of};
ghost use Rattle.book_spec.specs.Defaults as defaults;
ghost use Rattle.book_spec.specs.DraftOf as spec;
ghost use Rattle.book_tables.specs.Reading.{views};
ghost use Rattle.book_tables.specs.Catalogue.{names_in};
ghost use Rattle.book_faults.specs.Readable.{refused_in_line, refused_in_alert};
ghost use Rattle.book_reader.specs.Drafting.{page_at, system_at};
ghost use Rattle.book_reader.specs.Unplaced.{IsUnplacedLine, IsUnplacedAlert};

use crate::draft_keys::{
    colour_or, number_or_least, phases_at, section_or_first, sound_or, text_or_none,
};
use crate::draft_terms::term_or;
use book_model::{Alert, Line, Name, StatusLine};
use book_tables::Scope;
use book_tables::fields::{list_in, name_or_none, string_at, table_or};
use ecam_kinds::{Colour, Level, Sound};
use ecam_spec::limits;
use std::alloc::{AllocError, Global};
use term_text::TermError;
use toml::{Table, Value};

/// The most bytes of a line, and of a title.
const LINE: usize = limits::TEXT;

const TITLE: usize = limits::TEXT;

#[tactic(auto, unfolding(book_spec::specs::DraftOf::line_in))]
fn line_in(alloc: Global, names: &Scope<'_, '_>, value: &Value) -> Result<Line, TermError>
    ensures value { IfOk result (λ l. line_of l
        ≡ spec.line_in (names_in names.now) (view value.now)) }
    ensures read { IfOk result (λ _. refused_in_line (names_in names.now) (view value.now)
        ≡ false) }
    ensures unplaced { IfOk result IsUnplacedLine }
{
    let empty = Table::new(alloc);
    let table = table_or(value, &empty);
    Ok(Line {
        text: text_or_none(table, LINE, "text"),
        colour: colour_or(table, Colour::Cyan),
        when: term_or(alloc, names, table, "when", true)?,
        done: term_or(alloc, names, table, "done", false)?,
    })
}

fn lines_in(alloc: Global, names: &Scope<'_, '_>, items: &[Value]) -> Result<Vec<Line>, TermError>
    ensures value { IfOk result (λ v. map line_of v.items
        ≡ map (spec.line_in (names_in names.now)) (views items.now)) }
    ensures read { IfOk result (λ _. list_any (refused_in_line (names_in names.now))
        (views items.now) ≡ false) }
    ensures unplaced { IfOk result (λ v. All IsUnplacedLine v.items) }
{
    let mut lines = Vec::with_capacity(alloc, items.len())?;
    for item in items {
        lines.push(line_in(alloc, names, item)?)?;
    }
    Ok(lines)
}

#[tactic(auto, unfolding(book_spec::specs::DraftOf::status_in))]
fn status_in(alloc: Global, value: &Value) -> StatusLine
    ensures { status_of result ≡ spec.status_in (view value.now) }
{
    let empty = Table::new(alloc);
    let table = table_or(value, &empty);
    StatusLine {
        section: section_or_first(table),
        text: text_or_none(table, LINE, "text"),
    }
}

fn statuses_in(alloc: Global, items: &[Value]) -> Result<Vec<StatusLine>, AllocError>
    ensures { IfOk result (λ v. map status_of v.items ≡ map spec.status_in (views items.now)) }
{
    let mut lines = Vec::with_capacity(alloc, items.len())?;
    for item in items {
        lines.push(status_in(alloc, item))?;
    }
    Ok(lines)
}

// A secondary's name. One of more than 24 bytes is no alert's.
fn short_name(value: &Value) -> Name
    ensures { result.bytes ≡ defaults.short_name (view value.now) }
{
    match value.as_str() {
        Some(text) => Name::from(text).unwrap_or(Name::new()),
        None => Name::new(),
    }
}

fn secondaries_in(alloc: Global, items: &[Value]) -> Result<Vec<Name>, AllocError>
    ensures { IfOk result (λ v. map bytes_of v.items
        ≡ map defaults.short_name (views items.now)) }
{
    let mut names = Vec::with_capacity(alloc, items.len())?;
    for item in items {
        names.push(short_name(item))?;
    }
    Ok(names)
}

fn level_at(table: &Table) -> Level
    ensures { result ≡ defaults.level_of (defaults.number_or_least 1 3 (codes "level")
        (table_view table.now)) }
{
    let level = number_or_least(table, 1, 3, "level");
    if level <= 1 {
        Level::One
    } else if level <= 2 {
        Level::Two
    } else {
        Level::Three
    }
}

// The sound of an alert that names none.
fn usual_sound(level: Level) -> Sound
    ensures { result ≡ defaults.sound_of level }
{
    match level {
        Level::One => Sound::Quiet,
        Level::Two => Sound::Chime,
        Level::Three => Sound::Repetitive,
    }
}

fn known_system(names: &Scope<'_, '_>, table: &Table) -> Option<u32>
    ensures { result ≡ system_at (names_in names.now) (codes "system") (table_view table.now) }
{
    names.system(string_at(table, "system")?)
}

fn system_or_first(names: &Scope<'_, '_>, table: &Table) -> u32
    ensures { result ≡ unwrap_or (system_at (names_in names.now) (codes "system")
        (table_view table.now)) 0 }
{
    known_system(names, table).unwrap_or(0)
}

fn known_page(names: &Scope<'_, '_>, table: &Table) -> Option<u32>
    ensures { result ≡ page_at (names_in names.now) (codes "page") (table_view table.now) }
{
    names.page(string_at(table, "page")?)
}

#[tactic(auto, unfolding(book_spec::specs::DraftOf::alert_in))]
fn alert_in(alloc: Global, names: &Scope<'_, '_>, value: &Value) -> Result<Alert, TermError>
    ensures value { IfOk result (λ a. alert_of a
        ≡ spec.alert_in (names_in names.now) (view value.now)) }
    ensures read { IfOk result (λ _. refused_in_alert (names_in names.now) (view value.now)
        ≡ false) }
    ensures unplaced { IfOk result IsUnplacedAlert }
{
    let empty = Table::new(alloc);
    let table = table_or(value, &empty);
    let level = level_at(table);
    Ok(Alert {
        name: name_or_none(table),
        title: text_or_none(table, TITLE, "title"),
        system: system_or_first(names, table),
        level,
        when: term_or(alloc, names, table, "when", false)?,
        page: known_page(names, table),
        confirm: number_or_least(table, 0, 36_000, "confirm"),
        sound: sound_or(table, usual_sound(level)),
        inhibit: phases_at(table, "inhibit"),
        secondary: secondaries_in(alloc, list_in(table, "secondary"))?,
        lines: lines_in(alloc, names, list_in(table, "line"))?,
        status: statuses_in(alloc, list_in(table, "status"))?,
    })
}

/// The alerts that these values are.
pub(crate) fn alerts_in(
    alloc: Global,
    names: &Scope<'_, '_>,
    items: &[Value],
) -> Result<Vec<Alert>, TermError>
    ensures value { IfOk result (λ v. map alert_of v.items
        ≡ map (spec.alert_in (names_in names.now)) (views items.now)) }
    ensures read { IfOk result (λ _. list_any (refused_in_alert (names_in names.now))
        (views items.now) ≡ false) }
    ensures unplaced { IfOk result (λ v. All IsUnplacedAlert v.items) }
{
    let mut alerts = Vec::with_capacity(alloc, items.len())?;
    for item in items {
        alerts.push(alert_in(alloc, names, item)?)?;
    }
    Ok(alerts)
}
