// Names as a map keeps them: their places, and how often each stands.
ghost use Rattle.std.specs.Prelude.{◌≡◌, ◌<◌, ◌^◌, ◌+◌, List, length, IfOk, OnOk, Some};
ghost use Rattle.std.specs.Str.{bytes_eq};
ghost use Rattle.ecam_spec.specs.Book.{Text};
ghost use Rattle.ecam_spec.specs.TermText.{name_place};
ghost use Rattle.toml.specs.View.{table_view};
ghost use Rattle.book_spec.specs.Document.{system_texts, names_in, term_names};
ghost use Rattle.book_tables.specs.Reading.{texts_of};
ghost use Rattle.book_model.specs.NamePlaces.{FindsPlaces};
ghost use Rattle.book_tables.specs.Places.{times, CountsNames, CountsOne};

use crate::fields::{list_in, names_in, proper_names_in, texts_in};
use book_model::{NamePlaces, note_place, place_in};
use ecam_spec::limits;
use std::alloc::{AllocError, Global};
use std::collections::HashMap;
use toml::Table;

// The most bytes that a name has.
const LONGEST_NAME: usize = limits::NAME;

/// How often names stand.
pub type Counts<'a> = HashMap<&'a [u8], usize>;

/// The places of these names, from 0. Of two equal names the first counts.
fn places_of<'a>(alloc: Global, names: &[&'a str]) -> Result<NamePlaces<'a>, AllocError>
    requires { length names.now < 2 ^ 32 }
    ensures { IfOk result (FindsPlaces (texts_of names.now)) }
{
    let mut places = HashMap::with_capacity(alloc, names.len())?;
    for (i, name) in names.iter().enumerate() {
        note_place(&mut places, name.as_bytes(), i as u32)?;
    }
    Ok(places)
}

/// The places of a document's systems.
pub(crate) fn system_places<'a>(alloc: Global, top: &'a Table) -> Result<NamePlaces<'a>, AllocError>
    requires { length (system_texts (table_view top.now)) < 2 ^ 32 }
    ensures { IfOk result (FindsPlaces (system_texts (table_view top.now))) }
{
    let texts = texts_in(alloc, list_in(top, "systems"))?;
    places_of(alloc, texts.as_slice())
}

/// The places of the names of a section's items.
pub(crate) fn name_places<'a>(
    alloc: Global,
    top: &'a Table,
    key: &str,
) -> Result<NamePlaces<'a>, AllocError>
    requires { length (names_in key.now (table_view top.now)) < 2 ^ 32 }
    ensures { IfOk result (FindsPlaces (names_in key.now (table_view top.now))) }
{
    let names = names_in(alloc, list_in(top, key))?;
    places_of(alloc, names.as_slice())
}

/// The places of the named conditions.
pub(crate) fn term_places<'a>(alloc: Global, top: &'a Table) -> Result<NamePlaces<'a>, AllocError>
    requires { length (term_names (table_view top.now)) < 2 ^ 32 }
    ensures { IfOk result (FindsPlaces (term_names (table_view top.now))) }
{
    let names = proper_names_in(alloc, list_in(top, "term"))?;
    places_of(alloc, names.as_slice())
}

/// The place of a name that is no longer than names may be; a longer one is unknown.
#[tactic(auto, unfolding(ecam_spec::specs::TermText::name_place))]
pub(crate) fn short_place(places: &NamePlaces<'_>, name: &[u8]) -> Option<u32>
    ensures { (names : List Text) → FindsPlaces names places.now
        → result ≡ name_place names name.now }
{
    if name.len() > LONGEST_NAME {
        return None;
    }
    place_in(places, name)
}

/// How often each of these names stands. It costs a hash of each, and as a rule a comparison. An error is want
/// of memory.
pub fn counts_of<'a>(alloc: Global, names: &[&'a str]) -> Result<Counts<'a>, AllocError>
    ensures { IfOk result (CountsNames (texts_of names.now)) }
{
    let mut counts = HashMap::with_capacity(alloc, names.len())?;
    for name in names {
        count_one(&mut counts, name.as_bytes())?;
    }
    Ok(counts)
}

fn count_one<'a>(counts: &mut Counts<'a>, name: &'a [u8]) -> Result<(), AllocError>
    requires { times counts.old name.now + 1 < 2 ^ 64 }
    ensures { OnOk result (CountsOne counts.old counts.new name.now) }
{
    let before = times_in(counts, name);
    counts.insert(name, before + 1)?;
    Ok(())
}

/// How often a name was counted, 0 for one that wasn't.
pub fn times_in(counts: &Counts<'_>, name: &[u8]) -> usize
    ensures { result ≡ times counts.now name.now }
{
    match counts.get(name) {
        Some(count) => *count,
        None => 0,
    }
}
