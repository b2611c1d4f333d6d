// The names of a document, and their places.
ghost use Rattle.std.specs.Prelude.{◌≡◌, ◌<◌, ◌^◌, map, take, length, codes, slice_get, option_map};
ghost use Rattle.toml.specs.View.{table_view};
ghost use Rattle.std.specs.Option.{option_and_then};
ghost use Rattle.term_tree.specs.View.{named_terms};
ghost use Rattle.book_spec.specs.Document as document;
ghost use Rattle.book_model.specs.NamePlaces.{FindsPlaces};

use crate::places::{name_places, short_place, system_places, term_places};
use book_model::{NamePlaces, place_in};
use std::alloc::{AllocError, Global};
use term_text::Dictionary;
use term_tree::{Cond, NamedTerm};
use toml::Table;

/// The places, from 0, of a document's systems, pages, parameters, alerts and named conditions by name. Of two equal
/// names the first counts. A look-up costs a hash of the name, and as a rule a comparison.
#[derive(Drop)]
pub struct Places<'a> {
    /// The document's table.
    pub top: &'a Table,
    systems: NamePlaces<'a>,
    pages: NamePlaces<'a>,
    params: NamePlaces<'a>,
    alerts: NamePlaces<'a>,
    terms: NamePlaces<'a>,
    ghost few_params: { length (document.names_in (codes "param") (table_view top.now)) < 2 ^ 32 },
    ghost few_alerts: { length (document.names_in (codes "alert") (table_view top.now)) < 2 ^ 32 },
    ghost finds_systems: { FindsPlaces (document.system_texts (table_view top.now)) systems },
    ghost finds_pages: { FindsPlaces (document.names_in (codes "page") (table_view top.now)) pages },
    ghost finds_params: { FindsPlaces (document.names_in (codes "param") (table_view top.now)) params },
    ghost finds_alerts: { FindsPlaces (document.names_in (codes "alert") (table_view top.now)) alerts },
    ghost finds_terms: { FindsPlaces (document.term_names (table_view top.now)) terms },
}

impl<'a> Places<'a> {
    ghost use Rattle.std.specs.Prelude.{IfOk};
    ghost use Rattle.book_tables.specs.Places.{HasFewItems};

    /// The places of a document's names. An error is want of memory.
    #[tactic(auto, using(crate::proofs::FewItems::name_count, crate::proofs::FewItems::system_count, crate::proofs::FewItems::term_count))]
    pub(crate) fn new(alloc: Global, top: &'a Table) -> Result<Places<'a>, AllocError>
        requires { HasFewItems (table_view top.now) }
        ensures { IfOk result (λ p. p.top.now ≡ top.now) }
    {
        Ok(Places {
            top,
            systems: system_places(alloc, top)?,
            pages: name_places(alloc, top, "page")?,
            params: name_places(alloc, top, "param")?,
            alerts: name_places(alloc, top, "alert")?,
            terms: term_places(alloc, top)?,
        })
    }
}

/// The names that a condition of the document may use: all but those of conditions, and the first of these.
#[derive(Drop)]
pub struct Scope<'c, 'a> {
    pub(crate) places: &'c Places<'a>,
    pub(crate) terms: &'c [NamedTerm],
    ghost first: { map (λ t. t.name) (named_terms terms.now)
        ≡ take (length terms.now) (document.term_names (table_view places.now.top.now)) },
}

impl Scope<'_, '_> {
    ghost use Rattle.ecam_spec.specs.Bytes.{place_of};
    ghost use Rattle.book_tables.specs.Catalogue.{names_in};

    /// The place of a system, if the document has it.
    pub fn system(&self, name: &str) -> Option<u32>
        ensures { result ≡ place_of (names_in self.now).systems name.now }
    {
        place_in(&self.places.systems, name.as_bytes())
    }

    /// The place of a page, if the document has it.
    pub fn page(&self, name: &str) -> Option<u32>
        ensures { result ≡ place_of (names_in self.now).pages name.now }
    {
        place_in(&self.places.pages, name.as_bytes())
    }

    /// The place of a parameter, if the document has it.
    pub fn parameter(&self, name: &str) -> Option<u32>
        ensures { result ≡ place_of (names_in self.now).of_terms.parameters name.now }
    {
        place_in(&self.places.params, name.as_bytes())
    }
}

impl Dictionary for Scope<'_, '_> {
    ghost use Rattle.book_tables.specs.Catalogue.{term_names_in};

    ghost known = { term_names_in };

    fn param(&self, name: &[u8]) -> Option<u32> {
        short_place(&self.places.params, name)
    }

    fn alert(&self, name: &[u8]) -> Option<u32> {
        short_place(&self.places.alerts, name)
    }

    fn term(&self, name: &[u8]) -> Option<&Cond> {
        cond_at(self.terms, short_place(&self.places.terms, name))
    }
}

// The condition that has this place among named ones, if there is one.
fn cond_at(terms: &[NamedTerm], place: Option<u32>) -> Option<&Cond>
    ensures { option_map (λ c. c.now) result
        ≡ option_and_then (λ p. option_map (λ t. t.cond) (slice_get terms.now p)) place }
{
    match place {
        Some(place) => cond_in(terms, place as usize),
        None => None,
    }
}

fn cond_in(terms: &[NamedTerm], place: usize) -> Option<&Cond>
    ensures { option_map (λ c. c.now) result
        ≡ option_map (λ t. t.cond) (slice_get terms.now place) }
{
    match terms.get(place) {
        Some(term) => Some(&term.cond),
        None => None,
    }
}
