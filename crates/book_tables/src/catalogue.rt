// The names of a document, its named conditions read.
ghost use Rattle.std.specs.Prelude.{◌≡◌, true, take, IfOk};
ghost use Rattle.toml.specs.View.{table_view};
ghost use Rattle.term_tree.specs.View.{named_terms};
ghost use Rattle.book_spec.specs.Document as document;
ghost use Rattle.book_tables.specs.Places.{HasFewItems};
ghost use Rattle.book_tables.specs.Meant.{AreMeant};

use crate::conditions::named_in;
use crate::fields::list_in;
use crate::names::{Places, Scope};
use book_spec::Item;
use std::alloc::{AllocError, Global};
use term_tree::NamedTerm;
use toml::Table;

/// The names of a document, and its named conditions: each was read where those before it were known, and is `true`
/// where its text means no condition.
#[derive(Drop)]
pub struct Catalogue<'a> {
    pub places: Places<'a>,
    /// Its named conditions.
    pub terms: Vec<NamedTerm>,
    are_meant: bool,
    ghost meant: { are_meant ≡ true → AreMeant (table_view places.top.now) },
    pub ghost few: { HasFewItems (table_view places.top.now) },
}

impl<'a> Catalogue<'a> {
    ghost use Rattle.book_spec.specs.Document.{names_of, names_at};
    ghost use Rattle.book_tables.specs.Catalogue.{table_in, names_in, IsComplete};

    /// The names of a document. Reading the named conditions costs as much as their trees are large. An error is want of
    /// memory.
    pub fn new(alloc: Global, top: &'a Table) -> Result<Catalogue<'a>, AllocError>
        requires { HasFewItems (table_view top.now) }
        ensures table { IfOk result (λ c. table_in c ≡ table_view top.now) }
        ensures complete { IfOk result IsComplete }
    {
        let places = Places::new(alloc, top)?;
        let (terms, are_meant) = named_terms(alloc, &places)?;
        Ok(Catalogue {
            places,
            terms,
            are_meant,
        })
    }

    /// Whether the text of each named condition means one.
    pub fn are_meant(&self) -> bool
        ensures { result ≡ true → AreMeant (table_in self.now) }
    {
        self.are_meant
    }

    /// The names that conditions may use which aren't named themselves.
    #[tactic(auto, unfolding(book_spec::specs::Document::names_of))]
    pub fn all(&self) -> Scope<'_, 'a>
        requires { IsComplete self.now }
        ensures { names_in result ≡ names_of (table_in self.now) }
    {
        Scope {
            places: &self.places,
            terms: self.terms.as_slice(),
        }
    }

    // The names that a named condition may use, by its place: those of the named ones before it.
    fn before(&self, place: usize) -> Scope<'_, 'a>
        requires { IsComplete self.now }
        ensures { names_in result ≡ names_at (table_in self.now) Item.Term place }
    {
        Scope {
            places: &self.places,
            terms: first(self.terms.as_slice(), place),
        }
    }

    /// The names that an item of a section may use, by its place from 0.
    pub fn scope(&self, item: Item, place: usize) -> Scope<'_, 'a>
        requires { IsComplete self.now }
        ensures { names_in result ≡ names_at (table_in self.now) item place }
    {
        match item {
            Item::Term => self.before(place),
            _ => self.all(),
        }
    }
}

// The first of some conditions.
fn first(terms: &[NamedTerm], count: usize) -> &[NamedTerm]
    ensures { result.now ≡ take count terms.now }
{
    if count < terms.len() {
        &terms[..count]
    } else {
        terms
    }
}

// The named conditions of a document, each read where those before it are known, and whether the text of each means one.
fn named_terms(alloc: Global, places: &Places<'_>) -> Result<(Vec<NamedTerm>, bool), AllocError>
    ensures value { IfOk result (λ t. named_terms t.0.items
        ≡ document.named_terms (table_view places.now.top.now)) }
    ensures meant { IfOk result (λ t. t.1 ≡ true
        → AreMeant (table_view places.now.top.now)) }
{
    let items = list_in(places.top, "term");
    let mut terms = Vec::with_capacity(alloc, items.len())?;
    let mut are_meant = true;
    for item in items {
        let known = Scope {
            places,
            terms: terms.as_slice(),
        };
        let (term, is_meant) = named_in(alloc, &known, item)?;
        terms.push(term)?;
        are_meant &= is_meant;
    }
    Ok((terms, are_meant))
}
