// The document of a limits file beside its book, and how often each name stands in it.
ghost use Rattle.std.specs.Prelude.{codes};
ghost use Rattle.toml.specs.View.{table_view};
ghost use Rattle.book_spec.specs.Document.{names_in};
ghost use Rattle.book_tables.specs.Places.{CountsNames};

use book_model::Book;
use book_tables::fields::{list_in, names_in};
use book_tables::places::{Counts, counts_of, times_in};
use std::alloc::{AllocError, Global};
use toml::{Table, Value};

/// A document, the book that its names are looked for in, and how often each name of an advisory stands.
#[derive(Drop)]
pub(crate) struct Document<'a> {
    pub(crate) top: &'a Table,
    pub(crate) book: &'a Book,
    counts: Counts<'a>,
    ghost counted: { CountsNames (names_in (codes "advisory") (table_view top.now)) counts },
}

impl<'a> Document<'a> {
    ghost use Rattle.std.specs.Prelude.{◌≡◌, IfOk};
    ghost use Rattle.book_model.specs.Sealed.{the_book};
    ghost use Rattle.ecam_spec.specs.KeepsLimits.{is_repeated};
    ghost use Rattle.book_tables.specs.Reading.{views};
    ghost use Rattle.limits_spec.specs.Document.{advisories_in};
    ghost use Rattle.advisories.specs.Document.{table_in, book_in, listed_names};

    /// Counts the names of a document. An error is want of memory.
    pub(crate) fn new(
        alloc: Global,
        top: &'a Table,
        book: &'a Book,
    ) -> Result<Document<'a>, AllocError>
        ensures table { IfOk result (λ d. table_in d ≡ table_view top.now) }
        ensures book { IfOk result (λ d. book_in d ≡ the_book book.now) }
    {
        let names = names_in(alloc, list_in(top, "advisory"))?;
        let counts = counts_of(alloc, names.as_slice())?;
        Ok(Document { top, book, counts })
    }

    /// The advisories of the document.
    pub(crate) fn advisories(&self) -> &'a [Value]
        ensures { views result.now ≡ advisories_in (table_in self.now) }
    {
        list_in(self.top, "advisory")
    }

    /// Whether a name stands at more than one advisory.
    pub(crate) fn is_repeated(&self, name: &str) -> bool
        ensures { result ≡ is_repeated (listed_names self.now) name.now }
    {
        times_in(&self.counts, name.as_bytes()) > 1
    }
}
