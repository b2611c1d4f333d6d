// Reading a book from its bytes.
ghost use Rattle.std.specs.Prelude.{◌≡◌, ◌<◌, ◌^◌, true, length, Some, None, IfOk, Err};
ghost use Rattle.toml.specs.View.{table_view};
ghost use Rattle.ecam_spec.specs.declared.kinds.BookFault.{BookFault};
ghost use Rattle.ecam_spec.specs.KeepsLimits.{IsSound};
ghost use Rattle.book_model.specs.View.{draft_of};
ghost use Rattle.book_model.specs.declared.error.LoadError.TheVariants.{Fault};
ghost use Rattle.book_spec.specs.BookBytes as spec;
ghost use Rattle.book_spec.specs.DraftOf as plain;
ghost use Rattle.book_spec.specs.Rules.{list_in};
ghost use Rattle.book_spec.specs.Document.{table_fault};
ghost use Rattle.book_tables.specs.Places.{HasFewItems};
ghost use Rattle.book_reader.specs.Unplaced.{IsUnplaced};

use crate::draft::draft_of;
use book_faults::{is_faultless_if_readable, table_fault};
use book_model::{BookFault, Draft, LoadError, Section};
use book_tables::Catalogue;
use book_tables::fields::list_in;
use ecam_spec::limits;
use std::alloc::{AllocError, Global};
use term_text::TermError;
use toml::Table;

/// The most bytes of a book. A caller need read no more than one byte beyond them.
pub const LONGEST: usize = limits::BOOK_BYTES;

fn top_fault(code: u8) -> LoadError
    ensures { result ≡ Fault (spec.top_fault code) }
{
    LoadError::Fault(BookFault {
        code,
        section: Section::Top,
        item: 0,
    })
}

fn table_in(alloc: Global, bytes: &[u8]) -> Result<Table, LoadError>
    ensures table { IfOk result (λ t. spec.table_of_text bytes.now ≡ Some (table_view t)) }
    ensures fault { (f : BookFault) → result ≡ Err (Fault f)
        → (f ≡ spec.top_fault 2) × (spec.table_of_text bytes.now ≡ None) }
{
    match toml::table_from_slice(alloc, bytes) {
        Ok(table) => Ok(table),
        Err(error) => {
            if error.is_memory() {
                Err(LoadError::Memory)
            } else {
                Err(top_fault(2))
            }
        }
    }
}

fn has_few(top: &Table, key: &str) -> bool
    ensures { result ≡ true → length (list_in key.now (table_view top.now)) < 2 ^ 32 }
{
    list_in(top, key).len() <= u32::MAX as usize
}

fn has_few_items(top: &Table) -> bool
    ensures { result ≡ true → HasFewItems (table_view top.now) }
{
    has_few(top, "systems")
        && has_few(top, "page")
        && has_few(top, "param")
        && has_few(top, "term")
        && has_few(top, "alert")
        && has_few(top, "memo")
}

// The first fault of a document that has one; another is answered as want of memory is.
fn fault_in(alloc: Global, top: &Table) -> LoadError
    requires { HasFewItems (table_view top.now) }
    ensures { (f : BookFault) → result ≡ Fault f → table_fault (table_view top.now) ≡ Some f }
{
    match first_fault(alloc, top) {
        Ok(Some(fault)) => LoadError::Fault(fault),
        _ => LoadError::Memory,
    }
}

fn first_fault(alloc: Global, top: &Table) -> Result<Option<BookFault>, AllocError>
    requires { HasFewItems (table_view top.now) }
    ensures { IfOk result (λ f. f ≡ table_fault (table_view top.now)) }
{
    let names = Catalogue::new(alloc, top)?;
    table_fault(alloc, &names)
}

fn draft_in(alloc: Global, top: &Table) -> Result<Draft, LoadError>
    ensures draft { IfOk result (λ d. draft_of d ≡ plain.draft_of (table_view top.now)) }
    ensures unplaced { IfOk result IsUnplaced }
    ensures faultless { IfOk result (λ d. table_fault (table_view top.now) ≡ None) }
    ensures fault { (f : BookFault) → result ≡ Err (Fault f)
        → table_fault (table_view top.now) ≡ Some f }
{
    // No list of a document of 4 MiB is longer.
    if !has_few_items(top) {
        return Err(LoadError::Memory);
    }
    let names = Catalogue::new(alloc, top)?;
    if !is_faultless_if_readable(alloc, &names)? {
        return Err(fault_in(alloc, top));
    }
    match draft_of(alloc, top, names) {
        Ok(draft) => Ok(draft),
        Err(TermError::Memory) => Err(LoadError::Memory),
        Err(_) => Err(fault_in(alloc, top)),
    }
}

/// Reads a book: the draft that its document is, or the first of its faults with the codes 1 to 19, or
/// `LoadError::Memory`, which tells that memory ran out and nothing of the book. It reads each condition once, named ones
/// with the names. It costs two passes through the document, one that reads no condition and one that drafts it and reads
/// all but named ones; a look-up of a name costs a hash of it, and as a rule a comparison. Where there is a fault, each
/// code up to its own is one more search.
pub fn read_book(alloc: Global, bytes: &[u8]) -> Result<Draft, LoadError>
    ensures draft { IfOk result (λ d. spec.draft_of_bytes bytes.now ≡ Some (draft_of d)) }
    ensures sound { IfOk result (λ d. IsSound (draft_of d)) }
    ensures unplaced { IfOk result IsUnplaced }
    ensures fault { (f : BookFault) → result ≡ Err (Fault f) → spec.text_fault bytes.now ≡ Some f }
{
    if bytes.len() > LONGEST {
        return Err(top_fault(1));
    }
    let table = table_in(alloc, bytes)?;
    draft_in(alloc, &table)
}
