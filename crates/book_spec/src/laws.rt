//! What the definitions say, as theorems: each is the contract of a function that does nothing.
ghost use Rattle.std.specs.Prelude.{◌≡◌, Some, None};
ghost use Rattle.toml.specs.Data.{Members};
ghost use Rattle.ecam_spec.specs.Book.{Text};
ghost use Rattle.ecam_spec.specs.Draft.{Draft};
ghost use Rattle.ecam_spec.specs.KeepsLimits.{IsSound};
ghost use Rattle.book_spec.specs.Document.{table_fault};
ghost use Rattle.book_spec.specs.DraftOf.{draft_of};
ghost use Rattle.book_spec.specs.BookBytes.{draft_of_bytes};

/// The draft of a document without a fault keeps each limit: its names, texts, numbers, lists and conditions.
pub fn a_document_without_fault_is_sound()
    ensures { (top : Members) → table_fault top ≡ None → IsSound (draft_of top) }
{}

/// So does each draft that the bytes of a book are.
pub fn a_draft_of_bytes_is_sound()
    ensures { (bytes : Text) (d : Draft) → draft_of_bytes bytes ≡ Some d → IsSound d }
{}
