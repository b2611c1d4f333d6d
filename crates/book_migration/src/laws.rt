// What version 2 of a document says.
ghost use Rattle.std.specs.Prelude.{◌≡◌, ◌≤◌, true, None, length};
ghost use Rattle.toml.specs.Data.{Members, members_depth, members_are_sorted, members_have_valid_dates};
ghost use Rattle.ecam_spec.specs.declared.limits.TheConstants.{BOOK_BYTES};
ghost use Rattle.ecam_spec.specs.Book.{Text};
ghost use Rattle.book_spec.specs.BookBytes.{book_fault, book};
ghost use Rattle.book_spec.specs.Document.{table_fault};
ghost use Rattle.book_spec.specs.DraftOf.{draft_of};
ghost use Rattle.book_migration.specs.Migrated.{in_version_2};
ghost use Rattle.book_migration.specs.Migration.{IsMigration};

/// A document without a fault has none in version 2, and is the same draft.
pub fn a_book_says_the_same_in_version_2()
    ensures faultless { (top : Members) → table_fault top ≡ None
        → table_fault (in_version_2 top) ≡ None }
    ensures same { (top : Members) → draft_of (in_version_2 top) ≡ draft_of top }
{}

/// A document without a fault nests at most five deep, and each date-time in it is one. A table that was read is sorted.
pub fn a_document_nests_five_deep()
    ensures depth { (top : Members) → members_are_sorted top ≡ true → table_fault top ≡ None
        → members_depth top ≤ 5 }
    ensures dates { (top : Members) → members_are_sorted top ≡ true → table_fault top ≡ None
        → members_have_valid_dates top ≡ true }
{}

/// The migration of a book, where it is no longer than a book may be, has no fault and is the same book.
pub fn a_migration_says_the_same()
    ensures faultless { (bytes text : Text) → book_fault bytes ≡ None → IsMigration bytes text
        → length text ≤ BOOK_BYTES → book_fault text ≡ None }
    ensures same { (bytes text : Text) → book_fault bytes ≡ None → IsMigration bytes text
        → length text ≤ BOOK_BYTES → book text ≡ book bytes }
{}
