// The keys that choose a page of the system display, several at once.

ghost use Rattle.std.specs.Prelude.{◌≡◌, codes};
ghost use Rattle.worked_rows.specs.Rows.{lines, written};
ghost use Rattle.worked_rows.specs.Books.{book_pages};

/// Of two page keys at once the lower one counts.
pub fn the_least_of_two_pages()
    ensures { written book_pages (codes "P PG3/P PG2/T/E/") ≡ lines (codes "@0/S01 W P2/END 1/") }
{}

/// A key without a page selects nothing, by itself or beside another.
pub fn a_key_without_a_page()
    ensures { written book_pages (codes "P PG2/T/P PG4/T/P PG3/P PG16/T/E/")
        ≡ lines (codes "@0/S01 W P2/@2/S01 W P3/END 3/") }
{}

/// Nor does it where it is the lower one.
pub fn a_lower_key_without_a_page()
    ensures { written book_pages (codes "P PG4/P PG3/T/E/") ≡ lines (codes "@0/S01 W P3/END 1/") }
{}

/// ALL that is held counts before a page key.
pub fn all_counts_before_a_page_key()
    ensures { written book_pages (codes "P ALL/P PG2/T/R ALL/T/P PG2/T/E/")
        ≡ lines (codes "@0/S01 W P1/@2/S01 W P2/END 3/") }
{}
