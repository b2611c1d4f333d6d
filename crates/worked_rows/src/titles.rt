// Titles: how a word's bit shows an alert, and which words count.

ghost use Rattle.std.specs.Prelude.{◌≡◌, ◌++◌, codes};
ghost use Rattle.ecam_spec.specs.declared.kinds.Level.TheVariants.{One};
ghost use Rattle.worked_rows.specs.Rows.{lines, written};
ghost use Rattle.worked_rows.specs.Books.{book_a, book_n, book_fresh, book_two_sources, book_sdi};

/// A record without moments.
pub fn nothing_happens()
    ensures { written book_a (codes "E/") ≡ lines (codes "END 0/") }
{}

/// A word with the bit shows the title in its moment.
pub fn a_bit_shows_its_title()
    ensures { written book_a (codes "W 0 0000041d/T/E/")
        ≡ lines (codes "@0/L1 A HYD G RSVR LO LVL/END 1/") }
{}

/// A word of even parity counts as if it hadn't come.
pub fn an_even_word_counts_for_nothing()
    ensures { written book_a (codes "W 0 8000041d/T/E/") ≡ lines (codes "END 1/") }
{}

/// A word whose SSM is 11 gives a discrete no value.
pub fn a_word_that_is_not_normal_gives_nothing()
    ensures { written book_a (codes "W 0 6000041d/T/E/") ≡ lines (codes "END 1/") }
{}

/// The last word of a moment counts.
pub fn the_last_word_counts()
    ensures { written book_a (codes "W 0 0000041d/W 0 8000001d/T/E/") ≡ lines (codes "END 1/") }
{}

/// Titles beyond the seventh row are counted.
pub fn nine_titles()
    ensures { written book_n (codes "W 0 0000041d/T/E/") ≡ lines (
        codes "@0/L1 A ALERT 1/L2 A ALERT 2/L3 A ALERT 3/L4 A ALERT 4/L5 A ALERT 5/L6 A ALERT 6/L7 A ALERT 7/"
        ++ codes "FL W v OVF 2/END 1/") }
{}

/// A word is stale after two moments.
pub fn a_word_grows_stale()
    ensures { written (book_fresh One) (codes "W 0 0000041d/T/T/T/T/E/")
        ≡ lines (codes "@0/L1 A HYD G RSVR LO LVL/@3/L1 -/END 4/") }
{}

/// A second source stands in for a first that gives nothing.
pub fn a_second_source_stands_in()
    ensures { written book_two_sources (codes "W 0 6000041d/W 1 0000041d/T/E/")
        ≡ lines (codes "@0/L1 A HYD G RSVR LO LVL/END 1/") }
{}

/// The first source counts where it gives a value.
pub fn the_first_source_counts()
    ensures { written book_two_sources (codes "W 0 8000001d/W 1 0000041d/T/E/")
        ≡ lines (codes "END 1/") }
{}

/// A source that names an SDI takes its words alone.
pub fn a_source_with_an_sdi()
    ensures { written book_sdi (codes "W 0 0000041d/T/W 0 8000051d/T/E/")
        ≡ lines (codes "@1/L1 A HYD G RSVR LO LVL/END 2/") }
{}
