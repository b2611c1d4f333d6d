// The system display: a page with its values, the pages in turn, and the page that is shown by itself.

ghost use Rattle.std.specs.Prelude.{◌≡◌, ◌++◌, codes};
ghost use Rattle.std.specs.List.{repeat};
ghost use Rattle.worked_rows.specs.Rows.{lines, written};
ghost use Rattle.worked_rows.specs.Books.{book_s, book_pages};
ghost use Rattle.worked_rows.specs.DisplayBooks.{book_phase_pages, book_second_page, book_values};

/// A page's key shows its values, and a value that isn't there is XX.
pub fn a_value_that_is_not_there()
    ensures { written book_s (codes "W 1 6bb80003/P PG1/T/W 1 0bb80003/T/E/") ≡ lines (
        codes "@0/S01 W HYD/S02 G GREEN PRESS                 3000 PSI/"
        ++ codes "@1/S02 A GREEN PRESS                   XX PSI/"
        ++ codes "END 2/") }
{}

/// ALL shows each page for ten moments, and after its release the page stays.
pub fn all_shows_each_page_in_turn()
    ensures { written book_pages (codes "P ALL/" ++ repeat 25 (codes "T/") ++ codes "R ALL/T/E/")
        ≡ lines (codes "@0/S01 W P1/@10/S01 W P2/@20/S01 W P3/END 26/") }
{}

/// A discrete is ON or OFF; a number may be negative and without a unit; a row of mere text has its own colour.
pub fn values_of_each_kind()
    ensures { written book_values (codes "W 0 0000041d/W 1 7a560003/W 2 648d1400/P PG1/T/E/")
        ≡ lines (
        codes "@0/S01 W HYD/S02 G LEVEL LOW                     ON/S03 G PUMP OFF                     OFF/"
        ++ codes "S04 G GREEN PRESS                -1450 PSI/S05 G QUANTITY                  -12345/"
        ++ codes "S06 C GROUND TEST/END 1/") }
{}

/// The first page of the phase is shown by itself, but for the page of an alert that is shown.
pub fn a_page_by_phase()
    ensures { written book_phase_pages
        (codes "W 0 00000417/T/W 0 0000041d/T/W 0 8000001d/W 0 80000c17/T/W 0 00001c17/T/W 0 80003c17/T/E/")
        ≡ lines (
        codes "@0/S01 W P2/@1/L1 A HYD G RSVR LO LVL/S01 W P1/@2/L1 -/S01 W P2/@3/S01 W P3/@4/S01 -/END 5/") }
{}

/// Only the first alert's page is shown by itself: the second one's comes up when the first is cleared.
pub fn the_page_of_the_first_alert()
    ensures { written book_second_page (codes "W 0 80000c1d/T/P CLR/T/E/")
        ≡ lines (codes "@0/L1 A ALERT X/L2 A ALERT Y/@1/L1 A ALERT Y/L2 -/S01 W P1/END 2/") }
{}
