// Two computers: what the loss of one, and of both, does.

ghost use Rattle.std.specs.Prelude.{◌≡◌, codes};
ghost use Rattle.worked_rows.specs.Rows.{lines, written};
ghost use Rattle.worked_rows.specs.Books.{book_a, book_confirmed_once, book_computer};

/// A computer that comes up beside the other takes over what it holds; a start from none begins anew.
pub fn takeover_and_cold_start()
    ensures { written book_confirmed_once (codes
        "W 0 0000041d/F 1/T/T/U 1/F 2/T/F 1/T/U 2/T/W 0 0000041d/T/T/E/")
        ≡ lines (codes "@1/L1 A HYD G RSVR LO LVL/@3/L1 A FWS FWC 1+2 FAULT/@4/L1 -/@6/L1 A HYD G RSVR LO LVL/END 7/") }
{}

/// An alert can tell of a computer's failure.
pub fn an_alert_tells_of_a_failed_computer()
    ensures { written book_computer (codes "F 1/T/U 1/T/E/")
        ≡ lines (codes "@0/L1 A FWS FWC 1 FAULT/@1/L1 -/END 2/") }
{}

/// A computer that fails and comes back within a moment, beside the other, changes nothing.
pub fn back_within_a_moment()
    ensures { written book_a (codes "W 0 0000041d/T/F 1/U 1/T/F 2/U 2/T/E/")
        ≡ lines (codes "@0/L1 A HYD G RSVR LO LVL/END 3/") }
{}

/// Where both fail and one comes back within a moment, all words are gone.
pub fn both_gone_within_a_moment()
    ensures { written book_a (codes "W 0 0000041d/T/F 1/F 2/U 2/T/W 0 0000041d/T/E/")
        ≡ lines (codes "@0/L1 A HYD G RSVR LO LVL/@1/L1 -/@2/L1 A HYD G RSVR LO LVL/END 3/") }
{}

/// A word that comes while both are down is lost, and one that follows the start in the same moment counts.
pub fn words_for_no_computer()
    ensures { written book_a (codes "F 1/F 2/W 0 0000041d/U 1/T/F 1/U 1/W 0 0000041d/T/E/")
        ≡ lines (codes "@1/L1 A HYD G RSVR LO LVL/END 2/") }
{}

/// A computer counts as up where it is up at the end of the moment.
pub fn up_at_the_end_of_the_moment()
    ensures { written book_computer (codes "F 1/U 1/T/F 1/T/E/")
        ≡ lines (codes "@1/L1 A FWS FWC 1 FAULT/END 2/") }
{}
