// CLR, RCL and EMER CANC.

ghost use Rattle.std.specs.Prelude.{◌≡◌, ◌++◌, codes};
ghost use Rattle.std.specs.List.{repeat};
ghost use Rattle.worked_rows.specs.Rows.{lines, written};
ghost use Rattle.worked_rows.specs.Books.{book_a, book_b, book_e, book_n};

/// CLR acts on what the moment before showed: the alert that ended in the same moment, not the new one.
pub fn clr_acts_on_the_moment_before()
    ensures { written book_e (codes "W 0 0000041d/T/W 0 0000081d/P CLR/T/E/")
        ≡ lines (codes "@0/L1 A ALERT X/@1/L1 A ALERT Y/END 2/") }
{}

/// CLR with nothing shown does nothing.
pub fn clr_with_nothing_shown()
    ensures { written book_a (codes "T/P CLR/T/E/") ≡ lines (codes "END 2/") }
{}

/// RCL brings the cleared alerts back, but not one that is struck in the same moment.
pub fn rcl_brings_back_the_cleared()
    ensures { written book_e (codes "W 0 80000c1d/T/P CLR/T/P CLR/P RCL/T/P RCL/T/E/")
        ≡ lines (codes "@0/L1 A ALERT X/L2 A ALERT Y/@1/L1 A ALERT Y/L2 -/@2/L1 A ALERT X/@3/L2 A ALERT Y/END 4/") }
{}

/// A cancelled caution stays cancelled while its condition comes and goes, and a long recall brings it back.
pub fn a_long_recall_brings_back_the_cancelled()
    ensures { written book_b
        (codes "W 0 0000041d/T/P EMER/T/W 0 8000001d/T/W 0 0000041d/T/P RCL/"
        ++ repeat 30 (codes "T/") ++ codes "E/")
        ≡ lines (
        codes "@0/L1 A HYD G RSVR LO LVL/MC A MASTER CAUT/AU W SC/"
        ++ codes "@1/L1 -/FL W STS/S01 W CANCELLED CAUTION/S02 A HYD G RSVR LO LVL/MC -/AU -/"
        ++ codes "@2/FL -/S01 G NORMAL/S02 -/"
        ++ codes "@3/FL W STS/S01 W CANCELLED CAUTION/S02 A HYD G RSVR LO LVL/"
        ++ codes "@4/L1 G NORMAL/"
        ++ codes "@33/L1 A HYD G RSVR LO LVL/FL -/S01 G NORMAL/S02 -/MC A MASTER CAUT/"
        ++ codes "END 34/") }
{}

/// RCL held for 29 moments is no long recall.
pub fn a_shorter_recall_brings_back_nothing()
    ensures { written book_b
        (codes "W 0 0000041d/T/P EMER/T/W 0 8000001d/T/W 0 0000041d/T/P RCL/"
        ++ repeat 29 (codes "T/") ++ codes "R RCL/T/E/")
        ≡ lines (
        codes "@0/L1 A HYD G RSVR LO LVL/MC A MASTER CAUT/AU W SC/"
        ++ codes "@1/L1 -/FL W STS/S01 W CANCELLED CAUTION/S02 A HYD G RSVR LO LVL/MC -/AU -/"
        ++ codes "@2/FL -/S01 G NORMAL/S02 -/"
        ++ codes "@3/FL W STS/S01 W CANCELLED CAUTION/S02 A HYD G RSVR LO LVL/"
        ++ codes "@4/L1 G NORMAL/"
        ++ codes "END 34/") }
{}

/// With more titles than rows, CLR lets one of the counted ones up.
pub fn clr_lets_a_counted_title_up()
    ensures { written book_n (codes "W 0 0000041d/T/P CLR/T/E/") ≡ lines (
        codes "@0/L1 A ALERT 1/L2 A ALERT 2/L3 A ALERT 3/L4 A ALERT 4/L5 A ALERT 5/L6 A ALERT 6/L7 A ALERT 7/FL W v OVF 2/"
        ++ codes "@1/L1 A ALERT 2/L2 A ALERT 3/L3 A ALERT 4/L4 A ALERT 5/L5 A ALERT 6/L6 A ALERT 7/L7 A ALERT 8/FL W v OVF 1/"
        ++ codes "END 2/") }
{}
