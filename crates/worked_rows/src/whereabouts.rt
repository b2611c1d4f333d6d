// Where alerts stand, as `why` tells it.

ghost use Rattle.std.specs.Prelude.{◌≡◌, ◌++◌, codes};
ghost use Rattle.worked_rows.specs.Rows.{lines, written, standings};
ghost use Rattle.worked_rows.specs.Books.{book_standings};

/// Seven alerts: cancelled, cleared, titled, explained by the third, beyond the seventh row, inhibited, absent.
pub fn each_standing()
    ensures written { written book_standings (codes "W 0 0000041d/T/P EMER/T/P CLR/T/E/") ≡ lines (
        codes "@0/L1 A ALERT 1/L2 A ALERT 2/L3 A ALERT 3/L4 C LINE 2/L5 C LINE 3/L6 C LINE 4/L7 C LINE 5/"
        ++ codes "R1 A *HYD/FL W v OVF 1/"
        ++ codes "@1/L1 A ALERT 2/L2 A ALERT 3/L3 C LINE 2/L4 C LINE 3/L5 C LINE 4/L6 C LINE 5/L7 C LINE 6/"
        ++ codes "FL W v OVF 1 STS/S01 W CANCELLED CAUTION/S02 A ALERT 1/"
        ++ codes "@2/L1 A ALERT 3/L2 C LINE 2/L3 C LINE 3/L4 C LINE 4/L5 C LINE 5/L6 C LINE 6/L7 C LINE 7/S01 -/S02 -/"
        ++ codes "END 3/") }
    ensures stands { standings book_standings (codes "W 0 0000041d/T/P EMER/T/P CLR/T/E/") ≡ lines (
        codes "n1 cancelled/n2 cleared/n3 titled 1/n4 starred n3/n5 counted/n6 waiting/n7 quiet/") }
{}

/// While no computer is up, all are dead.
pub fn dead_without_a_computer()
    ensures { standings book_standings (codes "W 0 0000041d/T/P EMER/T/P CLR/T/F 1/F 2/T/E/")
        ≡ lines (codes "n1 dead/n2 dead/n3 dead/n4 dead/n5 dead/n6 dead/n7 dead/") }
{}
