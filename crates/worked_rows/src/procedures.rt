// Procedure lines, an ordinary failure from its onset to its recall, and where its alerts stand at the end.

ghost use Rattle.std.specs.Prelude.{◌≡◌, ◌++◌, codes};
ghost use Rattle.worked_rows.specs.Rows.{lines, written, standings};
ghost use Rattle.worked_rows.specs.Books.{book_l, book_s};

/// A line that is done goes, and the next one comes up into the seventh row.
pub fn a_line_that_is_done_goes()
    ensures { written book_l (codes "W 0 0000041d/T/W 0 80000c1d/T/E/") ≡ lines (
        codes "@0/L1 A HYD G RSVR LO LVL/L2 C LINE 1/L3 C LINE 2/L4 C LINE 3/L5 C LINE 4/L6 C LINE 5/L7 C LINE 6/FL W v/"
        ++ codes "@1/L2 C LINE 2/L3 C LINE 3/L4 C LINE 4/L5 C LINE 5/L6 C LINE 6/L7 C LINE 7/FL -/"
        ++ codes "END 2/") }
{}

/// The level falls, the pressure goes with it, the pump is put off, CLR, STS, RCL.
pub fn an_ordinary_failure()
    ensures { written book_s
        (codes "W 1 6bb80003/T/W 0 0000041d/T/W 1 e0000003/T/W 0 80000c1d/T/P CLR/T/P STS/T/P RCL/T/E/")
        ≡ lines (
        codes "@1/L1 A HYD G RSVR LO LVL/L2 C -G ENG 1 PUMP.....OFF/FL W STS/S01 W HYD/"
        ++ codes "S02 G GREEN PRESS                 3000 PSI/MC A MASTER CAUT/AU W SC/"
        ++ codes "@2/R1 A *HYD/S02 G GREEN PRESS                    0 PSI/"
        ++ codes "@3/L2 -/"
        ++ codes "@4/L1 -/S01 -/S02 -/MC -/AU -/"
        ++ codes "@5/S01 A GREEN HYD/"
        ++ codes "@6/L1 A HYD G RSVR LO LVL/MC A MASTER CAUT/"
        ++ codes "END 7/") }
{}

/// At its end the first alert is titled, and explains the second.
pub fn standings_of_an_ordinary_failure()
    ensures { standings book_s
        (codes "W 1 6bb80003/T/W 0 0000041d/T/W 1 e0000003/T/W 0 80000c1d/T/P CLR/T/P STS/T/P RCL/T/E/")
        ≡ lines (codes "g_rsvr titled 1/g_press_lo starred g_rsvr/") }
{}
