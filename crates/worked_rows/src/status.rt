// The status page: its sections, and its second page.

ghost use Rattle.std.specs.Prelude.{◌≡◌, ◌++◌, codes};
ghost use Rattle.worked_rows.specs.Rows.{lines, written};
ghost use Rattle.worked_rows.specs.DisplayBooks.{book_sections, book_status_pages};

/// Limitations, approach, procedure, information, inop: each section in its colour, and in it the alerts in order.
pub fn each_section_has_its_colour()
    ensures { written book_sections (codes "W 0 0000041d/P STS/T/E/") ≡ lines (
        codes "@0/L1 A HYD G RSVR LO LVL/L2 A HYD Y RSVR LO LVL/FL W STS/S01 C MAX SPEED 250/"
        ++ codes "S02 C AVOID ICING/S03 W FLAPS 3/S04 C GRAVITY EXTENSION/S05 G SLATS SLOW/S06 A GREEN PUMP/"
        ++ codes "S07 A YELLOW PUMP/END 1/") }
{}

/// STS shows the first status page, the second, and then the first again.
pub fn a_second_status_page()
    ensures { written book_status_pages (codes "W 0 0000041d/P STS/T/P STS/T/P STS/T/E/") ≡ lines (
        codes "@0/L1 A ALERT 1/L2 A ALERT 2/L3 A ALERT 3/FL W STS/S01 A SYSTEM 1/S02 A SYSTEM 2/"
        ++ codes "S03 A SYSTEM 3/S04 A SYSTEM 4/S05 A SYSTEM 5/S06 A SYSTEM 6/S07 A SYSTEM 7/S08 A SYSTEM 8/"
        ++ codes "S09 A SYSTEM 9/S10 A SYSTEM 10/S11 A SYSTEM 11/S12 A SYSTEM 12/S13 A SYSTEM 13/S14 A SYSTEM 14/"
        ++ codes "S15 A SYSTEM 15/S16 A SYSTEM 16/S17 A SYSTEM 17/S18 A SYSTEM 18/"
        ++ codes "@1/S01 A SYSTEM 19/S02 A SYSTEM 20/S03 -/S04 -/S05 -/S06 -/S07 -/S08 -/S09 -/S10 -/S11 -/S12 -/"
        ++ codes "S13 -/S14 -/S15 -/S16 -/S17 -/S18 -/"
        ++ codes "@2/S01 A SYSTEM 1/S02 A SYSTEM 2/S03 A SYSTEM 3/S04 A SYSTEM 4/S05 A SYSTEM 5/S06 A SYSTEM 6/"
        ++ codes "S07 A SYSTEM 7/S08 A SYSTEM 8/S09 A SYSTEM 9/S10 A SYSTEM 10/S11 A SYSTEM 11/S12 A SYSTEM 12/"
        ++ codes "S13 A SYSTEM 13/S14 A SYSTEM 14/S15 A SYSTEM 15/S16 A SYSTEM 16/S17 A SYSTEM 17/"
        ++ codes "S18 A SYSTEM 18/"
        ++ codes "END 3/") }
{}

/// EMER CANC shows the first status page, so STS after it shows the second, with the cancelled caution.
pub fn sts_after_emer_canc()
    ensures { written book_status_pages (codes "W 0 0000041d/T/P EMER/T/P STS/T/E/") ≡ lines (
        codes "@0/L1 A ALERT 1/L2 A ALERT 2/L3 A ALERT 3/FL W STS/"
        ++ codes "@1/L1 A ALERT 2/L2 A ALERT 3/L3 -/S01 A SYSTEM 1/S02 A SYSTEM 2/S03 A SYSTEM 3/S04 A SYSTEM 4/"
        ++ codes "S05 A SYSTEM 5/S06 A SYSTEM 6/S07 A SYSTEM 7/S08 A SYSTEM 8/S09 A SYSTEM 9/S10 A SYSTEM 10/"
        ++ codes "S11 A SYSTEM 11/S12 A SYSTEM 12/S13 A SYSTEM 13/S14 A SYSTEM 14/S15 A SYSTEM 15/"
        ++ codes "S16 A SYSTEM 16/S17 A SYSTEM 17/S18 A SYSTEM 18/"
        ++ codes "@2/S01 A SYSTEM 19/S02 A SYSTEM 20/S03 W CANCELLED CAUTION/S04 A ALERT 1/S05 -/S06 -/S07 -/"
        ++ codes "S08 -/S09 -/S10 -/S11 -/S12 -/S13 -/S14 -/S15 -/S16 -/S17 -/S18 -/"
        ++ codes "END 3/") }
{}
