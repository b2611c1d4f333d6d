// Memos of both zones, and what stands before them.

ghost use Rattle.std.specs.Prelude.{◌≡◌, ◌++◌, codes};
ghost use Rattle.std.specs.List.{repeat};
ghost use Rattle.worked_rows.specs.Rows.{lines, written};
ghost use Rattle.worked_rows.specs.DisplayBooks.{book_memos, book_explained};

/// With nothing shown, RCL shows NORMAL for thirty moments in the place of the left memos; the right ones stand beside it.
pub fn normal_stands_before_the_memos()
    ensures { written book_memos (codes "W 0 0000041d/P RCL/T/" ++ repeat 30 (codes "T/")
        ++ codes "E/") ≡ lines (
        codes "@0/L1 G NORMAL/R1 M RIGHT 1/R2 M RIGHT 2/R3 M RIGHT 3/R4 M RIGHT 4/R5 M RIGHT 5/R6 M RIGHT 6/"
        ++ codes "R7 M RIGHT 7/FL W RGT 2/"
        ++ codes "@30/L1 G LEFT 1/L2 G LEFT 2/L3 G LEFT 3/L4 G LEFT 4/L5 G LEFT 5/L6 G LEFT 6/L7 G LEFT 7/FL W v RGT 2/"
        ++ codes "END 31/") }
{}

/// Memos stand while their conditions hold, in the book's order and their colours, the first seven of each zone.
pub fn memos_in_order()
    ensures { written book_memos (codes "W 0 0000041d/T/W 0 80000c1d/T/W 0 0000081d/T/E/") ≡ lines (
        codes "@0/L1 G LEFT 1/L2 G LEFT 2/L3 G LEFT 3/L4 G LEFT 4/L5 G LEFT 5/L6 G LEFT 6/L7 G LEFT 7/"
        ++ codes "R1 M RIGHT 1/R2 M RIGHT 2/R3 M RIGHT 3/R4 M RIGHT 4/R5 M RIGHT 5/R6 M RIGHT 6/R7 M RIGHT 7/FL W v RGT 2/"
        ++ codes "@2/L1 G PUMP OFF/L2 -/L3 -/L4 -/L5 -/L6 -/L7 -/R1 -/R2 -/R3 -/R4 -/R5 -/R6 -/R7 -/FL -/"
        ++ codes "END 3/") }
{}

/// Systems with a failure that another explains stand before the right memos, in the order of the book's systems.
pub fn systems_stand_before_the_memos()
    ensures { written book_explained (codes "W 0 0000041d/T/E/")
        ≡ lines (codes "@0/L1 A PUMP FAULT/R1 A *HYD/R2 A *ELEC/R3 G SEAT BELTS/END 1/") }
{}
