// RCL and alerts that wait: a flight up to phase 4, which inhibits the alert, and then a press of RCL.

ghost use Rattle.std.specs.Prelude.{◌≡◌, ◌++◌, codes};
ghost use Rattle.ecam_spec.specs.declared.kinds.Level.TheVariants.{Two};
ghost use Rattle.worked_rows.specs.Rows.{lines, written, standings};
ghost use Rattle.worked_rows.specs.Books.{book_d, until_recall};

/// A recalled alert that becomes active lights its lamp then, and not before.
pub fn a_recalled_alert_lights_up_when_active()
    ensures { written (book_d Two) (until_recall ++ codes "W 0 8000a017/T/E/")
        ≡ lines (codes "@4/L1 A HYD G RSVR LO LVL/@5/MC A MASTER CAUT/AU W SC/END 6/") }
{}

/// CLR strikes a recalled alert, which then waits unseen.
pub fn clr_strikes_a_recalled_alert()
    ensures written { written (book_d Two) (until_recall ++ codes "P CLR/T/E/")
        ≡ lines (codes "@4/L1 A HYD G RSVR LO LVL/@5/L1 -/END 6/") }
    ensures stands { standings (book_d Two) (until_recall ++ codes "P CLR/T/E/")
        ≡ lines (codes "g_rsvr waiting/") }
{}

/// A recalled alert is titled.
pub fn a_recalled_alert_is_titled()
    ensures written { written (book_d Two) (until_recall ++ codes "E/")
        ≡ lines (codes "@4/L1 A HYD G RSVR LO LVL/END 5/") }
    ensures stands { standings (book_d Two) (until_recall ++ codes "E/")
        ≡ lines (codes "g_rsvr titled 1/") }
{}

/// A recalled alert has no light and no sound, though its last onset was just before and never acknowledged.
pub fn a_recalled_alert_has_no_light()
    ensures { written (book_d Two)
        (codes "W 0 80000c17/W 0 0000041d/T/W 0 8000001d/W 0 00001c17/T/W 0 0000041d/T/P RCL/T/E/")
        ≡ lines (codes "@0/L1 A HYD G RSVR LO LVL/MC A MASTER CAUT/AU W SC/@1/L1 -/MC -/AU -/@3/L1 A HYD G RSVR LO LVL/END 4/") }
{}
