// The master lights and the sounds.

ghost use Rattle.std.specs.Prelude.{◌≡◌, ◌++◌, codes};
ghost use Rattle.ecam_spec.specs.declared.kinds.Level.TheVariants.{Two};
ghost use Rattle.worked_rows.specs.Rows.{lines, written};
ghost use Rattle.worked_rows.specs.Books.{book_b, book_w, book_warnings, book_fresh};
ghost use Rattle.worked_rows.specs.DisplayBooks.{book_fire};

/// A caution lights MASTER CAUT and chimes for five moments.
pub fn a_caution_chimes()
    ensures { written book_b (codes "W 0 0000041D/T/T/T/T/T/T/E/")
        ≡ lines (codes "@0/L1 A HYD G RSVR LO LVL/MC A MASTER CAUT/AU W SC/@5/AU -/END 6/") }
{}

/// Where the value is gone, the caution ends with its light and its sound.
pub fn a_caution_ends_with_its_light()
    ensures { written (book_fresh Two) (codes "W 0 0000041d/T/T/T/T/E/")
        ≡ lines (codes
        "@0/L1 A HYD G RSVR LO LVL/MC A MASTER CAUT/AU W SC/@3/L1 -/MC -/AU -/END 4/") }
{}

/// A press of MASTER WARN silences a warning, whose text stays.
pub fn a_press_silences_a_warning()
    ensures { written book_w (codes "W 0 0000041d/T/P MW/T/E/")
        ≡ lines (codes "@0/L1 R ENG 1 FIRE/MW R MASTER WARN/AU W CRC/@1/MW -/AU -/END 2/") }
{}

/// A press of MASTER WARN acknowledges the warning before it, and not the one that comes up in the same moment.
pub fn a_press_in_the_moment_of_an_onset()
    ensures { written book_warnings (codes "W 0 0000041d/T/W 0 80000c1d/P MW/T/E/")
        ≡ lines (codes
        "@0/L1 R ALERT X/MW R MASTER WARN/AU W CRC/@1/L2 R ALERT Y/AU W CAV/END 2/") }
{}

/// EMER CANC puts out both lights and the sound of a warning, and all else of the picture stays.
pub fn emer_canc_on_a_warning()
    ensures { written book_fire (codes "W 1 6bb80003/W 0 0000041d/T/P EMER/T/E/") ≡ lines (
        codes "@0/L1 R ENG 1 FIRE/L2 C -ENG 1 MASTER......OFF/L3 A HYD G PUMP/R1 G APU AVAIL/FL W STS/"
        ++ codes "S01 W ENG/S02 G OIL PRESS                   3000 PSI/MW R MASTER WARN/MC A MASTER CAUT/AU W CRC/"
        ++ codes "@1/MW -/MC -/AU -/END 2/") }
{}
