// Damaged records: where the fault is, and what is written before it.

ghost use Rattle.std.specs.Prelude.{◌≡◌, ◌++◌, ◌∷◌, [], replicate, codes, None};
ghost use Rattle.ecam_spec.specs.declared.kinds.FaultKind.TheVariants.{Long, Form, Cut, NoEnd, AfterEnd, Limit};
ghost use Rattle.ecam_spec.specs.Record.{fault};
ghost use Rattle.worked_rows.specs.Rows.{lines, written, written_within, fault_of, at_line};
ghost use Rattle.worked_rows.specs.Books.{book_a};

/// A record of 17 bytes under a limit of 17.
pub fn a_record_as_long_as_its_limit()
    ensures fault { fault (lines (codes "W 0 0000041d/T/E/")) 17 ≡ None }
    ensures written { written_within 17 book_a (codes "W 0 0000041d/T/E/")
        ≡ lines (codes "@0/L1 A HYD G RSVR LO LVL/END 1/") }
{}

/// The same under a limit of 16: the blocks before the fault, and no last line.
pub fn a_record_longer_than_its_limit()
    ensures fault { fault (lines (codes "W 0 0000041d/T/E/")) 16 ≡ at_line Limit 3 }
    ensures written { written_within 16 book_a (codes "W 0 0000041d/T/E/")
        ≡ lines (codes "@0/L1 A HYD G RSVR LO LVL/") }
{}

/// A sound record has no fault.
pub fn a_sound_record()
    ensures { fault_of (codes "W 0 0000041d/T/E/") ≡ None }
{}

/// Records that aren't whole.
pub fn records_that_are_cut()
    ensures no_bytes { fault_of [] ≡ at_line NoEnd 1 }
    ensures no_line_end { fault_of (codes "T") ≡ at_line Cut 1 }
    ensures no_end { fault_of (codes "W 0 0000041d/T/") ≡ at_line NoEnd 3 }
    ensures written { written book_a (codes "W 0 0000041d/T/")
        ≡ lines (codes "@0/L1 A HYD G RSVR LO LVL/") }
{}

/// Records with a byte that fits nowhere.
pub fn records_that_go_wrong()
    ensures after_end { fault_of (codes "E/T/") ≡ at_line AfterEnd 2 }
    ensures long { fault_of (replicate 33 65) ≡ at_line Long 1 }
    ensures no_form { fault_of (replicate 32 65 ++ codes "/") ≡ at_line Form 1 }
    ensures no_such_bus { fault_of (codes "T/W 16 0000041d/") ≡ at_line Form 2 }
    ensures empty_line { fault_of (codes "/") ≡ at_line Form 1 }
{}
