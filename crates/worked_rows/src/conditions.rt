// Conditions over time, by themselves and as an alert's.

ghost use Rattle.std.specs.Prelude.{◌≡◌, ◌∷◌, [], true, false, codes};
ghost use Rattle.ecam_spec.specs.Book.{constant, discrete, all, at_least, confirmed, held, risen, latched, none, more};
ghost use Rattle.worked_rows.specs.Signals.{answers};
ghost use Rattle.ecam_spec.specs.declared.kinds.Level.TheVariants.{One, Two};
ghost use Rattle.worked_rows.specs.Rows.{lines, written};
ghost use Rattle.worked_rows.specs.Books.{book_confirmed, book_when, low_for_two, take_off_test};

/// `all(a, conf(d, 2))` in five moments, with d 1 in each and a in moment 4 alone.
pub fn confirmation_beside_another_condition()
    ensures { answers ((4 ∷ []) ∷ (0 ∷ 1 ∷ 2 ∷ 3 ∷ 4 ∷ []) ∷ [])
        (all (more (discrete 0) (more (confirmed (discrete 1) 2) none))) 5
        ≡ false ∷ false ∷ false ∷ false ∷ true ∷ [] }
{}

/// Over a in moment 0 alone and b in moment 3 alone: `latch(hold(a, 1), b)`, `rise(a)`, `atleast(2, a, b, true)`.
pub fn conditions_over_five_moments()
    ensures latch { answers ((0 ∷ []) ∷ (3 ∷ []) ∷ []) (latched (held (discrete 0) 1) (discrete 1))
        5
        ≡ true ∷ true ∷ true ∷ false ∷ false ∷ [] }
    ensures rise { answers ((0 ∷ []) ∷ (3 ∷ []) ∷ []) (risen (discrete 0)) 5
        ≡ true ∷ false ∷ false ∷ false ∷ false ∷ [] }
    ensures at_least_two { answers ((0 ∷ []) ∷ (3 ∷ []) ∷ [])
        (at_least 2 (more (discrete 0) (more (discrete 1) (more (constant true) none)))) 5
        ≡ true ∷ false ∷ false ∷ true ∷ false ∷ [] }
{}

/// A caution is confirmed by three moments in a row after its first; an interruption begins it anew.
pub fn an_interruption_begins_confirmation_anew()
    ensures { written (book_confirmed Two) (codes
        "W 0 0000041d/T/T/T/W 0 8000001d/T/W 0 0000041d/T/T/T/T/E/")
        ≡ lines (codes "@7/L1 A HYD G RSVR LO LVL/MC A MASTER CAUT/AU W SC/END 8/") }
{}

/// The same of a level 1 alert.
pub fn confirmation_of_level_one()
    ensures { written (book_confirmed One) (codes
        "W 0 0000041d/T/T/T/W 0 8000001d/T/W 0 0000041d/T/T/T/T/E/")
        ≡ lines (codes "@7/L1 A HYD G RSVR LO LVL/END 8/") }
{}

/// `conf(g_lo, 2)` holds in the third moment.
pub fn a_confirmed_condition()
    ensures { written (book_when low_for_two) (codes "W 0 0000041d/T/T/T/E/")
        ≡ lines (codes "@2/L1 A HYD G RSVR LO LVL/END 3/") }
{}

/// A pressed key holds for its moment.
pub fn a_pressed_key()
    ensures { written (book_when take_off_test) (codes "P TOCFG/T/T/E/")
        ≡ lines (codes "@0/L1 A HYD G RSVR LO LVL/@1/L1 -/END 2/") }
{}
