// The flight phases, and alerts that they inhibit.

ghost use Rattle.std.specs.Prelude.{◌≡◌, ℕ, ◌<◌, ◌≤◌, ◌∷◌, [], codes};
ghost use Rattle.ecam_spec.specs.Phase.{phase};
ghost use Rattle.ecam_spec.specs.declared.kinds.Level.TheVariants.{One, Two};
ghost use Rattle.worked_rows.specs.Rows.{lines, written};
ghost use Rattle.worked_rows.specs.Books.{book_d};
ghost use Rattle.worked_rows.specs.Flights.{flight, phases_of, five_flights_and_a_stay};

/// Five flights one after the other, as their inputs and phases: a rejected start of take-off, a rejected take-off,
/// a flight with a go-around, a landing; then five minutes parked, and one moment more; then the next start.
pub fn phases_of_five_flights()
    ensures flights { phases_of five_flights_and_a_stay 19
        ≡ 1 ∷ 2 ∷ 3 ∷ 2 ∷ 3 ∷ 4 ∷ 8 ∷ 9 ∷ 3 ∷ 4 ∷ 5 ∷ 6 ∷ 7 ∷ 5 ∷ 6 ∷ 6 ∷ 7 ∷ 8 ∷ 9 ∷ [] }
    ensures parked { (k : ℕ) → 19 ≤ k → k < 3019 → phase (flight five_flights_and_a_stay) k ≡ 10 }
    ensures parked_longer { phase (flight five_flights_and_a_stay) 3019 ≡ 1 }
    ensures started { phase (flight five_flights_and_a_stay) 3020 ≡ 2 }
{}

/// An alert that occurs in an inhibited phase waits for one that isn't.
pub fn an_inhibited_alert_waits()
    ensures { written (book_d Two)
        (codes "W 0 00000417/T/W 0 80000c17/T/W 0 00001c17/T/W 0 80003c17/W 0 0000041d/T/W 0 00007017/T/W 0 8000a017/T/E/")
        ≡ lines (codes "@5/L1 A HYD G RSVR LO LVL/MC A MASTER CAUT/AU W SC/END 6/") }
{}

/// An alert that was active before an inhibited phase stays.
pub fn an_active_alert_stays()
    ensures { written (book_d Two)
        (codes "W 0 00000417/T/W 0 80000c17/W 0 0000041d/T/W 0 00001c17/T/W 0 80003c17/T/W 0 00007017/T/W 0 8000a017/T/E/")
        ≡ lines (codes "@1/L1 A HYD G RSVR LO LVL/MC A MASTER CAUT/AU W SC/END 6/") }
{}

/// A level 1 alert waits too.
pub fn an_inhibited_alert_of_level_one_waits()
    ensures { written (book_d One)
        (codes "W 0 00000417/T/W 0 80000c17/T/W 0 00001c17/T/W 0 80003c17/W 0 0000041d/T/W 0 00007017/T/W 0 8000a017/T/E/")
        ≡ lines (codes "@5/L1 A HYD G RSVR LO LVL/END 6/") }
{}
