// Which heights are called at a descent. The value is the pressure of Book S, the third parameter.
#![tactic(auto, unfolding(ecam_spec::specs::Opened::opened, crate::specs::CalloutRows::opened_callouts))]

ghost use Rattle.std.specs.Prelude.{◌≡◌, ◌++◌, codes};
ghost use Rattle.worked_rows.specs.Rows.{lines};
ghost use Rattle.worked_rows.specs.CalloutRows.{called};
ghost use Rattle.worked_rows.specs.Books.{book_s};

/// 120, 95, 95, 110, 95, 130, 45: a height is called again only after a value more than 10 above it, and one moment
/// calls the least that it passes.
pub fn a_descent_with_a_climb()
    ensures { called book_s 2
        (codes "W 1 e0780003/T/W 1 e05f0003/T/T/W 1 606e0003/T/W 1 e05f0003/T/"
        ++ codes "W 1 e0820003/T/W 1 e02d0003/T/E/")
        ≡ lines (codes "@1 CALL 100/@6 CALL 50/END 7/") }
{}

/// 120, and 95 once a computer has failed: the other goes on.
pub fn a_computer_fails_at_a_descent()
    ensures { called book_s 2 (codes "W 1 e0780003/T/F 1/W 1 e05f0003/T/E/")
        ≡ lines (codes "@1 CALL 100/END 2/") }
{}

/// 120, and 95 after a cold start, which comes from nowhere.
pub fn a_cold_start_at_a_descent()
    ensures { called book_s 2 (codes "W 1 e0780003/T/F 1/F 2/T/U 1/W 1 e05f0003/T/E/")
        ≡ lines (codes "END 3/") }
{}
