//! That the fills show what the definitions say of a moment, as theorems: each is the contract of a function that
//! does nothing.
ghost use Rattle.std.specs.Prelude.{◌≡◌, ℕ};
ghost use Rattle.ecam_spec.specs.Book.{Book};
ghost use Rattle.ecam_spec.specs.History.{Moment};
ghost use Rattle.ecam_spec.specs.Term.{holds};
ghost use Rattle.ecam_spec.specs.Crew.{normal};
ghost use Rattle.ecam_spec.specs.Situation.{world, starred_in};
ghost use Rattle.ecam_spec.specs.Screen.{cockpit, shown_in, line_stands, left_in, right_in};
ghost use Rattle.warning_display.specs.LeftRows.{left_of};
ghost use Rattle.warning_display.specs.RightRows.{right_of};

/// Filled by the lines that stand, the memos that hold and the alerts that are shown in a moment, the left zone is
/// that of the moment.
pub fn the_left_zone_is_that_of_the_moment()
    ensures { (b : Book) (m : ℕ → Moment) (k : ℕ) →
        left_of b (line_stands b m k) (λ x. holds (world b m) x.when k) (shown_in b m k)
        (normal (cockpit b m) k)
        ≡ left_in b m k }
{}

/// Filled by the alerts that are starred and the memos that hold in a moment, the right zone is that of the moment.
pub fn the_right_zone_is_that_of_the_moment()
    ensures { (b : Book) (m : ℕ → Moment) (k : ℕ) →
        right_of b (λ a. starred_in b m a k) (λ x. holds (world b m) x.when k) ≡ right_in b m k }
{}
