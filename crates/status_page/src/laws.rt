//! That the status page is that of the definitions, as a theorem: the contract of a function that does nothing.
ghost use Rattle.std.specs.Prelude.{◌≡◌, ℕ};
ghost use Rattle.ecam_spec.specs.Book.{Book};
ghost use Rattle.ecam_spec.specs.History.{Moment};
ghost use Rattle.ecam_spec.specs.Situation.{active_in};
ghost use Rattle.ecam_spec.specs.Screen.{cancelled_in, status_in};
ghost use Rattle.status_page.specs.StatusOf.{status_of};

/// Filled by the alerts that are active and cancelled in a moment, the status page is that of the moment.
pub fn the_status_rows_are_those_of_the_moment()
    ensures { (b : Book) (m : ℕ → Moment) (k : ℕ) →
        status_of b (λ a. active_in b m a k) (λ a. cancelled_in b m a k) ≡ status_in b m k }
{}
