//! That the fills show what the definitions say of a moment, as theorems: each is the contract of a function that
//! does nothing.
ghost use Rattle.std.specs.Prelude.{◌≡◌, ◌<◌, ℕ, ℤ, List, Option, None, Some, length, slice_get, slice_index_or};
ghost use Rattle.std.specs.Option.{option_and_then};
ghost use Rattle.ecam_spec.specs.declared.kinds.Choice.TheVariants.{Auto, Page, Status};
ghost use Rattle.ecam_spec.specs.Book.{Book};
ghost use Rattle.ecam_spec.specs.History.{Moment};
ghost use Rattle.ecam_spec.specs.Selection.{choice};
ghost use Rattle.ecam_spec.specs.Situation.{value_in};
ghost use Rattle.ecam_spec.specs.Screen.{panel, display, status_in};
ghost use Rattle.ecam_spec.specs.StatusPage.{status_page};
ghost use Rattle.ecam_spec.specs.SystemDisplay.{called_page, page_rows};
ghost use Rattle.system_display.specs.Pages.{Displays, display_in};

/// The values of a moment are those that its display shows.
pub fn the_values_are_those_of_the_moment()
    ensures { (b : Book) (m : ℕ → Moment) (k : ℕ) (values : List (Option ℤ))
        → ((p : ℕ) → p < length b.parameters → slice_index_or values p None ≡ value_in b m p k)
        → Displays b values (display b m k) }
{}

/// Filled by what is chosen in a moment, S01 to S18 are those of the moment: by the page that the situation calls for,
/// by the page that a key selected, or by the status page.
pub fn the_rows_are_those_of_the_choice()
    ensures called { (b : Book) (m : ℕ → Moment) (k : ℕ) (page : Option ℕ)
        → choice (panel b m) k ≡ Auto
        → option_and_then (slice_get b.pages) page ≡ called_page (display b m k)
        → page_rows (display b m k) (option_and_then (slice_get b.pages) page) ≡ display_in b m k }
    ensures selected { (b : Book) (m : ℕ → Moment) (k page : ℕ) → choice (panel b m) k ≡ Page page
        → page_rows (display b m k) (option_and_then (slice_get b.pages) (Some page))
        ≡ display_in b m k }
    ensures status { (b : Book) (m : ℕ → Moment) (k page : ℕ) → choice (panel b m) k ≡ Status page
        → status_page page (status_in b m k) ≡ display_in b m k }
{}
