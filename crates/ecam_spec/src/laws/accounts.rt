// Each active or recalled alert is accounted for.

ghost use Rattle.std.specs.Prelude.{◌≡◌, ℕ, ◌-◌, ◌≤◌, true, false, not, ◌&&◌, ◌||◌, ◌==◌, get_or, count_by, is_some};
ghost use Rattle.std.specs.List.{list_any};
ghost use Rattle.ecam_spec.specs.declared.kinds.Standing.TheVariants.{Titled};
ghost use Rattle.ecam_spec.specs.Book.{Book};
ghost use Rattle.ecam_spec.specs.History.{Moment};
ghost use Rattle.ecam_spec.specs.Picture.{row, blank_row};
ghost use Rattle.ecam_spec.specs.LeftZone.{title_colour, title_row, overflow};
ghost use Rattle.ecam_spec.specs.Standing.{accounts, has_row, is_counted};
ghost use Rattle.ecam_spec.specs.Situation.{alert_at, active_in};
ghost use Rattle.ecam_spec.specs.Screen.{alert_numbers, recalled_in, cancelled_in, shown_in, left_in, picture_in};
ghost use Rattle.ecam_spec.specs.Replay.{standing_in};

/// In each moment an alert is starred, cancelled, cleared, titled or counted exactly where it is active, or recalled
/// and not cancelled.
#[tactic(auto, using(crate::proofs::AccountLaws::accounted))]
pub fn each_active_alert_is_accounted_for()
    ensures { (b : Book) (moments : ℕ → Moment) (a k : ℕ) → accounts (standing_in b moments k a)
        ≡ (active_in b moments a k || (recalled_in b moments a k
        && not (cancelled_in b moments a k))) }
{}

/// A recalled alert that isn't cancelled is titled or counted.
#[tactic(auto, using(crate::proofs::AccountLaws::recalled_listed))]
pub fn a_recalled_alert_is_titled_or_counted()
    ensures { (b : Book) (moments : ℕ → Moment) (a k : ℕ) → recalled_in b moments a k ≡ true →
        cancelled_in b moments a k ≡ false → has_row (standing_in b moments k a) ≡ true }
{}

/// A titled alert's row, 1 to 7, is its title.
pub fn a_titled_alert_stands_in_its_row()
    ensures { (b : Book) (moments : ℕ → Moment) (a k r : ℕ) → standing_in b moments k a ≡ Titled r →
        (1 ≤ r) × (r ≤ 7) ×
        (get_or (picture_in b moments k) (r - 1) blank_row
        ≡ row (title_colour (alert_at b a).level) (alert_at b a).title) }
{}

/// The counted alerts are as many as OVF says.
#[tactic(auto, using(crate::proofs::AccountLaws::counted_is_overflow))]
pub fn ovf_counts_the_counted_alerts()
    ensures { (b : Book) (moments : ℕ → Moment) (k : ℕ) →
        count_by (λ a. is_counted (standing_in b moments k a)) (alert_numbers b)
        ≡ overflow (left_in b moments k) }
{}

/// An alert's title is among the left zone's rows, the seven that stand and those beyond, exactly where the alert
/// is shown.
#[tactic(auto, using(crate::proofs::AccountLaws::titled_where_listed))]
pub fn a_shown_alert_has_its_title()
    ensures { (b : Book) (moments : ℕ → Moment) (a k : ℕ) →
        is_some (title_row a (left_in b moments k))
        ≡ list_any (λ i. a == i) (shown_in b moments k) }
{}
