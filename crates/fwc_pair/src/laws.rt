//! What follows for a pair, as theorems: each is the contract of a function that does nothing.
ghost use Rattle.std.specs.Prelude.{◌≡◌, ℕ, suc, ◌≤◌, ◌-◌, true, false, not, ◌&&◌, ◌||◌, List, ◌++◌, length, get_or, count_by};
ghost use Rattle.ecam_spec.specs.declared.kinds.Event.{Event};
ghost use Rattle.ecam_spec.specs.declared.kinds.Key.TheVariants.{Rcl};
ghost use Rattle.ecam_spec.specs.declared.kinds.Standing.TheVariants.{Titled};
ghost use Rattle.ecam_spec.specs.Book.{Book};
ghost use Rattle.ecam_spec.specs.Keys.{pressed};
ghost use Rattle.ecam_spec.specs.Picture.{row, blank_row};
ghost use Rattle.ecam_spec.specs.LeftZone.{title_colour, overflow, has_more};
ghost use Rattle.ecam_spec.specs.RightZone.{right_beyond};
ghost use Rattle.ecam_spec.specs.StatusPage.{flags, flags_row};
ghost use Rattle.ecam_spec.specs.Standing.{accounts, has_row, is_counted};
ghost use Rattle.ecam_spec.specs.Crew.{struck};
ghost use Rattle.ecam_spec.specs.Situation.{alert_at, strokes_in, active_in, waiting_in, up_in};
ghost use Rattle.ecam_spec.specs.History.{none_up, flags_after, era};
ghost use Rattle.ecam_spec.specs.Screen.{alert_numbers, cockpit, shown_in, is_shown_in, cleared_in, recalled_in, cancelled_in, left_in, right_in, status_in, picture_in};
ghost use Rattle.ecam_spec.specs.Replay.{moment_of, last_picture, standing};
ghost use Rattle.fwc_pair.specs.Alike.{ComeToTheSame, AgreeWhereUp};
ghost use Rattle.fwc_pair.specs.Lasts.{IsLast};
ghost use Rattle.fwc_pair.specs.PairState.{PairStands};
ghost use Rattle.fwc_pair.specs.declared.pair.Pair.{Pair};
ghost use Rattle.ecam_kinds.specs.Shown.{picture_of};

/// What a computer that is down holds has no bearing. Two pairs that stand for histories, have the same computers up
/// and the same picture and, where a computer is up, are in the same era, show the same pictures and have each alert
/// stand alike after any further events.
pub fn what_a_down_computer_holds_has_no_bearing()
    ensures same { (b : Book) (g h : List Event) (p q : Pair) → PairStands b g p → PairStands b h q
        → AgreeWhereUp g h p q → (later : List Event) → ComeToTheSame b (g ++ later) (h ++ later) }
    ensures pictures { (b : Book) (g h : List Event) → ComeToTheSame b g h → (p q : Pair)
        → PairStands b g p
        → PairStands b h q → picture_of p.face ≡ picture_of q.face }
    ensures standings { (b : Book) (g h : List Event) → ComeToTheSame b g h → (a : ℕ)
        → standing b g a ≡ standing b h a }
{}

/// Where a computer is up and its era has a moment, the picture that stands is that of the last one.
#[tactic(auto, using(crate::proofs::Accounts::last_shown))]
pub fn the_picture_is_that_of_the_last_moment()
    ensures { (b : Book) (h : List Event) (k : ℕ) → IsLast h k
        → last_picture b h ≡ picture_in b (moment_of (era h)) k }
{}

/// Then an alert is starred, cancelled, cleared, titled or counted exactly where it is active, or recalled and not
/// cancelled; and in the latter case it is titled or counted. No alert has two of these standings.
#[tactic(auto, using(crate::proofs::Accounts::each_accounted, crate::proofs::Accounts::recalled_has_row))]
pub fn each_active_alert_is_accounted_for()
    ensures accounted { (b : Book) (h : List Event) (k : ℕ) → IsLast h k → (a : ℕ)
        → accounts (standing b h a)
        ≡ (active_in b (moment_of (era h)) a k
        || (recalled_in b (moment_of (era h)) a k
        && not (cancelled_in b (moment_of (era h)) a k))) }
    ensures recalled { (b : Book) (h : List Event) (k : ℕ) → IsLast h k → (a : ℕ)
        → recalled_in b (moment_of (era h)) a k ≡ true
        → cancelled_in b (moment_of (era h)) a k ≡ false
        → has_row (standing b h a) ≡ true }
{}

/// A titled alert's row, 1 to 7, of the picture that stands is its title.
pub fn a_titled_alert_stands_in_its_row()
    ensures { (b : Book) (h : List Event) (a r : ℕ) → standing b h a ≡ Titled r
        → (1 ≤ r) × (r ≤ 7)
        × (get_or (last_picture b h) (r - 1) blank_row
        ≡ row (title_colour (alert_at b a).level) (alert_at b a).title) }
{}

/// The counted alerts are as many as titles stand beyond the seventh row, and FL tells this number.
#[tactic(auto, using(crate::proofs::Accounts::counted_number, crate::proofs::Accounts::flags_told))]
pub fn ovf_tells_how_many_alerts_are_counted()
    ensures number { (b : Book) (h : List Event) (k : ℕ) → IsLast h k
        → count_by (λ a. is_counted (standing b h a)) (alert_numbers b)
        ≡ overflow (left_in b (moment_of (era h)) k) }
    ensures told { (b : Book) (h : List Event) (k : ℕ) → IsLast h k
        → get_or (last_picture b h) 14 blank_row
        ≡ flags_row (flags (has_more (left_in b (moment_of (era h)) k))
        (count_by (λ a. is_counted (standing b h a)) (alert_numbers b))
        (right_beyond (right_in b (moment_of (era h)) k)) (status_in b (moment_of (era h)) k)) }
{}

/// An alert that was cleared in the moment before isn't shown without a press of RCL; with one it is shown exactly
/// where it is up and not cancelled. An alert that waits in a moment with a press of RCL is shown exactly where it isn't
/// struck in that moment and not cancelled.
#[tactic(auto, using(crate::proofs::Accounts::cleared_hidden, crate::proofs::Accounts::cleared_restored, crate::proofs::Accounts::waiting_recalled))]
pub fn rcl_restores_exactly_what_was_cleared_beside_what_waits()
    ensures hidden { (b : Book) (h : List Event) (k a : ℕ) → IsLast h (suc k)
        → cleared_in b (moment_of (era h)) a k ≡ true
        → pressed (strokes_in b (moment_of (era h))) Rcl (suc k) ≡ false
        → is_shown_in b (moment_of (era h)) a (suc k) ≡ false }
    ensures restored { (b : Book) (h : List Event) (k a : ℕ) → IsLast h (suc k)
        → cleared_in b (moment_of (era h)) a k ≡ true
        → pressed (strokes_in b (moment_of (era h))) Rcl (suc k) ≡ true
        → is_shown_in b (moment_of (era h)) a (suc k)
        ≡ (up_in b (moment_of (era h)) a (suc k)
        && not (cancelled_in b (moment_of (era h)) a (suc k))) }
    ensures recalled { (b : Book) (h : List Event) (k a : ℕ) → IsLast h k
        → waiting_in b (moment_of (era h)) a k ≡ true
        → pressed (strokes_in b (moment_of (era h))) Rcl k ≡ true
        → is_shown_in b (moment_of (era h)) a k
        ≡ (not (struck (cockpit b (moment_of (era h))) (shown_in b (moment_of (era h))) a k)
        && not (cancelled_in b (moment_of (era h)) a k)) }
{}
