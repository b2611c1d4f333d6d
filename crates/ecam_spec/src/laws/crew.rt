// What CLR, RCL and EMER CANC do to what is shown.

ghost use Rattle.std.specs.Prelude.{◌≡◌, ℕ, suc, ◌<◌, ◌≤◌, true, false, not, ◌&&◌, ◌||◌, ◌==◌, List, filter};
ghost use Rattle.std.specs.List.{list_any};
ghost use Rattle.ecam_spec.specs.declared.kinds.Key.TheVariants.{Rcl};
ghost use Rattle.ecam_spec.specs.Book.{Book};
ghost use Rattle.ecam_spec.specs.History.{Moment};
ghost use Rattle.ecam_spec.specs.Keys.{pressed};
ghost use Rattle.ecam_spec.specs.Crew.{Cockpit, Shown, target, is_alert, struck, cleared, long_recall, cancelled, recalled, is_shown, shown};
ghost use Rattle.ecam_spec.specs.Situation.{strokes_in, waiting_in, up_in};
ghost use Rattle.ecam_spec.specs.Screen.{cockpit, shown_in, cleared_in, cancelled_in, is_shown_in};

/// What is shown is the alerts of the order that aren't cancelled, and are up and not cleared, or recalled, where these
/// ask what was shown before.
#[tactic(auto, using(crate::proofs::CrewLaws::shown_filter))]
pub fn what_is_shown_is_what_was_defined()
    ensures { (c : Cockpit) (k : ℕ) → shown c k ≡ filter (λ a. is_shown c (shown c) a k) c.order }
{}

/// The target of CLR and EMER CANC was shown in the moment before.
#[tactic(auto, using(crate::proofs::CrewLaws::target_shown))]
pub fn the_target_was_shown()
    ensures { (c : Cockpit) (a k : ℕ) → is_alert a (target (shown c) (suc k)) ≡ true
        → is_shown c (shown c) a k ≡ true }
{}

/// A cleared alert that isn't waiting isn't shown in the next moment, if RCL isn't pressed in it.
#[tactic(auto, using(crate::proofs::CrewLaws::cleared_hidden))]
pub fn a_cleared_alert_is_not_shown()
    ensures { (c : Cockpit) (a k : ℕ) → cleared c (shown c) a k ≡ true
        → c.waiting a (suc k) ≡ false →
        c.rcl (suc k) ≡ false → is_shown c (shown c) a (suc k) ≡ false }
{}

/// With a press of RCL it is shown exactly where it is up and not cancelled.
#[tactic(auto, using(crate::proofs::CrewLaws::cleared_restored))]
pub fn a_recall_shows_a_cleared_alert()
    ensures { (c : Cockpit) (a k : ℕ) → cleared c (shown c) a k ≡ true → c.waiting a k ≡ false →
        c.waiting a (suc k) ≡ false → c.rcl (suc k) ≡ true →
        is_shown c (shown c) a (suc k) ≡ (c.up a (suc k) && not (cancelled c (shown c) a (suc k))) }
{}

/// A press of RCL shows a waiting alert exactly where it isn't struck in that moment and not cancelled.
#[tactic(auto, using(crate::proofs::CrewLaws::waiting_recalled))]
pub fn a_recall_shows_a_waiting_alert()
    ensures { (c : Cockpit) (a k : ℕ) → c.waiting a k ≡ true → c.rcl k ≡ true →
        is_shown c (shown c) a k ≡ (not (struck c (shown c) a k)
        && not (cancelled c (shown c) a k)) }
{}

/// A recalled alert that became active or ended, or was struck, isn't recalled until RCL is pressed again.
#[tactic(auto, using(crate::proofs::CrewLaws::recall_ends))]
pub fn a_recalled_alert_is_recalled_while_it_waits()
    ensures { (c : Cockpit) (s : Shown) (a j k : ℕ) → j ≤ k
        → (c.waiting a j && not (struck c s a j)) ≡ false →
        ((i : ℕ) → j < i → i ≤ k → c.rcl i ≡ false) → recalled c s a k ≡ false }
{}

/// A cleared alert that ended and came back isn't cleared, unless it is struck again.
#[tactic(auto, using(crate::proofs::CrewLaws::ended_not_cleared))]
pub fn an_alert_that_ended_is_not_cleared()
    ensures { (c : Cockpit) (s : Shown) (a j k : ℕ) → j ≤ k → c.up a j ≡ false →
        ((i : ℕ) → j < i → i ≤ k → struck c s a i ≡ false) → cleared c s a k ≡ false }
{}

/// A cancelled caution stays cancelled, whatever its condition does, until a long recall or the start of phase 1.
#[tactic(auto, using(crate::proofs::CrewLaws::cancelled_stays))]
pub fn a_cancelled_caution_stays_cancelled()
    ensures { (c : Cockpit) (s : Shown) (a j k : ℕ) → j ≤ k → cancelled c s a j ≡ true →
        ((i : ℕ) → j < i → i ≤ k → (long_recall c i ≡ false) × (c.enters_one i ≡ false))
        → cancelled c s a k ≡ true }
{}

/// A long recall, and the start of phase 1, end a cancellation, unless EMER CANC is pressed on the alert in that
/// very moment.
#[tactic(auto, using(crate::proofs::CrewLaws::cancelled_ends))]
pub fn a_long_recall_ends_a_cancellation()
    ensures { (c : Cockpit) (s : Shown) (a k : ℕ) → (long_recall c k || c.enters_one k) ≡ true →
        (c.emer k && is_alert a (target s k)) ≡ false → cancelled c s a k ≡ false }
{}

/// In a long recall RCL is held.
#[tactic(auto, using(crate::proofs::CrewLaws::long_recall_held))]
pub fn a_long_recall_holds_rcl()
    ensures { (c : Cockpit) (k : ℕ) → long_recall c k ≡ true → c.rcl_held k ≡ true }
{}

/// In the life of a book an alert that was cleared in the moment before isn't shown without a press of RCL; with one
/// it is shown exactly where it is up and not cancelled.
#[tactic(auto, using(crate::proofs::RecallLaws::cleared_stays, crate::proofs::RecallLaws::cleared_recalled))]
pub fn rcl_restores_what_was_cleared()
    ensures hidden { (b : Book) (moments : ℕ → Moment) (a k : ℕ) → cleared_in b moments a k ≡ true →
        pressed (strokes_in b moments) Rcl (suc k) ≡ false
        → is_shown_in b moments a (suc k) ≡ false }
    ensures restored { (b : Book) (moments : ℕ → Moment) (a k : ℕ)
        → cleared_in b moments a k ≡ true →
        pressed (strokes_in b moments) Rcl (suc k) ≡ true →
        is_shown_in b moments a (suc k) ≡ (up_in b moments a (suc k)
        && not (cancelled_in b moments a (suc k))) }
{}

/// And an alert that waits in a moment with a press of RCL is shown exactly where it isn't struck in that moment and
/// not cancelled.
#[tactic(auto, using(crate::proofs::RecallLaws::waiting_shown))]
pub fn rcl_shows_what_waits()
    ensures { (b : Book) (moments : ℕ → Moment) (a k : ℕ) → waiting_in b moments a k ≡ true →
        pressed (strokes_in b moments) Rcl k ≡ true →
        is_shown_in b moments a k
        ≡ (not (struck (cockpit b moments) (shown_in b moments) a k)
        && not (cancelled_in b moments a k)) }
{}
