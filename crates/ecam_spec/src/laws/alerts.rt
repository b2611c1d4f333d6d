// The life of an alert, and of a latch.

ghost use Rattle.std.specs.Prelude.{◌≡◌, ℕ, suc, ◌≤◌, true, false, not, ◌&&◌, ◌||◌};
ghost use Rattle.ecam_spec.specs.Past.{Signal, since};
ghost use Rattle.ecam_spec.specs.Term.{latch};
ghost use Rattle.ecam_spec.specs.Alert.{active};

/// An alert that no phase inhibits in a moment is active in it exactly where it is present.
#[tactic(auto, using(crate::proofs::AlertLaws::active_uninhibited))]
pub fn an_uninhibited_alert_is_active_while_present()
    ensures { (inhibited present : Signal) (k : ℕ) → inhibited k ≡ false
        → active inhibited present k ≡ present k }
{}

/// An active alert stays active while it is present; one that is present becomes active unless it is inhibited.
#[tactic(auto, using(crate::proofs::AlertLaws::active_step))]
pub fn an_active_alert_stays_while_present()
    ensures { (inhibited present : Signal) (k : ℕ) →
        active inhibited present (suc k) ≡ (present (suc k)
        && (not (inhibited (suc k)) || active inhibited present k)) }
{}

/// An alert that isn't present isn't active.
#[tactic(auto, using(crate::proofs::AlertLaws::active_present))]
pub fn an_active_alert_is_present()
    ensures { (inhibited present : Signal) (k : ℕ) → active inhibited present k ≡ true
        → present k ≡ true }
{}

/// A latch whose two conditions never hold together is set from the first until the second.
#[tactic(auto, using(crate::proofs::AlertLaws::latch_apart))]
pub fn a_latch_is_set_until_its_reset()
    ensures { (s r : Signal) (k : ℕ) → ((i : ℕ) → i ≤ k → (s i && r i) ≡ false) →
        latch s r k ≡ since s (λ i. not (r i)) k }
{}

/// In one more moment a latch is reset, or set, or stays.
#[tactic(auto, using(crate::proofs::AlertLaws::latch_step))]
pub fn a_latch_is_reset_set_or_stays()
    ensures { (s r : Signal) (k : ℕ) → latch s r (suc k)
        ≡ (not (r (suc k)) && (s (suc k) || latch s r k)) }
{}
