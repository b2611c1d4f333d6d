// What the system display is asked to show, moment by moment.

ghost use Rattle.std.specs.Prelude.{◌≡◌, ℕ, suc, ◌+◌, ◌-◌, ◌<◌, ◌&&◌, nat_le, Some, None, if◌then◌else◌};
ghost use Rattle.ecam_spec.specs.Past.{Signal, count_from};
ghost use Rattle.ecam_spec.specs.Selection.{Panel, Selecting, each_page, one_page, the_status, the_clear, the_cancel, selecting, status_number, choice_by, choice};
ghost use Rattle.ecam_spec.specs.Runs.{status_ahead};

/// One more moment counts where q holds in it and it isn't before j; from a later moment on there is none.
#[tactic(auto, using(crate::proofs::SelectionSteps::count_from_step, crate::proofs::SelectionSteps::count_from_after))]
pub fn one_more_moment_is_counted()
    ensures step { (j k : ℕ) (q : Signal) → count_from j q (suc k)
        ≡ (if nat_le j (suc k) && q (suc k) then count_from j q k + 1 else count_from j q k) }
    ensures later { (j k : ℕ) (q : Signal) → k < j → count_from j q k ≡ 0 }
{}

/// A moment that selects leaves its own choice, and any other that of the moment before.
#[tactic(auto, using(crate::proofs::SelectionSteps::chosen_here, crate::proofs::SelectionSteps::choice_kept))]
pub fn a_moment_that_selects_leaves_its_choice()
    ensures selected { (p : Panel) (k : ℕ) (s : Selecting) → selecting p k ≡ Some s
        → choice p k ≡ choice_by p (Some s) k }
    ensures kept { (p : Panel) (k : ℕ) → selecting p (suc k) ≡ None
        → choice p (suc k) ≡ choice p k }
{}

/// STS shows the next status page; after EMER CANC, which shows the first, that is the second, and after anything else
/// the first.
#[tactic(auto, using(crate::proofs::SelectionSteps::number_ahead))]
pub fn sts_shows_the_next_status_page()
    ensures number { (p : Panel) (k : ℕ) → status_number p k ≡ status_ahead p (suc k) - 1 }
    ensures none { (p : Panel) (k : ℕ) → selecting p k ≡ None
        → status_ahead p (suc k) ≡ status_ahead p k }
    ensures sts { (p : Panel) (k : ℕ) → selecting p k ≡ Some the_status
        → status_ahead p (suc k) ≡ status_ahead p k + 1 }
    ensures cancel { (p : Panel) (k : ℕ) → selecting p k ≡ Some the_cancel
        → status_ahead p (suc k) ≡ 1 }
    ensures clear { (p : Panel) (k : ℕ) → selecting p k ≡ Some the_clear
        → status_ahead p (suc k) ≡ 0 }
    ensures all { (p : Panel) (k : ℕ) → selecting p k ≡ Some each_page
        → status_ahead p (suc k) ≡ 0 }
    ensures page { (p : Panel) (i k : ℕ) → selecting p k ≡ Some (one_page i)
        → status_ahead p (suc k) ≡ 0 }
{}
