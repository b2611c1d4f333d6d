// What has no bearing on a picture: what comes later, and the failure of one computer.

ghost use Rattle.std.specs.Prelude.{◌≡◌, ℕ, ◌≤◌, false, List, take};
ghost use Rattle.ecam_spec.specs.declared.kinds.Event.{Event};
ghost use Rattle.ecam_spec.specs.Book.{Book};
ghost use Rattle.ecam_spec.specs.History.{none_up, flags_after, Moment};
ghost use Rattle.ecam_spec.specs.Computers.{names_computer, without_failures};
ghost use Rattle.ecam_spec.specs.Screen.{picture_in};
ghost use Rattle.ecam_spec.specs.Replay.{history_blocks};

/// The picture of a moment depends on that moment and those before it alone.
#[tactic(auto, using(crate::proofs::PictureAgree::picture_causal))]
pub fn a_picture_depends_on_the_past_alone()
    ensures { (b : Book) (m n : ℕ → Moment) (k : ℕ) → ((i : ℕ) → i ≤ k → m i ≡ n i)
        → picture_in b m k ≡ picture_in b n k }
{}

/// Where no condition of the book asks for a computer, and no line leaves both down, the lines on which computers fail
/// and come up change nothing that is written.
#[tactic(auto, using(crate::proofs::FailureLaws::failures_change_nothing))]
pub fn a_failure_beside_a_computer_changes_nothing()
    ensures { (b : Book) (h : List Event) → names_computer b ≡ false →
        ((i : ℕ) → none_up (flags_after (take i h)) ≡ false) →
        history_blocks b (without_failures h) ≡ history_blocks b h }
{}
