// The worlds in which a book's conditions are asked.

ghost use Rattle.std.specs.Prelude.{◌≡◌, ℕ, false};
ghost use Rattle.ecam_spec.specs.Past.{Signal};
ghost use Rattle.ecam_spec.specs.Book.{Tree, Book};
ghost use Rattle.ecam_spec.specs.DraftFaults.{has_atom, asks_phase_or_alert, asks_alert_from};
ghost use Rattle.ecam_spec.specs.History.{Moment};
ghost use Rattle.ecam_spec.specs.Term.{holds};
ghost use Rattle.ecam_spec.specs.Alert.{present};
ghost use Rattle.ecam_spec.specs.Situation.{alert_at, world_where, world, present_in};

/// On a condition that asks for no phase and no alert, as the six inputs of the phase, neither has a bearing.
#[tactic(auto, using(crate::proofs::WorldLaws::phases_no_bearing))]
pub fn phases_and_alerts_have_no_bearing_on_the_inputs()
    ensures { (b : Book) (moments : ℕ → Moment) (f g : ℕ → ℕ) (p q : ℕ → Signal) (c : Tree) (k : ℕ)
        →
        has_atom asks_phase_or_alert c ≡ false →
        holds (world_where b moments f p) c k ≡ holds (world_where b moments g q) c k }
{}

/// An alert whose condition names only earlier alerts is present by that condition in the world of all alerts.
#[tactic(auto, using(crate::proofs::WorldLaws::present_by_world))]
pub fn an_alert_is_present_by_its_condition()
    ensures { (b : Book) (moments : ℕ → Moment) (a k : ℕ) →
        has_atom (asks_alert_from a) (alert_at b a).when ≡ false →
        present_in b moments a k ≡ present (alert_at b a).confirm
        (holds (world b moments) (alert_at b a).when) k }
{}
