// Histories: which era an event belongs to, and that nothing later changes a picture.

ghost use Rattle.std.specs.Prelude.{◌≡◌, ℕ, ◌<◌, true, false, ◌&&◌, List, [], ◌∷◌, ◌++◌};
ghost use Rattle.ecam_spec.specs.declared.kinds.Event.{Event};
ghost use Rattle.ecam_spec.specs.Book.{Book};
ghost use Rattle.ecam_spec.specs.History.{none_up, flags_after, comes_up, empty_era, era_with, era};
ghost use Rattle.ecam_spec.specs.Replay.{tick_count, picture};

/// An event belongs to the era that the history before it is in.
#[tactic(auto, using(crate::proofs::HistoryLaws::era_goes_on))]
pub fn an_event_belongs_to_its_era()
    ensures { (h : List Event) (e : Event) → (comes_up e && none_up (flags_after h)) ≡ false →
        era (h ++ e ∷ []) ≡ era_with (era h) e }
{}

/// A computer that comes up while both are down begins a new era, in which nothing has happened.
#[tactic(auto, using(crate::proofs::HistoryLaws::era_begins))]
pub fn a_start_from_none_begins_an_era()
    ensures { (h : List Event) (e : Event) → (comes_up e && none_up (flags_after h)) ≡ true →
        era (h ++ e ∷ []) ≡ empty_era (flags_after (h ++ e ∷ [])) }
{}

/// The picture of a Tick depends on nothing that comes after it.
#[tactic(auto, using(crate::proofs::ReplayLaws::picture_append))]
pub fn nothing_later_changes_a_picture()
    ensures { (b : Book) (h later : List Event) (t : ℕ) → t < tick_count h
        → picture b (h ++ later) t ≡ picture b h t }
{}
