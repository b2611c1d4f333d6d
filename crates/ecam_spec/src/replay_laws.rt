//! What a replay writes, event by event, as theorems: each is the contract of a function that does nothing.
ghost use Rattle.std.specs.Prelude.{◌≡◌, ◌++◌, ◌∷◌, [], false, List, All};
ghost use Rattle.ecam_spec.specs.declared.kinds.Event.{Event};
ghost use Rattle.ecam_spec.specs.declared.kinds.Event.TheVariants.{Tick};
ghost use Rattle.ecam_spec.specs.Book.{Text, Book};
ghost use Rattle.ecam_spec.specs.History.{both_up, changes_computers, flags_after, era_place};
ghost use Rattle.ecam_spec.specs.Output.{block};
ghost use Rattle.ecam_spec.specs.Replay.{is_tick, tick_count, picture_at, last_picture, history_blocks};

/// What was written of a history stays, whatever comes after it.
#[tactic(auto, using(crate::proofs::ReplaySteps::history_blocks_begun))]
pub fn what_was_written_stays()
    ensures { (b : Book) (h later : List Event)
        → (more : Text) × (history_blocks b (h ++ later) ≡ history_blocks b h ++ more) }
{}

/// Nothing but a Tick writes.
#[tactic(auto, using(crate::proofs::ReplaySteps::history_blocks_kept))]
pub fn only_ticks_write()
    ensures { (b : Book) (h : List Event) (e : Event) → is_tick e ≡ false
        → history_blocks b (h ++ e ∷ []) ≡ history_blocks b h }
{}

/// A Tick writes the rows in which its picture differs from that of the Tick before.
#[tactic(auto, using(crate::proofs::ReplaySteps::history_blocks_tick, crate::proofs::ReplaySteps::last_picture_tick))]
pub fn a_tick_writes_what_changed()
    ensures block { (b : Book) (h : List Event) →
        history_blocks b (h ++ Tick ∷ []) ≡ history_blocks b h
        ++ block (tick_count h) (last_picture b h) (picture_at b (h ++ Tick ∷ [])) }
    ensures compared_next { (b : Book) (h : List Event)
        → last_picture b (h ++ Tick ∷ []) ≡ picture_at b (h ++ Tick ∷ []) }
{}

/// While no computer fails or comes up, both are up and the history is one era from its start.
#[tactic(auto, using(crate::proofs::MomentSteps::both_stay_up, crate::proofs::MomentSteps::one_era))]
pub fn a_history_without_failures_is_one_era()
    ensures up { (h : List Event) → All (λ e. changes_computers e ≡ false) h
        → flags_after h ≡ both_up }
    ensures place { (h : List Event) → All (λ e. changes_computers e ≡ false) h → era_place h ≡ 0 }
{}
