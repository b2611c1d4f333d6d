//! What the definitions say, as theorems: each is the contract of a function that does nothing.
ghost use Rattle.std.specs.Prelude.{◌≡◌, ℕ, ◌+◌, ◌<◌, ◌≤◌, Bool, false, List, [], ◌∷◌, ◌++◌, length, if◌then◌else◌};
ghost use Rattle.ecam_spec.specs.declared.kinds.Event.{Event};
ghost use Rattle.ecam_spec.specs.declared.kinds.Event.TheVariants.{Tick};
ghost use Rattle.ecam_spec.specs.Book.{Text};
ghost use Rattle.ecam_spec.specs.History.{era, era_with};
ghost use Rattle.ecam_spec.specs.Replay.{is_tick, tick_count};
ghost use Rattle.view_spec.specs.Ticks.{is_up, live, era_at, moment_at, each_tick, count_ticks};

/// Nothing that comes later changes whether a Tick is live, its era and its moment.
#[tactic(auto, using(crate::proofs::TickLaws::live_stays, crate::proofs::TickLaws::era_stays, crate::proofs::TickLaws::moment_stays))]
pub fn a_tick_stays_as_it_was()
    ensures live { (h later : List Event) (t : ℕ) → t < tick_count h
        → live (h ++ later) t ≡ live h t }
    ensures era { (h later : List Event) (t : ℕ) → t < tick_count h
        → era_at (h ++ later) t ≡ era_at h t }
    ensures moment { (h later : List Event) (t : ℕ) → t < tick_count h
        → moment_at (h ++ later) t ≡ moment_at h t }
{}

/// A further Tick is live where a computer is up before it, and ends the open moment of the era that the history is in.
#[tactic(auto, using(crate::proofs::TickLaws::live_last, crate::proofs::TickLaws::era_last, crate::proofs::TickLaws::moment_last))]
pub fn a_further_tick_ends_the_open_moment()
    ensures live { (h : List Event) → live (h ++ Tick ∷ []) (tick_count h) ≡ is_up h }
    ensures era { (h : List Event) → era_at (h ++ Tick ∷ []) (tick_count h)
        ≡ era_with (era h) Tick }
    ensures moment { (h : List Event) → moment_at (h ++ Tick ∷ []) (tick_count h)
        ≡ length (era h).moments }
{}

/// What the Ticks tell begins with nothing, stays where another event comes, and gets what a further Tick tells behind it.
#[tactic(auto, using(crate::proofs::TickLaws::each_tick_nil, crate::proofs::TickLaws::each_tick_kept, crate::proofs::TickLaws::each_tick_tick))]
pub fn what_ticks_tell_only_grows()
    ensures none { (f : ℕ → List Event → Text) → each_tick f [] ≡ [] }
    ensures kept { (f : ℕ → List Event → Text) (h : List Event) (e : Event) → is_tick e ≡ false
        → each_tick f (h ++ e ∷ []) ≡ each_tick f h }
    ensures tick { (f : ℕ → List Event → Text) (h : List Event)
        → each_tick f (h ++ Tick ∷ []) ≡ each_tick f h ++ f (tick_count h) (h ++ Tick ∷ []) }
{}

/// No more Ticks are counted than there are; a further one counts where it is so of it, and no other event does.
#[tactic(auto, using(crate::proofs::TickLaws::count_ticks_nil, crate::proofs::TickLaws::count_ticks_most, crate::proofs::TickLaws::count_ticks_kept, crate::proofs::TickLaws::count_ticks_tick))]
pub fn ticks_are_counted_one_by_one()
    ensures none { (p : List Event → Bool) → count_ticks p [] ≡ 0 }
    ensures most { (p : List Event → Bool) (h : List Event) → count_ticks p h ≤ tick_count h }
    ensures kept { (p : List Event → Bool) (h : List Event) (e : Event) → is_tick e ≡ false
        → count_ticks p (h ++ e ∷ []) ≡ count_ticks p h }
    ensures tick { (p : List Event → Bool) (h : List Event)
        → count_ticks p (h ++ Tick ∷ []) ≡ count_ticks p h + (if p (h ++ Tick ∷ []) then 1 else 0) }
{}
