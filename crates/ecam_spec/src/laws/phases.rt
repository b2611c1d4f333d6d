// The flight phases.

ghost use Rattle.std.specs.Prelude.{◌≡◌, ℕ, suc, ◌-◌, ◌<◌, ◌≤◌, true, false, nat_lt, get_or, count_by, if◌then◌else◌};
ghost use Rattle.ecam_spec.specs.Phase.{Flight, parked, trip, phase};
ghost use Rattle.ecam_spec.specs.PhaseRules.{rules};

/// In each moment exactly one of the ten rules applies.
#[tactic(auto, using(crate::proofs::PhaseLaws::one_rule))]
pub fn exactly_one_rule_applies()
    ensures { (f : Flight) (k : ℕ) → count_by (λ applies. applies) (rules f k) ≡ 1 }
{}

/// The phase is the number of the rule that applies.
#[tactic(auto, using(crate::proofs::PhaseLaws::phase_of_its_rule))]
pub fn the_phase_is_its_rule()
    ensures { (f : Flight) (k : ℕ) → get_or (rules f k) (phase f k - 1) false ≡ true }
{}

/// After a trip the aircraft is in phase 10 for the first five minutes that it is parked, and then in phase 1.
#[tactic(auto, using(crate::proofs::PhaseLaws::parked_after_a_trip))]
pub fn five_minutes_after_a_trip()
    ensures { (f : Flight) (x k : ℕ) → x < k → trip f x ≡ true → parked f x ≡ false →
        ((i : ℕ) → x < i → i ≤ k → parked f i ≡ true) →
        phase f k ≡ (if nat_lt (k - suc x) 3000 then 10 else 1) }
{}

/// While the aircraft is parked no trip has begun.
#[tactic(auto, using(crate::proofs::PhaseLaws::parked_ends_a_trip))]
pub fn a_trip_ends_where_the_aircraft_is_parked()
    ensures { (f : Flight) (k : ℕ) → parked f k ≡ true → trip f k ≡ false }
{}
