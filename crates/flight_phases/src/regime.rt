// How one moment stands among those before it, and what follows for the next.
ghost use Rattle.std.specs.Prelude.{◌≡◌, ◌≤◌, ℕ, suc, true, IsTrue};
ghost use Rattle.ecam_spec.specs.Phase.{Flight, parked, airborne, trip, ground_phase, phase};
ghost use Rattle.flight_phases.specs.Climbs.{climb_at};
ghost use Rattle.flight_phases.specs.Inputs.{AreInputs, SameInputs};
ghost use Rattle.flight_phases.specs.Regimes.{StandsAs};

use crate::climb::Climb;
use crate::inputs::PhaseInputs;

/// For how many moments after shutdown phase 10 lasts: five minutes.
const SHUTDOWN_MOMENTS: u16 = 3000;

/// How a moment stands among those before it.
#[derive(Clone, Copy, Debug, PartialEq, Eq)]
pub enum Regime {
    /// On ground with no engine running, as in the `age` moments before, which are counted up to 3000. In
    /// the moment before all these the trip bit held, or not.
    Parked { age: u16, after_trip: bool },
    /// On ground with an engine running. The trip bit holds, or not.
    Running { tripped: bool },
    /// In the air.
    Airborne { climb: Climb },
}

impl Regime {
    /// The regime of the first moment.
    pub fn first(inputs: &PhaseInputs) -> Regime
        ensures { (f : Flight) → AreInputs f 0 inputs.now → StandsAs f 0 result }
    {
        if !inputs.gnd {
            Regime::Airborne {
                climb: Climb::first(inputs),
            }
        } else if inputs.run {
            Regime::Running {
                tripped: inputs.fast,
            }
        } else {
            Regime::just_parked(false)
        }
    }

    /// The regime of the moment after this one.
    pub fn next(self, inputs: &PhaseInputs) -> Regime
        ensures { (f : Flight) (k : ℕ) → StandsAs f k self → AreInputs f (suc k) inputs.now
            → StandsAs f (suc k) result }
    {
        if !inputs.gnd {
            Regime::Airborne {
                climb: self.next_climb(inputs),
            }
        } else if inputs.run {
            Regime::Running {
                tripped: self.next_trip(inputs.fast),
            }
        } else {
            self.next_parked()
        }
    }

    /// Whether the next moment has the phase of this one if it has its inputs. It has another only where the
    /// five minutes after shutdown end.
    pub fn stays(self) -> bool
        ensures { result ≡ true → (f : Flight) (k : ℕ) → StandsAs f k self → SameInputs f k
            → phase f (suc k) ≡ phase f k }
    {
        match self {
            Regime::Parked { age, after_trip } => !after_trip || age != SHUTDOWN_MOMENTS - 1,
            Regime::Airborne { .. } | Regime::Running { .. } => true,
        }
    }

    /// The regime of the next moment if that has the inputs of this one. Only for an aircraft that is parked
    /// is something counted.
    pub fn rested(self) -> Regime
        ensures { (f : Flight) (k : ℕ) → SameInputs f k → StandsAs f k self
            → StandsAs f (suc k) result }
    {
        match self {
            Regime::Parked { .. } => self.next_parked(),
            Regime::Running { .. } | Regime::Airborne { .. } => self,
        }
    }

    /// Whether a moment that has the inputs of this one leaves the regime as it is, and so does each after it. Nothing is
    /// counted any more where the aircraft was parked for five minutes, and while it isn't parked.
    pub fn is_steady(self) -> bool
        ensures phase { result ≡ true → (f : Flight) (k : ℕ) → StandsAs f k self → SameInputs f k
            → phase f (suc k) ≡ phase f k }
        ensures stands { result ≡ true → (f : Flight) (k : ℕ) → SameInputs f k → StandsAs f k self
            → StandsAs f (suc k) self }
    {
        match self {
            Regime::Parked { age, after_trip: _ } => age == SHUTDOWN_MOMENTS,
            Regime::Running { .. } | Regime::Airborne { .. } => true,
        }
    }

    // The climb, where the next moment is in the air.
    fn next_climb(self, inputs: &PhaseInputs) -> Climb
        ensures { (f : Flight) (k : ℕ) → StandsAs f k self → IsTrue (airborne f (suc k))
            → AreInputs f (suc k) inputs.now → result ≡ climb_at f (suc k) }
    {
        match self {
            Regime::Airborne { climb } => climb.next(inputs),
            Regime::Parked { .. } | Regime::Running { .. } => Climb::first(inputs),
        }
    }

    // The trip bit, where an engine runs on ground in the next moment.
    fn next_trip(self, fast: bool) -> bool
        ensures { (f : Flight) (k : ℕ) → StandsAs f k self → IsTrue (f.gnd (suc k))
            → IsTrue (f.run (suc k))
            → fast ≡ f.fast (suc k) → result ≡ trip f (suc k) }
    {
        match self {
            Regime::Parked { .. } => fast,
            Regime::Running { tripped } => fast || tripped,
            Regime::Airborne { .. } => true,
        }
    }

    // The regime, where the next moment is on ground with no engine running.
    fn next_parked(self) -> Regime
        ensures { (f : Flight) (k : ℕ) → StandsAs f k self → IsTrue (parked f (suc k))
            → StandsAs f (suc k) result }
    {
        match self {
            Regime::Parked { age, after_trip } => Regime::Parked {
                age: age.saturating_add(1).min(SHUTDOWN_MOMENTS),
                after_trip,
            },
            Regime::Running { tripped } => Regime::just_parked(tripped),
            Regime::Airborne { .. } => Regime::just_parked(true),
        }
    }

    // The first moment of a stretch on ground with no engine running.
    fn just_parked(after_trip: bool) -> Regime
        ensures { result ≡ Regime.Parked 0 after_trip }
    {
        Regime::Parked { age: 0, after_trip }
    }

    /// The number of the phase of a moment in this regime with these inputs.
    pub fn number(self, inputs: &PhaseInputs) -> u8
        ensures first { 1 ≤ result }
        ensures last { result ≤ 10 }
        ensures answer { (f : Flight) (k : ℕ) → StandsAs f k self → AreInputs f k inputs.now
            → result ≡ phase f k }
    {
        match self {
            Regime::Parked { age, after_trip } => {
                if after_trip && age < SHUTDOWN_MOMENTS {
                    10
                } else {
                    1
                }
            }
            Regime::Running { tripped } => running_number(tripped, inputs),
            Regime::Airborne { climb } => match climb {
                Climb::Initial => 5,
                Climb::Above => 6,
                Climb::Below => 7,
            },
        }
    }
}

// The phase on ground with an engine running.
fn running_number(tripped: bool, inputs: &PhaseInputs) -> u8
    ensures first { 1 ≤ result }
    ensures last { result ≤ 10 }
    ensures answer { (f : Flight) (k : ℕ) → tripped ≡ trip f k → AreInputs f k inputs.now
        → result ≡ ground_phase f k }
{
    match (inputs.tp, inputs.fast) {
        (true, false) => 3,
        (true, true) => 4,
        (false, true) => 8,
        (false, false) if tripped => 9,
        (false, false) => 2,
    }
}
