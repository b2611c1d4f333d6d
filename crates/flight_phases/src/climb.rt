// A climb and its marks.
ghost use Rattle.std.specs.Prelude.{◌≡◌, ℕ, suc, IsTrue};
ghost use Rattle.ecam_spec.specs.Phase.{Flight, airborne, climb_begins};
ghost use Rattle.flight_phases.specs.Climbs.{climb_at};
ghost use Rattle.flight_phases.specs.Inputs.{AreInputs};

use crate::inputs::PhaseInputs;

/// Where a climb stands. A moment that is high marks it, and so does one that is low and not high.
#[derive(Clone, Copy, Debug, PartialEq, Eq)]
pub enum Climb {
    /// It has no high mark yet.
    Initial,
    /// It has one, and the latest mark is high.
    Above,
    /// It has one, and the latest mark is low.
    Below,
}

impl Climb {
    /// A climb in its first moment.
    pub fn first(inputs: &PhaseInputs) -> Climb
        ensures { (f : Flight) (k : ℕ) → IsTrue (climb_begins f k) → AreInputs f k inputs.now
            → result ≡ climb_at f k }
    {
        if !inputs.high {
            Climb::Initial
        } else {
            Climb::Above
        }
    }

    /// The climb of the next moment in the air. With take-off power low down a new one begins: a go-around.
    pub fn next(self, inputs: &PhaseInputs) -> Climb
        ensures { (f : Flight) (k : ℕ) → IsTrue (airborne f k) → self ≡ climb_at f k
            → IsTrue (airborne f (suc k)) → AreInputs f (suc k) inputs.now
            → result ≡ climb_at f (suc k) }
    {
        if inputs.high {
            Climb::Above
        } else if !inputs.low {
            self
        } else if inputs.tp {
            Climb::first(inputs)
        } else {
            match self {
                Climb::Initial => Climb::Initial,
                Climb::Above | Climb::Below => Climb::Below,
            }
        }
    }
}
