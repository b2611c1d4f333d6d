// The automaton.
ghost use Rattle.std.specs.Prelude.{◌≡◌, ◌≤◌, ℕ, suc, true};
ghost use Rattle.ecam_spec.specs.Phase.{Flight, phase};
ghost use Rattle.flight_phases.specs.Inputs.{AreInputs, SameInputs};
ghost use Rattle.flight_phases.specs.Regimes.{StandsAs};
ghost use Rattle.flight_phases.specs.State.{Stands};

use crate::inputs::PhaseInputs;
use crate::regime::Regime;
use ecam_kinds::Phase;

/// What the phases so far leave for the next: how the last moment stands among those before it. It has
/// the same few bytes whatever the history.
#[derive(Clone, Copy, Debug, PartialEq, Eq)]
pub struct PhaseState {
    last: Option<Regime>,
}

impl PhaseState {
    /// The state before the first moment.
    pub fn new() -> PhaseState
        ensures { (f : Flight) → Stands f 0 result }
    {
        PhaseState { last: None }
    }

    /// Takes one moment more, of 100 ms, and answers its phase, in a few comparisons.
    pub fn step(&mut self, inputs: &PhaseInputs) -> Phase
        ensures first { 1 ≤ result.number }
        ensures last { result.number ≤ 10 }
        // Whatever the moments before were, the phase is that of the definition over all of them.
        ensures answer { (f : Flight) (k : ℕ) → Stands f k self.old → AreInputs f k inputs.now
            → result.number ≡ phase f k }
        ensures stands { (f : Flight) (k : ℕ) → Stands f k self.old → AreInputs f k inputs.now
            → Stands f (suc k) self.new }
    {
        let regime = self.next_regime(inputs);
        self.last = Some(regime);
        Phase {
            number: regime.number(inputs),
        }
    }

    /// Whether it is known that one moment more with the inputs of the last one has its phase too, in a few
    /// comparisons.
    pub fn stays(&self) -> bool
        // Whatever the moments before were, the definition over all of them has the same phase once more.
        ensures { result ≡ true → (f : Flight) (k : ℕ) → Stands f (suc k) self.now → SameInputs f k
            → phase f (suc k) ≡ phase f k }
    {
        match self.last {
            Some(last) => last.stays(),
            None => false,
        }
    }

    /// Takes one moment more, of 100 ms, whose inputs are those of the last one, in a few comparisons: the
    /// state then stands for that moment too.
    pub fn rest(&mut self)
        ensures { (f : Flight) (k : ℕ) → SameInputs f k → Stands f (suc k) self.old
            → Stands f (suc (suc k)) self.new }
    {
        if let Some(last) = self.last {
            self.last = Some(last.rested());
        }
    }

    /// Whether moments with the inputs of the last one leave the state as it is, so that it needn't be told of them, and
    /// have its phase, however many they are.
    pub fn is_steady(&self) -> bool
        ensures phase { result ≡ true → (f : Flight) (k : ℕ) → Stands f (suc k) self.now
            → SameInputs f k
            → phase f (suc k) ≡ phase f k }
        ensures stands { result ≡ true → (f : Flight) (k : ℕ) → SameInputs f k
            → Stands f (suc k) self.now
            → Stands f (suc (suc k)) self.now }
    {
        match self.last {
            Some(last) => last.is_steady(),
            None => false,
        }
    }

    // The regime of the next moment.
    fn next_regime(&self, inputs: &PhaseInputs) -> Regime
        ensures { (f : Flight) (k : ℕ) → Stands f k self.now → AreInputs f k inputs.now
            → StandsAs f k result }
    {
        match self.last {
            None => Regime::first(inputs),
            Some(last) => last.next(inputs),
        }
    }
}
