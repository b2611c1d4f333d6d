// Flight phases, 1 to 10, and sets of them.
ghost use Rattle.std.specs.Prelude.{⊤, ◌≡◌, ◌≤◌, ◌-◌, ◌^◌, [], ◌∷◌, codes};
ghost use Rattle.ecam_spec.specs.Term.{in_set};

use bitflags::{Flag, Flags, bitflag_items};

/// A flight phase by its number, 1 (electrical power on) to 10 (five minutes after the second engine's
/// shutdown).
#[derive(Clone, Copy, Debug, PartialEq, Eq)]
pub struct Phase {
    pub number: u8,
}

/// A set of flight phases: phase p is in it where bit p - 1 is set.
#[derive(Clone, Copy, Debug, PartialEq, Eq)]
pub struct PhaseSet(u16);

bitflag_items! {
    impl PhaseSet: u16 {
        const ONE = 1;
        const TWO = 2;
        const THREE = 4;
        const FOUR = 8;
        const FIVE = 16;
        const SIX = 32;
        const SEVEN = 64;
        const EIGHT = 128;
        const NINE = 256;
        const TEN = 512;
    }
}

impl Flags for PhaseSet {
    type Bits = u16;

    ghost exact = { ⊤ };

    ghost table = { (codes "ONE", 1) ∷ (codes "TWO", 2) ∷ (codes "THREE", 4) ∷ (codes "FOUR", 8)
        ∷ (codes "FIVE", 16) ∷ (codes "SIX", 32) ∷ (codes "SEVEN", 64) ∷ (codes "EIGHT", 128)
        ∷ (codes "NINE", 256) ∷ (codes "TEN", 512) ∷ [] };

    ghost set_of = { λ s. s.0 };

    fn flags<'a>() -> &'a [Flag<PhaseSet>] {
        PhaseSet::FLAGS
    }

    fn bits(&self) -> u16 {
        self.0
    }

    fn from_bits_retain(bits: u16) -> PhaseSet {
        PhaseSet(bits)
    }
}

impl PhaseSet {
    /// Whether a phase is in the set.
    pub fn has(&self, phase: Phase) -> bool
        requires first { 1 ≤ phase.number }
        requires last { phase.number ≤ 10 }
        ensures { result ≡ in_set self.now.0 phase.number }
    {
        self.0 >> (phase.number - 1) & 1 == 1
    }

    /// The set of this one phase.
    pub fn only(phase: Phase) -> PhaseSet
        requires first { 1 ≤ phase.number }
        requires last { phase.number ≤ 10 }
        ensures { result.0 ≡ 2 ^ (phase.number - 1) }
    {
        PhaseSet(1 << (phase.number - 1))
    }
}
