// What a moment brings.
ghost use Rattle.std.specs.Prelude.{◌≡◌, ℕ};
ghost use Rattle.ecam_spec.specs.Lamps as lamps;
ghost use Rattle.ecam_spec.specs.declared.kinds.Key.TheVariants.{Mw, Mc, Emer};
ghost use Rattle.ecam_kinds.specs.KeyState.{is_pressed};
ghost use Rattle.attention.specs.Moments.{ArePresses, any_pressed};

use ecam_kinds::{Key, Keys, Level};

/// Which of the keys that acknowledge are pressed in a moment.
#[derive(Clone, Copy)]
pub struct Presses {
    /// MASTER WARN
    pub mw: bool,
    /// MASTER CAUT
    pub mc: bool,
    /// EMER CANC
    pub emer: bool,
}

impl Presses {
    /// Those among the keys.
    pub fn among(keys: &Keys) -> Presses
        ensures mw { result.mw ≡ is_pressed keys.now Mw }
        ensures mc { result.mc ≡ is_pressed keys.now Mc }
        ensures emer { result.emer ≡ is_pressed keys.now Emer }
    {
        Presses {
            mw: keys.pressed(Key::Mw),
            mc: keys.pressed(Key::Mc),
            emer: keys.pressed(Key::Emer),
        }
    }

    /// One of them is pressed.
    pub fn any(self) -> bool
        ensures { result ≡ any_pressed self }
    {
        self.mw || self.mc || self.emer
    }

    /// A press acknowledges the alerts of a level.
    pub fn acknowledge(&self, level: Level) -> bool
        ensures { (a : lamps.Attention) (k : ℕ) → ArePresses a k self.now
            → result ≡ lamps.acknowledges a level k }
    {
        match level {
            Level::Three => self.mw || self.emer,
            Level::Two => self.mc || self.emer,
            Level::One => false,
        }
    }
}

/// What a moment brings. It lends its lists.
#[derive(Clone, Copy)]
pub struct Moment<'a> {
    /// Its number, from 0.
    pub number: u64,
    /// Per alert whether it is up.
    pub up: &'a [bool],
    /// Per alert whether it is shown.
    pub shown: &'a [bool],
    /// Which keys are pressed.
    pub presses: Presses,
}
