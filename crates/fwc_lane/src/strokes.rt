// The keys, with what is quickly known of them.
ghost use Rattle.std.specs.Prelude.{◌≡◌, ℕ, suc, List, [], true, false};
ghost use Rattle.ecam_spec.specs.History.{Stroke, OneMore};
ghost use Rattle.ecam_spec.specs.Keys.{IsKey};
ghost use Rattle.ecam_spec.specs.declared.kinds.Key.TheVariants.{Rcl, All};
ghost use Rattle.ecam_kinds.specs.KeyState.{KeysStand, is_held, is_pressed};
ghost use Rattle.fwc_lane.specs.Strokes.{NonePressed};

use ecam_kinds::{Key, Keys};
use std::marker::Model;

/// The keys, and whether any may have been pressed in the moment that hasn't ended.
#[derive(Debug, Drop)]
pub struct Strokes {
    keys: Keys,
    any: bool,
}

impl Model for Strokes {
    ghost use Rattle.std.specs.Prelude.{◌≡◌, false};
    ghost use Rattle.ecam_kinds.specs.declared.keys.Keys.{Keys};
    ghost use Rattle.fwc_lane.specs.Strokes.{NonePressed};

    ghost Value = { Keys };

    ghost view = { λ s. s.keys };

    ghost invariant = { λ s. s.any ≡ false → NonePressed s.keys };
}

impl Strokes {
    /// No key is pressed or held.
    pub fn new() -> Strokes
        ensures { (strokes : ℕ → List Stroke) → strokes 0 ≡ [] → KeysStand strokes 0 result }
    {
        Strokes {
            keys: Keys::new(),
            any: false,
        }
    }

    /// A key goes down.
    pub fn press(&mut self, key: Key)
        requires { IsKey key }
        ensures { (old new : ℕ → List Stroke) (k : ℕ) → OneMore old new k (record {
          key = key;
          down = true;
        })
            → KeysStand old k self.old → KeysStand new k self.new }
    {
        self.keys.press(key);
        self.any = true;
    }

    /// A key goes up.
    pub fn release(&mut self, key: Key)
        requires { IsKey key }
        ensures { (old new : ℕ → List Stroke) (k : ℕ) → OneMore old new k (record {
          key = key;
          down = false;
        })
            → KeysStand old k self.old → KeysStand new k self.new }
    {
        self.keys.release(key);
    }

    /// The moment ends: no key counts as pressed any more. Where none does it changes nothing.
    pub fn tick(&mut self)
        ensures { (strokes : ℕ → List Stroke) (k : ℕ) → strokes (suc k) ≡ []
            → KeysStand strokes k self.old → KeysStand strokes (suc k) self.new }
    {
        if self.any {
            self.keys.tick();
            self.any = false;
        }
    }

    /// The moment ends, in which none was pressed: it changes nothing.
    pub fn pass(&self)
        requires { NonePressed self.now }
        ensures { (strokes : ℕ → List Stroke) (k : ℕ) → strokes (suc k) ≡ []
            → KeysStand strokes k self.now → KeysStand strokes (suc k) self.now }
    {}

    /// Takes over the keys of another computer, or of another moment.
    pub fn copy_from(&mut self, other: &Strokes)
        ensures { self.new ≡ other.now }
    {
        self.keys = other.keys;
        self.any = other.any;
    }

    /// Takes over which keys count as pressed in another moment. Where none does in this or in that, it changes nothing.
    pub fn follow(&mut self, other: &Strokes)
        ensures { (key : Key) → IsKey key
            → is_pressed self.new key ≡ is_pressed other.now key }
    {
        if self.any || other.any {
            self.copy_from(other);
        }
    }

    /// The keys themselves.
    pub fn keys(&self) -> &Keys
        ensures { result.now ≡ self.now }
    {
        &self.keys
    }

    /// Whether any key may count as pressed: where not, none does.
    pub fn any(&self) -> bool
        ensures { result ≡ false → NonePressed self.now }
    {
        self.any
    }

    /// Whether no key counts as pressed, and neither RCL nor ALL, which act by being held, is held. Its cost is a few looks.
    pub fn are_idle(&self) -> bool
        ensures pressed { result ≡ true → NonePressed self.now }
        ensures rcl { result ≡ true → is_held self.now Rcl ≡ false }
        ensures all { result ≡ true → is_held self.now All ≡ false }
    {
        !self.any && !self.keys.held(Key::Rcl) && !self.keys.held(Key::All)
    }
}
