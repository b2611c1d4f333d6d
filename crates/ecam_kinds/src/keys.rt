// The keys of the control panel: which were pressed in this moment, and which are held.
ghost use Rattle.std.specs.Prelude.{◌≡◌, ℕ, ◌<◌, ◌||◌, ◌&&◌, Bool, true, false, not, List, [], suc};
ghost use Rattle.std.specs.List.{list_any};
ghost use Rattle.ecam_spec.specs.History.{Stroke, OneMore};
ghost use Rattle.ecam_spec.specs.Keys.{same_key, key_number};
ghost use Rattle.ecam_spec.specs.declared.kinds.Key.{Key};
ghost use Rattle.ecam_kinds.specs.KeyState.{IsKey, is_pressed, is_held, KeysStand};

use ecam_spec::Key;

/// How many keys there are, by `key_index`.
const KEYS: usize = 25;

/// Which keys were pressed in the moment that hasn't ended, and which are held. No call costs more than a few writes or
/// looks.
#[derive(Clone, Copy, Debug)]
pub struct Keys {
    pressed: [bool; KEYS],
    held: [bool; KEYS],
}

impl Keys {
    /// No key is pressed or held.
    pub fn new() -> Keys
        ensures pressed { (key : Key) → IsKey key → is_pressed result key ≡ false }
        ensures held { (key : Key) → IsKey key → is_held result key ≡ false }
        ensures stands { (strokes : ℕ → List Stroke) → strokes 0 ≡ [] → KeysStand strokes 0 result }
    {
        Keys::none()
    }

    /// A key goes down.
    pub fn press(&mut self, key: Key)
        requires { IsKey key }
        ensures pressed { (q : Key) → IsKey q
            → is_pressed self.new q ≡ (same_key q key || is_pressed self.old q) }
        ensures held { (q : Key) → IsKey q → is_held self.new q
            ≡ (same_key q key || is_held self.old q) }
        ensures stands { (old new : ℕ → List Stroke) (k : ℕ) → OneMore old new k (record {
          key = key;
          down = true;
        })
            → KeysStand old k self.old → KeysStand new k self.new }
    {
        self.set_down(key);
    }

    /// A key goes up. Where it was pressed in this moment it still counts as pressed.
    pub fn release(&mut self, key: Key)
        requires { IsKey key }
        ensures pressed { (q : Key) → IsKey q → is_pressed self.new q ≡ is_pressed self.old q }
        ensures held { (q : Key) → IsKey q → is_held self.new q
            ≡ (not (same_key q key) && is_held self.old q) }
        ensures stands { (old new : ℕ → List Stroke) (k : ℕ) → OneMore old new k (record {
          key = key;
          down = false;
        })
            → KeysStand old k self.old → KeysStand new k self.new }
    {
        self.set_up(key);
    }

    /// The moment ends: no key counts as pressed any more, and held keys stay held.
    pub fn tick(&mut self)
        ensures pressed { (q : Key) → IsKey q → is_pressed self.new q ≡ false }
        ensures held { (q : Key) → IsKey q → is_held self.new q ≡ is_held self.old q }
        ensures stands { (strokes : ℕ → List Stroke) (k : ℕ) → strokes (suc k) ≡ []
            → KeysStand strokes k self.old → KeysStand strokes (suc k) self.new }
    {
        self.forget_presses();
    }

    // What the calls do to the lists.

    fn none() -> Keys
        ensures pressed { (q : Key) → IsKey q → is_pressed result q ≡ false }
        ensures held { (q : Key) → IsKey q → is_held result q ≡ false }
    {
        Keys {
            pressed: [false; KEYS],
            held: [false; KEYS],
        }
    }

    fn set_down(&mut self, key: Key)
        requires { IsKey key }
        ensures pressed { (q : Key) → IsKey q
            → is_pressed self.new q ≡ (same_key q key || is_pressed self.old q) }
        ensures held { (q : Key) → IsKey q → is_held self.new q
            ≡ (same_key q key || is_held self.old q) }
    {
        let place = key_index(key);
        self.pressed[place] = true;
        self.held[place] = true;
    }

    fn set_up(&mut self, key: Key)
        requires { IsKey key }
        ensures pressed { (q : Key) → IsKey q → is_pressed self.new q ≡ is_pressed self.old q }
        ensures held { (q : Key) → IsKey q → is_held self.new q
            ≡ (not (same_key q key) && is_held self.old q) }
    {
        self.held[key_index(key)] = false;
    }

    fn forget_presses(&mut self)
        ensures pressed { (q : Key) → IsKey q → is_pressed self.new q ≡ false }
        ensures held { (q : Key) → IsKey q → is_held self.new q ≡ is_held self.old q }
    {
        self.pressed = [false; KEYS];
    }

    /// Whether the key was pressed in this moment so far.
    pub fn pressed(&self, key: Key) -> bool
        requires { IsKey key }
        ensures { result ≡ is_pressed self.now key }
    {
        self.pressed[key_index(key)]
    }

    /// Whether any key was pressed in this moment so far: where not, none was. Its cost is a few looks at many keys at once.
    pub fn any_pressed(&self) -> bool
        ensures value { result ≡ list_any (λ p. p) self.now.pressed }
        ensures none { result ≡ false → (key : Key) → is_pressed self.now key ≡ false }
    {
        self.pressed.contains(&true)
    }

    /// Whether the key is held now.
    pub fn held(&self, key: Key) -> bool
        requires { IsKey key }
        ensures { result ≡ is_held self.now key }
    {
        self.held[key_index(key)]
    }
}

// The place of a key in the lists.
fn key_index(key: Key) -> usize
    requires { IsKey key }
    ensures place { result ≡ key_number key }
    ensures bound { result < KEYS }
{
    match key {
        Key::Clr => 0,
        Key::Rcl => 1,
        Key::Sts => 2,
        Key::All => 3,
        Key::Emer => 4,
        Key::ToCfg => 5,
        Key::Mw => 6,
        Key::Mc => 7,
        Key::Page(page) => 8 + usize::from(page),
    }
}
