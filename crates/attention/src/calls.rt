// What alerts call for in a moment, as far as the lights and the sound go by it.
ghost use Rattle.std.specs.Prelude.{◌≡◌, ℕ, ◌-◌, ◌≤◌, true, if◌then◌else◌};
ghost use Rattle.ecam_spec.specs.declared.kinds.Sound.TheVariants.{Chime, Quiet};
ghost use Rattle.attention.specs.Calling.{no_calls, rings_in, sounding};

use ecam_kinds::Sound;

/// In how many moments a chime sounds, from its alert's onset on: half a second.
const CHIME_MOMENTS: u64 = 5;

/// What some alerts call for: those that are up, and whose last onset is open.
#[derive(Clone, Copy)]
pub struct Calls {
    /// The sound of the first of level 3 that calls.
    pub warning: Option<Sound>,
    /// One of level 2 calls.
    pub caution: bool,
    /// The latest onset of those of level 2 that call with a chime.
    pub chime: Option<u64>,
}

impl Calls {
    /// What no alert calls for.
    pub fn none() -> Calls
        ensures { result ≡ no_calls }
    {
        Calls {
            warning: None,
            caution: false,
            chime: None,
        }
    }

    /// The sound after so many moments, if these are the calls of the last.
    pub fn sound(self, moments: u64) -> Sound
        ensures { result ≡ sounding self moments }
    {
        match self.warning {
            Some(sound) => sound,
            None => self.chime_sound(moments),
        }
    }

    /// Whether the sound after so many moments and after any more is the same, if these stay the calls: a warning sounds, or
    /// no chime.
    pub fn are_steady(self, moments: u64) -> bool
        ensures { result ≡ true → (j : ℕ) → moments ≤ j → sounding self j ≡ sounding self moments }
    {
        self.warning.is_some() || self.chime_sound(moments) == Sound::Quiet
    }

    fn chime_sound(self, moments: u64) -> Sound
        ensures { result ≡ (if rings_in (moments - 1) self.chime then Chime else Quiet) }
    {
        match self.chime {
            Some(onset) if moments.saturating_sub(onset) <= CHIME_MOMENTS => Sound::Chime,
            _ => Sound::Quiet,
        }
    }
}
