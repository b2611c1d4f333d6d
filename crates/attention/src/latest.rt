// The latest onset of the alerts that call with a chime, from alert to alert.
ghost use Rattle.std.specs.Prelude.{ℕ, ◌+◌, Bool, ◌||◌, nat_le};
ghost use Rattle.attention.specs.Calling.{rings_in};
ghost use Rattle.attention.specs.Latest.{EndsOnce, Tells};

/// What is known of the latest onset of some alerts, from one that turns to the next.
#[derive(Clone, Copy)]
pub struct Latest {
    /// None of them has a later one. Where it is `None`, none of them has any.
    pub onset: Option<u64>,
    /// One of them has this one, or there is none.
    pub is_known: bool,
}

impl Latest {
    /// One of them, if it had an onset, has it no more, and has another, if there is one. Its cost is a comparison where
    /// its onset stays, and a few where it doesn't.
    #[inline(always)]
    pub fn turn(&mut self, before: Option<u64>, after: Option<u64>)
        ensures { (others : ℕ → Bool) → EndsOnce others
            → Tells (λ j. others j || rings_in j before) self.old
            → Tells (λ j. others j || rings_in j after) self.new }
    {
        if before == after {
            return;
        }
        if let Some(onset) = before {
            self.leave(onset);
        }
        if let Some(onset) = after {
            self.come(onset);
        }
    }

    // One of this onset leaves. Where that was the latest, another may have it too, or none.
    fn leave(&mut self, onset: u64)
        ensures { (others : ℕ → Bool) → EndsOnce others
            → Tells (λ j. others j || nat_le j (onset + 4)) self.old → Tells others self.new }
    {
        if self.onset == Some(onset) {
            self.is_known = false;
        }
    }

    // One of this onset comes.
    fn come(&mut self, onset: u64)
        ensures { (others : ℕ → Bool) → Tells others self.old
            → Tells (λ j. others j || nat_le j (onset + 4)) self.new }
    {
        match self.onset {
            Some(latest) if onset < latest => {}
            _ => {
                self.onset = Some(onset);
                self.is_known = true;
            }
        }
    }
}
