// What is kept of one alert.
ghost use Rattle.std.specs.Prelude.{◌≡◌, ℕ, suc, ◌+◌, ◌&&◌, nat_le, not, false};
ghost use Rattle.ecam_spec.specs.Lamps as lamps;
ghost use Rattle.attention.specs.Watches.{acknowledged, is_open, has_open, calling, opened, onset_after, watch_after};
ghost use Rattle.attention.specs.Calling.{rings_in};

/// How the last onset of an alert stands.
#[derive(Clone, Copy, PartialEq, Eq)]
pub enum Onset {
    /// The alert hasn't come up yet.
    Never,
    /// It came up in the moment of this number, and no press of a later one has acknowledged it.
    Open(u64),
    /// A press of a later moment has acknowledged it.
    Acknowledged,
}

impl Onset {
    // After a press that acknowledges.
    fn acknowledged(self) -> Onset
        ensures { result ≡ acknowledged self }
    {
        match self {
            Onset::Never => Onset::Never,
            Onset::Open(_) => Onset::Acknowledged,
            Onset::Acknowledged => Onset::Acknowledged,
        }
    }

    fn is_open(self) -> bool
        ensures { result ≡ is_open self }
    {
        match self {
            Onset::Never => false,
            Onset::Open(_) => true,
            Onset::Acknowledged => false,
        }
    }
}

/// What the moments so far leave of an alert for the next.
#[derive(Clone, Copy, PartialEq, Eq)]
pub struct Watch {
    /// It was up in the last moment.
    pub up: bool,
    /// How its last onset stands.
    pub onset: Onset,
}

impl Watch {
    /// Before the first moment.
    pub fn new() -> Watch
        ensures stands { (a : lamps.Attention) (i : ℕ) → result ≡ watch_after a i 0 }
        ensures down { result.up ≡ false }
        ensures shut { has_open result ≡ false }
    {
        Watch {
            up: false,
            onset: Onset::Never,
        }
    }

    /// Its last onset is open, so that a press may acknowledge it.
    pub fn has_open(self) -> bool
        ensures { result ≡ has_open self }
    {
        self.onset.is_open()
    }

    /// The alert is up, and its last onset is open.
    pub fn calls(self) -> bool
        ensures { result ≡ calling self }
    {
        self.up & self.has_open()
    }

    /// The moment of its last onset, if that is open.
    pub fn opened(self) -> u64
        ensures { result ≡ opened self.onset }
    {
        match self.onset {
            Onset::Never => 0,
            Onset::Open(moment) => moment,
            Onset::Acknowledged => 0,
        }
    }

    /// The moment of its last onset, if that is open, for one that calls with a chime, and none for another.
    pub fn opened_if(self, chimes: bool) -> Option<u64>
        ensures { (j : ℕ) → rings_in j result ≡ (chimes && nat_le j (opened self.onset + 4)) }
    {
        if chimes { Some(self.opened()) } else { None }
    }

    /// After one moment more: whether the alert is up in it, whether a press in it acknowledges its level, and
    /// the moment's number.
    pub fn next(self, up: bool, pressed: bool, now: u64) -> Watch
        ensures { (a : lamps.Attention) (i k : ℕ) → up ≡ a.up i k
            → pressed ≡ lamps.acknowledges a (a.level i) k → now ≡ k
            → self ≡ watch_after a i k → result ≡ watch_after a i (suc k) }
    {
        Watch {
            up,
            onset: self.next_onset(up, pressed, now),
        }
    }

    fn comes_up(self, up: bool) -> bool
        ensures { result ≡ (up && not self.up) }
    {
        up && !self.up
    }

    // A press acknowledges onsets of earlier moments alone.
    fn next_onset(self, up: bool, pressed: bool, now: u64) -> Onset
        ensures { (a : lamps.Attention) (i k : ℕ) → up ≡ a.up i k
            → pressed ≡ lamps.acknowledges a (a.level i) k → now ≡ k
            → self ≡ watch_after a i k → result ≡ onset_after a i (suc k) }
    {
        if self.comes_up(up) {
            return Onset::Open(now);
        }
        if pressed {
            return self.onset.acknowledged();
        }
        self.onset
    }
}
