// Moments that are kept of RCL: since when it is held, and its last press since which nothing was shown.
ghost use Rattle.std.specs.Prelude.{◌≡◌, ◌||◌, ℕ, suc, false, None, if◌then◌else◌};
ghost use Rattle.ecam_spec.specs.Past.{Signal, previous, historically_within, running_since, last_since, previously};
ghost use Rattle.ecam_spec.specs.Crew.{Cockpit, shows_nothing, normal};
ghost use Rattle.crew_marks.specs.CrewMarks.{stands_normal};

/// For how many moments after its first RCL is held until the recall is a long one: it is three seconds then.
const LONG_RECALL: u64 = 29;

/// For how many moments NORMAL stands, that of the press among them: three seconds.
const NORMAL: u64 = 30;

/// Where the present stretch of a signal started, by where it had started before moment `now`.
pub fn running_after(was: Option<u64>, holds: bool, now: u64) -> Option<u64>
    ensures { (p : Signal) (k : ℕ) → now ≡ k → holds ≡ p k → was ≡ running_since p k
        → result ≡ running_since p (suc k) }
{
    if holds { was.or(Some(now)) } else { None }
}

// Whether a stretch that started then is long enough in moment `now`.
fn is_long(since: Option<u64>, now: u64) -> bool
    ensures { (p : Signal) (k : ℕ) → now ≡ k → since ≡ running_since p (suc k)
        → result ≡ historically_within LONG_RECALL p k }
{
    match since {
        Some(start) => now.saturating_sub(start) >= LONG_RECALL,
        None => false,
    }
}

/// Whether moment `now` ends what was cancelled before it: by a long recall, where RCL is held since then, or as the first
/// of phase 1.
pub fn restores(held_since: Option<u64>, now: u64, enters_one: bool) -> bool
    ensures { (p : Signal) (k : ℕ) → now ≡ k → held_since ≡ running_since p (suc k)
        → result ≡ (historically_within LONG_RECALL p k || enters_one) }
{
    is_long(held_since, now) || enters_one
}

/// The last press since which it was quiet, by that of the moment before `now`.
pub fn press_after(was: Option<u64>, pressed: bool, quiet: bool, now: u64) -> Option<u64>
    ensures press { (p q : Signal) (k : ℕ) → now ≡ k → pressed ≡ p k → quiet ≡ q k
        → was ≡ previously (last_since p q) k
        → result ≡ previously (last_since p q) (suc k) }
    ensures kept { pressed ≡ false → result ≡ (if quiet then was else None) }
{
    if !quiet {
        None
    } else if pressed {
        Some(now)
    } else {
        was
    }
}

/// Whether NORMAL stands in the last of so many moments.
pub fn is_normal(press: Option<u64>, moments: u64) -> bool
    ensures value { result ≡ stands_normal press moments }
    ensures answer { (c : Cockpit) (k : ℕ) → moments ≡ k
        → press ≡ previously (last_since c.rcl (shows_nothing c)) k
        → result ≡ previous (normal c) k }
{
    match press {
        Some(press) => moments.saturating_sub(press) <= NORMAL,
        None => false,
    }
}
