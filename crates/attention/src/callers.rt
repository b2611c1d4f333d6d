// Which alerts call for attention, as sets.
ghost use Rattle.std.specs.Prelude.{◌≡◌, ℕ, suc, ◌<◌, ◌^◌, ◌==◌, false, length, filter, option_map, slice_get, IfOk};
ghost use Rattle.ecam_spec.specs.Levels.{is_three, is_two};
ghost use Rattle.ecam_spec.specs.Places.{below};
ghost use Rattle.ecam_spec.specs.Lamps as lamps;
ghost use Rattle.ecam_spec.specs.Lamps.{is_chime};
ghost use Rattle.wakes.specs.Marks.{is_marked, room};
ghost use Rattle.attention.specs.Watches.{AreWatched};
ghost use Rattle.attention.specs.Moments.{AreListed};
ghost use Rattle.attention.specs.Calling.{AreCalls, AreCallers, HaveRoom, is_shown, marks_at, marks_for};
ghost use Rattle.attention.specs.Latest.{any_rings, IsLatest, Tells};

use crate::calls::Calls;
use crate::latest::Latest;
use crate::watch::Watch;
use book_model::Alert;
use ecam_kinds::{Level, Sound};
use std::alloc::{AllocError, Global};
use wakes::Marked;

/// The alerts that call for attention: those that are shown and up, and whose last onset is open.
#[derive(Drop)]
pub struct Callers {
    /// Those of level 3.
    pub warnings: Marked,
    /// Those of level 2.
    pub cautions: Marked,
    /// Those of level 2 that call with a chime.
    pub chimes: Marked,
}

impl Callers {
    /// None of so many alerts. An error is want of memory.
    pub fn new(alloc: Global, alerts: usize) -> Result<Callers, AllocError>
        requires { alerts < 2 ^ 32 }
        ensures room { IfOk result (HaveRoom alerts) }
        ensures none { IfOk result (λ c. (i : ℕ) → is_marked c.chimes i ≡ false) }
    {
        let warnings = Marked::new(alloc, alerts)?;
        let cautions = Marked::new(alloc, alerts)?;
        let chimes = Marked::new(alloc, alerts)?;
        Ok(Callers {
            warnings,
            cautions,
            chimes,
        })
    }

    /// Takes all out. Its cost is at most three writes for each 64 alerts.
    pub fn clear(&mut self)
        ensures room { (n : ℕ) → HaveRoom n self.old → HaveRoom n self.new }
        ensures none { (i : ℕ) → is_marked self.new.chimes i ≡ false }
    {
        self.warnings.clear();
        self.cautions.clear();
        self.chimes.clear();
    }

    /// Takes over those of another of the same room. Its cost is three writes for each 64 alerts.
    pub fn copy_from(&mut self, other: &Callers)
        requires { (n : ℕ) × HaveRoom n self.old × HaveRoom n other.now }
        ensures { self.new ≡ other.now }
    {
        self.warnings.copy_from(&other.warnings);
        self.cautions.copy_from(&other.cautions);
        self.chimes.copy_from(&other.chimes);
    }

    /// Puts an alert in where it calls, by its level and its sound, and takes it out where it doesn't. The answer is whether
    /// it calls with a chime. Its cost is three writes.
    pub fn put(&mut self, i: usize, alert: &Alert, calls: bool) -> bool
        requires warnings { i < room self.old.warnings }
        requires cautions { i < room self.old.cautions }
        requires chimes { i < room self.old.chimes }
        ensures room { (n : ℕ) → HaveRoom n self.old → HaveRoom n self.new }
        ensures own { marks_at self.new i ≡ marks_for alert.now.level alert.now.sound calls }
        ensures others { (j : ℕ) → (j == i) ≡ false → marks_at self.new j ≡ marks_at self.old j }
        ensures chimes { result ≡ is_marked self.new.chimes i }
    {
        let is_caution = calls & is_two(alert.level);
        let chimes = is_caution & is_chime(alert.sound);
        write_mark(&mut self.warnings, i, calls & is_three(alert.level));
        write_mark(&mut self.cautions, i, is_caution);
        write_mark(&mut self.chimes, i, chimes);
        chimes
    }

    /// What they call for, if this is kept of each alert, and this is known of the latest onset of those that call with a
    /// chime. Its cost is at most two looks for each 64 alerts, and where that onset isn't known, one look more for each 64,
    /// and one read for each that calls with a chime.
    pub fn calls(&self, watches: &[Watch], alerts: &[Alert], latest: Latest) -> Calls
        requires watches { length watches.now ≡ length alerts.now }
        requires latest { Tells (any_rings (length alerts.now) watches.now self.now.chimes) latest }
        ensures chime { IsLatest (length alerts.now) watches.now self.now.chimes result.chime }
        ensures calls { (a : lamps.Attention) (k : ℕ) → AreListed a alerts.now
            → AreWatched a (suc k) (length alerts.now) watches.now
            → AreCallers a k (length alerts.now) self.now
            → AreCalls a k (filter (is_shown a k) (below (length alerts.now))) result }
    {
        let first = self.warnings.next_or(0, alerts.len());
        Calls {
            warning: sound_at(alerts, first),
            caution: self.cautions.next_or(0, alerts.len()) < alerts.len(),
            chime: latest_known(latest, watches, &self.chimes),
        }
    }
}

fn sound_at(alerts: &[Alert], i: usize) -> Option<Sound>
    ensures { result ≡ option_map (λ x. x.sound) (slice_get alerts.now i) }
{
    if i < alerts.len() {
        Some(alerts[i].sound)
    } else {
        None
    }
}

fn is_three(level: Level) -> bool
    ensures { result ≡ is_three level }
{
    matches!(level, Level::Three)
}

fn is_two(level: Level) -> bool
    ensures { result ≡ is_two level }
{
    matches!(level, Level::Two)
}

fn is_chime(sound: Sound) -> bool
    ensures { result ≡ is_chime sound }
{
    matches!(sound, Sound::Chime)
}

// The latest onset of these alerts, of which this is known.
fn latest_known(latest: Latest, watches: &[Watch], chimes: &Marked) -> Option<u64>
    requires { Tells (any_rings (length watches.now) watches.now chimes.now) latest }
    ensures { IsLatest (length watches.now) watches.now chimes.now result }
{
    if latest.is_known {
        latest.onset
    } else {
        latest_onset(watches, chimes)
    }
}

// The latest onset of these alerts. Its cost is a look for each 64, and one read and a maximum for each of these.
fn latest_onset(watches: &[Watch], chimes: &Marked) -> Option<u64>
    ensures { IsLatest (length watches.now) watches.now chimes.now result }
{
    let first = chimes.next_or(0, watches.len());
    if first >= watches.len() {
        return None;
    }
    let mut latest = watches[first].opened();
    let mut i = chimes.next_or(first + 1, watches.len());
    while i < watches.len() {
        latest = latest.max(watches[i].opened());
        i = chimes.next_or(i + 1, watches.len());
    }
    Some(latest)
}

/// Puts a number in, or takes it out. Its cost is one write.
pub fn write_mark(set: &mut Marked, i: usize, is_in: bool)
    requires { i < room set.old }
    ensures room { room set.new ≡ room set.old }
    ensures own { is_marked set.new i ≡ is_in }
    ensures others { (j : ℕ) → (j == i) ≡ false → is_marked set.new j ≡ is_marked set.old j }
{
    if is_in {
        set.mark(i);
    } else {
        set.unmark(i);
    }
}
