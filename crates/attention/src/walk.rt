// One look at each alert that may be another than before.
ghost use Rattle.std.specs.Prelude.{◌≡◌, ◌↔◌, ◌<◌, ◌≤◌, ℕ, true, false, length, get_or, slice_set};
ghost use Rattle.ecam_spec.specs.Lamps as lamps;
ghost use Rattle.wakes.specs.Marks.{is_marked, room};
ghost use Rattle.attention.specs.Watches.{AreMarked, AreWatched, has_open};
ghost use Rattle.attention.specs.Moments.{IsMoment, any_pressed};
ghost use Rattle.attention.specs.Calling.{HaveRoom};
ghost use Rattle.attention.specs.Walked.{IsStepped, IsLeft};
ghost use Rattle.attention.specs.Latest.{any_rings, Tells};

use crate::callers::{Callers, write_mark};
use crate::latest::Latest;
use crate::moment::{Moment, Presses};
use crate::watch::Watch;
use book_model::Alert;
use wakes::Marked;

/// Steps what is kept of each alert in `looked` by a moment, and puts it where it calls for something. The answer is what is
/// then known of the latest onset of those that call with a chime, by what was before. Its cost is a look for each 64 alerts,
/// and a few looks and writes at each of these.
pub fn walk(
    watches: &mut [Watch],
    still_open: &mut Marked,
    callers: &mut Callers,
    looked: &Marked,
    alerts: &[Alert],
    moment: &Moment,
    latest: Latest,
) -> Latest
    requires watches { length watches.old ≡ length alerts.now }
    requires open_room { length alerts.now ≤ room still_open.old }
    requires callers { HaveRoom (length alerts.now) callers.old }
    requires still_open { AreMarked has_open watches.old still_open.old }
    requires up { length moment.now.up.now ≡ length alerts.now }
    requires shown { length moment.now.shown.now ≡ length alerts.now }
    requires latest { Tells (any_rings (length alerts.now) watches.old callers.old.chimes) latest }
    ensures open_room { room still_open.new ≡ room still_open.old }
    ensures callers { HaveRoom (length alerts.now) callers.new }
    ensures still_open { AreMarked has_open watches.new still_open.new }
    ensures looked { (a : lamps.Attention) (k i : ℕ) → IsMoment a k alerts.now moment.now
        → AreWatched a k (length alerts.now) watches.old
        → i < length alerts.now → is_marked looked.now i ≡ true
        → IsStepped a k i (get_or moment.now.shown.now i false) watches.new callers.new }
    ensures others { (i : ℕ) → is_marked looked.now i ≡ false
        → IsLeft i watches.old callers.old watches.new callers.new }
    ensures latest { Tells (any_rings (length alerts.now) watches.new callers.new.chimes) result }
{
    let mut latest = latest;
    let mut i = looked.next_or(0, alerts.len());
    while i < alerts.len() {
        let alert = &alerts[i];
        let pressed = moment.presses.acknowledge(alert.level);
        let before = watches[i].opened_if(callers.chimes.has(i));
        let watch = watches[i].next(moment.up[i], pressed, moment.number);
        keep(watches, still_open, i, watch);
        let chimes = callers.put(i, alert, moment.shown[i] & watch.calls());
        latest.turn(before, watch.opened_if(chimes));
        i = looked.next_or(i + 1, alerts.len());
    }
    latest
}

// What is kept of an alert becomes this. It is written only where it is another than before.
fn keep(watches: &mut [Watch], still_open: &mut Marked, i: usize, watch: Watch)
    requires watches { i < length watches.old }
    requires room { i < room still_open.old }
    ensures watches { watches.new ≡ slice_set watches.old i watch }
    ensures room { room still_open.new ≡ room still_open.old }
    // Those whose onset is open are marked, if they were.
    ensures still_open { AreMarked has_open watches.old still_open.old
        → AreMarked has_open watches.new still_open.new }
{
    if differ(watches[i], watch) {
        watches[i] = watch;
        write_mark(still_open, i, watch.has_open());
    }
}

fn differ(one: Watch, other: Watch) -> bool
    ensures { (result ≡ false) ↔ (one ≡ other) }
{
    one != other
}

/// Puts so many alerts in. Its cost is one write for each.
pub fn mark_all(looked: &mut Marked, count: usize)
    requires { count ≤ room looked.old }
    ensures room { room looked.new ≡ room looked.old }
    ensures marks { (i : ℕ) → i < count → is_marked looked.new i ≡ true }
{
    for i in 0..count {
        looked.mark(i);
    }
}

/// Where a key that acknowledges is pressed, puts the alerts whose onset is open in. Its cost is then a write for each 64
/// alerts.
pub fn join_open(looked: &mut Marked, still_open: &Marked, presses: Presses)
    requires { room looked.old ≡ room still_open.now }
    ensures room { room looked.new ≡ room looked.old }
    ensures still_open { any_pressed presses ≡ true → (i : ℕ) → is_marked still_open.now i ≡ true
        → is_marked looked.new i ≡ true }
    ensures kept { (i : ℕ) → is_marked looked.old i ≡ true → is_marked looked.new i ≡ true }
{
    if presses.any() {
        looked.join(still_open);
    }
}
