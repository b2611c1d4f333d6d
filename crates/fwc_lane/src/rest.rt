// A moment in which nothing changes.
ghost use Rattle.std.specs.Prelude.{◌≡◌, ◌+◌, ◌-◌, ◌^◌, ◌<◌, ℕ, suc, min, true, false, List, [], length, get_or, slice_index};
ghost use Rattle.ecam_spec.specs.Value.{BusWord};
ghost use Rattle.ecam_spec.specs.History.{Moment, Stroke};
ghost use Rattle.ecam_kinds.specs.KeyState.{KeysStand};
ghost use Rattle.book_model.specs.Sealed.{the_book};
ghost use Rattle.param_table.specs.TableState.{ParamsStand, IsStill};
ghost use Rattle.wakes.specs.Marks.{is_marked};
ghost use Rattle.crew_marks.specs.CrewMarks.{stands_normal};
ghost use Rattle.attention.specs.State.{IsSteady};
ghost use Rattle.zone_rows.specs.Tracked.{tracked, IsWhole};
ghost use Rattle.fwc_lane.specs.Given.{Came};
ghost use Rattle.fwc_lane.specs.Calm.{IsIdle, RestsNow, PhaseStays, ValuesStay};
ghost use Rattle.fwc_lane.specs.LaneFits.{LaneFits, CanGoOn};
ghost use Rattle.fwc_lane.specs.LaneStands.{WholeStands};
ghost use Rattle.fwc_lane.specs.Visits.{visits};

use crate::lane::Lane;
use crate::next::none_marked;
use alert_truth::Truths;
use attention::Attention;
use book_model::Book;
use crew_marks::Marks;
use ecam_kinds::{ROWS, Row};
use wakes::Wakes;

impl Lane {
    /// Whether it is known that nothing changes in the moment, after which these computers are up, since nothing did in the
    /// one before: no key came, the same computers were up in it, no condition is due, no parameter that the book asks for
    /// may have another value, and no word of a source of one may end to be fresh with it. Its cost is seven looks, and at
    /// most one more for each 64 parameters; where conditions or mailboxes wait for the moment, also one for each 64 and one
    /// at each that waits.
    #[inline(always)]
    pub(crate) fn idles(&self, book: &Book, one_up: bool, two_up: bool) -> bool
        requires fits { LaneFits (the_book book.now) self.now }
        requires goes_on { CanGoOn self.now }
        ensures idle { result ≡ true → IsIdle self.now }
        ensures rest { result ≡ true → RestsNow self.now }
        ensures one_up { result ≡ true → self.now.terms.one_up ≡ one_up }
        ensures two_up { result ≡ true → self.now.terms.two_up ≡ two_up }
        ensures values { result ≡ true → ValuesStay (the_book book.now) self.now.params }
        ensures params { result ≡ true → IsStill self.now.params }
    {
        let now = self.moments;
        self.idle
            && (self.terms.one_up == one_up) & (self.terms.two_up == two_up)
            && none_due(&self.terms.dues, now)
            && self.params.is_still(book)
    }

    /// Ends a moment in which nothing changes, after one in which nothing did: but for the numbers of moments all stays as
    /// that left it.
    #[inline(always)]
    pub(crate) fn pass(&mut self, book: &Book)
        requires fits { LaneFits (the_book book.now) self.old }
        requires goes_on { CanGoOn self.old }
        requires idle { IsIdle self.old }
        requires rest { RestsNow self.old }
        requires values { ValuesStay (the_book book.now) self.old.params }
        requires params { IsStill self.old.params }
        ensures fits { LaneFits (the_book book.now) self.new }
        ensures moments { self.new.moments ≡ self.old.moments + 1 }
        ensures params { (words : ℕ → List BusWord) (k : ℕ) → words (suc k) ≡ []
            → ParamsStand (the_book book.now) words k self.old.params
            → ParamsStand (the_book book.now) words (suc k) self.new.params }
        ensures keys { (strokes : ℕ → List Stroke) (k : ℕ) → strokes (suc k) ≡ []
            → KeysStand strokes k self.old.keys → KeysStand strokes (suc k) self.new.keys }
        ensures whole { (m : ℕ → Moment)
            → Came (the_book book.now) m self.old.moments self.old.params self.old.keys
            self.old.terms.one_up self.old.terms.two_up
            → WholeStands (the_book book.now) m self.old.moments self.old
            → WholeStands (the_book book.now) m (suc self.old.moments) self.new }
        ensures visits { (m : ℕ → Moment)
            → Came (the_book book.now) m self.old.moments self.old.params self.old.keys
            self.old.terms.one_up self.old.terms.two_up
            → WholeStands (the_book book.now) m self.old.moments self.old
            → self.new.terms.cells.visits ≡ min (self.old.terms.cells.visits
            + visits (the_book book.now) m self.old.moments) (2 ^ 64 - 1) }
    {
        book.sealed();
        whole(&self.picture.rows, &self.changed);
        self.truths.pass(book);
        self.marks.pass();
        self.attention.go_on();
        self.selector.pass();
        self.terms.dues.pass(self.moments);
        self.moments += 1;
        self.params.pass(book);
        self.keys.pass();
    }

    /// Whether it is known that nothing changes in the moment, after which these computers are up: the moment before left all
    /// at rest, the phase stays, no key acts or was pressed in the moment before, the same computers were up in it, no
    /// condition is due, and no parameter that the book asks for may have another value. Its cost is a few looks, and at
    /// most one more for each 64 parameters.
    pub(crate) fn rests(&self, book: &Book, one_up: bool, two_up: bool) -> bool
        requires fits { LaneFits (the_book book.now) self.now }
        requires goes_on { CanGoOn self.now }
        ensures rest { result ≡ true → RestsNow self.now }
        ensures one_up { result ≡ true → self.now.terms.one_up ≡ one_up }
        ensures two_up { result ≡ true → self.now.terms.two_up ≡ two_up }
        ensures phase { result ≡ true → PhaseStays self.now.phase_state }
        ensures values { result ≡ true → ValuesStay (the_book book.now) self.now.params }
    {
        self.calm
            && self.phase_state.stays()
            && self.keys.are_idle()
            && !self.terms.keys.any()
            && self.terms.one_up == one_up
            && self.terms.two_up == two_up
            && none_due(&self.terms.dues, self.moments)
            && self.params.none_changed(book)
    }

    /// Ends a moment in which nothing changes. No condition, alert, line, memo or row is looked at: its cost is a few writes,
    /// and what the parameters do at the end of a moment.
    pub(crate) fn rest(&mut self, book: &Book)
        requires fits { LaneFits (the_book book.now) self.old }
        requires goes_on { CanGoOn self.old }
        requires rest { RestsNow self.old }
        requires phase { PhaseStays self.old.phase_state }
        requires values { ValuesStay (the_book book.now) self.old.params }
        ensures fits { LaneFits (the_book book.now) self.new }
        ensures moments { self.new.moments ≡ self.old.moments + 1 }
        ensures params { (words : ℕ → List BusWord) (k : ℕ) → words (suc k) ≡ []
            → ParamsStand (the_book book.now) words k self.old.params
            → ParamsStand (the_book book.now) words (suc k) self.new.params }
        ensures keys { (strokes : ℕ → List Stroke) (k : ℕ) → strokes (suc k) ≡ []
            → KeysStand strokes k self.old.keys → KeysStand strokes (suc k) self.new.keys }
        ensures whole { (m : ℕ → Moment)
            → Came (the_book book.now) m self.old.moments self.old.params self.old.keys
            self.old.terms.one_up self.old.terms.two_up
            → WholeStands (the_book book.now) m self.old.moments self.old
            → WholeStands (the_book book.now) m (suc self.old.moments) self.new }
        ensures visits { (m : ℕ → Moment)
            → Came (the_book book.now) m self.old.moments self.old.params self.old.keys
            self.old.terms.one_up self.old.terms.two_up
            → WholeStands (the_book book.now) m self.old.moments self.old
            → self.new.terms.cells.visits ≡ min (self.old.terms.cells.visits
            + visits (the_book book.now) m self.old.moments) (2 ^ 64 - 1) }
    {
        book.sealed();
        whole(&self.picture.rows, &self.changed);
        self.phase_state.rest();
        self.truths.settle(book);
        self.marks.rest();
        self.attention.pass();
        self.selector.rest();
        self.terms.dues.pass(self.moments);
        self.moments += 1;
        self.params.tick(book);
        self.keys.pass();
        self.idle = self.phase_state.is_steady() && !self.truths.changed();
    }
}

// Whether no condition turns by itself in moment `now`.
fn none_due(dues: &Wakes, now: u64) -> bool
    requires { now < 2 ^ 63 }
    ensures { result ≡ true → (j : ℕ) → j < length dues.now → now < slice_index dues.now j }
{
    dues.first(now).is_none()
}

// Each row of the picture is there, and a flag for it.
fn whole(_rows: &[Row], _changed: &[bool])
    requires { IsWhole (tracked _rows.now _changed.now) }
    ensures { IsWhole (tracked _rows.now _changed.now) }
{}

/// Whether a moment left all at rest: no alert is restless, no chime or NORMAL can end, and no row changed. Its cost is a
/// look for each 64 alerts, a few more, and, where these tell of no change to come, one at the flag of each row.
pub fn leaves_calm(
    truths: &Truths,
    attention: &Attention,
    marks: &Marks,
    changed: &[bool; ROWS],
) -> bool
    ensures restless { result ≡ true → (a : ℕ) → is_marked truths.now.restless a ≡ false }
    ensures steady { result ≡ true → IsSteady attention.now }
    ensures normal { result ≡ true
        → stands_normal marks.now.quiet_press marks.now.moments ≡ false }
    ensures changed { result ≡ true → (i : ℕ) → i < ROWS → get_or changed.now i false ≡ false }
{
    none_marked(truths.restless()) && attention.is_steady() && !marks.normal() && !has_any(changed)
}

// Whether a flag is set.
fn has_any(flags: &[bool; ROWS]) -> bool
    ensures { result ≡ false → (i : ℕ) → i < ROWS → get_or flags.now i false ≡ false }
{
    let mut any = false;
    for row in 0..ROWS {
        any |= flags[row];
    }
    any
}
