// The truths of all alerts.
ghost use Rattle.std.specs.Prelude.{◌≡◌, ◌↔◌, ℕ, suc, ◌+◌, ◌<◌, ◌≤◌, ◌==◌, ◌||◌, ◌&&◌, nat_le, false, length, get_or, slice_index, slice_index_or, is_none, Option, None, IfOk, if◌then◌else◌};
ghost use Rattle.ecam_spec.specs.Past.{Signal, previously};
ghost use Rattle.ecam_spec.specs.Book as plain;
ghost use Rattle.book_model.specs.Sealed.{the_book};
ghost use Rattle.alert_truth.specs.Alerts.{Tells, present, active, waiting, starred, starred_by, up};
ghost use Rattle.alert_truth.specs.TruthsState.{TruthsFit, TruthsStand, HalfStand, Unchanged, StarsStay, StaysAt, CanGoOn, OthersStay};
ghost use Rattle.alert_truth.specs.Noting.{HasAlert, Notes, Turns};
ghost use Rattle.wakes.specs.Marks.{is_marked, room};
ghost use Rattle.wakes.specs.Due.{never};

use crate::run::{confirmed_at, is_active, is_present, since_when};
use crate::stars::Stars;
use book_model::Book;
use ecam_kinds::Phase;
use std::alloc::{AllocError, Global};
use wakes::{Marked, Wakes};

/// Per alert of a book, whether it is present, active, waiting, starred and up. In each moment `step_one` is called
/// for each alert in the book's order, and then `settle`; an alert that isn't restless may be passed over where its condition
/// holds where it held, and so may one that isn't due, where `gather_due` began the moment. Memory is taken in `new` alone,
/// and nothing grows with the history.
#[derive(Drop)]
pub struct Truths {
    // How many moments have ended.
    moments: u64,
    // Since which moment each condition has held, if it held in the moment before.
    since: Vec<Option<u64>>,
    present: Vec<bool>,
    active: Vec<bool>,
    waiting: Vec<bool>,
    // The alerts whose condition held in the moment before, and which aren't active.
    restless: Marked,
    // Per alert the moment from which it is present if its condition goes on holding, where that holds and the alert isn't
    // present yet; else it is never due.
    dues: Wakes,
    // The alerts that may change without their condition in the moment that was gathered last. Those of the moment that
    // hasn't ended are never due until they are stepped.
    due: Marked,
    // At least the alerts of which something is told.
    near: Marked,
    // At least the alerts that are another than a moment earlier; in the moment that hasn't ended, at least those that have
    // become more or less present or active in it.
    turned: Marked,
    stars: Stars,
    // Some alert has become another in the moment that hasn't ended.
    changing: bool,
    // Something changed in the last moment.
    changed: bool,
}

impl Truths {
    /// The truths before the first moment: no alert is present. An error is want of memory.
    pub fn new(alloc: Global, book: &Book) -> Result<Truths, AllocError>
        ensures fits { IfOk result (TruthsFit (the_book book.now)) }
        ensures stands { IfOk result (λ t. (conditions : ℕ → Signal) (phases : ℕ → ℕ)
            → TruthsStand (the_book book.now) conditions phases 0 t) }
        ensures moments { IfOk result (λ t. t.moments ≡ 0) }
        ensures changed { IfOk result (λ t. t.changed ≡ false) }
        ensures stars_turned { IfOk result (λ t. t.stars.turned ≡ false) }
    {
        let alerts = book.alerts().len();
        Ok(Truths {
            moments: 0,
            since: vec![in alloc; None; alerts]?,
            present: vec![in alloc; false; alerts]?,
            active: vec![in alloc; false; alerts]?,
            waiting: vec![in alloc; false; alerts]?,
            restless: Marked::new(alloc, alerts)?,
            dues: Wakes::new(alloc, alerts)?,
            due: Marked::new(alloc, alerts)?,
            near: Marked::new(alloc, alerts)?,
            turned: Marked::new(alloc, alerts)?,
            stars: Stars::new(alloc, book)?,
            changing: false,
            changed: false,
        })
    }

    /// Forgets all moments. Its cost is a few writes an alert.
    pub fn clear(&mut self)
        ensures fits { (b : plain.Book) → TruthsFit b self.old → TruthsFit b self.new }
        ensures stands { (b : plain.Book) (conditions : ℕ → Signal) (phases : ℕ → ℕ)
            → TruthsFit b self.old
            → TruthsStand b conditions phases 0 self.new }
        ensures moments { self.new.moments ≡ 0 }
        ensures changed { self.new.changed ≡ false }
        ensures stars_turned { self.new.stars.turned ≡ false }
    {
        self.moments = 0;
        self.since.fill(None);
        self.present.fill(false);
        self.active.fill(false);
        self.waiting.fill(false);
        self.restless.clear();
        self.dues.clear();
        self.near.clear();
        self.turned.clear();
        self.stars.clear();
        self.changing = false;
        self.changed = false;
    }

    /// Takes over the truths of the same book's alerts from another computer. Its cost is a few writes an alert.
    pub fn copy_from(&mut self, other: &Truths)
        requires { (b : plain.Book) × TruthsFit b self.old × TruthsFit b other.now }
        ensures fits { (b : plain.Book) → TruthsFit b self.old → TruthsFit b other.now
            → TruthsFit b self.new }
        ensures stands { (b : plain.Book) (conditions : ℕ → Signal) (phases : ℕ → ℕ) (k : ℕ)
            → TruthsFit b self.old → TruthsStand b conditions phases k other.now
            → TruthsStand b conditions phases k self.new }
        ensures moments { self.new.moments ≡ other.now.moments }
        ensures changed { self.new.changed ≡ other.now.changed }
        ensures stars_turned { self.new.stars.turned ≡ other.now.stars.turned }
    {
        self.moments = other.moments;
        self.since.copy_from_slice(&other.since);
        self.present.copy_from_slice(&other.present);
        self.active.copy_from_slice(&other.active);
        self.waiting.copy_from_slice(&other.waiting);
        self.restless.copy_from(&other.restless);
        self.dues.copy_from(&other.dues);
        self.near.copy_from(&other.near);
        self.turned.copy_from(&other.turned);
        self.stars.copy_from(&other.stars);
        self.changing = other.changing;
        self.changed = other.changed;
    }

    /// Begins a moment: gathers the alerts that may change in it though their condition holds where it held. Those are the
    /// ones whose confirmation is complete in it and, where the flight phase turned, the restless ones. Its cost is a few
    /// writes for each whose confirmation is complete, and one for each 64 alerts where the phase turned or it did when the
    /// last moment was gathered.
    pub fn gather_due(&mut self, turned: bool)
        requires fits { (b : plain.Book) × TruthsFit b self.old }
        requires goes_on { CanGoOn self.old }
        ensures fits { (b : plain.Book) → TruthsFit b self.old → TruthsFit b self.new }
        ensures stands { (b : plain.Book) (conditions : ℕ → Signal) (phases : ℕ → ℕ) (k : ℕ)
            → TruthsStand b conditions phases k self.old
            → HalfStand b conditions phases k 0 self.new }
        ensures others { (b : plain.Book) (conditions : ℕ → Signal) (phases : ℕ → ℕ) (k : ℕ)
            → TruthsStand b conditions phases k self.old
            → (turned ≡ false → (h : ℕ) → k ≡ suc h → phases k ≡ phases h)
            → OthersStay b conditions phases k self.new.due }
        ensures due { (a : ℕ) → a < length self.old.dues → is_marked self.new.due a
            ≡ (nat_le (slice_index self.old.dues a) self.old.moments
            || (turned && is_marked self.old.restless a)) }
        ensures moments { self.new.moments ≡ self.old.moments }
    {
        self.turned.clear();
        begin_due(&mut self.due, &self.restless, turned);
        take_due(&mut self.dues, &mut self.due, self.moments);
    }

    /// Steps one alert by the moment that hasn't ended, where the truth of its condition and the flight phase in
    /// that moment are these, and answers whether it is active. Its cost is one look at the alert, which is a short one
    /// where it stays away or stays active, and else two marks and a few writes.
    #[inline(always)]
    pub fn step_one(&mut self, book: &Book, alert: usize, cond: bool, phase: Phase) -> bool
        requires fits { TruthsFit (the_book book.now) self.old }
        requires alert { alert < length book.now.alerts.items }
        requires first { 1 ≤ phase.number }
        requires last { phase.number ≤ 10 }
        ensures fits { TruthsFit (the_book book.now) self.new }
        ensures stands { (conditions : ℕ → Signal) (phases : ℕ → ℕ) (k : ℕ)
            → cond ≡ conditions alert k → phase.number ≡ phases k
            → HalfStand (the_book book.now) conditions phases k alert self.old
            → HalfStand (the_book book.now) conditions phases k (suc alert) self.new }
        ensures answer { (conditions : ℕ → Signal) (phases : ℕ → ℕ) (k : ℕ)
            → cond ≡ conditions alert k → phase.number ≡ phases k
            → HalfStand (the_book book.now) conditions phases k alert self.old
            → result ≡ active (the_book book.now) conditions phases alert k }
        ensures moments { self.new.moments ≡ self.old.moments }
        ensures due { self.new.due ≡ self.old.due }
    {
        if self.stays(alert, cond) {
            return cond;
        }
        let own = &book.alerts()[alert];
        let inhibited = own.inhibit.has(phase);
        let since = since_when(self.since[alert], cond, self.moments);
        let present = is_present(since, own.confirm, self.moments);
        let active = is_active(present, self.active[alert], inhibited);
        let due = confirmed_at(since, present, own.confirm);
        self.note(alert, since, present, active, due);
        active
    }

    // An alert stays away whose condition doesn't hold and didn't. One that is active stays so while its condition holds,
    // whatever the phase.
    fn stays(&self, alert: usize, cond: bool) -> bool
        requires { HasAlert alert self.now }
        ensures { result ≡ (if cond then get_or self.now.active.items alert false
            else is_none (get_or self.now.since.items alert None)) }
    {
        if cond {
            self.active[alert]
        } else {
            self.since[alert].is_none()
        }
    }

    // Notes what one alert has become, and whether it is another than before.
    fn note(&mut self, alert: usize, since: Option<u64>, present: bool, active: bool, due: u64)
        requires { HasAlert alert self.old }
        ensures notes { Notes alert since present active due self.old self.new }
        ensures turns { Turns alert present active self.old self.new }
    {
        let was_present = self.present[alert];
        let was_active = self.active[alert];
        self.since[alert] = since;
        self.present[alert] = present;
        self.active[alert] = active;
        self.waiting[alert] = present && !active;
        put_mark(&mut self.restless, alert, since.is_some() && !active);
        self.dues.set(alert, due);
        mark_if(&mut self.near, alert, present || active);
        let turned = (present != was_present) | (active != was_active);
        mark_if(&mut self.turned, alert, turned);
        self.changing |= turned;
    }

    /// Ends the moment, in which each alert was stepped: settles which alerts are starred and which are up. Its cost
    /// doesn't grow with the book where each alert is as present and as active as before, since the stars are then as
    /// before too. Else it is a few looks for each 64 alerts, and a few looks and writes at each that turned and at each
    /// secondary of these.
    pub fn settle(&mut self, book: &Book)
        requires fits { TruthsFit (the_book book.now) self.old }
        requires goes_on { CanGoOn self.old }
        ensures fits { TruthsFit (the_book book.now) self.new }
        ensures stands { (conditions : ℕ → Signal) (phases : ℕ → ℕ) (k : ℕ)
            → HalfStand (the_book book.now) conditions phases k (length book.now.alerts.items)
            self.old
            → TruthsStand (the_book book.now) conditions phases (suc k) self.new }
        ensures moments { self.new.moments ≡ self.old.moments + 1 }
        ensures restless { self.new.restless ≡ self.old.restless }
        ensures changed { self.new.changed ≡ self.old.changing }
        ensures changing { self.new.changing ≡ false }
    {
        if self.changing {
            self.stars.settle(
                &self.active,
                &self.present,
                &self.waiting,
                &mut self.near,
                &mut self.turned,
                book,
            );
        } else {
            self.stars.turned = false;
        }
        self.changed = self.changing;
        self.changing = false;
        self.dues.pass(self.moments);
        self.moments += 1;
    }

    /// Ends the moment like `settle`, where no alert has become another in it, nor had in the moment before. Its cost is a
    /// few writes.
    pub fn pass(&mut self, book: &Book)
        requires fits { TruthsFit (the_book book.now) self.old }
        requires goes_on { CanGoOn self.old }
        requires changing { self.old.changing ≡ false }
        requires changed { self.old.changed ≡ false }
        ensures fits { TruthsFit (the_book book.now) self.new }
        ensures stands { (conditions : ℕ → Signal) (phases : ℕ → ℕ) (k : ℕ)
            → HalfStand (the_book book.now) conditions phases k (length book.now.alerts.items)
            self.old
            → TruthsStand (the_book book.now) conditions phases (suc k) self.new }
        ensures moments { self.new.moments ≡ self.old.moments + 1 }
        ensures restless { self.new.restless ≡ self.old.restless }
        ensures changed { self.new.changed ≡ self.old.changing }
        ensures changing { self.new.changing ≡ false }
    {
        let _ = book;
        self.stars.turned = false;
        self.dues.pass(self.moments);
        self.moments += 1;
    }
}

impl Truths {
    /// Per alert whether it is present in the last moment. An alert that `step_one` has stepped since is told of the
    /// moment that hasn't ended; so are `active` and `waiting`.
    pub fn present(&self) -> &[bool]
        ensures value { result.now ≡ self.now.present.items }
        ensures tells { (b : plain.Book) (conditions : ℕ → Signal) (phases : ℕ → ℕ) (k : ℕ)
            → TruthsStand b conditions phases k self.now
            → Tells (length b.alerts) result.now (present b conditions phases) k }
    {
        &self.present
    }

    /// Per alert whether it is active.
    pub fn active(&self) -> &[bool]
        ensures value { result.now ≡ self.now.active.items }
        ensures tells { (b : plain.Book) (conditions : ℕ → Signal) (phases : ℕ → ℕ) (k : ℕ)
            → TruthsStand b conditions phases k self.now
            → Tells (length b.alerts) result.now (active b conditions phases) k }
    {
        &self.active
    }

    /// Per alert whether it is present and not active.
    pub fn waiting(&self) -> &[bool]
        ensures value { result.now ≡ self.now.waiting.items }
        ensures tells { (b : plain.Book) (conditions : ℕ → Signal) (phases : ℕ → ℕ) (k : ℕ)
            → TruthsStand b conditions phases k self.now
            → Tells (length b.alerts) result.now (waiting b conditions phases) k }
    {
        &self.waiting
    }

    /// Per alert whether it is active and starred by no primary failure, in the last moment.
    pub fn up(&self) -> &[bool]
        ensures value { result.now ≡ self.now.stars.up.items }
        ensures tells { (b : plain.Book) (conditions : ℕ → Signal) (phases : ℕ → ℕ) (k : ℕ)
            → TruthsStand b conditions phases k self.now
            → Tells (length b.alerts) result.now (up b conditions phases) k }
    {
        &self.stars.up
    }

    /// Per alert whether it is active and an active alert lists it as secondary, in the last moment.
    pub fn starred(&self) -> &[bool]
        ensures value { result.now ≡ self.now.stars.starred.items }
        ensures tells { (b : plain.Book) (conditions : ℕ → Signal) (phases : ℕ → ℕ) (k : ℕ)
            → TruthsStand b conditions phases k self.now
            → Tells (length b.alerts) result.now (starred b conditions phases) k }
    {
        &self.stars.starred
    }

    /// The first active alert, in the book's order, that lists a starred alert as secondary: `None` exactly where the
    /// alert isn't starred in the last moment. Of a number that no alert has it is `None` too.
    pub fn starred_by(&self, alert: usize) -> Option<u32>
        ensures value { result ≡ slice_index_or self.now.stars.primaries.items alert None }
        ensures tells { (b : plain.Book) (conditions : ℕ → Signal) (phases : ℕ → ℕ) (k : ℕ)
            → TruthsStand b conditions phases k self.now → alert < length b.alerts
            → result ≡ previously (starred_by b conditions phases alert) k }
    {
        if alert < self.stars.primaries.len() {
            self.stars.primaries[alert]
        } else {
            None
        }
    }

    /// The alerts that change without their condition: those whose condition held in the moment before, and which aren't
    /// active. They wait for their confirmation, or for a phase that doesn't inhibit them.
    pub fn restless(&self) -> &Marked
        ensures { result.now ≡ self.now.restless }
    {
        &self.restless
    }

    /// The alerts that may change without their condition in the moment that was gathered last.
    pub fn due(&self) -> &Marked
        ensures { result.now ≡ self.now.due }
    {
        &self.due
    }

    /// Alerts that hold all of which something is told: those that are present, active, waiting, starred or up are among
    /// them, and others may be.
    pub fn near(&self) -> &Marked
        ensures { result.now ≡ self.now.near }
    {
        &self.near
    }

    /// Alerts that hold all that are another than a moment earlier: of the others `present`, `active`, `waiting`, `starred`,
    /// `starred_by` and `up` tell what they told. Others may be among them.
    pub fn turned(&self) -> &Marked
        ensures value { result.now ≡ self.now.turned }
        ensures tells { (b : plain.Book) (conditions : ℕ → Signal) (phases : ℕ → ℕ) (k : ℕ)
            → TruthsStand b conditions phases (suc k) self.now
            → (a : ℕ) → a < length b.alerts
            → is_marked result.now a ≡ false → StaysAt b conditions phases k a }
    {
        &self.turned
    }

    /// Whether some alert is starred in the last moment that wasn't a moment earlier, or was and isn't. Before the first
    /// moment none is.
    pub fn stars_turned(&self) -> bool
        ensures value { result ≡ self.now.stars.turned }
        ensures tells { (b : plain.Book) (conditions : ℕ → Signal) (phases : ℕ → ℕ) (k : ℕ)
            → TruthsStand b conditions phases (suc k) self.now
            → (result ≡ false) ↔ StarsStay b conditions phases k }
    {
        self.stars.turned
    }

    /// Whether `present`, `active`, `waiting`, `up`, `starred` or `starred_by` tells of some alert another thing than a
    /// moment earlier: it is `false` exactly where none does. Before the first moment nothing has changed.
    pub fn changed(&self) -> bool
        ensures value { result ≡ self.now.changed }
        ensures tells { (b : plain.Book) (conditions : ℕ → Signal) (phases : ℕ → ℕ) (k : ℕ)
            → TruthsStand b conditions phases (suc k) self.now
            → (result ≡ false) ↔ Unchanged b conditions phases k }
    {
        self.changed
    }
}

// The set has the restless ones alone, where the phase turned, and else none.
fn begin_due(due: &mut Marked, restless: &Marked, turned: bool)
    requires { room due.old ≡ room restless.now }
    ensures room { room due.new ≡ room due.old }
    ensures marks { (a : ℕ) → is_marked due.new a ≡ (turned && is_marked restless.now a) }
{
    if turned {
        due.copy_from(restless);
    } else {
        due.clear();
    }
}

// Takes out those whose moment has come, and puts them into the set.
fn take_due(dues: &mut Wakes, due: &mut Marked, now: u64)
    requires now { now < never }
    requires room { length dues.old ≤ room due.old }
    ensures len { length dues.new ≡ length dues.old }
    ensures room { room due.new ≡ room due.old }
    ensures marks { (a : ℕ) → a < length dues.old → is_marked due.new a
        ≡ (nat_le (slice_index dues.old a) now || is_marked due.old a) }
    ensures keys { (a : ℕ) → a < length dues.old → slice_index dues.new a
        ≡ (if nat_le (slice_index dues.old a) now then never else slice_index dues.old a) }
{
    while let Some(alert) = dues.take(now) {
        due.mark(alert);
    }
}

// Puts a number in or takes it out.
fn put_mark(marks: &mut Marked, place: usize, on: bool)
    requires { place < room marks.old }
    ensures room { room marks.new ≡ room marks.old }
    ensures marks { (j : ℕ) → is_marked marks.new j
        ≡ (if j == place then on else is_marked marks.old j) }
{
    if on {
        marks.mark(place);
    } else {
        marks.unmark(place);
    }
}

// Puts a number in, where it is to be.
fn mark_if(marks: &mut Marked, place: usize, on: bool)
    requires { place < room marks.old }
    ensures room { room marks.new ≡ room marks.old }
    ensures marks { (j : ℕ) → is_marked marks.new j
        ≡ ((j == place && on) || is_marked marks.old j) }
{
    if on {
        marks.mark(place);
    }
}
