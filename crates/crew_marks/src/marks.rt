// The marks of a book's alerts, stepped moment by moment.
ghost use Rattle.std.specs.Prelude.{◌≡◌, ◌↔◌, ℕ, suc, ◌+◌, ◌<◌, Bool, true, false, not, ◌&&◌, List, length, slice_index_or, IfOk, IfSome, None, is_none, if◌then◌else◌};
ghost use Rattle.ecam_spec.specs.declared.kinds.Key.TheVariants.{Rcl};
ghost use Rattle.ecam_spec.specs.Book as plain;
ghost use Rattle.ecam_spec.specs.Past.{Signal, previous, previously, running_since, last_since};
ghost use Rattle.ecam_spec.specs.Screen.{order};
ghost use Rattle.ecam_spec.specs.Crew.{Cockpit, normal};
ghost use Rattle.ecam_kinds.specs.KeyState.{is_pressed};
ghost use Rattle.wakes.specs.Marks.{is_marked, room};
ghost use Rattle.book_model.specs.Sealed.{the_book};
ghost use Rattle.crew_marks.specs.CrewMarks.{CanGoOn, EndsMoment, is_shown, is_cancelled, strikes, stands_normal, IsSettled};
ghost use Rattle.crew_marks.specs.Ranks.{TellsPlaces};
ghost use Rattle.crew_marks.specs.MarkSets.{mark_at, room_for};
ghost use Rattle.crew_marks.specs.MarkStep.{actions_of};
ghost use Rattle.crew_marks.specs.Looked.{AreAmong};
ghost use Rattle.crew_marks.specs.MarksState.{IsCrewOf, SeesCrew, IsStill, AreStill, NothingActs, MarksFit, MarksStand, OnlyCleared, SeesActions, WalksMoment};

use crate::looked::{take, take_all};
use crate::mark::{Actions, actions_of};
use crate::sets::Sets;
use crate::stretch::{is_normal, press_after, restores, running_after};
use crate::walk::{Walked, walk};
use book_model::Book;
use ecam_kinds::{Key, Keys};
use std::alloc::{AllocError, Global};
use std::marker::Model;
use wakes::Marked;

/// What the crew made of a book's alerts in the moments so far: which are cleared, cancelled, recalled and shown, the
/// target of CLR and EMER CANC, and NORMAL. Memory is taken in `new` alone, and nothing grows with the history: of the
/// past it keeps the moments in which RCL went down and was pressed last.
#[derive(Drop)]
pub struct Marks {
    sets: Sets,
    // Those that were looked at in the last moment that looked at any.
    looked: Marked,
    target: Option<u32>,
    first: Option<u32>,
    changed: bool,
    moments: u64,
    held_since: Option<u64>,
    quiet_press: Option<u64>,
}

impl Model for Marks {
    ghost use Rattle.std.specs.Prelude.{◌≡◌, length};
    ghost use Rattle.wakes.specs.Marks.{room};
    ghost use Rattle.crew_marks.specs.MarkSets.{room_for};
    ghost use Rattle.crew_marks.specs.CrewMarks.{CrewMarks};

    ghost Value = { CrewMarks };

    ghost view = { λ m. record {
      sets = m.sets;
      looked = m.looked;
      target = m.target;
      first = m.first;
      changed = m.changed;
      moments = m.moments;
      held_since = m.held_since;
      quiet_press = m.quiet_press;
    } };

    ghost invariant = { λ m. room m.looked ≡ room_for (length m.sets.cleared) };
}

impl Marks {
    /// The marks of a book before any moment: nothing is marked or shown. An error is want of memory.
    pub fn new(alloc: Global, book: &Book) -> Result<Marks, AllocError>
        ensures fits { IfOk result (MarksFit (the_book book.now)) }
        ensures moments { IfOk result (λ m. m.moments ≡ 0) }
        ensures stands { IfOk result (λ m. (c : Cockpit) → MarksStand (the_book book.now) c 0 m) }
        ensures changed { IfOk result (λ m. m.changed ≡ false) }
    {
        book.sealed();
        let alerts = book.alerts().len();
        Ok(Marks {
            sets: Sets::new(alloc, book)?,
            looked: Marked::new(alloc, alerts)?,
            target: None,
            first: None,
            changed: false,
            moments: 0,
            held_since: None,
            quiet_press: None,
        })
    }

    /// Forgets all moments. Its cost is a few writes an alert.
    pub fn clear(&mut self)
        ensures fits { (b : plain.Book) → MarksFit b self.old → MarksFit b self.new }
        ensures moments { self.new.moments ≡ 0 }
        ensures stands { (b : plain.Book) (c : Cockpit) → MarksFit b self.old
            → MarksStand b c 0 self.new }
        ensures changed { self.new.changed ≡ false }
    {
        self.sets.clear();
        self.target = None;
        self.first = None;
        self.changed = false;
        self.moments = 0;
        self.held_since = None;
        self.quiet_press = None;
    }

    /// Takes over what other marks of the same book hold. Its cost is a few writes an alert.
    pub fn copy_from(&mut self, other: &Marks)
        requires { (b : plain.Book) × MarksFit b self.old × MarksFit b other.now }
        ensures { self.new ≡ other.now }
    {
        self.sets.copy_from(&other.sets);
        self.looked.copy_from(&other.looked);
        self.target = other.target;
        self.first = other.first;
        self.changed = other.changed;
        self.moments = other.moments;
        self.held_since = other.held_since;
        self.quiet_press = other.quiet_press;
    }

    /// Takes one moment more, of 100 ms: which alerts are up and which wait in it, the keys of the moment, and whether
    /// phase 1 starts with it. Its cost is two looks at each alert, a few at each that is up, waits or is marked, and a few
    /// writes for each mark that changes; where one does, a look for each 64 alerts up to the first that is shown then.
    pub fn step(
        &mut self,
        book: &Book,
        up: &[bool],
        waiting: &[bool],
        keys: &Keys,
        enters_one: bool,
    )
        requires fits { MarksFit (the_book book.now) self.old }
        requires up { length up.now ≡ length (the_book book.now).alerts }
        requires waiting { length waiting.now ≡ length (the_book book.now).alerts }
        requires moments { CanGoOn self.old }
        ensures fits { MarksFit (the_book book.now) self.new }
        ensures moments { self.new.moments ≡ self.old.moments + 1 }
        // Whatever the moments before were, all is as the definitions say of all of them.
        ensures stands { (c : Cockpit) (k : ℕ) → IsCrewOf (the_book book.now) c
            → SeesCrew c k up.now waiting.now keys.now enters_one
            → MarksStand (the_book book.now) c k self.old
            → MarksStand (the_book book.now) c (suc k) self.new }
        ensures changed { (self.new.changed ≡ false) ↔ (self.new.sets ≡ self.old.sets) }

        // An alert that was cleared, and neither was recalled nor waits: without a press of RCL it stays hidden, and with
        // one it is shown where it is up and not cancelled. In a replay each cleared alert is one of these: it is active.
        ensures hidden { is_pressed keys.now Rcl ≡ false → (a : ℕ)
            → OnlyCleared self.old waiting.now a
            → is_shown self.new a ≡ false }
        ensures restored { is_pressed keys.now Rcl ≡ true → (a : ℕ)
            → OnlyCleared self.old waiting.now a
            → is_shown self.new a ≡ (slice_index_or up.now a false
            && not (is_cancelled self.new a)) }

        // An alert that waits: with a press of RCL it is shown where CLR doesn't strike it in this moment, and it isn't
        // cancelled.
        ensures recalled { is_pressed keys.now Rcl ≡ true → (a : ℕ)
            → slice_index_or waiting.now a false ≡ true
            → is_shown self.new a ≡ (not (strikes self.old keys.now a)
            && not (is_cancelled self.new a)) }
    {
        let (actions, held_since) = self.doing(keys, enters_one);
        take_all(&mut self.looked, &self.sets, up, waiting);
        self.step_by(book, up, waiting, &actions, held_since);
    }

    /// Takes one moment more like `step`, where each alert that is up or waits is near, and each that isn't in `turned` is up
    /// and waits as in the moment before. It looks at those of `turned`, and where CLR, RCL or EMER CANC is pressed or what
    /// was cancelled is restored, at each that is near or marked too. Its cost is a write and a look for each 64 alerts, a
    /// few looks at each of these, and a few writes for each mark that changes; where one does, a look for each 64 alerts up
    /// to the first that is shown then.
    pub fn step_turned(
        &mut self,
        book: &Book,
        up: &[bool],
        waiting: &[bool],
        near: &Marked,
        turned: &Marked,
        keys: &Keys,
        enters_one: bool,
    )
        requires fits { MarksFit (the_book book.now) self.old }
        requires up { length up.now ≡ length (the_book book.now).alerts }
        requires waiting { length waiting.now ≡ length (the_book book.now).alerts }
        requires near_room { room near.now ≡ room_for (length (the_book book.now).alerts) }
        requires up_near { AreAmong up.now near.now }
        requires waiting_near { AreAmong waiting.now near.now }
        requires turned_room { room turned.now ≡ room_for (length (the_book book.now).alerts) }
        requires moments { CanGoOn self.old }
        ensures fits { MarksFit (the_book book.now) self.new }
        ensures moments { self.new.moments ≡ self.old.moments + 1 }
        // Whatever the moments before were, all is as the definitions say of all of them.
        ensures stands { (c : Cockpit) (k : ℕ) → IsCrewOf (the_book book.now) c
            → SeesCrew c k up.now waiting.now keys.now enters_one
            → ((a : ℕ) → a < length (the_book book.now).alerts → is_marked turned.now a ≡ false
            → IsStill c k a)
            → MarksStand (the_book book.now) c k self.old
            → MarksStand (the_book book.now) c (suc k) self.new }
        ensures changed { (self.new.changed ≡ false) ↔ (self.new.sets ≡ self.old.sets) }
        ensures looked { (a : ℕ) → is_marked turned.now a ≡ true
            → is_marked self.new.looked a ≡ true }
        ensures kept { (a : ℕ) → is_marked self.new.looked a ≡ false
            → mark_at self.new.sets a ≡ mark_at self.old.sets a }
    {
        let (actions, held_since) = self.doing(keys, enters_one);
        take(&mut self.looked, &self.sets, near, turned, actions.act());
        self.step_by(book, up, waiting, &actions, held_since);
    }

    // What the crew and the flight do in the moment, and since when RCL is held in it.
    #[inline(always)]
    fn doing(&self, keys: &Keys, enters_one: bool) -> (Actions, Option<u64>)
        ensures does { result.0 ≡ actions_of keys.now result.0.restores }
        ensures sees { (b : plain.Book) (c : Cockpit) (k : ℕ) (ups waits : List Bool)
            → SeesCrew c k ups waits keys.now enters_one
            → MarksStand b c k self.now
            → SeesActions c k result.0 × (result.1 ≡ running_since c.rcl_held (suc k)) }
    {
        let held_since = running_after(self.held_since, keys.held(Key::Rcl), self.moments);
        let restores = restores(held_since, self.moments, enters_one);
        (actions_of(keys, restores), held_since)
    }

    // Takes one moment more in which the crew and the flight do this, RCL is held since then, and those are looked at that
    // are taken already.
    fn step_by(
        &mut self,
        book: &Book,
        up: &[bool],
        waiting: &[bool],
        actions: &Actions,
        held_since: Option<u64>,
    )
        requires fits { MarksFit (the_book book.now) self.old }
        requires up { length up.now ≡ length (the_book book.now).alerts }
        requires waiting { length waiting.now ≡ length (the_book book.now).alerts }
        requires moments { CanGoOn self.old }
        ensures { WalksMoment (the_book book.now) up.now waiting.now actions.now held_since self.old
            self.new }
    {
        let walked = walk(
            &mut self.sets,
            &self.looked,
            book,
            up,
            waiting,
            self.first,
            actions,
        );
        self.end_moment(walked, actions.rcl, held_since);
    }

    /// Takes one moment more like `step_turned`, where each alert is up and waits as in the moment before. It looks at no
    /// alert unless CLR, RCL or EMER CANC is pressed or what was cancelled is restored.
    pub fn step_still(
        &mut self,
        book: &Book,
        up: &[bool],
        waiting: &[bool],
        near: &Marked,
        keys: &Keys,
        enters_one: bool,
    )
        requires fits { MarksFit (the_book book.now) self.old }
        requires up { length up.now ≡ length (the_book book.now).alerts }
        requires waiting { length waiting.now ≡ length (the_book book.now).alerts }
        requires near_room { room near.now ≡ room_for (length (the_book book.now).alerts) }
        requires up_near { AreAmong up.now near.now }
        requires waiting_near { AreAmong waiting.now near.now }
        requires moments { CanGoOn self.old }
        ensures fits { MarksFit (the_book book.now) self.new }
        ensures moments { self.new.moments ≡ self.old.moments + 1 }
        ensures stands { (c : Cockpit) (k : ℕ) → IsCrewOf (the_book book.now) c
            → SeesCrew c k up.now waiting.now keys.now enters_one
            → AreStill (the_book book.now) c k
            → MarksStand (the_book book.now) c k self.old
            → MarksStand (the_book book.now) c (suc k) self.new }
        ensures changed { (self.new.changed ≡ false) ↔ (self.new.sets ≡ self.old.sets) }
        ensures kept { (a : ℕ) → is_marked self.new.looked a ≡ false
            → mark_at self.new.sets a ≡ mark_at self.old.sets a }
    {
        let (actions, held_since) = self.doing(keys, enters_one);
        if actions.act() {
            self.step_turned(book, up, waiting, near, near, keys, enters_one);
            return;
        }
        let walked = Walked::unchanged(self.first);
        self.end_moment(walked, actions.rcl, held_since);
    }

    /// Takes one moment more in which nothing acts: each alert is up and waits as in the moment before, CLR, RCL and EMER
    /// CANC aren't pressed, RCL isn't held, and phase 1 doesn't start. All that is marked and shown stays so, the target
    /// becomes the first alert that is shown, and NORMAL doesn't begin. It looks at no alert: its cost is a few writes.
    pub fn rest(&mut self)
        requires { CanGoOn self.old }
        ensures fits { (b : plain.Book) → MarksFit b self.old → MarksFit b self.new }
        ensures moments { self.new.moments ≡ self.old.moments + 1 }
        ensures sets { self.new.sets ≡ self.old.sets }
        ensures first { self.new.first ≡ self.old.first }
        ensures changed { self.new.changed ≡ false }
        ensures normal { stands_normal self.old.quiet_press self.old.moments ≡ false
            → stands_normal self.new.quiet_press self.new.moments ≡ false }
        ensures stands { (b : plain.Book) (c : Cockpit) (k : ℕ) → MarksFit b self.old
            → IsCrewOf b c → NothingActs c k → AreStill b c k → MarksStand b c k self.old
            → MarksStand b c (suc k) self.new }
        ensures settled { IsSettled self.new }
    {
        let walked = Walked::unchanged(self.first);
        self.end_moment(walked, false, None);
    }

    /// Takes one moment more like `rest`, after one that it took. All stays as that left it: its cost is one write.
    pub fn pass(&mut self)
        requires goes_on { CanGoOn self.old }
        requires settled { IsSettled self.old }
        ensures fits { (b : plain.Book) → MarksFit b self.old → MarksFit b self.new }
        ensures moments { self.new.moments ≡ self.old.moments + 1 }
        ensures sets { self.new.sets ≡ self.old.sets }
        ensures changed { self.new.changed ≡ false }
        ensures normal { stands_normal self.old.quiet_press self.old.moments ≡ false
            → stands_normal self.new.quiet_press self.new.moments ≡ false }
        ensures stands { (b : plain.Book) (c : Cockpit) (k : ℕ) → MarksFit b self.old
            → IsCrewOf b c → NothingActs c k → AreStill b c k → MarksStand b c k self.old
            → MarksStand b c (suc k) self.new }
        ensures settled { IsSettled self.new }
    {
        self.moments += 1;
    }

    // Ends the moment in which the marks became what they are.
    fn end_moment(&mut self, walked: Walked, rcl: bool, held_since: Option<u64>)
        requires { CanGoOn self.old }
        ensures ends { EndsMoment walked held_since self.old self.new }
        ensures press { (p q : Signal) (k : ℕ) → self.old.moments ≡ k → rcl ≡ p k
            → is_none walked.first ≡ q k → self.old.quiet_press ≡ previously (last_since p q) k
            → self.new.quiet_press ≡ previously (last_since p q) (suc k) }
        ensures kept { rcl ≡ false → self.new.quiet_press
            ≡ (if is_none walked.first then self.old.quiet_press else None) }
    {
        self.target = self.first;
        self.first = walked.first;
        self.changed = walked.changed;
        self.quiet_press = press_after(self.quiet_press, rcl, walked.first.is_none(), self.moments);
        self.held_since = held_since;
        self.moments += 1;
    }

    /// The alerts that were looked at in the last moment that looked at any: the moment just stepped changed no mark of
    /// another.
    pub fn looked(&self) -> &Marked
        ensures value { result.now ≡ self.now.looked }
        ensures room { (b : plain.Book) → MarksFit b self.now
            → room result.now ≡ room_for (length b.alerts) }
    {
        &self.looked
    }

    /// The places in the book's order of the alerts that are shown.
    pub fn ranked(&self) -> &Marked
        ensures { (b : plain.Book) → MarksFit b self.now
            → TellsPlaces (order b) self.now.sets.shown result.now }
    {
        self.sets.ranked()
    }

    /// By alert, whether it is shown.
    pub fn shown(&self) -> &[bool]
        ensures { result.now ≡ self.now.sets.shown }
    {
        self.sets.shown()
    }

    /// By alert, whether it is cleared.
    pub fn cleared(&self) -> &[bool]
        ensures { result.now ≡ self.now.sets.cleared }
    {
        self.sets.cleared()
    }

    /// By alert, whether it is cancelled.
    pub fn cancelled(&self) -> &[bool]
        ensures { result.now ≡ self.now.sets.cancelled }
    {
        self.sets.cancelled()
    }

    /// By alert, whether it is recalled.
    pub fn recalled(&self) -> &[bool]
        ensures { result.now ≡ self.now.sets.recalled }
    {
        self.sets.recalled()
    }

    /// The target of CLR and EMER CANC in the moment just stepped: the first alert, in order, that the moment before it
    /// showed. `None` where that showed nothing, or there is no such moment.
    pub fn target(&self) -> Option<u32>
        ensures value { result ≡ self.now.target }
        ensures within { (b : plain.Book) → MarksFit b self.now
            → IfSome result (λ a. a < length b.alerts) }
    {
        self.target
    }

    /// The first alert, in order, that is shown; `None` exactly where nothing is shown. It is the target of the moment to
    /// come.
    pub fn first(&self) -> Option<u32>
        ensures value { result ≡ self.now.first }
        ensures within { (b : plain.Book) → MarksFit b self.now
            → IfSome result (λ a. a < length b.alerts) }
    {
        self.first
    }

    /// Whether NORMAL stands: RCL was pressed in the last three seconds, and nothing is shown since.
    pub fn normal(&self) -> bool
        ensures value { result ≡ stands_normal self.now.quiet_press self.now.moments }
        ensures answer { (b : plain.Book) (c : Cockpit) (k : ℕ) → MarksStand b c k self.now
            → result ≡ previous (normal c) k }
    {
        is_normal(self.quiet_press, self.moments)
    }

    /// Whether the moment just stepped changed which alerts are cleared, cancelled, recalled or shown. Before the first
    /// moment nothing has changed.
    pub fn changed(&self) -> bool
        ensures { result ≡ self.now.changed }
    {
        self.changed
    }
}
