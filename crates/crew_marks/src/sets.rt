// The marks of all alerts.
ghost use Rattle.std.specs.Prelude.{◌≡◌, ◌↔◌, ℕ, ◌<◌, ◌||◌, ◌==◌, true, false, length, replicate, find, slice_index_or, if◌then◌else◌, IfOk};
ghost use Rattle.std.specs.Box.{boxed_slice_items};
ghost use Rattle.ecam_spec.specs.Screen.{order};
ghost use Rattle.wakes.specs.Marks as numbers;
ghost use Rattle.wakes.specs.Marks.{room};
ghost use Rattle.book_model.specs.Sealed.{the_book};
ghost use Rattle.crew_marks.specs.Ranks.{TellsPlaces};
ghost use Rattle.crew_marks.specs.MarkSets.{mark_at, set_mark, is_marked, is_touched, room_for, HasMark, AreMany};
ghost use Rattle.crew_marks.specs.MarkStep.{mark_after};

use crate::mark::{Actions, Mark, Sight};
use crate::ranks::{order_of, ranks_of};
use book_model::Book;
use std::alloc::{AllocError, Global};
use std::boxed::BoxedSlice;
use std::marker::Model;
use wakes::Marked;

/// The order in which the alerts are shown, and by alert: whether it is cleared, cancelled, recalled, and shown.
#[derive(Drop)]
pub struct Sets {
    // The alerts in the order in which they are shown, and by alert its place in it.
    order: BoxedSlice<u32>,
    ranks: BoxedSlice<u32>,
    cleared: BoxedSlice<bool>,
    cancelled: BoxedSlice<bool>,
    recalled: BoxedSlice<bool>,
    shown: BoxedSlice<bool>,
    // The places in the order of those that are shown, so that the first is found without a look at the others.
    ranked: Marked,
    // Those that are any of these, so that a walk finds them without a look at the others.
    marked: Marked,
    // Whether the crew made something of it, so that one look more finds one that is shown as long as it is up.
    touched: BoxedSlice<bool>,
}

impl Model for Sets {
    ghost use Rattle.std.specs.Box.{boxed_slice_items};
    ghost use Rattle.crew_marks.specs.MarkSets.{MarkSets, AreMarked, TellTouched, AreRanked};

    ghost Value = { MarkSets };

    ghost view = { λ s. record {
      order = boxed_slice_items s.order;
      cleared = boxed_slice_items s.cleared;
      cancelled = boxed_slice_items s.cancelled;
      recalled = boxed_slice_items s.recalled;
      shown = boxed_slice_items s.shown;
    } };

    ghost invariant = { λ s. AreMarked (record {
      order = boxed_slice_items s.order;
      cleared = boxed_slice_items s.cleared;
      cancelled = boxed_slice_items s.cancelled;
      recalled = boxed_slice_items s.recalled;
      shown = boxed_slice_items s.shown;
    }) s.marked × TellTouched (record {
      order = boxed_slice_items s.order;
      cleared = boxed_slice_items s.cleared;
      cancelled = boxed_slice_items s.cancelled;
      recalled = boxed_slice_items s.recalled;
      shown = boxed_slice_items s.shown;
    }) (boxed_slice_items s.touched) × AreRanked (record {
      order = boxed_slice_items s.order;
      cleared = boxed_slice_items s.cleared;
      cancelled = boxed_slice_items s.cancelled;
      recalled = boxed_slice_items s.recalled;
      shown = boxed_slice_items s.shown;
    }) (boxed_slice_items s.ranks) s.ranked };
}

impl Sets {
    /// The marks of a book's alerts, none of which is marked.
    pub fn new(alloc: Global, book: &Book) -> Result<Sets, AllocError>
        ensures order { IfOk result (λ s. s.order ≡ order (the_book book.now)) }
        ensures cleared { IfOk result (λ s. s.cleared
            ≡ replicate (length (the_book book.now).alerts) false) }
        ensures cancelled { IfOk result (λ s. s.cancelled
            ≡ replicate (length (the_book book.now).alerts) false) }
        ensures recalled { IfOk result (λ s. s.recalled
            ≡ replicate (length (the_book book.now).alerts) false) }
        ensures shown { IfOk result (λ s. s.shown
            ≡ replicate (length (the_book book.now).alerts) false) }
    {
        book.sealed();
        let alerts = book.alerts().len();
        Ok(Sets {
            order: order_of(alloc, book)?,
            ranks: ranks_of(alloc, book)?,
            cleared: none(alloc, alerts)?,
            cancelled: none(alloc, alerts)?,
            recalled: none(alloc, alerts)?,
            shown: none(alloc, alerts)?,
            ranked: Marked::new(alloc, alerts)?,
            marked: Marked::new(alloc, alerts)?,
            touched: none(alloc, alerts)?,
        })
    }

    /// The mark of an alert.
    pub fn mark(&self, alert: usize) -> Mark
        requires { HasMark self.now alert }
        ensures { result ≡ mark_at self.now alert }
    {
        Mark {
            cleared: self.cleared[alert],
            cancelled: self.cancelled[alert],
            recalled: self.recalled[alert],
            shown: self.shown[alert],
        }
    }

    /// Changes the mark of an alert.
    pub fn set(&mut self, alert: usize, mark: Mark)
        requires { HasMark self.old alert }
        ensures { self.new ≡ set_mark self.old alert mark }
    {
        self.cleared[alert] = mark.cleared;
        self.cancelled[alert] = mark.cancelled;
        self.recalled[alert] = mark.recalled;
        self.shown[alert] = mark.shown;
        let rank = self.ranks[alert] as usize;
        put(&mut self.ranked, rank, mark.shown);
        put(&mut self.marked, alert, mark.is_marked());
        self.touched[alert] = mark.is_touched();
    }

    /// One moment more makes this of an alert's mark. Answers whether that changed it.
    pub fn step(&mut self, alert: usize, sight: &Sight, actions: &Actions) -> bool
        requires { HasMark self.old alert }
        ensures mark { self.new
            ≡ set_mark self.old alert (mark_after (mark_at self.old alert) sight.now actions.now) }
        ensures changed { (result ≡ false) ↔ (self.new ≡ self.old) }
    {
        let old = self.mark(alert);
        let new = old.next(sight, actions);
        if new == old {
            return false;
        }
        self.set(alert, new);
        true
    }

    /// Whether an alert is shown exactly where it is up, and the crew made nothing of it.
    pub fn is_settled(&self, alert: usize, up: bool) -> bool
        requires { HasMark self.now alert }
        ensures shown { result ≡ true → up ≡ slice_index_or self.now.shown alert false }
        ensures touched { result ≡ true → is_touched (mark_at self.now alert) ≡ false }
    {
        !((self.shown[alert] != up) | self.touched[alert])
    }

    /// No alert is marked any more.
    pub fn clear(&mut self)
        ensures order { self.new.order ≡ self.old.order }
        ensures cleared { self.new.cleared ≡ replicate (length self.old.cleared) false }
        ensures cancelled { self.new.cancelled ≡ replicate (length self.old.cancelled) false }
        ensures recalled { self.new.recalled ≡ replicate (length self.old.recalled) false }
        ensures shown { self.new.shown ≡ replicate (length self.old.shown) false }
    {
        unset(&mut self.cleared);
        unset(&mut self.cancelled);
        unset(&mut self.recalled);
        unset(&mut self.shown);
        self.ranked.clear();
        self.marked.clear();
        unset(&mut self.touched);
    }

    /// The marks of others of the same book.
    pub fn copy_from(&mut self, other: &Sets)
        requires many { (n : ℕ) × AreMany self.old n × AreMany other.now n }
        requires order { self.old.order ≡ other.now.order }
        ensures { self.new ≡ other.now }
    {
        copy(&mut self.cleared, &other.cleared);
        copy(&mut self.cancelled, &other.cancelled);
        copy(&mut self.recalled, &other.recalled);
        copy(&mut self.shown, &other.shown);
        self.ranked.copy_from(&other.ranked);
        self.marked.copy_from(&other.marked);
        copy(&mut self.touched, &other.touched);
    }

    /// Puts those that are marked into a set.
    pub fn join_to(&self, set: &mut Marked)
        requires { room set.old ≡ room_for (length self.now.cleared) }
        ensures room { room set.new ≡ room set.old }
        ensures marks { (a : ℕ) → numbers.is_marked set.new a
            ≡ (numbers.is_marked set.old a || is_marked (mark_at self.now a)) }
    {
        set.join(&self.marked);
    }

    /// The first alert, in order, that is shown. Its cost is a look for each 64 alerts up to it.
    pub fn first(&self) -> Option<u32>
        ensures { result ≡ find (λ a. slice_index_or self.now.shown a false) self.now.order }
    {
        let end = self.order.len();
        let rank = self.ranked.next_or(0, end);
        if rank < end {
            Some(self.order[rank])
        } else {
            None
        }
    }

    /// The places in the order of the alerts that are shown.
    pub fn ranked(&self) -> &Marked
        ensures { TellsPlaces self.now.order self.now.shown result.now }
    {
        &self.ranked
    }

    /// Which alerts are cleared.
    pub fn cleared(&self) -> &[bool]
        ensures { result.now ≡ self.now.cleared }
    {
        self.cleared.as_slice()
    }

    /// Which alerts are cancelled.
    pub fn cancelled(&self) -> &[bool]
        ensures { result.now ≡ self.now.cancelled }
    {
        self.cancelled.as_slice()
    }

    /// Which alerts are recalled.
    pub fn recalled(&self) -> &[bool]
        ensures { result.now ≡ self.now.recalled }
    {
        self.recalled.as_slice()
    }

    /// Which alerts are shown.
    pub fn shown(&self) -> &[bool]
        ensures { result.now ≡ self.now.shown }
    {
        self.shown.as_slice()
    }
}

// As many flags, none of which is set.
fn none(alloc: Global, alerts: usize) -> Result<BoxedSlice<bool>, AllocError>
    ensures { IfOk result (λ flags. boxed_slice_items flags ≡ replicate alerts false) }
{
    let flags = vec![in alloc; false; alerts]?;
    Ok(flags.into_boxed_slice())
}

// From now on no flag is set.
fn unset(flags: &mut BoxedSlice<bool>)
    ensures { boxed_slice_items flags.new
        ≡ replicate (length (boxed_slice_items flags.old)) false }
{
    flags.as_mut_slice().fill(false);
}

// Takes over as many other flags.
fn copy(flags: &mut BoxedSlice<bool>, others: &BoxedSlice<bool>)
    requires { length (boxed_slice_items flags.old) ≡ length (boxed_slice_items others.now) }
    ensures { boxed_slice_items flags.new ≡ boxed_slice_items others.now }
{
    flags.as_mut_slice().copy_from_slice(others.as_slice());
}

// Puts a number in or takes it out.
fn put(set: &mut Marked, place: usize, on: bool)
    requires { place < room set.old }
    ensures room { room set.new ≡ room set.old }
    ensures marks { (j : ℕ) → numbers.is_marked set.new j
        ≡ (if j == place then on else numbers.is_marked set.old j) }
{
    if on {
        set.mark(place);
    } else {
        set.unmark(place);
    }
}
