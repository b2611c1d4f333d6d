// Which active alerts a primary failure explains, and which are up.
ghost use Rattle.std.specs.Prelude.{◌≡◌, ◌↔◌, ℕ, suc, ◌+◌, ◌*◌, ◌/◌, ◌<◌, ◌==◌, ◌||◌, true, false, length, get_or, All, map, None, IfOk};
ghost use Rattle.std.specs.List.{list_any};
ghost use Rattle.ecam_spec.specs.Past.{Signal, previous};
ghost use Rattle.ecam_spec.specs.Book as plain;
ghost use Rattle.book_model.specs.Sealed.{the_book};
ghost use Rattle.alert_truth.specs.Alerts.{Tells};
ghost use Rattle.alert_truth.specs.Stars.{StarsFit, StarsStand, HasPlace, Takes, IsAway, IsUnasked};
ghost use Rattle.wakes.specs.Marks.{is_marked, room};

use crate::listers::Listers;
use book_model::Book;
use std::alloc::{AllocError, Global};
use wakes::Marked;

/// Per alert its first active primary, and whether it is starred and up.
#[derive(Drop)]
pub struct Stars {
    listers: Listers,
    // The alerts whose primary may be another in the moment that was settled last.
    asked: Marked,
    pub primaries: Vec<Option<u32>>,
    pub starred: Vec<bool>,
    pub up: Vec<bool>,
    // Some alert is starred in the last moment that wasn't a moment earlier, or was and isn't.
    pub turned: bool,
}

impl Stars {
    /// For the alerts of a book, none of them starred or up. An error is want of memory.
    pub fn new(alloc: Global, book: &Book) -> Result<Stars, AllocError>
        ensures fits { IfOk result (StarsFit (the_book book.now)) }
        ensures stands { IfOk result (λ s. (active : ℕ → Signal)
            → StarsStand (the_book book.now) active 0 s) }
        ensures turned { IfOk result (λ s. s.turned ≡ false) }
        ensures away { IfOk result (λ s. (a : ℕ) → IsAway a s) }
    {
        let alerts = book.alerts().len();
        Ok(Stars {
            listers: Listers::new(alloc, book)?,
            asked: Marked::new(alloc, alerts)?,
            primaries: vec![in alloc; None; alerts]?,
            starred: vec![in alloc; false; alerts]?,
            up: vec![in alloc; false; alerts]?,
            turned: false,
        })
    }

    /// No alert is starred or up. Its cost is one write an alert.
    pub fn clear(&mut self)
        ensures fits { (b : plain.Book) → StarsFit b self.old → StarsFit b self.new }
        ensures stands { (b : plain.Book) (active : ℕ → Signal) → StarsFit b self.old
            → StarsStand b active 0 self.new }
        ensures turned { self.new.turned ≡ false }
        ensures away { (b : plain.Book) → StarsFit b self.old → (a : ℕ) → IsAway a self.new }
    {
        self.primaries.fill(None);
        self.starred.fill(false);
        self.up.fill(false);
        self.turned = false;
    }

    /// Takes over the stars of another of the same book. Its cost is one write an alert.
    pub fn copy_from(&mut self, other: &Stars)
        requires { (b : plain.Book) × StarsFit b self.old × StarsFit b other.now }
        ensures fits { (b : plain.Book) → StarsFit b self.old → StarsFit b other.now
            → StarsFit b self.new }
        ensures stands { (b : plain.Book) (active : ℕ → Signal) (k : ℕ) → StarsFit b self.old
            → StarsFit b other.now → StarsStand b active k other.now
            → StarsStand b active k self.new }
        ensures turned { self.new.turned ≡ other.now.turned }
        ensures away { (b : plain.Book) → StarsFit b self.old → (a : ℕ) → IsAway a other.now
            → IsAway a self.new }
    {
        self.primaries.copy_from_slice(&other.primaries);
        self.starred.copy_from_slice(&other.starred);
        self.up.copy_from_slice(&other.up);
        self.turned = other.turned;
    }

    /// Settles which of the active alerts are starred and which are up, where those that became present or active, or are so
    /// no more, are among `moved`: it looks at each of these and at its secondaries, and puts those in that have another
    /// primary. Its cost is two looks for each 64 alerts, a few writes at each of `moved` and at each secondary of these, and
    /// a look at what lists them, up to the first that is active.
    #[inline(never)]
    pub fn settle(
        &mut self,
        active: &[bool],
        present: &[bool],
        waiting: &[bool],
        near: &mut Marked,
        moved: &mut Marked,
        book: &Book,
    )
        requires fits { StarsFit (the_book book.now) self.old }
        requires active_places { length active.now ≡ length book.now.alerts.items }
        requires present_places { length present.now ≡ length book.now.alerts.items }
        requires waiting_places { length waiting.now ≡ length book.now.alerts.items }
        requires room { room near.old ≡ 64 * (length book.now.alerts.items / 64 + 1) }
        requires moved_room { room moved.old ≡ 64 * (length book.now.alerts.items / 64 + 1) }
        requires active { (a : ℕ) → get_or active.now a false ≡ true → is_marked near.old a ≡ true }
        requires present { (a : ℕ) → get_or present.now a false ≡ true
            → is_marked near.old a ≡ true }
        requires waiting { (a : ℕ) → get_or waiting.now a false ≡ true
            → is_marked near.old a ≡ true }
        requires away { (a : ℕ) → is_marked near.old a ≡ false → IsAway a self.old }
        ensures fits { StarsFit (the_book book.now) self.new }
        ensures stands { (active' : ℕ → Signal) (k : ℕ)
            → StarsStand (the_book book.now) active' k self.old
            → Tells (length book.now.alerts.items) active.now active' (suc k)
            → ((a : ℕ) → a < length book.now.alerts.items → is_marked moved.old a ≡ false
            → active' a k ≡ previous (active' a) k)
            → StarsStand (the_book book.now) active' (suc k) self.new }
        ensures turned { (self.new.turned ≡ false)
            ↔ ((a : ℕ) → a < length book.now.alerts.items
            → get_or self.new.starred.items a false ≡ get_or self.old.starred.items a false) }
        ensures room { room near.new ≡ room near.old }
        ensures active { (a : ℕ) → get_or active.now a false ≡ true → is_marked near.new a ≡ true }
        ensures present { (a : ℕ) → get_or present.now a false ≡ true
            → is_marked near.new a ≡ true }
        ensures waiting { (a : ℕ) → get_or waiting.now a false ≡ true
            → is_marked near.new a ≡ true }
        ensures away { (a : ℕ) → is_marked near.new a ≡ false → IsAway a self.new }
        ensures moved_room { room moved.new ≡ room moved.old }
        ensures moved { (a : ℕ) → a < length book.now.alerts.items → is_marked moved.new a ≡ false
            → (is_marked moved.old a ≡ false)
            × (get_or self.new.primaries.items a None ≡ get_or self.old.primaries.items a None) }
    {
        ask(&mut self.asked, moved, book);
        self.turned = false;
        let mut alert = self.asked.next_or(0, active.len());
        while alert < active.len() {
            let primary = self.listers.primary(active, alert);
            self.star(alert, active[alert], primary, moved);
            if !(present[alert] | active[alert] | waiting[alert]) {
                near.unmark(alert);
            }
            alert = self.asked.next_or(alert + 1, active.len());
        }
    }

    // Takes over the primary of one alert.
    fn star(&mut self, alert: usize, active: bool, primary: Option<u32>, moved: &mut Marked)
        requires place { HasPlace alert self.old }
        requires room { alert < room moved.old }
        ensures takes { Takes alert active primary self.old self.new }
        ensures room { room moved.new ≡ room moved.old }
        ensures moved { (a : ℕ) → is_marked moved.new a ≡ false → (is_marked moved.old a ≡ false)
            × (get_or self.new.primaries.items a None ≡ get_or self.old.primaries.items a None) }
    {
        let starred = primary.is_some();
        if primary != self.primaries[alert] {
            moved.mark(alert);
        }
        self.turned |= starred != self.starred[alert];
        self.primaries[alert] = primary;
        self.starred[alert] = starred;
        self.up[alert] = active && !starred;
    }
}

// Asks each alert that turned, and each that one of these lists as secondary.
fn ask(asked: &mut Marked, turned: &Marked, book: &Book)
    requires asked { room asked.old ≡ 64 * (length book.now.alerts.items / 64 + 1) }
    requires turned { room turned.now ≡ 64 * (length book.now.alerts.items / 64 + 1) }
    ensures room { room asked.new ≡ room asked.old }
    ensures asked { (a : ℕ) → is_marked asked.new a ≡ false
        → IsUnasked (map (λ a. a.secondary) (the_book book.now).alerts) turned.now
        (length book.now.alerts.items) a }
{
    asked.copy_from(turned);
    let alerts = book.alerts().len();
    let mut alert = turned.next_or(0, alerts);
    while alert < alerts {
        mark_all(asked, book.secondaries(alert));
        alert = turned.next_or(alert + 1, alerts);
    }
}

// Puts numbers in.
fn mark_all(marks: &mut Marked, places: &[u32])
    requires { All (λ p. p < room marks.old) places.now }
    ensures room { room marks.new ≡ room marks.old }
    ensures marks { (a : ℕ) → is_marked marks.new a
        ≡ (list_any (λ s. s == a) places.now || is_marked marks.old a) }
{
    for place in places {
        marks.mark(*place as usize);
    }
}
