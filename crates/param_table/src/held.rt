// What the mailboxes of a book hold, and which parameters may have another value by it.
ghost use Rattle.std.specs.Prelude.{◌≡◌, ℕ, ◌/◌, ◌<◌, ◌≤◌, ◌==◌, ◌&&◌, ◌||◌, ◌+◌, ◌^◌, not, true, false, length, map, slice_index, slice_index_or, slice_set, All, if◌then◌else◌};
ghost use Rattle.std.specs.List.{list_any};
ghost use Rattle.book_model.specs.Sealed.{the_book};
ghost use Rattle.wakes.specs.Marks.{is_marked, room};
ghost use Rattle.param_table.specs.Asked.{is_asked_at};
ghost use Rattle.param_table.specs.HeldValues.{all_fresh, delivered, due_at, emptied, held_for, hearers_of, is_ending, keeps_saying, received_at, says_same, unused};
ghost use Rattle.param_table.specs.HeldState.{AreDue, AreEarly, AreListed, AreSummed, CopiedWords, IsNextLook, WillLook};
ghost use Rattle.param_table.specs.Routes.{AreRouted};
ghost use Rattle.param_table.specs.TableState.{HeldFits};

use crate::mailbox::{Listener, Mailbox, all_fresh, empty, end_for, held_for, says_same};
use crate::received::{NEVER, Received, is_ending, is_fresh, next_look};
use crate::routing::Routing;
use crate::rules::Rule;
use book_model::Book;
use std::boxed::BoxedSlice;
use wakes::{Marked, Wakes, mark_in};

/// The words that came last, and what became of it since the moment before.
#[derive(Drop)]
pub struct Held {
    /// The first has no listener.
    pub mailboxes: BoxedSlice<Mailbox>,
    /// The parameters of which a listener's source gave something else since the moment before.
    pub changed: Marked,
    /// Bit `w % 64` is set where a parameter of word w of `changed` is marked, and may be set where none is.
    pub busy: u64,
    /// By mailbox when it is looked at: no later than when its word is no longer fresh for one for whom it is.
    pub dues: Wakes,
}

impl Held {
    /// A word comes to a mailbox, which keeps what it held when the moment began. The parameters of its listeners are marked
    /// for which the word before isn't fresh or said something else. Its cost is a look and two writes where the word before
    /// is fresh for all and has the same bits, two writes more with the first word of a moment, and also a look and a mark a
    /// listener where it has others. Where it isn't fresh for all, the mailbox is looked at when this one ends to be.
    // (What the mailbox holds is taken field by field, since a copy of it costs some ten instructions more.)
    #[inline(always)]
    pub fn deliver(&mut self, listeners: &[Listener], clock: u32, mailbox: usize, bits: u32)
        requires mailbox { mailbox < length self.old.mailboxes.items.items }
        requires early { AreEarly clock self.old.mailboxes.items.items }
        requires dues { mailbox < length self.old.dues }
        requires listed { AreListed listeners.now (room self.old.changed)
            (slice_index_or self.old.mailboxes.items.items mailbox unused) }
        ensures mailboxes { self.new.mailboxes.items.items
            ≡ slice_set self.old.mailboxes.items.items mailbox (delivered clock bits
            (slice_index_or self.old.mailboxes.items.items mailbox unused)) }
        ensures room { room self.new.changed ≡ room self.old.changed }
        ensures marks { (p : ℕ) → is_marked self.new.changed p ≡ (list_any (λ l. p == l.param
            && not (keeps_saying clock bits
            (slice_index_or self.old.mailboxes.items.items mailbox unused) l))
            (hearers_of listeners.now
            (slice_index_or self.old.mailboxes.items.items mailbox unused))
            || is_marked self.old.changed p) }
        ensures summed { AreSummed self.old.changed self.old.busy
            → AreSummed self.new.changed self.new.busy }
        ensures dues { self.new.dues ≡ (if all_fresh clock
            (slice_index_or self.old.mailboxes.items.items mailbox unused)
            then self.old.dues
            else slice_set self.old.dues mailbox (clock + 1
            + (slice_index_or self.old.mailboxes.items.items mailbox unused).hearers.soonest)) }
    {
        let now = &mut self.mailboxes[mailbox];
        let was = now.bits;
        let after = now.after;
        let hearers = now.hearers;
        if after != u64::from(clock) + 1 {
            now.earlier_after = after;
            now.earlier_bits = was;
        }
        now.bits = bits;
        now.after = u64::from(clock) + 1;
        if u64::from(clock) >= end_for(after, hearers.soonest) {
            let before = Mailbox {
                after,
                bits: was,
                ..empty(hearers)
            };
            let listening = &listeners[hearers.first..hearers.end];
            mark_begun(
                self.changed.words_mut(),
                &mut self.busy,
                listening,
                before,
                clock,
                bits,
            );
            let end = u64::from(clock) + 1 + u64::from(hearers.soonest);
            self.dues.set(mailbox, end);
        } else if was != bits {
            let listening = &listeners[hearers.first..hearers.end];
            mark_turned(
                self.changed.words_mut(),
                &mut self.busy,
                listening,
                was,
                bits,
            );
        }
    }

    /// No word is fresh. Its cost is a write a mailbox.
    pub fn forget_words(&mut self)
        ensures mailboxes { self.new.mailboxes.items.items
            ≡ map emptied self.old.mailboxes.items.items }
        ensures changed { self.new.changed ≡ self.old.changed }
        ensures busy { self.new.busy ≡ self.old.busy }
        ensures dues { self.new.dues ≡ self.old.dues }
    {
        for mailbox in self.mailboxes.iter_mut() {
            mailbox.after = 0;
        }
    }

    /// Takes over the words of other mailboxes, of which there are as many. Its cost is four writes a mailbox.
    pub fn copy_words(&mut self, others: &[Mailbox])
        requires { length self.old.mailboxes.items.items ≡ length others.now }
        ensures mailboxes { CopiedWords self.old.mailboxes.items.items others.now
            self.new.mailboxes.items.items }
        ensures changed { self.new.changed ≡ self.old.changed }
        ensures busy { self.new.busy ≡ self.old.busy }
        ensures dues { self.new.dues ≡ self.old.dues }
    {
        for i in 0..others.len() {
            let mailbox = &mut self.mailboxes[i];
            mailbox.after = others[i].after;
            mailbox.earlier_after = others[i].earlier_after;
            mailbox.bits = others[i].bits;
            mailbox.earlier_bits = others[i].earlier_bits;
        }
    }

    /// A moment begins, in which nothing is other than before yet. Its cost is one look where nothing was, else a write for
    /// each 64 parameters.
    #[inline(always)]
    pub fn forget_changes(&mut self)
        requires { AreSummed self.old.changed self.old.busy }
        ensures mailboxes { self.new.mailboxes ≡ self.old.mailboxes }
        ensures room { room self.new.changed ≡ room self.old.changed }
        ensures dues { self.new.dues ≡ self.old.dues }
        ensures none { (p : ℕ) → is_marked self.new.changed p ≡ false }
        ensures busy { self.new.busy ≡ 0 }
    {
        if self.busy != 0 {
            self.changed.clear();
            self.busy = 0;
        }
    }

    /// Whether it is known that no parameter is marked. Its cost is one look.
    #[inline(always)]
    pub fn unmarked(&self) -> bool
        requires { AreSummed self.now.changed self.now.busy }
        ensures { result ≡ true → (p : ℕ) → is_marked self.now.changed p ≡ false }
    {
        self.busy == 0
    }

    /// Looks at the mailboxes whose words may end to be fresh for one who listens, and marks the parameters where one does.
    #[inline(always)]
    pub fn look_at_due(&mut self, _book: &Book, routing: &Routing, clock: u32)
        requires later { 0 < clock }
        requires routed { AreRouted (the_book _book.now) routing.now
            self.old.mailboxes.items.items }
        requires fits { HeldFits (the_book _book.now).parameters clock self.old }
        ensures mailboxes { self.new.mailboxes ≡ self.old.mailboxes }
        ensures room { room self.new.changed ≡ room self.old.changed }
        ensures dues { length self.new.dues ≡ length self.old.dues }
        ensures due { WillLook (is_asked_at (the_book _book.now)) clock
            (received_at routing.now.rules.items.items self.old.mailboxes.items.items)
            (due_at routing.now.rules.items.items self.old.dues)
            → AreDue (is_asked_at (the_book _book.now)) clock
            (received_at routing.now.rules.items.items self.old.mailboxes.items.items)
            (due_at routing.now.rules.items.items self.new.dues) }
        ensures marks { WillLook (is_asked_at (the_book _book.now)) clock
            (received_at routing.now.rules.items.items self.old.mailboxes.items.items)
            (due_at routing.now.rules.items.items self.old.dues)
            → (q : ℕ) → is_asked_at (the_book _book.now) q ≡ true
            → is_marked self.new.changed (q / 3) ≡ false
            → is_ending clock (received_at routing.now.rules.items.items
            self.old.mailboxes.items.items q) ≡ false }
        ensures others { (p : ℕ) → is_marked self.old.changed p ≡ false → ((q : ℕ) → q / 3 ≡ p
            → is_ending clock (received_at routing.now.rules.items.items
            self.old.mailboxes.items.items q) ≡ false)
            → is_marked self.new.changed p ≡ false }
        ensures summed { AreSummed self.new.changed self.new.busy }
    {
        while let Some(mailbox) = self.dues.take(u64::from(clock)) {
            self.look(&routing.listeners, clock, mailbox);
        }
    }

    // Looks at a mailbox: its word is fresh for all, or ends to be for some with this moment, or did before.
    fn look(&mut self, listeners: &[Listener], clock: u32, mailbox: usize)
        requires mailbox { mailbox < length self.old.mailboxes.items.items }
        requires early { AreEarly clock self.old.mailboxes.items.items }
        requires dues { mailbox < length self.old.dues }
        requires listed { AreListed listeners.now (room self.old.changed)
            (slice_index_or self.old.mailboxes.items.items mailbox unused) }
        ensures mailboxes { self.new.mailboxes ≡ self.old.mailboxes }
        ensures room { room self.new.changed ≡ room self.old.changed }
        ensures dues { (due : ℕ) × (self.new.dues ≡ slice_set self.old.dues mailbox due)
            × IsNextLook clock (slice_index_or self.old.mailboxes.items.items mailbox unused)
            (hearers_of listeners.now
            (slice_index_or self.old.mailboxes.items.items mailbox unused)) due }
        ensures marks { (p : ℕ) → is_marked self.new.changed p ≡ (list_any (λ l. p == l.param
            && is_ending clock (held_for
            (slice_index_or self.old.mailboxes.items.items mailbox unused) l.stale))
            (hearers_of listeners.now
            (slice_index_or self.old.mailboxes.items.items mailbox unused))
            || is_marked self.old.changed p) }
        ensures summed { AreSummed self.old.changed self.old.busy
            → AreSummed self.new.changed self.new.busy }
    {
        let looked = self.mailboxes[mailbox];
        if all_fresh(looked, clock) {
            let end = held_for(looked, looked.hearers.soonest).end;
            self.dues.set(mailbox, end);
            return;
        }
        let hearers = &listeners[looked.hearers.first..looked.hearers.end];
        let next = mark_ending(
            self.changed.words_mut(),
            &mut self.busy,
            hearers,
            looked,
            clock,
        );
        self.dues.set(mailbox, next);
    }
}

/// What a source holds, by its rule. Its cost is a look at its mailbox.
#[inline(always)]
pub fn held_by(rule: &Rule, mailboxes: &[Mailbox], _clock: u32) -> Received
    requires mailbox { rule.now.mailbox < length mailboxes.now }
    requires early { AreEarly _clock mailboxes.now }
    ensures { result
        ≡ held_for (slice_index_or mailboxes.now rule.now.mailbox unused) rule.now.stale }
{
    held_for(mailboxes[usize::from(rule.mailbox)], rule.stale)
}

// Marks a parameter where `on` is set, and its word in the summary. Its cost is two writes, without a branch.
#[inline(always)]
fn mark_summed(changed: &mut [u64], busy: &mut u64, param: usize, on: bool)
    requires { param < room changed.old }
    ensures room { room changed.new ≡ room changed.old }
    ensures marks { (p : ℕ) → is_marked changed.new p
        ≡ ((p == param && on) || is_marked changed.old p) }
    ensures summed { AreSummed changed.old busy.old → AreSummed changed.new busy.new }
{
    mark_in(changed, param, on);
    *busy |= u64::from(on) << (param / 64 % 64);
}

// A word comes that differs from the one before, which is fresh: marks the parameters of those to whom it says something else.
fn mark_turned(changed: &mut [u64], busy: &mut u64, listeners: &[Listener], old: u32, new: u32)
    requires { All (λ l. l.param < room changed.old) listeners.now }
    ensures room { room changed.new ≡ room changed.old }
    ensures marks { (p : ℕ) → is_marked changed.new p
        ≡ (list_any (λ l. p == l.param && not (says_same l old new)) listeners.now
        || is_marked changed.old p) }
    ensures summed { AreSummed changed.old busy.old → AreSummed changed.new busy.new }
{
    for i in 0..listeners.len() {
        let listener = listeners[i];
        let turns = !says_same(listener, old, new);
        mark_summed(changed, busy, usize::from(listener.param), turns);
    }
}

// A word comes where the one before isn't fresh for all: marks the parameters of those for whom it isn't, and of those to
// whom this one says something else.
#[inline(never)]
fn mark_begun(
    changed: &mut [u64],
    busy: &mut u64,
    listeners: &[Listener],
    before: Mailbox,
    clock: u32,
    bits: u32,
)
    requires early { before.after ≤ 2 ^ 32 }
    requires params { All (λ l. l.param < room changed.old) listeners.now }
    ensures room { room changed.new ≡ room changed.old }
    ensures marks { (p : ℕ) → is_marked changed.new p
        ≡ (list_any (λ l. p == l.param && not (keeps_saying clock bits before l)) listeners.now
        || is_marked changed.old p) }
    ensures summed { AreSummed changed.old busy.old → AreSummed changed.new busy.new }
{
    for i in 0..listeners.len() {
        let listener = listeners[i];
        let fresh = is_fresh(held_for(before, listener.stale), clock);
        let same = fresh & says_same(listener, before.bits, bits);
        mark_summed(changed, busy, usize::from(listener.param), !same);
    }
}

// Marks the parameters of those for whom the word ends to be fresh with this moment, and answers when the mailbox is looked at
// next: when the word is no longer fresh for the first of those for whom it still is.
#[inline(never)]
fn mark_ending(
    changed: &mut [u64],
    busy: &mut u64,
    listeners: &[Listener],
    mailbox: Mailbox,
    clock: u32,
) -> u64
    requires early { mailbox.after ≤ 2 ^ 32 }
    requires params { All (λ l. l.param < room changed.old) listeners.now }
    ensures next { IsNextLook clock mailbox listeners.now result }
    ensures room { room changed.new ≡ room changed.old }
    ensures marks { (p : ℕ) → is_marked changed.new p ≡ (list_any (λ l. p == l.param
        && is_ending clock (held_for mailbox l.stale)) listeners.now
        || is_marked changed.old p) }
    ensures summed { AreSummed changed.old busy.old → AreSummed changed.new busy.new }
{
    let mut next = NEVER;
    for i in 0..listeners.len() {
        let listener = listeners[i];
        let received = held_for(mailbox, listener.stale);
        let ends = is_ending(received, clock);
        mark_summed(changed, busy, usize::from(listener.param), ends);
        next = next.min(next_look(received, clock));
    }
    next
}

/// Each mailbox is looked at in the next moment.
pub fn look_soon(dues: &mut Wakes, count: usize)
    requires { length dues.old ≡ count }
    ensures count { length dues.new ≡ count }
    ensures soon { (q : ℕ) → slice_index dues.new q ≡ 0 }
{
    for mailbox in 0..count {
        dues.set(mailbox, 0);
    }
}
