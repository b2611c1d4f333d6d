// The values of parameters.
ghost use Rattle.std.specs.Prelude.{◌≡◌, ℕ, suc, ◌+◌, ◌-◌, ◌*◌, ◌<◌, ◌≤◌, ◌^◌, true, false, List, [], length, map, slice_index, slice_index_or, None, IfOk, IfSome};
ghost use Rattle.std.specs.Box.{boxed_slice_items};
ghost use Rattle.std.specs.Int.{bit_at};
ghost use Rattle.ecam_spec.specs.Value.{BusWord, value};
ghost use Rattle.ecam_spec.specs.Book as plain;
ghost use Rattle.ecam_spec.specs.Situation.{parameter_at};
ghost use Rattle.ecam_spec.specs.History.{OneMore};
ghost use Rattle.wakes.specs.Marks.{is_marked, room};
ghost use Rattle.book_model.specs.Sealed.{the_book};
ghost use Rattle.book_model.specs.SourcePlaces.{parameter_with};
ghost use Rattle.watch_lists.specs.Watching.{IsWatch};
ghost use Rattle.param_table.specs.Asked.{is_asked_for};
ghost use Rattle.param_table.specs.TableState.{ParamsFit, ParamsStand, IsValueOf, MayDiffer, IsStill, received_before, received_by, value_before};
ghost use Rattle.param_table.specs.HeldState.{AreEarly};
ghost use Rattle.param_table.specs.Routes.{AreRouted};
ghost use Rattle.param_table.specs.HeldValues.{first_given, given_by, set_back};

use crate::asked::asked_for;
use crate::held::{Held, held_by, look_soon};
use crate::mailbox::{Mailbox, at_start, is_fresh_for, set_back};
use crate::received::{HALF, is_fresh};
use crate::routing::{SharedRouting, routing_of};
use crate::taking::receive;
use crate::words::reading;
use arinc_words::Word;
use book_model::Book;
use std::alloc::{AllocError, Global};
use std::boxed::BoxedSlice;
use wakes::{Marked, Wakes, bits_from, lowest};
use watch_lists::Watch;

/// What the words say that the sources of a book's parameters took last, now and in the last whole moment, how long they are
/// fresh, and which parameters that the book asks for may have another value than in the moment before: those that a
/// condition names or a page shows. Memory is taken in `new`, `watching` and `beside` alone, and nothing grows with the
/// history.
#[derive(Drop)]
pub struct Params {
    // Counts Ticks. At its end it is set back.
    clock: u32,
    held: Held,
    routing: SharedRouting,
}

impl Params {
    /// The table of a book before any word. It makes a watch of the book for itself alone; where there is one, `watching` is
    /// cheaper. An error is want of memory.
    pub fn new(alloc: Global, book: &Book) -> Result<Params, AllocError>
        ensures fits { IfOk result (ParamsFit (the_book book.now)) }
        ensures stands { IfOk result (λ p. (words : ℕ → List BusWord) → words 0 ≡ []
            → ParamsStand (the_book book.now) words 0 p) }
    {
        let watch = Watch::new(alloc, book)?;
        Params::watching(alloc, book, &watch)
    }

    /// The same, by a watch of the book that is there already. An error is want of memory.
    pub fn watching(alloc: Global, book: &Book, watch: &Watch) -> Result<Params, AllocError>
        requires { IsWatch book.now watch.now }
        ensures fits { IfOk result (ParamsFit (the_book book.now)) }
        ensures stands { IfOk result (λ p. (words : ℕ → List BusWord) → words 0 ≡ []
            → ParamsStand (the_book book.now) words 0 p) }
    {
        let asked = asked_for(alloc, book, watch)?;
        let (routing, mailboxes) = routing_of(alloc, book, &asked)?;
        let routing = SharedRouting::new(alloc, routing)?;
        Params::blank(alloc, book, 0, routing, mailboxes)
    }

    /// The same, beside another table of the same book. Both read one copy of what never changes: how each source gets its
    /// words and reads them. An error is want of memory.
    pub fn beside(alloc: Global, book: &Book, other: &Params) -> Result<Params, AllocError>
        requires { ParamsFit (the_book book.now) other.now }
        ensures fits { IfOk result (ParamsFit (the_book book.now)) }
        ensures stands { IfOk result (λ p. (words : ℕ → List BusWord) → words 0 ≡ []
            → ParamsStand (the_book book.now) words 0 p) }
    {
        let routing = other.routing.share()?;
        let mut mailboxes = Vec::new(alloc);
        mailboxes.extend_from_slice(&other.held.mailboxes)?;
        Params::blank(
            alloc,
            book,
            other.clock,
            routing,
            mailboxes.into_boxed_slice(),
        )
    }

    // The same, by this routing to these mailboxes, whatever words they hold.
    fn blank(
        alloc: Global,
        book: &Book,
        clock: u32,
        routing: SharedRouting,
        mailboxes: BoxedSlice<Mailbox>,
    ) -> Result<Params, AllocError>
        requires routed { AreRouted (the_book book.now) routing
            (boxed_slice_items mailboxes) }
        requires early { AreEarly clock (boxed_slice_items mailboxes) }
        ensures fits { IfOk result (ParamsFit (the_book book.now)) }
        ensures stands { IfOk result (λ p. (words : ℕ → List BusWord) → words 0 ≡ []
            → ParamsStand (the_book book.now) words 0 p) }
    {
        let params = book.params();
        let changed = Marked::new(alloc, params.len())?;
        let dues = Wakes::new(alloc, mailboxes.len())?;
        let mut blank = Params {
            clock,
            held: Held {
                mailboxes,
                changed,
                busy: 0,
                dues,
            },
            routing,
        };
        blank.clear();
        Ok(blank)
    }

    /// Forgets all words and moments. Its cost is a few writes a mailbox, of which there is one for all sources of a bus, a label
    /// and an SDI, and a write for each 64 parameters.
    pub fn clear(&mut self)
        ensures fits { (b : plain.Book) → ParamsFit b self.old → ParamsFit b self.new }
        ensures stands { (b : plain.Book) (words : ℕ → List BusWord) → ParamsFit b self.old
            → words 0 ≡ []
            → ParamsStand b words 0 self.new }
    {
        self.clock = 0;
        self.held.forget_words();
        self.held.changed.clear();
        self.held.busy = 0;
        self.held.dues.clear();
    }

    /// Takes over the words and the moments of another table of the same book. Its cost is a few writes a mailbox, of which there
    /// is one for all sources of a bus, a label and an SDI, and a write for each 64 parameters.
    pub fn copy_from(&mut self, other: &Params)
        requires { (b : plain.Book) × ParamsFit b self.old × ParamsFit b other.now }
        ensures fits { (b : plain.Book) → ParamsFit b self.old → ParamsFit b other.now
            → ParamsFit b self.new }
        ensures stands { (b : plain.Book) (words : ℕ → List BusWord) (k : ℕ) → ParamsFit b self.old
            → ParamsStand b words k other.now → ParamsStand b words k self.new }
    {
        self.clock = other.clock;
        self.held.copy_words(&other.held.mailboxes);
        self.held.changed.copy_from(&other.held.changed);
        self.held.busy = other.held.busy;
        self.held.dues.copy_from(&other.held.dues);
    }

    /// A word comes on a bus in the moment that hasn't ended. Its cost is one look-up by bus and label, and, where the
    /// parity is odd, a look and two writes at each of at most two mailboxes: that of the sources which name no SDI, and
    /// that of those which name the word's, where there are such; with the first word of a moment also two writes more.
    /// Where the bits are those of the last word, and words come often enough to keep it fresh, that is all, however many
    /// sources take it; where they are others, also a look and a mark at each of these whose parameter the book asks for.
    /// Where it asks for none, no source is looked at, however the bits change.
    // (It stands in its caller, so that a word that no source listens to costs no call. The look-up comes before the
    // parity, since which words a book listens to is easier to foresee.)
    #[inline(always)]
    pub fn take(&mut self, book: &Book, bus: u8, bits: u32)
        requires { ParamsFit (the_book book.now) self.old }
        ensures fits { ParamsFit (the_book book.now) self.new }
        ensures stands { (old new : ℕ → List BusWord) (k : ℕ)
            → OneMore old new k (record { bus = bus; bits = bits })
            → ParamsStand (the_book book.now) old k self.old
            → ParamsStand (the_book book.now) new k self.new }
    {
        let Some(last) = book.last_listener(bus, bits) else {
            return;
        };
        if Word::new(bits).odd() {
            let clock = self.clock;
            receive(
                &mut self.held,
                self.routing.table(),
                book,
                clock,
                bus,
                bits,
                last,
            );
        }
    }

    /// Whether any source of the book listens to a word's bus and label. A word to which none does leaves each table of the
    /// book as it is. Its cost is one look-up.
    #[inline(always)]
    pub fn listens(&self, book: &Book, bus: u8, bits: u32) -> bool
        requires { ParamsFit (the_book book.now) self.now }
        ensures { result ≡ false → (p : Params) (old new : ℕ → List BusWord) (k : ℕ)
            → OneMore old new k (record { bus = bus; bits = bits })
            → ParamsStand (the_book book.now) old k p → ParamsStand (the_book book.now) new k p }
    {
        book.last_listener(bus, bits).is_some()
    }

    /// The moment ends. What is fresh is told by the clock, so that a Tick costs a look at the mailboxes whose words may end to
    /// be fresh for one who listens, and one at each of its listeners where one does; one at each other mailbox in 63 moments;
    /// and, where a parameter was marked, a write for each 64; but the first and one in 2^31 cost a few writes a mailbox.
    #[inline(always)]
    pub fn tick(&mut self, _book: &Book)
        requires { ParamsFit (the_book _book.now) self.old }
        ensures fits { ParamsFit (the_book _book.now) self.new }
        ensures stands { (words : ℕ → List BusWord) (k : ℕ) → words (suc k) ≡ []
            → ParamsStand (the_book _book.now) words k self.old
            → ParamsStand (the_book _book.now) words (suc k) self.new }
    {
        if self.clock == u32::MAX {
            self.set_clock_back();
        }
        self.clock += 1;
        self.held.forget_changes();
        self.held
            .look_at_due(_book, self.routing.table(), self.clock);
    }

    /// Whether it is known that the end of the moment changes nothing but the clock: no parameter that the book asks for may
    /// have another value than in the moment before, and no word of a source of one may end to be fresh with this one. Its
    /// cost is three looks; where mailboxes wait for the moment, also one for each 64 and one at each that waits.
    #[inline(always)]
    pub fn is_still(&self, _book: &Book) -> bool
        requires { ParamsFit (the_book _book.now) self.now }
        ensures still { result ≡ true → IsStill self.now }
        ensures same { result ≡ true → (words : ℕ → List BusWord) (k : ℕ)
            → ParamsStand (the_book _book.now) words k self.now
            → (p : ℕ) → p < length (the_book _book.now).parameters
            → is_asked_for (the_book _book.now) p ≡ true
            → value (parameter_at (the_book _book.now) p) words k
            ≡ value_before (parameter_at (the_book _book.now) p) words k }
    {
        self.clock != u32::MAX
            && self.held.dues.first(u64::from(self.clock) + 1).is_none()
            && self.held.unmarked()
    }

    /// The moment ends like by `tick`, where nothing but the clock changes. Its cost is two writes; where mailboxes wait for
    /// the moment, also a look for each 64 and a few writes for each that waits.
    #[inline(always)]
    pub fn pass(&mut self, _book: &Book)
        requires fits { ParamsFit (the_book _book.now) self.old }
        requires still { IsStill self.old }
        ensures fits { ParamsFit (the_book _book.now) self.new }
        ensures stands { (words : ℕ → List BusWord) (k : ℕ) → words (suc k) ≡ []
            → ParamsStand (the_book _book.now) words k self.old
            → ParamsStand (the_book _book.now) words (suc k) self.new }
    {
        self.clock += 1;
        self.held.dues.pass(u64::from(self.clock));
    }

    /// The value of a parameter in the moment that hasn't ended, by the words so far: `None` exactly where no
    /// source is fresh with a value. Its cost is a look at each of its sources.
    pub fn value(&self, book: &Book, param: usize) -> Option<i64>
        requires fits { ParamsFit (the_book book.now) self.now }
        requires param { param < length book.now.params.items }
        ensures value { (words : ℕ → List BusWord) (k : ℕ)
            → ParamsStand (the_book book.now) words k self.now
            → result ≡ value (parameter_at (the_book book.now) param) words k }
        ensures bound { IfSome result (IsValueOf (parameter_at (the_book book.now) param).kind) }
    {
        self.first_value(book, 3 * param)
    }

    /// The value of a parameter in the last whole moment, by the words up to it: `None` where no source was fresh with a
    /// value, and before the first moment. Its cost is a look at each of its sources.
    pub fn value_before(&self, book: &Book, param: usize) -> Option<i64>
        requires fits { ParamsFit (the_book book.now) self.now }
        requires param { param < length book.now.params.items }
        ensures value { (words : ℕ → List BusWord) (k : ℕ)
            → ParamsStand (the_book book.now) words k self.now
            → result ≡ value_before (parameter_at (the_book book.now) param) words k }
        ensures bound { IfSome result (IsValueOf (parameter_at (the_book book.now) param).kind) }
    {
        self.first_value_before(book, 3 * param)
    }

    /// Whether it is known that no parameter that the book asks for has another value than in the moment before. Its cost is
    /// one look.
    pub fn none_changed(&self, _book: &Book) -> bool
        requires { ParamsFit (the_book _book.now) self.now }
        ensures { result ≡ true → (words : ℕ → List BusWord) (k : ℕ)
            → ParamsStand (the_book _book.now) words k self.now
            → (p : ℕ) → p < length (the_book _book.now).parameters
            → is_asked_for (the_book _book.now) p ≡ true
            → value (parameter_at (the_book _book.now) p) words k
            ≡ value_before (parameter_at (the_book _book.now) p) words k }
    {
        self.held.unmarked()
    }

    /// The 64 parameters from 64 · `place` on, one bit each. It is set of each that the book asks for and may have another
    /// value than in the moment before; where it is set, a source took a word, or the freshness of its last one ended. Of
    /// what the book doesn't ask for it tells no change; compare `value` and `value_before` there. Its cost is one look.
    #[inline(always)]
    pub fn changed_word(&self, _book: &Book, place: usize) -> u64
        requires fits { ParamsFit (the_book _book.now) self.now }
        requires place { 64 * place < length _book.now.params.items }
        ensures within { (i : ℕ) → i < 64 → bit_at result i ≡ 1
            → 64 * place + i < length _book.now.params.items }
        ensures same { (words : ℕ → List BusWord) (k : ℕ)
            → ParamsStand (the_book _book.now) words k self.now
            → (i : ℕ) → i < 64 → bit_at result i ≡ 0
            → 64 * place + i < length _book.now.params.items
            → is_asked_for (the_book _book.now) (64 * place + i) ≡ true
            → value (parameter_at (the_book _book.now) (64 * place + i)) words k
            ≡ value_before (parameter_at (the_book _book.now) (64 * place + i)) words k }
        ensures told { (words : ℕ → List BusWord) (k : ℕ)
            → ParamsStand (the_book _book.now) words k self.now
            → (i : ℕ) → i < 64 → bit_at result i ≡ 1
            → MayDiffer (parameter_at (the_book _book.now) (64 * place + i)) words k }
    {
        self.held.changed.word(place)
    }

    /// The place of the first word of `changed_word` from `from` on that has a bit set, or 64 where none of the first 64 words
    /// has, which are more than a book has parameters for. From 64 on it passes over none. Of the parameters that are passed
    /// over none that the book asks for has another value than in the moment before. Its cost is one look, however many words
    /// are passed over.
    #[inline(always)]
    pub fn next_changed_word(&self, _book: &Book, from: usize) -> usize
        requires fits { ParamsFit (the_book _book.now) self.now }
        ensures from { from ≤ result }
        ensures same { (words : ℕ → List BusWord) (k : ℕ)
            → ParamsStand (the_book _book.now) words k self.now
            → (p : ℕ) → 64 * from ≤ p → p < 64 * result
            → p < length (the_book _book.now).parameters
            → is_asked_for (the_book _book.now) p ≡ true
            → value (parameter_at (the_book _book.now) p) words k
            ≡ value_before (parameter_at (the_book _book.now) p) words k }
    {
        if from >= 64 {
            return from;
        }
        let later = bits_from(self.held.busy, from);
        if later == 0 {
            return 64;
        }
        from + lowest(later)
    }

    /// The parameters that the book asks for and that may have another value than in the moment before. Of what the book
    /// doesn't ask for it tells no change. Its cost is one look.
    #[inline(always)]
    pub fn changed(&self) -> &Marked
        ensures value { result.now ≡ self.now.held.changed }
        ensures room { (b : plain.Book) → ParamsFit b self.now
            → length b.parameters ≤ room result.now }
        ensures same { (b : plain.Book) (words : ℕ → List BusWord) (k : ℕ)
            → ParamsStand b words k self.now
            → (p : ℕ) → p < length b.parameters → is_marked result.now p ≡ false
            → is_asked_for b p ≡ true
            → value (parameter_at b p) words k ≡ value_before (parameter_at b p) words k }
    {
        &self.held.changed
    }

    // What the first of the sources from this place on gives that gives something.
    fn first_value(&self, _book: &Book, place: usize) -> Option<i64>
        requires fits { ParamsFit (the_book _book.now) self.now }
        requires place { place + 3 ≤ length self.now.routing.rules.items.items }
        ensures value { result ≡ first_given self.now.clock self.now.routing.rules.items.items
            (received_by self.now) place }
        ensures bound { IfSome result (λ v. (q : ℕ) × (place ≤ q) × (q ≤ place + 2)
            × IsValueOf (parameter_with (the_book _book.now).parameters q).kind v) }
    {
        let first = self.given(_book, place);
        if first.is_some() {
            return first;
        }
        let second = self.given(_book, place + 1);
        if second.is_some() {
            return second;
        }
        self.given(_book, place + 2)
    }

    // What the source at a place gives.
    fn given(&self, _book: &Book, place: usize) -> Option<i64>
        requires fits { ParamsFit (the_book _book.now) self.now }
        requires place { place < length self.now.routing.rules.items.items }
        ensures value { result
            ≡ given_by self.now.clock (slice_index_or self.now.routing.rules.items.items place None)
            (received_by self.now place) }
        ensures bound { IfSome result
            (IsValueOf (parameter_with (the_book _book.now).parameters place).kind) }
    {
        let rule = self.routing.table().rules[place]?;
        let received = held_by(&rule, &self.held.mailboxes, self.clock);
        if !is_fresh(received, self.clock) {
            return None;
        }
        reading(rule.kind, rule.low, rule.range, &Word::new(received.bits))
    }

    // What the first of the sources from this place on gave in the last whole moment that gave something.
    fn first_value_before(&self, _book: &Book, place: usize) -> Option<i64>
        requires fits { ParamsFit (the_book _book.now) self.now }
        requires place { place + 3 ≤ length self.now.routing.rules.items.items }
        ensures value { result
            ≡ first_given (self.now.clock - 1) self.now.routing.rules.items.items
            (received_before self.now) place }
        ensures bound { IfSome result (λ v. (q : ℕ) × (place ≤ q) × (q ≤ place + 2)
            × IsValueOf (parameter_with (the_book _book.now).parameters q).kind v) }
    {
        let first = self.given_before(_book, place);
        if first.is_some() {
            return first;
        }
        let second = self.given_before(_book, place + 1);
        if second.is_some() {
            return second;
        }
        self.given_before(_book, place + 2)
    }

    // What the source at a place gave in the last whole moment.
    fn given_before(&self, _book: &Book, place: usize) -> Option<i64>
        requires fits { ParamsFit (the_book _book.now) self.now }
        requires place { place < length self.now.routing.rules.items.items }
        ensures value { result ≡ given_by (self.now.clock - 1)
            (slice_index_or self.now.routing.rules.items.items place None)
            (received_before self.now place) }
        ensures bound { IfSome result
            (IsValueOf (parameter_with (the_book _book.now).parameters place).kind) }
    {
        let rule = self.routing.table().rules[place]?;
        let now = self.held.mailboxes[usize::from(rule.mailbox)];
        let mailbox = at_start(now, self.clock);
        if !is_fresh_for(mailbox, self.clock.saturating_sub(1), rule.stale) {
            return None;
        }
        reading(rule.kind, rule.low, rule.range, &Word::new(mailbox.bits))
    }

    // Sets the clock back by half of what it can show, with the times of the words. Each mailbox is looked at soon.
    #[inline(never)]
    fn set_clock_back(&mut self)
        requires clock { self.old.clock ≡ 2 ^ 32 - 1 }
        requires count { length self.old.held.dues
            ≡ length self.old.held.mailboxes.items.items }
        ensures clock { self.new.clock ≡ 2 ^ 31 - 1 }
        ensures routing { self.new.routing ≡ self.old.routing }
        ensures changed { self.new.held.changed ≡ self.old.held.changed }
        ensures busy { self.new.held.busy ≡ self.old.held.busy }
        ensures mailboxes { self.new.held.mailboxes.items.items
            ≡ map set_back self.old.held.mailboxes.items.items }
        ensures count { length self.new.held.dues ≡ length self.old.held.dues }
        ensures soon { (q : ℕ) → slice_index self.new.held.dues q ≡ 0 }
    {
        self.clock -= HALF;
        let count = self.held.mailboxes.len();
        look_soon(&mut self.held.dues, count);
        for mailbox in self.held.mailboxes.iter_mut() {
            *mailbox = set_back(*mailbox);
        }
    }
}
