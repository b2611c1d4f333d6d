// The lights and the sound.
ghost use Rattle.std.specs.Prelude.{◌≡◌, ◌≢◌, ◌↔◌, ℕ, suc, ◌+◌, ◌*◌, ◌/◌, ◌<◌, length, IfOk, false, true};
ghost use Rattle.ecam_spec.specs.Book as plain;
ghost use Rattle.ecam_spec.specs.Lamps as lamps;
ghost use Rattle.book_model.specs.Sealed.{the_book};
ghost use Rattle.wakes.specs.Marks.{is_marked, room};
ghost use Rattle.attention.specs.State.{AttentionFits, CanGoOn, AreOfBook, Brings, StaysAt, AreStill, NothingComes, AttentionStands, IsSteady, lights_after, lights_of, TellsChange};

use crate::callers::Callers;
use crate::calls::Calls;
use crate::latest::Latest;
use crate::moment::{Moment, Presses};
use crate::walk::{join_open, mark_all, walk};
use crate::watch::Watch;
use book_model::Book;
use ecam_kinds::{Keys, Sound};
use std::alloc::{AllocError, Global};
use std::boxed::BoxedSlice;
use wakes::Marked;

/// What MASTER WARN, MASTER CAUT and the aural warning are after the moments so far, and what these leave for the
/// next. Memory is taken in `new` alone, and nothing grows with the history.
#[derive(Drop)]
pub struct Attention {
    // How many moments there were.
    moments: u64,
    // Per alert, by its place in the book.
    watches: BoxedSlice<Watch>,
    // At least the alerts whose onset is open.
    still_open: Marked,
    // Those that call for something.
    callers: Callers,
    // Those that are looked at in a moment.
    looked: Marked,
    // What the last moment called for.
    calls: Calls,
    changed: bool,
}

// What the others see of it.
#[derive(Clone, Copy, PartialEq, Eq)]
struct Lights {
    warn: bool,
    caut: bool,
    sound: Sound,
}

impl Attention {
    /// Before the first moment: no light, no sound. An error is want of memory.
    pub fn new(alloc: Global, book: &Book) -> Result<Attention, AllocError>
        ensures fits { IfOk result (AttentionFits (the_book book.now)) }
        ensures moments { IfOk result (λ t. t.moments ≡ 0) }
        ensures stands { IfOk result (λ t. (a : lamps.Attention)
            → AttentionStands (the_book book.now) a 0 t) }
        ensures changed { IfOk result (λ t. t.changed ≡ false) }
    {
        let alerts = book.alerts().len();
        let mut watches = Vec::new(alloc);
        watches.resize(alerts, Watch::new())?;
        let still_open = Marked::new(alloc, alerts)?;
        let callers = Callers::new(alloc, alerts)?;
        let looked = Marked::new(alloc, alerts)?;
        Ok(Attention {
            moments: 0,
            watches: watches.into_boxed_slice(),
            still_open,
            callers,
            looked,
            calls: Calls::none(),
            changed: false,
        })
    }

    /// Forgets all moments. Its cost is one write an alert.
    pub fn clear(&mut self)
        ensures fits { (b : plain.Book) → AttentionFits b self.old → AttentionFits b self.new }
        ensures moments { self.new.moments ≡ 0 }
        ensures stands { (b : plain.Book) (a : lamps.Attention) → AttentionFits b self.old
            → AttentionStands b a 0 self.new }
        ensures changed { self.new.changed ≡ false }
    {
        self.moments = 0;
        self.watches.as_mut_slice().fill(Watch::new());
        self.still_open.clear();
        self.callers.clear();
        self.calls = Calls::none();
        self.changed = false;
    }

    /// Takes over the moments of another of the same book. Its cost is one write an alert.
    pub fn copy_from(&mut self, other: &Attention)
        requires { (b : plain.Book) × AttentionFits b self.old × AttentionFits b other.now }
        ensures fits { (b : plain.Book) → AttentionFits b other.now → AttentionFits b self.new }
        ensures moments { self.new.moments ≡ other.now.moments }
        ensures stands { (b : plain.Book) (a : lamps.Attention) (k : ℕ)
            → AttentionStands b a k other.now
            → AttentionStands b a k self.new }
        ensures changed { self.new.changed ≡ other.now.changed }
    {
        self.moments = other.moments;
        self.watches
            .as_mut_slice()
            .copy_from_slice(other.watches.as_slice());
        self.still_open.copy_from(&other.still_open);
        self.callers.copy_from(&other.callers);
        self.calls = other.calls;
        self.changed = other.changed;
    }

    /// Takes one moment more, of 100 ms: per alert whether it is up and whether it is shown, and the keys that are
    /// pressed in it. Its cost is a few looks and writes at each alert.
    pub fn step(&mut self, book: &Book, up: &[bool], shown: &[bool], keys: &Keys)
        requires fits { AttentionFits (the_book book.now) self.old }
        requires goes_on { CanGoOn self.old }
        requires up { length up.now ≡ length book.now.alerts.items }
        requires shown { length shown.now ≡ length book.now.alerts.items }
        ensures fits { AttentionFits (the_book book.now) self.new }
        ensures moments { self.new.moments ≡ self.old.moments + 1 }
        // Whatever the moments before were, the state then stands for one more.
        ensures stands { (a : lamps.Attention) (k : ℕ) → AreOfBook (the_book book.now) a
            → Brings (the_book book.now) a k up.now shown.now keys.now
            → AttentionStands (the_book book.now) a k self.old
            → AttentionStands (the_book book.now) a (suc k) self.new }
    {
        mark_all(&mut self.looked, book.alerts().len());
        self.step_looked(book, up, shown, keys);
    }

    /// Takes one moment more like `step`, where each alert that isn't in `turned` is up and shown as in the moment before.
    /// Its cost is four looks and a write for each 64 alerts, and a few looks and writes at each that is in `turned`, and at
    /// those whose onset is open where a key acknowledges. Where one with the latest onset of those that call with a chime
    /// no longer does so, and none comes to do so with one as late, it is one look more for each 64 alerts, and a read at
    /// each that does. In the first moment it is that of `step`.
    pub fn step_turned(
        &mut self,
        book: &Book,
        up: &[bool],
        shown: &[bool],
        turned: &Marked,
        keys: &Keys,
    )
        requires fits { AttentionFits (the_book book.now) self.old }
        requires goes_on { CanGoOn self.old }
        requires up { length up.now ≡ length book.now.alerts.items }
        requires shown { length shown.now ≡ length book.now.alerts.items }
        requires turned_room { room turned.now ≡ 64 * (length book.now.alerts.items / 64 + 1) }
        ensures fits { AttentionFits (the_book book.now) self.new }
        ensures moments { self.new.moments ≡ self.old.moments + 1 }
        ensures stands { (a : lamps.Attention) (k : ℕ) → AreOfBook (the_book book.now) a
            → Brings (the_book book.now) a k up.now shown.now keys.now
            → ((i : ℕ) → i < length (the_book book.now).alerts → is_marked turned.now i ≡ false
            → StaysAt a k i)
            → AttentionStands (the_book book.now) a k self.old
            → AttentionStands (the_book book.now) a (suc k) self.new }
    {
        if self.moments == 0 {
            self.step(book, up, shown, keys);
            return;
        }
        self.looked.copy_from(turned);
        self.step_looked(book, up, shown, keys);
    }

    // Takes one moment more like `step`, where each alert that isn't in `looked` is up and shown as in the moment before.
    fn step_looked(&mut self, book: &Book, up: &[bool], shown: &[bool], keys: &Keys)
        requires fits { AttentionFits (the_book book.now) self.old }
        requires goes_on { CanGoOn self.old }
        requires up { length up.now ≡ length book.now.alerts.items }
        requires shown { length shown.now ≡ length book.now.alerts.items }
        ensures fits { AttentionFits (the_book book.now) self.new }
        ensures moments { self.new.moments ≡ self.old.moments + 1 }
        ensures stands { (a : lamps.Attention) (k : ℕ) → AreOfBook (the_book book.now) a
            → Brings (the_book book.now) a k up.now shown.now keys.now
            → ((i : ℕ) → i < length (the_book book.now).alerts
            → is_marked self.old.looked i ≡ false → (k ≢ 0) × StaysAt a k i)
            → AttentionStands (the_book book.now) a k self.old
            → AttentionStands (the_book book.now) a (suc k) self.new }
    {
        let moment = Moment {
            number: self.moments,
            up,
            shown,
            presses: Presses::among(keys),
        };
        join_open(&mut self.looked, &self.still_open, moment.presses);
        let alerts = book.alerts();
        let latest = walk(
            self.watches.as_mut_slice(),
            &mut self.still_open,
            &mut self.callers,
            &self.looked,
            alerts,
            &moment,
            Latest {
                onset: self.calls.chime,
                is_known: true,
            },
        );
        let calls = self.callers.calls(self.watches.as_slice(), alerts, latest);
        self.hear(calls);
    }

    /// Takes one moment more in which nothing comes: each alert is up and shown as in the last moment, and no press
    /// acknowledges. A chime may end in it. It looks at no alert.
    pub fn rest(&mut self)
        requires { CanGoOn self.old }
        ensures fits { (b : plain.Book) → AttentionFits b self.old → AttentionFits b self.new }
        ensures moments { self.new.moments ≡ self.old.moments + 1 }
        ensures stands { (b : plain.Book) (a : lamps.Attention) (k : ℕ) → NothingComes a k
            → AttentionStands b a (suc k) self.old → AttentionStands b a (suc (suc k)) self.new }
    {
        self.hear(self.calls);
    }

    /// Whether no chime can end by itself: a warning sounds, or nothing does. As long as nothing comes the sound then stays
    /// as it is. Its cost is a few comparisons.
    pub fn is_steady(&self) -> bool
        ensures { result ≡ true → IsSteady self.now }
    {
        self.calls.are_steady(self.moments)
    }

    /// Takes one moment more in which nothing comes, like `rest`, where no chime can end by itself. Its cost is two writes:
    /// the lights and the sound stay as they are, and so does that no chime can end by itself.
    pub fn pass(&mut self)
        requires goes_on { CanGoOn self.old }
        requires steady { IsSteady self.old }
        ensures fits { (b : plain.Book) → AttentionFits b self.old → AttentionFits b self.new }
        ensures moments { self.new.moments ≡ self.old.moments + 1 }
        ensures changed { self.new.changed ≡ false }
        ensures steady { IsSteady self.new }
        ensures stands { (b : plain.Book) (a : lamps.Attention) (k : ℕ) → NothingComes a k
            → AttentionStands b a (suc k) self.old → AttentionStands b a (suc (suc k)) self.new }
    {
        self.moments += 1;
        self.changed = false; // the calls stay, and so does the sound
    }

    /// Takes one moment more like `pass`, where the last one changed neither the lights nor the sound. Its cost is one write.
    pub fn go_on(&mut self)
        requires goes_on { CanGoOn self.old }
        requires steady { IsSteady self.old }
        requires changed { self.old.changed ≡ false }
        ensures fits { (b : plain.Book) → AttentionFits b self.old → AttentionFits b self.new }
        ensures moments { self.new.moments ≡ self.old.moments + 1 }
        ensures changed { self.new.changed ≡ false }
        ensures steady { IsSteady self.new }
        ensures stands { (b : plain.Book) (a : lamps.Attention) (k : ℕ) → NothingComes a k
            → AttentionStands b a (suc k) self.old → AttentionStands b a (suc (suc k)) self.new }
    {
        self.moments += 1;
    }

    /// Takes one moment more like `step`, where each alert is up and shown as in the moment before. It looks at no alert
    /// unless the moment is the first, or a press acknowledges. Then its cost is that of `step_turned` where none turned.
    pub fn step_still(&mut self, book: &Book, up: &[bool], shown: &[bool], keys: &Keys)
        requires fits { AttentionFits (the_book book.now) self.old }
        requires goes_on { CanGoOn self.old }
        requires up { length up.now ≡ length book.now.alerts.items }
        requires shown { length shown.now ≡ length book.now.alerts.items }
        ensures fits { AttentionFits (the_book book.now) self.new }
        ensures moments { self.new.moments ≡ self.old.moments + 1 }
        ensures stands { (a : lamps.Attention) (k : ℕ) → AreOfBook (the_book book.now) a
            → Brings (the_book book.now) a k up.now shown.now keys.now → AreStill a k
            → AttentionStands (the_book book.now) a k self.old
            → AttentionStands (the_book book.now) a (suc k) self.new }
    {
        if self.moments == 0 {
            self.step(book, up, shown, keys);
            return;
        }
        let presses = Presses::among(keys);
        if presses.any() {
            self.looked.clear();
            self.step_looked(book, up, shown, keys);
            return;
        }
        self.rest();
    }

    // One moment more, with these calls.
    fn hear(&mut self, calls: Calls)
        requires { CanGoOn self.old }
        ensures moments { self.new.moments ≡ self.old.moments + 1 }
        ensures calls { self.new.calls ≡ calls }
        ensures watches { self.new.watches ≡ self.old.watches }
        ensures still_open { self.new.still_open ≡ self.old.still_open }
        ensures callers { self.new.callers ≡ self.old.callers }
        ensures looked { self.new.looked ≡ self.old.looked }
        ensures changed { TellsChange self.old self.new }
    {
        let before = self.lights();
        self.moments += 1;
        self.calls = calls;
        self.changed = self.lights() != before;
    }

    fn lights(&self) -> Lights
        ensures { result ≡ lights_of self.now }
    {
        Lights {
            warn: self.warn(),
            caut: self.caut(),
            sound: self.sound(),
        }
    }

    /// MASTER WARN is lit in the last moment. Before the first it isn't.
    pub fn warn(&self) -> bool
        ensures value { result ≡ (lights_of self.now).warn }
        ensures answer { (b : plain.Book) (a : lamps.Attention) (k : ℕ)
            → AttentionStands b a k self.now
            → result ≡ (lights_after a k).warn }
    {
        self.calls.warning.is_some()
    }

    /// MASTER CAUT is lit in the last moment. Before the first it isn't.
    pub fn caut(&self) -> bool
        ensures value { result ≡ (lights_of self.now).caut }
        ensures answer { (b : plain.Book) (a : lamps.Attention) (k : ℕ)
            → AttentionStands b a k self.now
            → result ≡ (lights_after a k).caut }
    {
        self.calls.caution
    }

    /// The aural warning in the last moment. Before the first there is none.
    pub fn sound(&self) -> Sound
        ensures value { result ≡ (lights_of self.now).sound }
        ensures answer { (b : plain.Book) (a : lamps.Attention) (k : ℕ)
            → AttentionStands b a k self.now
            → result ≡ (lights_after a k).sound }
    {
        self.calls.sound(self.moments)
    }

    /// In the last moment a light or the sound is other than in the one before. Before the first it is `false`.
    pub fn changed(&self) -> bool
        ensures value { result ≡ self.now.changed }
        ensures answer { (b : plain.Book) (a : lamps.Attention) (k : ℕ)
            → AttentionStands b a (suc k) self.now
            → (result ≡ false) ↔ (lights_after a (suc k) ≡ lights_after a k) }
    {
        self.changed
    }
}
