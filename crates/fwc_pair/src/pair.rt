// The two flight warning computers, and the picture that they show.
ghost use Rattle.std.specs.Prelude.{◌≡◌, ◌↔◌, ◌<◌, ◌^◌, ◌==◌, ◌++◌, ◌∷◌, ℕ, [], List, true, false, length, IfOk, IfSome, IsNone, if◌then◌else◌};
ghost use Rattle.ecam_spec.specs.declared.kinds.Event.{Event};
ghost use Rattle.ecam_spec.specs.declared.kinds.Event.TheVariants.{Word, Tick, Up, End};
ghost use Rattle.ecam_spec.specs.Book as plain;
ghost use Rattle.ecam_spec.specs.Keys.{IsEvent};
ghost use Rattle.ecam_spec.specs.History.{none_up, set_flag, flags_with, flags_after, era, begun};
ghost use Rattle.ecam_spec.specs.Replay.{is_tick, tick_count, picture, last_picture};
ghost use Rattle.ecam_spec.specs.Replay as replay;
ghost use Rattle.ecam_kinds.specs.Shown.{picture_of};
ghost use Rattle.book_model.specs.Sealed.{the_book};
ghost use Rattle.fwc_lane.specs.ChangedRows.{TellsRows, NoneChanged};
ghost use Rattle.fwc_lane.specs.LaneStands.{LaneStands};
ghost use Rattle.fwc_pair.specs.PairState.{flags_of, moments_of, PairFits, UpStand, PairStands};
ghost use Rattle.fwc_pair.specs.PairVisits.{Visits, NoVisits, tick_visits};

use crate::computer::{hear, step, tick, wake};
use crate::face::show;
use crate::standing::{Standing, standing_by};
use book_model::Book;
use ecam_kinds::{Event, Picture, ROWS};
use fwc_lane::Lane;
use std::alloc::{AllocError, Global};

/// Two computers that run side by side. They read one copy of the codes by which conditions are stepped, and of which nodes
/// ask for what, which nothing changes; all else each has on memory of its own. While one is up, the failure of the other
/// changes nothing. Memory is taken in `new` alone, and nothing grows with the history.
#[derive(Drop)]
pub struct Pair {
    /// Computer 1, and computer 2. What one that is down holds has no bearing.
    pub one: Lane,
    pub two: Lane,
    /// Which of them are up.
    pub one_up: bool,
    pub two_up: bool,
    /// The picture of the last Tick.
    pub face: Picture,
    /// Which of its rows the last Tick changed.
    pub changed: [bool; ROWS],
    /// It is known that the last Tick changed none.
    pub still: bool,
}

impl Pair {
    /// The pair before any event: both computers are up, and the picture is blank. An error is want of memory.
    pub fn new(alloc: Global, book: &Book) -> Result<Pair, AllocError>
        ensures fits { IfOk result (PairFits (the_book book.now)) }
        ensures stands { IfOk result (PairStands (the_book book.now) []) }
    {
        let one = Lane::new(alloc, book)?;
        let two = Lane::beside(alloc, book, &one)?;
        Ok(Pair {
            one,
            two,
            one_up: true,
            two_up: true,
            face: Picture::blank(),
            changed: [false; ROWS],
            still: false,
        })
    }

    /// Gives back the memory of both lanes, one lane after the other. Where a pair is dropped in place, a proof has to go
    /// through each list of both lanes at once, so whoever owns a pair calls this at its end.
    pub fn give_up(self) {
        let Pair { one, two, .. } = self;
        give_up_lane(one);
        give_up_lane(two);
    }

    /// Forgets all events. Costs a write for each thing that the two lanes keep.
    pub fn restart(&mut self, book: &Book)
        requires { PairFits (the_book book.now) self.old }
        ensures fits { PairFits (the_book book.now) self.new }
        ensures stands { PairStands (the_book book.now) [] self.new }
        ensures unvisited { NoVisits self.old self.new }
    {
        self.one.cold(book);
        self.two.cold(book);
        self.one_up = true;
        self.two_up = true;
        self.face = Picture::blank();
        self.changed = [false; ROWS];
        self.still = false;
    }

    /// Takes the next event of a history. A word costs one look-up, and where any source listens to it, for each computer
    /// that is up, one more, a few writes at each of at most two mailboxes, and at most a look at each source that takes it
    /// and whose parameter the book asks for; a stroke a write. A Tick costs what it costs each computer that is up, and the
    /// comparison of the rows that changed. A computer that fails costs nothing; one that comes up takes over all that the
    /// other holds, or starts cold where that is down too.
    // (It stands in its caller, so that a word goes to the two computers at once.)
    #[inline(always)]
    pub fn event(&mut self, book: &Book, event: &Event)
        requires fits { PairFits (the_book book.now) self.old }
        requires event { IsEvent event.now }
        requires moments { is_tick event.now ≡ true → moments_of self.old < 2 ^ 63 }
        ensures fits { PairFits (the_book book.now) self.new }
        // Whatever the history was, and whichever computers failed in it.
        ensures stands { (h : List Event) → PairStands (the_book book.now) h self.old
            → PairStands (the_book book.now) (h ++ event.now ∷ []) self.new }
        // The end of a record is no event of a history.
        ensures end { event.now ≡ End → (h : List Event) → PairStands (the_book book.now) h self.old
            → PairStands (the_book book.now) h self.new }
        // A Tick counts, on each computer that is up, the nodes of the conditions that its moment wakes, and of no others.
        ensures visits { (h : List Event) → PairStands (the_book book.now) h self.old
            → is_tick event.now ≡ true
            → Visits self.old.one_up (tick_visits (the_book book.now) h) self.old.one self.new.one
            × Visits self.old.two_up (tick_visits (the_book book.now) h) self.old.two
            self.new.two }
        ensures unvisited { is_tick event.now ≡ false → NoVisits self.old self.new }
    {
        match event {
            Event::Word { bus, bits } => self.take_word(book, *bus, *bits),
            Event::Tick => self.take_tick(book),
            _ => self.take_other(book, event),
        }
    }

    // The same, where it is a word: it comes to each computer that is up, and nothing else changes. One to which no source
    // listens is looked up once, and not by each computer.
    #[inline(always)]
    fn take_word(&mut self, book: &Book, bus: u8, bits: u32)
        requires { PairFits (the_book book.now) self.old }
        ensures fits { PairFits (the_book book.now) self.new }
        ensures stands { (h : List Event) → PairStands (the_book book.now) h self.old
            → PairStands (the_book book.now) (h ++ Word bus bits ∷ []) self.new }
        ensures unvisited { NoVisits self.old self.new }
    {
        if self.one.hears(book, bus, bits) {
            hear(&mut self.one, self.one_up, book, bus, bits);
            hear(&mut self.two, self.two_up, book, bus, bits);
        }
    }

    // The same, where it is a Tick.
    #[inline(always)]
    fn take_tick(&mut self, book: &Book)
        requires fits { PairFits (the_book book.now) self.old }
        requires moments { moments_of self.old < 2 ^ 63 }
        ensures fits { PairFits (the_book book.now) self.new }
        ensures stands { (h : List Event) → PairStands (the_book book.now) h self.old
            → PairStands (the_book book.now) (h ++ Tick ∷ []) self.new }
        ensures visits { (h : List Event) → PairStands (the_book book.now) h self.old
            → Visits self.old.one_up (tick_visits (the_book book.now) h) self.old.one self.new.one
            × Visits self.old.two_up (tick_visits (the_book book.now) h) self.old.two
            self.new.two }
    {
        tick(&mut self.one, self.one_up, book, self.one_up, self.two_up);
        tick(&mut self.two, self.two_up, book, self.one_up, self.two_up);
        show(
            &mut self.face,
            &mut self.changed,
            &mut self.still,
            &self.one,
            self.one_up,
            &self.two,
            self.two_up,
        );
    }

    // The same, of what is no Tick. (It stands by itself, since an event that is neither a Tick nor a word seldom comes.)
    #[inline(never)]
    fn take_other(&mut self, book: &Book, event: &Event)
        requires fits { PairFits (the_book book.now) self.old }
        requires event { IsEvent event.now }
        requires quiet { is_tick event.now ≡ false }
        ensures fits { PairFits (the_book book.now) self.new }
        ensures stands { (h : List Event) → PairStands (the_book book.now) h self.old
            → PairStands (the_book book.now) (h ++ event.now ∷ []) self.new }
        ensures end { event.now ≡ End → (h : List Event) → PairStands (the_book book.now) h self.old
            → PairStands (the_book book.now) h self.new }
        ensures unvisited { NoVisits self.old self.new }
    {
        self.note_health(book, event);
        step(
            &mut self.one,
            self.one_up,
            book,
            event,
            self.one_up,
            self.two_up,
        );
        step(
            &mut self.two,
            self.two_up,
            book,
            event,
            self.one_up,
            self.two_up,
        );
    }

    // Notes which computers are up after an event, and brings up one that comes up.
    fn note_health(&mut self, book: &Book, event: &Event)
        requires { PairFits (the_book book.now) self.old }
        ensures fits { PairFits (the_book book.now) self.new }
        ensures flags { flags_of self.new ≡ flags_with (flags_of self.old) event.now }
        ensures face { self.new.face ≡ self.old.face }
        ensures changed { self.new.changed ≡ self.old.changed }
        ensures still { self.new.still ≡ self.old.still }
        ensures stands { (h : List Event) → flags_of self.old ≡ flags_after h
            → UpStand (the_book book.now) (era h) self.old
            → UpStand (the_book book.now) (begun h event.now) self.new }
        ensures unvisited { NoVisits self.old self.new }
    {
        match *event {
            Event::Fail(computer) => self.fail(computer),
            Event::Up(computer) => self.wake(book, computer),
            Event::Word { bus: _, bits: _ } => {}
            Event::Tick => {}
            Event::Press(_) => {}
            Event::Release(_) => {}
            Event::End => {}
        }
    }

    // Computer 1 or 2 goes down.
    fn fail(&mut self, computer: u8)
        ensures { self.new
            ≡ (if computer == 1 then record self.old {
              one_up = false;
            } else record self.old { two_up = false }) }
    {
        if computer == 1 {
            self.one_up = false;
        } else {
            self.two_up = false;
        }
    }

    // Computer 1 or 2 comes up.
    #[inline(never)]
    fn wake(&mut self, book: &Book, computer: u8)
        requires { PairFits (the_book book.now) self.old }
        ensures fits { PairFits (the_book book.now) self.new }
        ensures flags { flags_of self.new ≡ set_flag computer true (flags_of self.old) }
        ensures face { self.new.face ≡ self.old.face }
        ensures changed { self.new.changed ≡ self.old.changed }
        ensures still { self.new.still ≡ self.old.still }
        ensures stands { (h : List Event) → flags_of self.old ≡ flags_after h
            → UpStand (the_book book.now) (era h) self.old
            → UpStand (the_book book.now) (begun h (Up computer)) self.new }
        ensures unvisited { NoVisits self.old self.new }
    {
        if computer == 1 {
            wake(&mut self.one, self.one_up, &self.two, self.two_up, book);
            self.one_up = true;
        } else {
            wake(&mut self.two, self.two_up, &self.one, self.one_up, book);
            self.two_up = true;
        }
    }

    /// The picture of the last Tick, blank before the first.
    pub fn picture(&self) -> &Picture
        ensures value { result.now ≡ self.now.face }
        ensures shows { (b : plain.Book) (h : List Event) → PairStands b h self.now
            → picture_of result.now ≡ last_picture b h }
    {
        &self.face
    }

    /// Which rows of the picture the last Tick changed, from the picture of the Tick before, or from blank at the
    /// first. Before the first Tick there are none.
    pub fn changed(&self) -> &[bool; ROWS]
        ensures value { result.now ≡ self.now.changed }
        ensures tells { (b : plain.Book) (h : List Event) → PairStands b h self.now
            → TellsRows (picture b h) (tick_count h) result.now }
    {
        &self.changed
    }

    /// Whether it is known that the last Tick changed no row.
    pub fn still(&self) -> bool
        ensures value { result ≡ self.now.still }
        ensures tells { (b : plain.Book) → PairFits b self.now → result ≡ true
            → NoneChanged self.now.changed }
    {
        self.still
    }

    /// The first computer that is up.
    pub fn lane(&self) -> Option<&Lane>
        ensures none { IsNone result ↔ (none_up (flags_of self.now) ≡ true) }
        ensures first { IfSome result (λ l. l.now
            ≡ (if self.now.one_up then self.now.one else self.now.two)) }
        ensures stands { (b : plain.Book) (h : List Event) → PairStands b h self.now
            → IfSome result (λ l. LaneStands b (era h) l.now) }
    {
        if self.one_up {
            return Some(&self.one);
        }
        if self.two_up {
            return Some(&self.two);
        }
        None
    }

    /// How many moments, of 100 ms, have ended since the last cold start. While no computer is up it is 0.
    pub fn moments(&self) -> u64
        ensures value { result ≡ moments_of self.now }
        ensures counts { (b : plain.Book) (h : List Event) → PairStands b h self.now
            → result ≡ (if none_up (flags_after h) then 0 else length (era h).moments) }
    {
        match self.lane() {
            Some(lane) => lane.moments,
            None => 0,
        }
    }

    /// Where an alert stands in the last moment that has ended, by its place in the book. Costs a look at the alert,
    /// and where it is shown at the alerts before it in order and at the lines of those that fill the first rows.
    pub fn standing(&self, book: &Book, alert: usize) -> Standing
        requires fits { PairFits (the_book book.now) self.now }
        requires alert { alert < length book.now.alerts.items }
        ensures { (h : List Event) → PairStands (the_book book.now) h self.now
            → result ≡ replay.standing (the_book book.now) h alert }
    {
        match self.lane() {
            Some(lane) => standing_by(lane, book, alert),
            None => Standing::Dead,
        }
    }
}

// The memory of a lane.
fn give_up_lane(_lane: Lane) {}
