// The callouts as a view of a replay.
ghost use Rattle.std.specs.Prelude.{◌≡◌, ◌<◌, ◌+◌, ◌^◌, ◌++◌, ◌∷◌, [], ℕ, List, true, length};
ghost use Rattle.ecam_spec.specs.declared.kinds.Event.{Event};
ghost use Rattle.ecam_spec.specs.declared.kinds.Event.TheVariants.{Tick};
ghost use Rattle.ecam_spec.specs.Book as plain;
ghost use Rattle.ecam_spec.specs.History.{Moment, era, begun};
ghost use Rattle.ecam_spec.specs.Replay.{is_tick};
ghost use Rattle.ecam_spec.specs.Situation.{value_in};
ghost use Rattle.view_spec.specs.Ticks.{is_up, begins_anew};
ghost use Rattle.view_spec.specs.Callouts as spec;
ghost use Rattle.book_model.specs.Sealed.{the_book};
ghost use Rattle.fwc_lane.specs.LaneFits.{LaneFits};
ghost use Rattle.fwc_lane.specs.LaneStands.{Continues, LaneStands};
ghost use Rattle.fwc_pair.specs.PairState.{PairStands};
ghost use Rattle.fwc_pair.specs.Views.{IsNext};
ghost use Rattle.callouts.specs.State.{StandInEra, StandAfter};
ghost use Rattle.view_spec.proofs.TickLaws.{each_tick_nil, each_tick_begun};

use crate::lines::{call_line, end_line};
use crate::state::Callouts;
use book_model::Book;
use ecam_io::{Failed, Sink, put_all};
use ecam_kinds::Event;
use fwc_pair::{Lane, Pair, View};

impl Callouts {
    // An event begins an era, or goes into the one that there is.
    fn begin(&mut self, fresh: bool)
        ensures param { self.new.param ≡ self.old.param }
        ensures ticks { self.new.ticks ≡ self.old.ticks }
        ensures stands { (b : plain.Book) (h : List Event) (e : Event) → fresh ≡ begins_anew h e
            → is_up (h ++ e ∷ []) ≡ true → StandAfter b h self.old
            → StandInEra b (begun h e) self.new }
    {
        if fresh {
            self.clear();
        }
    }

    // Takes a Tick, which the pair has taken already, and answers the height that is called at it, or none.
    fn tick(&mut self, book: &Book, pair: &Pair) -> Option<u32>
        requires ticks { self.old.ticks < 2 ^ 32 }
        requires param { self.old.param < length (the_book book.now).parameters }
        requires pair { (h : List Event) × PairStands (the_book book.now) h pair.now }
        ensures param { self.new.param ≡ self.old.param }
        ensures ticks { self.new.ticks ≡ self.old.ticks + 1 }
        ensures call { (h : List Event) → PairStands (the_book book.now) (h ++ Tick ∷ []) pair.now
            → (is_up h ≡ true → StandInEra (the_book book.now) (era h) self.old)
            → result ≡ spec.called (the_book book.now) self.old.param (h ++ Tick ∷ []) }
        ensures stands { (h : List Event) → PairStands (the_book book.now) (h ++ Tick ∷ []) pair.now
            → (is_up h ≡ true → StandInEra (the_book book.now) (era h) self.old) → is_up h ≡ true
            → StandInEra (the_book book.now) (era (h ++ Tick ∷ [])) self.new }
    {
        self.ticks += 1;
        let lane = pair.lane()?;
        self.step(value_in(lane, book, self.param))
    }

    // Takes an event, which the pair has taken already, and answers the height that is called at it, or none.
    fn take(&mut self, book: &Book, pair: &Pair, event: &Event, fresh: bool) -> Option<u32>
        requires { (h : List Event) × (StandAfter (the_book book.now) h self.old
            × (IsNext (the_book book.now) h event.now fresh pair.now
            × (self.old.param < length (the_book book.now).parameters))) }
        ensures param { self.new.param ≡ self.old.param }
        ensures stands { (h : List Event) → StandAfter (the_book book.now) h self.old
            → IsNext (the_book book.now) h event.now fresh pair.now
            → StandAfter (the_book book.now) (h ++ event.now ∷ []) self.new }
        ensures text { (h : List Event) → StandAfter (the_book book.now) h self.old
            → IsNext (the_book book.now) h event.now fresh pair.now
            → spec.text (the_book book.now) self.old.param (h ++ event.now ∷ [])
            ≡ spec.text (the_book book.now) self.old.param h
            ++ spec.call_line self.old.ticks result }
    {
        self.begin(fresh);
        if is_tick(event) {
            self.tick(book, pair)
        } else {
            None
        }
    }
}

// The value of a parameter in the moment that the last Tick ended.
fn value_in(lane: &Lane, book: &Book, param: u32) -> Option<i64>
    requires fits { LaneFits (the_book book.now) lane.now }
    requires param { param < length book.now.params.items }
    ensures { (h : List Event) → LaneStands (the_book book.now) (era (h ++ Tick ∷ [])) lane.now
        → (m : ℕ → Moment) → Continues (era (h ++ Tick ∷ [])) m
        → result ≡ value_in (the_book book.now) m param (length (era h).moments) }
{
    lane.value(book, param as usize)
}

// Whether an event ends a moment.
fn is_tick(event: &Event) -> bool
    ensures { result ≡ is_tick event.now }
{
    matches!(event, Event::Tick)
}

/// A call is written as soon as the pair has taken the Tick at which it comes. A Tick costs two looks at each height and one
/// at each source of the parameter; another event costs nothing, but for one that begins an era.
impl View for Callouts {
    ghost Settings = { ℕ };

    ghost settings = { λ c. c.param };

    ghost fits = { λ param b. param < length b.parameters };

    ghost text = { λ param b. spec.text b param };

    ghost closing = { λ param b. spec.closing };

    ghost stands = { λ c b h. StandAfter b h c };

    ghost begins_empty = { λ param b. each_tick_nil (spec.tells b param) };

    ghost goes_on = { λ param b h e. let begun = each_tick_begun (spec.tells b param) h e in
        record { more = begun.0; joined = begun.1 } };

    fn event<O: Sink>(
        &mut self,
        book: &Book,
        pair: &Pair,
        event: &Event,
        fresh: bool,
        out: &mut O,
    ) -> Result<(), Failed> {
        let tick = self.ticks;
        match self.take(book, pair, event, fresh) {
            Some(height) => put_all(out, call_line(tick, height).as_slice()),
            None => Ok(()),
        }
    }

    fn close<O: Sink>(&mut self, _book: &Book, ticks: u64, out: &mut O) -> Result<(), Failed> {
        put_all(out, end_line(ticks).as_slice())
    }
}
