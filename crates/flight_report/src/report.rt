// The report of a replay's flights.
ghost use Rattle.std.specs.Prelude.{◌≡◌, ◌≤◌, ◌<◌, ◌+◌, ◌^◌, ◌==◌, ℕ, Bool, suc, [], ◌∷◌, ◌++◌, List, length, true, false, IfOk, IfSome, OnOk, OnErr, if◌then◌else◌};
ghost use Rattle.ecam_io.specs.Outside.{Rose, Appended, AppendedPrefix};
ghost use Rattle.ecam_spec.specs.declared.kinds.Event.{Event};
ghost use Rattle.ecam_spec.specs.declared.kinds.Event.TheVariants.{Tick};
ghost use Rattle.ecam_spec.specs.Book as plain;
ghost use Rattle.ecam_spec.specs.Past.{Signal};
ghost use Rattle.ecam_spec.specs.Replay.{tick_count};
ghost use Rattle.ecam_spec.specs.Output.{end_line};
ghost use Rattle.ecam_spec.specs.Situation.{alert_at};
ghost use Rattle.book_model.specs.Sealed.{the_book};
ghost use Rattle.view_spec.specs.FlightReport.{Course, begins, flights, last_flight, report_text, report_closing};
ghost use Rattle.fwc_pair.specs.PairState.{PairStands};
ghost use Rattle.fwc_pair.specs.Views.{Adds, AddsPart};
ghost use Rattle.flight_report.specs.Kept.{last_text, IsLast, HasRoom, Watches, WatchStands, Comes, ReportStands};
ghost use Rattle.view_spec.proofs.FlightLaws.{report-none, report-step};

use crate::flight::Flight;
use crate::lines;
use crate::watch::Watch;
use book_model::Book;
use ecam_io::{Failed, Sink, put_all};
use ecam_kinds::{Event, Phase};
use fwc_pair::{Pair, View};
use std::alloc::{AllocError, Global};

/// What occurred in each flight of a replay: a view without settings. At the Tick with which a flight begins it writes the
/// report of the flight before, and at the end that of the last. It keeps the first 64 alerts that came up in a flight,
/// and the exact count. Memory is taken in `new` alone, and nothing grows with the history.
#[derive(Drop)]
pub struct Report {
    // How many Ticks there were.
    ticks: u64,
    // The last flight, if one has begun.
    flight: Option<Flight>,
    // The last moment of the era that the replay is in.
    watch: Watch,
}

impl Report {
    /// The report before any event. An error is want of memory.
    pub fn new(alloc: Global, book: &Book) -> Result<Report, AllocError>
        ensures stands { IfOk result (ReportStands (the_book book.now) []) }
    {
        Ok(Report {
            ticks: 0,
            flight: None,
            watch: Watch::new(alloc, book.alerts().len())?,
        })
    }

    // Writes the report of the last flight, if there is one.
    fn put_last<O: Sink>(&self, book: &Book, out: &mut O) -> Result<(), Failed>
        ensures all { OnOk result (Appended O.agrees out.old out.new
            (last_text (λ a. (alert_at (the_book book.now) a).name) self.now.flight)) }
        ensures prefix { OnErr result (AppendedPrefix O.agrees out.old out.new
            (last_text (λ a. (alert_at (the_book book.now) a).name) self.now.flight)) }
        ensures faults { O.faults out.old ≤ O.faults out.new }
        ensures quiet { OnOk result (O.faults out.new ≡ O.faults out.old) }
        ensures cause { OnErr result (Rose (O.faults out.old) (O.faults out.new)) }
    {
        match &self.flight {
            Some(flight) => flight.put(book, out),
            None => Ok(()),
        }
    }

    // How many flights have begun.
    fn flights(&self) -> u64
        requires { HasRoom self.now }
        ensures { (c : Course) (n : ℕ) → IsLast c n (last_flight c n) self.now.flight
            → result ≡ length (flights c n) }
    {
        match &self.flight {
            Some(flight) => flight.number + 1,
            None => 0,
        }
    }

    // Where a moment of this flight phase begins a flight, writes the report of the one before and begins it.
    fn turn<O: Sink>(&mut self, book: &Book, phase: Phase, out: &mut O) -> Result<(), Failed>
        requires { HasRoom self.old }
        ensures flight { (c : Course) (n : ℕ) (up : List Bool) → self.old.ticks ≡ n
            → Comes (the_book book.now) c n phase.number up self.old.watch
            → IsLast c n (last_flight c n) self.old.flight
            → OnOk result (IsLast c n (last_flight c (suc n)) self.new.flight) }
        ensures all { (c : Course) (n : ℕ) (up : List Bool)
            → Comes (the_book book.now) c n phase.number up self.old.watch
            → OnOk result (Appended O.agrees out.old out.new (if begins c n then last_text
            (λ a. (alert_at (the_book book.now) a).name) self.old.flight else [])) }
        ensures prefix { (c : Course) (n : ℕ) (up : List Bool)
            → Comes (the_book book.now) c n phase.number up self.old.watch
            → OnErr result (AppendedPrefix O.agrees out.old out.new (if begins c n then last_text
            (λ a. (alert_at (the_book book.now) a).name) self.old.flight else [])) }
        ensures ticks { self.new.ticks ≡ self.old.ticks }
        ensures watch { self.new.watch ≡ self.old.watch }
        ensures room { OnOk result (IfSome self.new.flight (λ f. f.onsets ≤ 2 ^ 43)) }
        ensures faults { O.faults out.old ≤ O.faults out.new }
        ensures quiet { OnOk result (O.faults out.new ≡ O.faults out.old) }
        ensures cause { OnErr result (Rose (O.faults out.old) (O.faults out.new)) }
    {
        if !self.watch.begins_flight(phase) {
            return Ok(());
        }
        self.put_last(book, out)?;
        self.flight = Some(Flight::new(self.flights(), self.ticks));
        Ok(())
    }

    // Adds to the last flight what comes up in a moment of this flight phase, in which these alerts are up.
    fn note(&mut self, book: &Book, phase: Phase, up: &[bool])
        requires fits { Watches (length up.now) self.old.watch }
        requires up { length up.now ≡ length book.now.alerts.items }
        requires room { IfSome self.old.flight (λ f. f.onsets ≤ 2 ^ 43) }
        ensures flight { (c : Course) (n : ℕ) → self.old.ticks ≡ n
            → Comes (the_book book.now) c n phase.number up.now self.old.watch
            → IsLast c n (last_flight c (suc n)) self.old.flight
            → IsLast c (suc n) (last_flight c (suc n)) self.new.flight }
        ensures ticks { self.new.ticks ≡ self.old.ticks }
        ensures watch { self.new.watch ≡ self.old.watch }
    {
        if let Some(flight) = &mut self.flight {
            flight.note(self.ticks, phase, book.order(), self.watch.up(), up);
        }
    }

    // Takes a Tick, after the pair has taken it.
    fn tick<O: Sink>(&mut self, book: &Book, pair: &Pair, out: &mut O) -> Result<(), Failed>
        requires { (h : List Event) × (ReportStands (the_book book.now) h self.old
            × (tick_count h < 2 ^ 32) × PairStands (the_book book.now) (h ++ Tick ∷ []) pair.now) }
        ensures stands { (h : List Event) → ReportStands (the_book book.now) h self.old
            → PairStands (the_book book.now) (h ++ Tick ∷ []) pair.now
            → OnOk result (ReportStands (the_book book.now) (h ++ Tick ∷ []) self.new) }
        ensures adds { (h : List Event) → ReportStands (the_book book.now) h self.old
            → PairStands (the_book book.now) (h ++ Tick ∷ []) pair.now
            → OnOk result (Adds O.agrees out.old out.new (report_text (the_book book.now) h)
            (report_text (the_book book.now) (h ++ Tick ∷ []))) }
        ensures part { (h : List Event) → ReportStands (the_book book.now) h self.old
            → PairStands (the_book book.now) (h ++ Tick ∷ []) pair.now
            → OnErr result (AddsPart O.agrees out.old out.new (report_text (the_book book.now) h)
            (report_text (the_book book.now) (h ++ Tick ∷ []))) }
        ensures faults { O.faults out.old ≤ O.faults out.new }
        ensures quiet { OnOk result (O.faults out.new ≡ O.faults out.old) }
        ensures cause { OnErr result (Rose (O.faults out.old) (O.faults out.new)) }
    {
        let Some(lane) = pair.lane() else {
            self.ticks += 1;
            return Ok(());
        };
        book.sealed();
        let up = lane.truths.up();
        self.turn(book, lane.phase, out)?;
        self.note(book, lane.phase, up);
        self.watch.take(lane.phase, up);
        self.ticks += 1;
        Ok(())
    }

    // Takes an event that is no Tick: what was kept of the moments is forgotten where it begins an era.
    fn pass(&mut self, fresh: bool)
        ensures ticks { self.new.ticks ≡ self.old.ticks }
        ensures flight { self.new.flight ≡ self.old.flight }
        ensures fits { (n : ℕ) → Watches n self.old.watch → Watches n self.new.watch }
        ensures kept { fresh ≡ false → self.new.watch ≡ self.old.watch }
        ensures forgotten { (n : ℕ) (up : ℕ → Signal) (phases : ℕ → ℕ) → fresh ≡ true
            → Watches n self.old.watch → WatchStands n up phases 0 self.new.watch }
    {
        if fresh {
            self.watch.forget();
        }
    }

    // Writes the report of the last flight, and how many Ticks there were.
    fn put_closing<O: Sink>(&self, book: &Book, ticks: u64, out: &mut O) -> Result<(), Failed>
        ensures all { OnOk result (Appended O.agrees out.old out.new (last_text
            (λ a. (alert_at (the_book book.now) a).name) self.now.flight ++ end_line ticks)) }
        ensures prefix { OnErr result (AppendedPrefix O.agrees out.old out.new (last_text
            (λ a. (alert_at (the_book book.now) a).name) self.now.flight ++ end_line ticks)) }
        ensures faults { O.faults out.old ≤ O.faults out.new }
        ensures quiet { OnOk result (O.faults out.new ≡ O.faults out.old) }
        ensures cause { OnErr result (Rose (O.faults out.old) (O.faults out.new)) }
    {
        self.put_last(book, out)?;
        put_all(out, lines::end_line(ticks).as_slice())
    }
}

impl View for Report {
    ghost Settings = { Unit {0} };

    ghost settings = { λ _. tt };

    ghost fits = { λ _ _. Unit {0} };

    ghost text = { λ _ b h. report_text b h };

    ghost closing = { λ _ b h. report_closing b h };

    ghost stands = { λ r b h. ReportStands b h r };

    ghost begins_empty = { λ _ b. report-none b };

    ghost goes_on = { λ _ b h e. record {
      more = (report-step b h e).0;
      joined = (report-step b h e).1;
    } };

    fn event<O: Sink>(
        &mut self,
        book: &Book,
        pair: &Pair,
        event: &Event,
        fresh: bool,
        out: &mut O,
    ) -> Result<(), Failed> {
        if let Event::Tick = event {
            return self.tick(book, pair, out);
        }
        self.pass(fresh);
        Ok(())
    }

    fn close<O: Sink>(&mut self, book: &Book, ticks: u64, out: &mut O) -> Result<(), Failed> {
        self.put_closing(book, ticks, out)
    }
}
