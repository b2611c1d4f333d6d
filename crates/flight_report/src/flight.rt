// What is kept of a flight.
ghost use Rattle.std.specs.Prelude.{◌≡◌, ◌≤◌, ◌<◌, ◌+◌, ◌^◌, ◌++◌, ◌∷◌, [], List, length, take, All, OnOk, OnErr, if◌then◌else◌};
ghost use Rattle.ecam_io.specs.Outside.{Rose, Appended, AppendedPrefix};
ghost use Rattle.ecam_spec.specs.Situation.{alert_at};
ghost use Rattle.book_model.specs.Sealed.{the_book};
ghost use Rattle.view_spec.specs.declared.flight_report.Entry.{Entry};
ghost use Rattle.view_spec.specs.FlightReport.{entries_of};
ghost use Rattle.flight_report.specs.Kept.{come_up, flight_text, entry_lines};

use crate::lines::{entry_line, flight_line};
use arrayvec::ArrayVec;
use book_model::Book;
use ecam_io::{Failed, Sink, put_all};
use ecam_kinds::Phase;
use view_spec::flight_report::{ENTRIES, Entry};

/// A flight as far as it has come.
#[derive(Drop)]
pub(crate) struct Flight {
    /// How many flights began before it.
    pub number: u64,
    /// The Tick with which it begins.
    pub from: u64,
    /// How many alerts have come up in it.
    pub onsets: u64,
    /// The first of these.
    pub entries: ArrayVec<Entry, ENTRIES>,
}

impl Flight {
    /// A flight in which no alert has come up yet.
    pub fn new(number: u64, from: u64) -> Flight
        ensures number { result.number ≡ number }
        ensures from { result.from ≡ from }
        ensures onsets { result.onsets ≡ 0 }
        ensures entries { result.entries.items ≡ [] }
    {
        Flight {
            number,
            from,
            onsets: 0,
            entries: ArrayVec::new(),
        }
    }

    // Adds an alert if it comes up. Beyond the first entries it is counted only.
    fn add_if(&mut self, comes: bool, entry: Entry)
        requires { self.old.onsets + 1 < 2 ^ 64 }
        ensures number { self.new.number ≡ self.old.number }
        ensures from { self.new.from ≡ self.old.from }
        ensures onsets { self.new.onsets ≡ self.old.onsets + (if comes then 1 else 0) }
        ensures entries { (es : List Entry) → self.old.entries.items ≡ take ENTRIES es
            → self.new.entries.items ≡ take ENTRIES (es ++ (if comes then entry ∷ [] else [])) }
    {
        if comes {
            let _ = self.entries.try_push(entry);
            self.onsets += 1;
        }
    }

    /// Adds the alerts that come up at a Tick, in their order: those that are up, and weren't before. Costs a look at each
    /// alert.
    pub fn note(&mut self, tick: u64, phase: Phase, order: &[u32], was: &[bool], up: &[bool])
        requires order { All (λ a. a < length up.now) order.now }
        requires was { length was.now ≡ length up.now }
        requires room { self.old.onsets + length order.now < 2 ^ 64 }
        ensures number { self.new.number ≡ self.old.number }
        ensures from { self.new.from ≡ self.old.from }
        ensures onsets { self.new.onsets
            ≡ self.old.onsets + length (come_up order.now was.now up.now) }
        // They come behind those that came before, whatever these were.
        ensures entries { (es : List Entry) → self.old.entries.items ≡ take ENTRIES es
            → self.new.entries.items ≡ take ENTRIES (es
            ++ entries_of tick phase.number (come_up order.now was.now up.now)) }
    {
        for i in 0..order.len() {
            let alert = order[i];
            let place = alert as usize;
            let entry = Entry {
                tick,
                phase: phase.number,
                alert,
            };
            self.add_if(up[place] & !was[place], entry);
        }
    }

    /// Writes its report. After `Failed` a prefix of that was written.
    pub fn put<O: Sink>(&self, book: &Book, out: &mut O) -> Result<(), Failed>
        ensures all { OnOk result (Appended O.agrees out.old out.new
            (flight_text (λ a. (alert_at (the_book book.now) a).name) self.now)) }
        ensures prefix { OnErr result (AppendedPrefix O.agrees out.old out.new
            (flight_text (λ a. (alert_at (the_book book.now) a).name) self.now)) }
        ensures faults { O.faults out.old ≤ O.faults out.new }
        ensures quiet { OnOk result (O.faults out.new ≡ O.faults out.old) }
        ensures cause { OnErr result (Rose (O.faults out.old) (O.faults out.new)) }
    {
        let line = flight_line(self.number, self.from, self.onsets);
        put_all(out, line.as_slice())?;
        put_entries(self.entries.as_slice(), book, out)
    }
}

// Writes the lines of some alerts that came up.
fn put_entries<O: Sink>(entries: &[Entry], book: &Book, out: &mut O) -> Result<(), Failed>
    ensures all { OnOk result (Appended O.agrees out.old out.new
        (entry_lines (λ a. (alert_at (the_book book.now) a).name) entries.now)) }
    ensures prefix { OnErr result (AppendedPrefix O.agrees out.old out.new
        (entry_lines (λ a. (alert_at (the_book book.now) a).name) entries.now)) }
    ensures faults { O.faults out.old ≤ O.faults out.new }
    ensures quiet { OnOk result (O.faults out.new ≡ O.faults out.old) }
    ensures cause { OnErr result (Rose (O.faults out.old) (O.faults out.new)) }
{
    for i in 0..entries.len() {
        let line = entry_line(book, &entries[i]);
        put_all(out, line.as_slice())?;
    }
    Ok(())
}
