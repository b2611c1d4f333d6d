// A whole record shown: line by line it is taken by the pair and by a view.
ghost use Rattle.std.specs.Prelude.{◌≡◌, ◌≢◌, ℕ, ◌<◌, ◌≤◌, ◌&&◌, ◌^◌, ◌++◌, ◌∷◌, [], List, true, false, OnOk, OnErr, IfOk, IfErr, Some, Ok, Err};
ghost use Rattle.ecam_io.specs.Outside.{Rose, Appended, AppendedPrefix};
ghost use Rattle.ecam_spec.specs.declared.kinds.Event.{Event};
ghost use Rattle.ecam_spec.specs.History.{comes_up, none_up};
ghost use Rattle.ecam_spec.specs.Keys.{IsEvent};
ghost use Rattle.ecam_spec.specs.Record.{events};
ghost use Rattle.ecam_spec.specs.RecordLine.{is_end_event};
ghost use Rattle.ecam_spec.specs.Replay.{is_tick, tick_count};
ghost use Rattle.book_model.specs.Sealed.{the_book};
ghost use Rattle.fwc_pair.specs.PairState.{flags_of, moments_of, PairFits, PairStands};
ghost use Rattle.fwc_pair.specs.PairVisits.{event_visits, history_visits, HaveVisited};
ghost use Rattle.record_lines.specs.Reads.{Makes};
ghost use Rattle.record_lines.specs.Reader.{reads_next};
ghost use Rattle.gathering.specs.Handed.{IsHanded};
ghost use Rattle.record_views.specs.Showing.{shown_by};
ghost use Rattle.record_views.specs.Runs.{HasSeen, HasFed, HasFedPart, Shows, HasAsked};

use book_model::Book;
use ecam_io::{Failed, Sink, Source};
use ecam_spec::{Event, RecordFault};
use fwc_pair::{Pair, View};
use gathering::Gathering;
use record_lines::{LineError, LineReader};

/// Why a replay didn't reach the record's end.
#[derive(Clone, Copy, Debug, PartialEq, Eq)]
pub enum RunError {
    /// The source failed.
    Read,
    /// The sink failed.
    Write,
    /// The record has this fault.
    Record(RecordFault),
}

/// Replays a record under a limit on its bytes from the pair's start, writes what the view shows of it, and answers the
/// number of its Ticks. The pair was made for this book, and the view, which is new, fits it. `Ok` has written the text
/// and the closing, and the pair then stands where the record ends. After `Read` the text of all that came is written,
/// after `Write` a prefix of text and closing, and after `Record` the text of what stands before the record's fault. It
/// takes no memory, and reads pieces of 4096 bytes, none behind the one in which it meets a fault or a write fails. What
/// the view writes is gathered in 65536 bytes, which the sink is handed where more doesn't fit, before each read, and at
/// the end. A line costs what it costs the pair and the view, and a copy of what that writes.
pub fn run_view<V: View, S: Source, O: Sink>(
    book: &Book,
    pair: &mut Pair,
    view: &mut V,
    limit: u32,
    source: &mut S,
    out: &mut O,
) -> Result<u64, RunError>
    requires pair { PairFits (the_book book.now) pair.old }
    requires fits { V.fits (V.settings view.old) (the_book book.now) }
    requires new { V.stands view.old (the_book book.now) [] }
    ensures pair { PairFits (the_book book.now) pair.new }
    ensures settings { V.settings view.new ≡ V.settings view.old }
    ensures shows { Shows (the_book book.now)
        (shown_by V.View (V.settings view.old) (the_book book.now))
        O.agrees out.old out.new pair.new limit (S.left source.old) (S.left source.new) result }
    // Each computer visits, of the conditions' nodes, what the Ticks have to visit at which it is up.
    ensures visits { OnOk result ((text : List ℕ) → S.left source.old ≡ Some text
        → HaveVisited (history_visits (the_book book.now) (events text limit)) pair.old pair.new) }

    ensures read { result ≡ Err RunError.Read → Rose (S.faults source.old) (S.faults source.new) }
    ensures write { result ≡ Err RunError.Write → Rose (O.faults out.old) (O.faults out.new) }
    ensures asks { Makes S.reads source.old source.new (HasAsked result) }
    ensures faults { S.faults source.old ≤ S.faults source.new }
    ensures quiet { result ≢ Err RunError.Read → S.faults source.new ≡ S.faults source.old }
    ensures out_faults { O.faults out.old ≤ O.faults out.new }
    ensures out_quiet { result ≢ Err RunError.Write → O.faults out.new ≡ O.faults out.old }
    ensures is_open { S.is_open source.new ≡ S.is_open source.old }
    ensures files { S.files source.new ≡ S.files source.old }
    ensures opens { S.opens source.new ≡ S.opens source.old }
{
    let mut gathering = Gathering::new(out);
    show_lines(book, pair, view, limit, source, &mut gathering)
}

fn show_lines<V: View, S: Source, O: Sink>(
    book: &Book,
    pair: &mut Pair,
    view: &mut V,
    limit: u32,
    source: &mut S,
    out: &mut Gathering<'_, O>,
) -> Result<u64, RunError>
    requires pair { PairFits (the_book book.now) pair.old }
    requires fits { V.fits (V.settings view.old) (the_book book.now) }
    requires new { V.stands view.old (the_book book.now) [] }
    requires empty { out.old.bytes.items ≡ [] }
    ensures pair { PairFits (the_book book.now) pair.new }
    ensures settings { V.settings view.new ≡ V.settings view.old }
    ensures same_sink { out.new.out.ghost_name ≡ out.old.out.ghost_name }
    ensures shows { Shows (the_book book.now)
        (shown_by V.View (V.settings view.old) (the_book book.now))
        O.agrees out.old.out.now out.new.out.now pair.new limit
        (S.left source.old) (S.left source.new) result }
    ensures visits { OnOk result ((text : List ℕ) → S.left source.old ≡ Some text
        → HaveVisited (history_visits (the_book book.now) (events text limit)) pair.old pair.new) }

    ensures read { result ≡ Err RunError.Read → Rose (S.faults source.old) (S.faults source.new) }
    ensures write { result ≡ Err RunError.Write
        → Rose (O.faults out.old.out.now) (O.faults out.new.out.now) }
    ensures asks { Makes S.reads source.old source.new (HasAsked result) }
    ensures faults { S.faults source.old ≤ S.faults source.new }
    ensures quiet { result ≢ Err RunError.Read → S.faults source.new ≡ S.faults source.old }
    ensures out_faults { O.faults out.old.out.now ≤ O.faults out.new.out.now }
    ensures out_quiet { result ≢ Err RunError.Write
        → O.faults out.new.out.now ≡ O.faults out.old.out.now }
    ensures is_open { S.is_open source.new ≡ S.is_open source.old }
    ensures files { S.files source.new ≡ S.files source.old }
    ensures opens { S.opens source.new ≡ S.opens source.old }
{
    pair.restart(book);
    let mut reader = LineReader::new(limit);
    let mut ticks: u64 = 0;
    'lines: loop {
        match hand_over_before_read(&reader, out) {
            Ok(()) => {}
            Err(Failed) => return Err(RunError::Write),
        }
        let event = match reader.next(source) {
            Ok(event) => event,
            Err(LineError::Failed) => match out.hand_over() {
                Ok(()) => return Err(RunError::Read),
                Err(Failed) => return Err(RunError::Write),
            },
            Err(LineError::Record(fault)) => match out.hand_over() {
                Ok(()) => return Err(RunError::Record(fault)),
                Err(Failed) => return Err(RunError::Write),
            },
        };
        if is_end(&event) {
            return finish(book, view, ticks, out);
        }
        let counted = ticks_with(ticks, &event);
        match feed(book, pair, view, &event, ticks, out) {
            Ok(()) => {}
            Err(Failed) => return Err(RunError::Write),
        }
        ticks = counted;
    }
}

// Hands the sink what was gathered where the next call of the reader reads, so that whoever follows a live record sees
// what is shown of each piece at once.
#[inline(always)]
fn hand_over_before_read<O: Sink>(
    reader: &LineReader,
    out: &mut Gathering<'_, O>,
) -> Result<(), Failed>
    ensures same_sink { out.new.out.ghost_name ≡ out.old.out.ghost_name }
    ensures empty { OnOk result (reads_next reader.now ≡ true → out.new.bytes.items ≡ []) }
    ensures handed { IsHanded O.agrees out.old.out.now out.new.out.now
        out.old.bytes.items out.new.bytes.items }
    ensures cause { OnErr result (Rose (O.faults out.old.out.now) (O.faults out.new.out.now)) }
    ensures faults { O.faults out.old.out.now ≤ O.faults out.new.out.now }
    ensures quiet { OnOk result (O.faults out.new.out.now ≡ O.faults out.old.out.now) }
{
    if out.bytes.is_empty() || !reader.reads_next() {
        return Ok(());
    }
    out.hand_over()
}

// Whether an event is the record's end.
fn is_end(event: &Event) -> bool
    ensures { result ≡ is_end_event event.now }
{
    matches!(event, Event::End)
}

// Whether an event ends a moment.
fn is_tick(event: &Event) -> bool
    ensures { result ≡ is_tick event.now }
{
    matches!(event, Event::Tick)
}

// How many Ticks there are with one more event.
fn ticks_with(ticks: u64, event: &Event) -> u64
    requires { ticks < 2 ^ 63 }
    ensures { (h : List Event) → ticks ≡ tick_count h
        → result ≡ tick_count (h ++ event.now ∷ []) }
{
    if is_tick(event) {
        return ticks + 1;
    }
    ticks
}

// Whether an event begins an era: a computer comes up while both are down.
fn begins_era(pair: &Pair, event: &Event) -> bool
    ensures { result ≡ (comes_up event.now && none_up (flags_of pair.now)) }
{
    let comes_up = matches!(event, Event::Up(_));
    comes_up & pair.lane().is_none()
}

// Hands an event to the pair, and then to the view.
fn feed<V: View, O: Sink>(
    book: &Book,
    pair: &mut Pair,
    view: &mut V,
    event: &Event,
    ticks: u64,
    out: &mut Gathering<'_, O>,
) -> Result<(), Failed>
    requires pair { PairFits (the_book book.now) pair.old }
    requires event { IsEvent event.now }
    requires goes_on { is_end_event event.now ≡ false }
    requires moments { moments_of pair.old < 2 ^ 63 }
    requires fits { V.fits (V.settings view.old) (the_book book.now) }
    requires seen { (h : List Event) × HasSeen (the_book book.now)
        (V.stands view.old (the_book book.now)) pair.old ticks h }
    ensures pair { PairFits (the_book book.now) pair.new }
    ensures settings { V.settings view.new ≡ V.settings view.old }
    ensures same_sink { out.new.out.ghost_name ≡ out.old.out.ghost_name }
    ensures fed { (h : List Event) → HasSeen (the_book book.now)
        (V.stands view.old (the_book book.now)) pair.old ticks h
        → OnOk result (HasFed (the_book book.now)
        (shown_by V.View (V.settings view.old) (the_book book.now))
        O.agrees out.old.out.now out.new.out.now (V.stands view.new (the_book book.now))
        out.old.bytes.items out.new.bytes.items h event.now pair.new) }
    ensures part { (h : List Event) → HasSeen (the_book book.now)
        (V.stands view.old (the_book book.now)) pair.old ticks h
        → OnErr result (HasFedPart (the_book book.now)
        (shown_by V.View (V.settings view.old) (the_book book.now))
        O.agrees out.old.out.now out.new.out.now out.old.bytes.items h event.now) }
    ensures visits { (h : List Event) → PairStands (the_book book.now) h pair.old
        → HaveVisited (event_visits (the_book book.now) h event.now) pair.old pair.new }
    ensures cause { OnErr result (Rose (O.faults out.old.out.now) (O.faults out.new.out.now)) }
    ensures faults { O.faults out.old.out.now ≤ O.faults out.new.out.now }
    ensures quiet { OnOk result (O.faults out.new.out.now ≡ O.faults out.old.out.now) }
{
    let fresh = begins_era(pair, event);
    pair.event(book, event);
    view.event(book, pair, event, fresh, out)
}

// Writes the closing behind what was gathered, and answers the number of Ticks.
fn finish<V: View, O: Sink>(
    book: &Book,
    view: &mut V,
    ticks: u64,
    out: &mut Gathering<'_, O>,
) -> Result<u64, RunError>
    requires fits { V.fits (V.settings view.old) (the_book book.now) }
    requires ended { (h : List Event) × (V.stands view.old (the_book book.now) h
        × (ticks ≡ tick_count h)) }
    ensures settings { V.settings view.new ≡ V.settings view.old }
    ensures same_sink { out.new.out.ghost_name ≡ out.old.out.ghost_name }
    ensures ticks { IfOk result (λ n. n ≡ ticks) }
    ensures ok { (h : List Event) → V.stands view.old (the_book book.now) h → ticks ≡ tick_count h
        → OnOk result (Appended O.agrees out.old.out.now out.new.out.now
        (out.old.bytes.items ++ V.closing (V.settings view.old) (the_book book.now) h)) }
    ensures err { (h : List Event) → V.stands view.old (the_book book.now) h → ticks ≡ tick_count h
        → OnErr result (AppendedPrefix O.agrees out.old.out.now out.new.out.now
        (out.old.bytes.items ++ V.closing (V.settings view.old) (the_book book.now) h)) }
    ensures cause { IfErr result (λ e. e ≡ RunError.Write) }
    ensures write { OnErr result (Rose (O.faults out.old.out.now) (O.faults out.new.out.now)) }
    ensures faults { O.faults out.old.out.now ≤ O.faults out.new.out.now }
    ensures quiet { OnOk result (O.faults out.new.out.now ≡ O.faults out.old.out.now) }
{
    match close(book, view, ticks, out) {
        Ok(()) => Ok(ticks),
        Err(Failed) => Err(RunError::Write),
    }
}

fn close<V: View, O: Sink>(
    book: &Book,
    view: &mut V,
    ticks: u64,
    out: &mut Gathering<'_, O>,
) -> Result<(), Failed>
    requires fits { V.fits (V.settings view.old) (the_book book.now) }
    requires ended { (h : List Event) × (V.stands view.old (the_book book.now) h
        × (ticks ≡ tick_count h)) }
    ensures settings { V.settings view.new ≡ V.settings view.old }
    ensures same_sink { out.new.out.ghost_name ≡ out.old.out.ghost_name }
    ensures all { (h : List Event) → V.stands view.old (the_book book.now) h → ticks ≡ tick_count h
        → OnOk result (Appended O.agrees out.old.out.now out.new.out.now
        (out.old.bytes.items ++ V.closing (V.settings view.old) (the_book book.now) h)) }
    ensures part { (h : List Event) → V.stands view.old (the_book book.now) h → ticks ≡ tick_count h
        → OnErr result (AppendedPrefix O.agrees out.old.out.now out.new.out.now
        (out.old.bytes.items ++ V.closing (V.settings view.old) (the_book book.now) h)) }
    ensures cause { OnErr result (Rose (O.faults out.old.out.now) (O.faults out.new.out.now)) }
    ensures faults { O.faults out.old.out.now ≤ O.faults out.new.out.now }
    ensures quiet { OnOk result (O.faults out.new.out.now ≡ O.faults out.old.out.now) }
{
    view.close(book, ticks, out)?;
    out.hand_over()
}
