// The advisories as a view of a replay.
ghost use Rattle.std.specs.Prelude.{◌≡◌, ◌≤◌, ◌<◌, ◌+◌, ◌^◌, ◌++◌, ◌∷◌, [], ℕ, suc, List, true, length, map, filter, get_or, is_none, if◌then◌else◌, IfOk};
ghost use Rattle.ecam_spec.specs.declared.kinds.Event.{Event};
ghost use Rattle.ecam_spec.specs.declared.kinds.Event.TheVariants.{Tick};
ghost use Rattle.ecam_spec.specs.Book as plain;
ghost use Rattle.ecam_spec.specs.History.{Moment, era, begun};
ghost use Rattle.ecam_spec.specs.Replay.{is_tick, tick_count};
ghost use Rattle.ecam_spec.specs.Situation.{value_in};
ghost use Rattle.ecam_spec.specs.Screen.{shown_in};
ghost use Rattle.view_spec.specs.Ticks.{is_up, begins_anew};
ghost use Rattle.view_spec.specs.Advisories as spec;
ghost use Rattle.book_model.specs.Sealed.{the_book};
ghost use Rattle.fwc_lane.specs.LaneStands.{WholeStands};
ghost use Rattle.fwc_pair.specs.PairState.{PairStands};
ghost use Rattle.fwc_pair.specs.Views.{IsNext};
ghost use Rattle.view_spec.proofs.TickLaws.{each_tick_nil, each_tick_begun};
ghost use Rattle.advisories.specs.View.{limits_of};
ghost use Rattle.advisories.specs.Watches.{all_watched, is_told, AreWatched};
ghost use Rattle.advisories.specs.Panel.{rows_of};
ghost use Rattle.advisories.specs.State.{settings_of, HasEnded, StandInEra, StandAfter};

use crate::limits::Limits;
use crate::panel::{Block, Panel, RowText, block, counted_name, end_line, name_text};
use crate::watches::{Watch, count_told, first_told, rest, step, watches_of};
use book_model::Book;
use ecam_io::{Failed, Sink, put_all};
use ecam_kinds::{Event, Phase};
use fwc_pair::{Lane, Pair, View};
use std::alloc::{AllocError, Global};
use system_display::Choice;

/// The view of a replay that tells which values drift, and which page the first of them calls. Memory is taken in `new`
/// alone, and nothing grows with the history.
#[derive(Drop)]
pub struct Advisories {
    pub(crate) watches: Vec<Watch>,
    // The rows at the last Tick.
    pub(crate) panel: Panel,
    // How many Ticks there were.
    pub(crate) ticks: u64,
}

// Whether no alert is shown in the last moment of a computer.
fn shows_nothing(lane: &Lane) -> bool
    ensures { (b : plain.Book) (m : ℕ → Moment) (k : ℕ) → WholeStands b m (suc k) lane.now
        → result ≡ spec.is_empty (shown_in b m k) }
{
    is_absent(lane.marks.first())
}

fn is_absent(alert: Option<u32>) -> bool
    ensures { result ≡ is_none alert }
{
    alert.is_none()
}

fn is_automatic(choice: Choice) -> bool
    ensures { result ≡ spec.is_automatic choice }
{
    matches!(choice, Choice::Auto)
}

// Whether no alert is shown and the keys have chosen nothing, in the last moment of a computer.
fn is_free(lane: &Lane) -> bool
    ensures { (b : plain.Book) (m : ℕ → Moment) (k : ℕ) → WholeStands b m (suc k) lane.now
        → result ≡ spec.is_free b m k }
{
    shows_nothing(lane) && is_automatic(lane.selector.choice())
}

// The name of a page of the book.
fn page_text(book: &Book, page: u32) -> RowText
    ensures { result.items ≡ (get_or (the_book book.now).pages page spec.no_page).name }
{
    let pages = book.pages();
    let place = page as usize;
    if place < pages.len() {
        name_text(pages[place].name.as_str().as_bytes())
    } else {
        RowText::new()
    }
}

// The rows in a moment of this phase.
fn panel_of(watches: &[Watch], book: &Book, phase: Phase, free: bool) -> Panel
    requires first { 1 ≤ phase.number }
    requires last { phase.number ≤ 10 }
    ensures { rows_of result ≡ spec.rows_of_told (the_book book.now) free
        (all_watched (filter (is_told phase.number) watches.now)) }
{
    match first_told(watches, phase) {
        Some(first) => Panel {
            advisory: counted_name(
                first.advisory.name.as_str().as_bytes(),
                count_told(watches, phase),
            ),
            page: called_page(book, first.advisory.page, free),
        },
        None => Panel::blank(),
    }
}

// The name of a page, where one is called.
fn called_page(book: &Book, page: u32, free: bool) -> RowText
    ensures { result.items
        ≡ (if free then (get_or (the_book book.now).pages page spec.no_page).name else []) }
{
    if free {
        page_text(book, page)
    } else {
        RowText::new()
    }
}

// Steps the advisories by the last moment of a computer, and answers the rows.
fn step_up(watches: &mut [Watch], book: &Book, lane: &Lane) -> Panel
    requires ended { (m : ℕ → Moment) × (k : ℕ) × HasEnded (the_book book.now) m k lane.now }
    requires fit { spec.Fit (the_book book.now) (all_watched watches.old) }
    ensures settings { all_watched watches.new ≡ all_watched watches.old }
    ensures rows { (m : ℕ → Moment) (k : ℕ) → HasEnded (the_book book.now) m k lane.now
        → AreWatched (value_in (the_book book.now) m) k watches.old
        → rows_of result ≡ spec.rows_in (the_book book.now) m (all_watched watches.old) k }
    ensures stands { (m : ℕ → Moment) (k : ℕ) → HasEnded (the_book book.now) m k lane.now
        → AreWatched (value_in (the_book book.now) m) k watches.old
        → AreWatched (value_in (the_book book.now) m) (suc k) watches.new }
{
    step(watches, lane, book);
    panel_of(watches, book, lane.phase, is_free(lane))
}

// Steps the advisories by the moment that a Tick ended, which the pair has taken already, and answers the rows.
fn step_by(watches: &mut [Watch], book: &Book, pair: &Pair) -> Panel
    requires pair { (h : List Event) × PairStands (the_book book.now) (h ++ Tick ∷ []) pair.now }
    requires fit { spec.Fit (the_book book.now) (all_watched watches.old) }
    ensures settings { all_watched watches.new ≡ all_watched watches.old }
    ensures rows { (h : List Event) → PairStands (the_book book.now) (h ++ Tick ∷ []) pair.now
        → (is_up h ≡ true → StandInEra (the_book book.now) (era h) watches.old)
        → rows_of result
        ≡ spec.rows_at (the_book book.now) (all_watched watches.old) (h ++ Tick ∷ []) }
    ensures stands { (h : List Event) → PairStands (the_book book.now) (h ++ Tick ∷ []) pair.now
        → (is_up h ≡ true → StandInEra (the_book book.now) (era h) watches.old) → is_up h ≡ true
        → StandInEra (the_book book.now) (era (h ++ Tick ∷ [])) watches.new }
{
    match pair.lane() {
        Some(lane) => step_up(watches, book, lane),
        None => Panel::blank(),
    }
}

// Whether an event ends a moment.
fn is_tick(event: &Event) -> bool
    ensures { result ≡ is_tick event.now }
{
    matches!(event, Event::Tick)
}

impl Advisories {
    /// The view with these limits, before any event. An error is want of memory.
    pub fn new(alloc: Global, limits: Limits) -> Result<Advisories, AllocError>
        ensures settings { IfOk result (λ v. settings_of v ≡ limits_of limits) }
        ensures stands { IfOk result (λ v. (b : plain.Book) → StandAfter b [] v) }
    {
        let watches = watches_of(alloc, &limits.list)?;
        Ok(Advisories {
            watches,
            panel: Panel::blank(),
            ticks: 0,
        })
    }

    // An event begins an era, or goes into the one that there is.
    fn begin(&mut self, fresh: bool)
        ensures settings { settings_of self.new ≡ settings_of self.old }
        ensures panel { self.new.panel ≡ self.old.panel }
        ensures ticks { self.new.ticks ≡ self.old.ticks }
        ensures stands { (b : plain.Book) (h : List Event) (e : Event) → fresh ≡ begins_anew h e
            → is_up (h ++ e ∷ []) ≡ true
            → (is_up h ≡ true → StandInEra b (era h) self.old.watches.items)
            → StandInEra b (begun h e) self.new.watches.items }
    {
        if fresh {
            rest(&mut self.watches);
        }
    }

    // Takes a Tick, which the pair has taken already, and answers what is written at it.
    fn tick(&mut self, book: &Book, pair: &Pair) -> Block
        requires ticks { self.old.ticks < 2 ^ 32 }
        requires pair { (h : List Event)
            × PairStands (the_book book.now) (h ++ Tick ∷ []) pair.now }
        requires fit { spec.Fit (the_book book.now) (settings_of self.old) }
        ensures settings { settings_of self.new ≡ settings_of self.old }
        ensures ticks { self.new.ticks ≡ self.old.ticks + 1 }
        ensures block { result.items
            ≡ spec.block self.old.ticks (rows_of self.old.panel) (rows_of self.new.panel) }
        ensures panel { (h : List Event) → PairStands (the_book book.now) (h ++ Tick ∷ []) pair.now
            → (is_up h ≡ true → StandInEra (the_book book.now) (era h) self.old.watches.items)
            → rows_of self.new.panel
            ≡ spec.rows_at (the_book book.now) (settings_of self.old) (h ++ Tick ∷ []) }
        ensures stands { (h : List Event) → PairStands (the_book book.now) (h ++ Tick ∷ []) pair.now
            → (is_up h ≡ true → StandInEra (the_book book.now) (era h) self.old.watches.items)
            → is_up h ≡ true
            → StandInEra (the_book book.now) (era (h ++ Tick ∷ [])) self.new.watches.items }
    {
        let panel = step_by(&mut self.watches, book, pair);
        let written = block(self.ticks, &self.panel, &panel);
        self.panel = panel;
        self.ticks += 1;
        written
    }

    // Takes an event, which the pair has taken already, and answers what is written at it.
    fn take(&mut self, book: &Book, pair: &Pair, event: &Event, fresh: bool) -> Block
        requires { (h : List Event) × StandAfter (the_book book.now) h self.old
            × IsNext (the_book book.now) h event.now fresh pair.now
            × spec.Fit (the_book book.now) (settings_of self.old) }
        ensures settings { settings_of self.new ≡ settings_of self.old }
        ensures stands { (h : List Event) → StandAfter (the_book book.now) h self.old
            → IsNext (the_book book.now) h event.now fresh pair.now
            → spec.Fit (the_book book.now) (settings_of self.old)
            → StandAfter (the_book book.now) (h ++ event.now ∷ []) self.new }
        ensures text { (h : List Event) → StandAfter (the_book book.now) h self.old
            → IsNext (the_book book.now) h event.now fresh pair.now
            → spec.Fit (the_book book.now) (settings_of self.old)
            → spec.text (the_book book.now) (settings_of self.old) (h ++ event.now ∷ [])
            ≡ spec.text (the_book book.now) (settings_of self.old) h ++ result.items }
    {
        self.begin(fresh);
        if is_tick(event) {
            self.tick(book, pair)
        } else {
            Block::new()
        }
    }
}

/// What a Tick changes is written as soon as the pair has taken it. A Tick costs a few looks at each advisory and
/// one at each source of its parameter; another event costs nothing, but for one that begins an era.
impl View for Advisories {
    ghost Settings = { List spec.Advisory };

    ghost settings = { settings_of };

    ghost fits = { λ limits b. spec.Fit b limits };

    ghost text = { λ limits b. spec.text b limits };

    ghost closing = { λ limits b. spec.closing };

    ghost stands = { λ v b h. StandAfter b h v };

    ghost begins_empty = { λ limits b. each_tick_nil (spec.tick_text b limits) };

    ghost goes_on = { λ limits b h e. let begun = each_tick_begun (spec.tick_text b limits) h e in
        record { more = begun.0; joined = begun.1 } };

    fn event<O: Sink>(
        &mut self,
        book: &Book,
        pair: &Pair,
        event: &Event,
        fresh: bool,
        out: &mut O,
    ) -> Result<(), Failed> {
        let written = self.take(book, pair, event, fresh);
        put_all(out, &written)
    }

    fn close<O: Sink>(&mut self, _book: &Book, ticks: u64, out: &mut O) -> Result<(), Failed> {
        put_all(out, &end_line(ticks))
    }
}
