// The running state of one flight warning computer.
ghost use Rattle.std.specs.Prelude.{◌≡◌, ◌+◌, ◌-◌, ◌^◌, ◌<◌, ℕ, suc, min, true, false, List, [], length, None, IfOk, IfSome, if◌then◌else◌};
ghost use Rattle.ecam_spec.specs.Book as plain;
ghost use Rattle.ecam_spec.specs.Value.{BusWord};
ghost use Rattle.ecam_spec.specs.History.{Flags, Moment, Stroke, Era, empty_era, era_with};
ghost use Rattle.ecam_spec.specs.Replay.{is_tick, moment_of};
ghost use Rattle.ecam_spec.specs.Situation.{parameter_at, value_in};
ghost use Rattle.ecam_spec.specs.Keys.{IsEvent};
ghost use Rattle.ecam_spec.specs.declared.kinds.Event.TheVariants.{Word, Tick};
ghost use Rattle.book_model.specs.Sealed.{the_book};
ghost use Rattle.term_eval.specs.CellState.{StandForNone};
ghost use Rattle.fwc_lane.specs.TermsFit.{TermsFit};
ghost use Rattle.fwc_lane.specs.LaneFits.{LaneFits, CanGoOn};
ghost use Rattle.fwc_lane.specs.LaneStands.{LaneStands, WholeStands, Continues, AreUp};
ghost use Rattle.fwc_lane.specs.Begun.{HasBegun};
ghost use Rattle.fwc_lane.specs.Given.{Came};
ghost use Rattle.fwc_lane.specs.Visits.{visits};
ghost use Rattle.ecam_kinds.specs.KeyState.{KeysStand};
ghost use Rattle.param_table.specs.TableState.{ParamsFit, ParamsStand, IsValueOf};

use crate::begin::begin_moment;
use crate::blank::{lists_of, parts_of};
use crate::counts::FlagCounts;
use crate::crew::{enters_one, step_crew};
use crate::drawing::draw;
use crate::rest::leaves_calm;
use crate::scene::{Scene, Turned};
use crate::step::step_conditions;
use crate::strokes::Strokes;
use crate::terms::Terms;
use alert_truth::Truths;
use attention::Attention;
use book_model::Book;
use crew_marks::Marks;
use ecam_kinds::{Event, Phase, Picture, ROWS};
use flight_phases::PhaseState;
use param_table::Params;
use status_page::has_status_lines;
use std::alloc::{AllocError, Global};
use system_display::Selector;
use term_eval::Env;

/// What a computer holds of its era: the words and the keys so far, and of the last whole moment all that the next one
/// goes by, with its picture. Memory is taken in `new` and `beside` alone, and nothing grows with the history.
#[derive(Drop)]
pub struct Lane {
    /// The words that the sources took last, and the last ones before the moment that hasn't ended.
    pub params: Params,
    /// Of each parameter that a condition names or a page shows its value in the last moment, and before the first none.
    /// What stands at the others says nothing; `value` tells those of all.
    pub values: Vec<Option<i64>>,
    /// What is kept of the conditions.
    pub terms: Terms,
    /// What the phases so far leave for the next.
    pub phase_state: PhaseState,
    /// The flight phase of the last moment.
    pub phase: Phase,
    /// Which alerts are present, active, waiting, starred and up.
    pub truths: Truths,
    /// Which alerts are cleared, cancelled, recalled and shown.
    pub marks: Marks,
    /// The lights and the sound.
    pub attention: Attention,
    /// What the system display is asked to show.
    pub selector: Selector,
    /// The keys that were pressed in the moment that hasn't ended, and those that are held.
    pub keys: Strokes,
    /// Per procedure line whether it stands in the last moment; before the first they say nothing.
    pub lines: Vec<bool>,
    /// Per memo whether it holds in the last moment; before the first they say nothing.
    pub memos: Vec<bool>,
    /// There was a moment.
    pub ticked: bool,
    /// The last moment left all at rest: no alert is restless, no chime or NORMAL can end, and no row changed. Where it isn't
    /// set it says nothing.
    pub calm: bool,
    /// The last moment changed nothing, and no key came since: where no value turns that the book asks for, no condition is
    /// due and no computer fails or comes up, this one changes nothing either. Where it isn't set it says nothing.
    pub idle: bool,
    /// How many moments there were: the number of the one that hasn't ended.
    pub moments: u64,
    /// The picture of the last moment, blank before the first.
    pub picture: Picture,
    /// Which rows of the picture differ from those of the moment before; before the first moment none.
    pub changed: [bool; ROWS],
    /// Some alert of the book has status lines. Nothing changes it.
    pub has_status_lines: bool,
    // What FL tells of in the picture.
    counts: FlagCounts,
}

impl Lane {
    /// A lane before anything happened. An error is want of memory.
    pub fn new(alloc: Global, book: &Book) -> Result<Lane, AllocError>
        ensures fits { IfOk result (LaneFits (the_book book.now)) }
        ensures stands { IfOk result (λ l. (f : Flags)
            → LaneStands (the_book book.now) (empty_era f) l) }
        ensures moments { IfOk result (λ l. l.moments ≡ 0) }
        ensures unvisited { IfOk result (λ l. l.terms.cells.visits ≡ 0) }
    {
        let terms = Terms::new(alloc, book)?;
        let params = Params::watching(alloc, book, &terms.watch)?;
        Lane::with(alloc, book, terms, params)
    }

    /// The same, beside another lane of the same book. Both read one copy of the codes by which conditions are stepped, of
    /// which nodes ask for what, and of how the sources get their words; all else it has on memory of its own. An error is
    /// want of memory.
    pub fn beside(alloc: Global, book: &Book, other: &Lane) -> Result<Lane, AllocError>
        requires { LaneFits (the_book book.now) other.now }
        ensures fits { IfOk result (LaneFits (the_book book.now)) }
        ensures stands { IfOk result (λ l. (f : Flags)
            → LaneStands (the_book book.now) (empty_era f) l) }
        ensures moments { IfOk result (λ l. l.moments ≡ 0) }
        ensures unvisited { IfOk result (λ l. l.terms.cells.visits ≡ 0) }
    {
        let terms = Terms::beside(alloc, book, &other.terms)?;
        let params = Params::beside(alloc, book, &other.params)?;
        Lane::with(alloc, book, terms, params)
    }

    // The same, of conditions that no moment has stepped and a table before any word.
    fn with(alloc: Global, book: &Book, terms: Terms, params: Params) -> Result<Lane, AllocError>
        requires fits { TermsFit (the_book book.now) terms }
        requires stands { StandForNone terms.cells.slots }
        requires visits { terms.cells.visits ≡ 0 }
        requires params_fit { ParamsFit (the_book book.now) params }
        requires params_stand { (words : ℕ → List BusWord) → words 0 ≡ []
            → ParamsStand (the_book book.now) words 0 params }
        ensures fits { IfOk result (LaneFits (the_book book.now)) }
        ensures stands { IfOk result (λ l. (f : Flags)
            → LaneStands (the_book book.now) (empty_era f) l) }
        ensures moments { IfOk result (λ l. l.moments ≡ 0) }
        ensures unvisited { IfOk result (λ l. l.terms.cells.visits ≡ 0) }
    {
        let (values, lines, memos) = lists_of(alloc, book)?;
        let (marks, attention, truths) = parts_of(alloc, book)?;
        Ok(Lane {
            params,
            values,
            terms,
            phase_state: PhaseState::new(),
            phase: Phase { number: 1 },
            truths,
            marks,
            attention,
            selector: Selector::new(),
            keys: Strokes::new(),
            lines,
            memos,
            ticked: false,
            calm: false,
            idle: false,
            moments: 0,
            picture: Picture::blank(),
            changed: [false; ROWS],
            has_status_lines: has_status_lines(book),
            counts: FlagCounts::none(),
        })
    }

    /// Forgets all that happened. Its cost is a few writes for each parameter, source, slot and alert.
    pub fn cold(&mut self, book: &Book)
        requires { LaneFits (the_book book.now) self.old }
        ensures fits { LaneFits (the_book book.now) self.new }
        ensures stands { (f : Flags) → LaneStands (the_book book.now) (empty_era f) self.new }
        ensures moments { self.new.moments ≡ 0 }
        ensures unvisited { self.new.terms.cells.visits ≡ self.old.terms.cells.visits }
    {
        let _ = book;
        self.params.clear();
        self.values.fill(None);
        self.terms.clear();
        self.phase_state = PhaseState::new();
        self.phase = Phase { number: 1 };
        self.truths.clear();
        self.marks.clear();
        self.attention.clear();
        self.selector = Selector::new();
        self.keys = Strokes::new();
        self.ticked = false;
        self.calm = false;
        self.idle = false;
        self.moments = 0;
        self.picture.copy_from(&Picture::blank());
        self.changed = [false; ROWS];
    }

    /// Takes over all that another lane of the same book holds, but for the count of visits, and for `calm` and `idle`,
    /// which the next moments say again. Its cost is a copy of each of its lists.
    pub fn copy_from(&mut self, other: &Lane)
        requires { (b : plain.Book) × LaneFits b self.old × LaneFits b other.now }
        ensures fits { (b : plain.Book) → LaneFits b self.old → LaneFits b other.now
            → LaneFits b self.new }
        ensures stands { (b : plain.Book) (e : Era) → LaneFits b self.old → LaneStands b e other.now
            → LaneStands b e self.new }
        ensures moments { self.new.moments ≡ other.now.moments }
        ensures unvisited { self.new.terms.cells.visits ≡ self.old.terms.cells.visits }
    {
        self.params.copy_from(&other.params);
        self.values.copy_from_slice(&other.values);
        self.terms.copy_from(&other.terms);
        self.phase_state = other.phase_state;
        self.phase = other.phase;
        self.truths.copy_from(&other.truths);
        self.marks.copy_from(&other.marks);
        self.attention.copy_from(&other.attention);
        self.selector = other.selector;
        self.keys.copy_from(&other.keys);
        self.lines.copy_from_slice(&other.lines);
        self.memos.copy_from_slice(&other.memos);
        self.ticked = other.ticked;
        self.calm = false;
        self.idle = false;
        self.moments = other.moments;
        self.picture.copy_from(&other.picture);
        self.changed = other.changed;
        self.counts = other.counts;
    }

    /// Takes one event more, after which these computers are up. A word costs a look-up and a few writes at each of at most
    /// two mailboxes, and, where its bits are others than those of the word before, a look at each source that takes it
    /// there and whose parameter the book asks for; a key one write or two; what becomes of the computers themselves
    /// changes nothing here. A Tick costs a look for each 64 parameters, conditions and alerts, a write for each 64
    /// conditions, a look at the sources of the parameters that the book asks for and that may have another value, three at
    /// each key where one is or was pressed, a few looks and writes for each node that asks for what is another, and for
    /// the conditions that may turn by that a look at each temporal node and at each node that turns; in the first moment
    /// one at each source of all parameters and at each node of all conditions. Of alerts it looks at those whose condition
    /// turns, of lines and memos at those whose condition may turn, and, where an alert turned or a key acts on them, at
    /// the alerts of which something is told or kept; a zone of the picture is filled only where something that it shows
    /// turned. Where an alert or a mark turned, it seeks the first alert with rows on the status page: a look for each 64
    /// alerts and at each near one up to that, and, where the book has no status lines, before that a look at the flags of
    /// the cancelled, which ends it where none is set. A Tick in which no parameter that the book asks for may have another
    /// value, no condition is due and no key acts, after one that left all at rest, costs a few looks and writes, besides
    /// what the end of a moment costs the parameters: it looks at no condition, alert, line, memo or row. After another
    /// such Tick, with no key between them and the phase not timed, it costs eight looks and eight counts in all, and where
    /// conditions or mailboxes wait for the moment, a few looks and writes at each.
    pub fn event(&mut self, book: &Book, event: &Event, one_up: bool, two_up: bool)
        requires fits { LaneFits (the_book book.now) self.old }
        requires event { IsEvent event.now }
        requires goes_on { is_tick event.now ≡ true → CanGoOn self.old }
        ensures fits { LaneFits (the_book book.now) self.new }
        // Whatever came before in the era, the lane then stands for the era with this event.
        ensures stands { (e : Era) → AreUp (era_with e event.now) one_up two_up
            → LaneStands (the_book book.now) e self.old
            → LaneStands (the_book book.now) (era_with e event.now) self.new }
        // A Tick counts the nodes of the conditions that its moment wakes, and of no others.
        ensures visits { (e : Era) → is_tick event.now ≡ true
            → AreUp (era_with e event.now) one_up two_up
            → LaneStands (the_book book.now) e self.old
            → self.new.terms.cells.visits ≡ min (self.old.terms.cells.visits
            + visits (the_book book.now) (moment_of (era_with e event.now)) (length e.moments))
            (2 ^ 64 - 1) }
        ensures unvisited { is_tick event.now ≡ false
            → self.new.terms.cells.visits ≡ self.old.terms.cells.visits }
        ensures moments { self.new.moments ≡ self.old.moments + (if is_tick event.now then 1
            else 0) }
    {
        match event {
            Event::Word { bus, bits } => self.word(book, *bus, *bits),
            Event::Tick => self.tick(book, one_up, two_up),
            Event::Press(key) => {
                self.keys.press(*key);
                self.idle = false;
            }
            Event::Release(key) => {
                self.keys.release(*key);
                self.idle = false;
            }
            Event::Fail(_) => {}
            Event::Up(_) => {}
            Event::End => {}
        }
    }

    /// The same, where the event is a word.
    // (It stands in its caller, so that a word goes to its sources at once.)
    #[inline(always)]
    pub fn word(&mut self, book: &Book, bus: u8, bits: u32)
        requires { LaneFits (the_book book.now) self.old }
        ensures fits { LaneFits (the_book book.now) self.new }
        ensures stands { (e : Era) → LaneStands (the_book book.now) e self.old
            → LaneStands (the_book book.now) (era_with e (Word bus bits)) self.new }
        ensures moments { self.new.moments ≡ self.old.moments }
        ensures unvisited { self.new.terms.cells.visits ≡ self.old.terms.cells.visits }
    {
        self.params.take(book, bus, bits)
    }

    /// The same, where the event is a Tick: the moment ends.
    // (It stands in its caller, so that an idle moment costs no call.)
    #[inline(always)]
    pub fn tick(&mut self, book: &Book, one_up: bool, two_up: bool)
        requires fits { LaneFits (the_book book.now) self.old }
        requires goes_on { CanGoOn self.old }
        ensures fits { LaneFits (the_book book.now) self.new }
        ensures stands { (e : Era) → AreUp (era_with e Tick) one_up two_up
            → LaneStands (the_book book.now) e self.old
            → LaneStands (the_book book.now) (era_with e Tick) self.new }
        ensures visits { (e : Era) → AreUp (era_with e Tick) one_up two_up
            → LaneStands (the_book book.now) e self.old
            → self.new.terms.cells.visits ≡ min (self.old.terms.cells.visits
            + visits (the_book book.now) (moment_of (era_with e Tick)) (length e.moments))
            (2 ^ 64 - 1) }
        ensures moments { self.new.moments ≡ self.old.moments + 1 }
    {
        if self.idles(book, one_up, two_up) {
            self.pass(book);
            return;
        }
        self.rest_or_step(book, one_up, two_up)
    }

    /// Whether any source of the book listens to a word's bus and label. A word to which none does leaves each lane of the
    /// book as it is. Its cost is one look-up.
    #[inline(always)]
    pub fn hears(&self, book: &Book, bus: u8, bits: u32) -> bool
        requires { LaneFits (the_book book.now) self.now }
        ensures { result ≡ false → (l : Lane) (e : Era) → LaneStands (the_book book.now) e l
            → LaneStands (the_book book.now) (era_with e (Word bus bits)) l }
    {
        self.params.listens(book, bus, bits)
    }

    /// The value of a parameter in the last whole moment, whether or not anything of the book asks for it: `None` where no
    /// source was fresh with a value, and before the first moment. Its cost is a look at each of its sources.
    pub fn value(&self, book: &Book, param: usize) -> Option<i64>
        requires fits { LaneFits (the_book book.now) self.now }
        requires param { param < length book.now.params.items }
        ensures value { (e : Era) → LaneStands (the_book book.now) e self.now
            → (m : ℕ → Moment) → Continues e m → (k : ℕ) → length e.moments ≡ suc k
            → result ≡ value_in (the_book book.now) m param k }
        ensures none { (e : Era) → LaneStands (the_book book.now) e self.now
            → length e.moments ≡ 0 → result ≡ None }
        ensures bound { IfSome result (IsValueOf (parameter_at (the_book book.now) param).kind) }
    {
        self.params.value_before(book, param)
    }

    // The moment ends, where it isn't known beforehand that nothing acts. (It stands by itself, so that an idle moment takes
    // none of the room that this needs.)
    #[inline(never)]
    fn rest_or_step(&mut self, book: &Book, one_up: bool, two_up: bool)
        requires fits { LaneFits (the_book book.now) self.old }
        requires goes_on { CanGoOn self.old }
        ensures fits { LaneFits (the_book book.now) self.new }
        ensures moments { self.new.moments ≡ self.old.moments + 1 }
        ensures params { (words : ℕ → List BusWord) (k : ℕ) → words (suc k) ≡ []
            → ParamsStand (the_book book.now) words k self.old.params
            → ParamsStand (the_book book.now) words (suc k) self.new.params }
        ensures keys { (strokes : ℕ → List Stroke) (k : ℕ) → strokes (suc k) ≡ []
            → KeysStand strokes k self.old.keys → KeysStand strokes (suc k) self.new.keys }
        ensures whole { (m : ℕ → Moment)
            → Came (the_book book.now) m self.old.moments self.old.params self.old.keys one_up
            two_up
            → WholeStands (the_book book.now) m self.old.moments self.old
            → WholeStands (the_book book.now) m (suc self.old.moments) self.new }
        ensures visits { (m : ℕ → Moment)
            → Came (the_book book.now) m self.old.moments self.old.params self.old.keys one_up
            two_up
            → WholeStands (the_book book.now) m self.old.moments self.old
            → self.new.terms.cells.visits ≡ min (self.old.terms.cells.visits
            + visits (the_book book.now) m self.old.moments) (2 ^ 64 - 1) }
    {
        if self.rests(book, one_up, two_up) {
            self.rest(book);
            return;
        }
        self.step(book, one_up, two_up)
    }

    // The moment ends, whatever changes in it. (It stands by itself, so that a moment at rest takes none of the room that
    // this needs.)
    #[inline(never)]
    fn step(&mut self, book: &Book, one_up: bool, two_up: bool)
        requires fits { LaneFits (the_book book.now) self.old }
        requires goes_on { CanGoOn self.old }
        ensures fits { LaneFits (the_book book.now) self.new }
        ensures moments { self.new.moments ≡ self.old.moments + 1 }
        ensures params { (words : ℕ → List BusWord) (k : ℕ) → words (suc k) ≡ []
            → ParamsStand (the_book book.now) words k self.old.params
            → ParamsStand (the_book book.now) words (suc k) self.new.params }
        ensures keys { (strokes : ℕ → List Stroke) (k : ℕ) → strokes (suc k) ≡ []
            → KeysStand strokes k self.old.keys → KeysStand strokes (suc k) self.new.keys }
        ensures whole { (m : ℕ → Moment)
            → Came (the_book book.now) m self.old.moments self.old.params self.old.keys one_up
            two_up
            → WholeStands (the_book book.now) m self.old.moments self.old
            → WholeStands (the_book book.now) m (suc self.old.moments) self.new }
        ensures visits { (m : ℕ → Moment)
            → Came (the_book book.now) m self.old.moments self.old.params self.old.keys one_up
            two_up
            → WholeStands (the_book book.now) m self.old.moments self.old
            → self.new.terms.cells.visits ≡ min (self.old.terms.cells.visits
            + visits (the_book book.now) m self.old.moments) (2 ^ 64 - 1) }
    {
        self.idle = false;
        let values = begin_moment(
            &mut self.terms,
            &mut self.values,
            &self.params,
            &self.keys,
            book,
            one_up,
            two_up,
            self.moments,
        );
        self.finish(book, values, one_up, two_up);
    }

    // The moment that has begun ends, whatever it wakes.
    fn finish(&mut self, book: &Book, values: bool, one_up: bool, two_up: bool)
        requires fits { LaneFits (the_book book.now) self.old }
        requires idle { self.old.idle ≡ false }
        requires goes_on { CanGoOn self.old }
        ensures fits { LaneFits (the_book book.now) self.new }
        ensures moments { self.new.moments ≡ self.old.moments + 1 }
        ensures params { (words : ℕ → List BusWord) (k : ℕ) → words (suc k) ≡ []
            → ParamsStand (the_book book.now) words k self.old.params
            → ParamsStand (the_book book.now) words (suc k) self.new.params }
        ensures keys { (strokes : ℕ → List Stroke) (k : ℕ) → strokes (suc k) ≡ []
            → KeysStand strokes k self.old.keys → KeysStand strokes (suc k) self.new.keys }
        ensures whole { (m : ℕ → Moment) (visited : ℕ)
            → HasBegun (the_book book.now) m self.old.moments visited one_up two_up values self.old
            → WholeStands (the_book book.now) m (suc self.old.moments) self.new }
        ensures visits { (m : ℕ → Moment) (visited : ℕ)
            → HasBegun (the_book book.now) m self.old.moments visited one_up two_up values self.old
            → self.new.terms.cells.visits
            ≡ min (visited + visits (the_book book.now) m self.old.moments) (2 ^ 64 - 1) }
    {
        let lent = Env {
            values: &self.values,
            phase: Phase { number: 1 },
            active: &[],
            keys: self.keys.keys(),
            one_up,
            two_up,
        };
        let stepped = step_conditions(
            &mut self.terms,
            &mut self.phase_state,
            &mut self.truths,
            &mut self.lines,
            &mut self.memos,
            book,
            self.marks.shown(),
            &lent,
            self.phase,
            self.moments,
        );
        let normal = self.marks.normal();
        step_crew(
            &mut self.marks,
            &mut self.attention,
            &mut self.selector,
            &self.truths,
            book,
            &self.keys,
            enters_one(self.ticked, self.phase, stepped.phase),
        );
        let turned = Turned::of(
            self.ticked,
            self.phase,
            stepped,
            values,
            self.marks.changed(),
            normal,
            self.marks.normal(),
        );
        let scene = Scene {
            has_status_lines: self.has_status_lines,
            phase: stepped.phase,
            values: &self.values,
            lines: &self.lines,
            memos: &self.memos,
            turned: self.params.changed(),
            truths: &self.truths,
            marks: &self.marks,
            attention: &self.attention,
            selector: &self.selector,
        };
        draw(
            book,
            &scene,
            turned,
            &mut self.counts,
            &mut self.picture,
            &mut self.changed,
        );
        self.phase = stepped.phase;
        self.ticked = true;
        self.moments += 1;
        self.terms.keys.follow(&self.keys);
        self.terms.one_up = one_up;
        self.terms.two_up = two_up;
        self.params.tick(book);
        self.keys.tick();
        self.calm = leaves_calm(&self.truths, &self.attention, &self.marks, &self.changed);
    }
}
