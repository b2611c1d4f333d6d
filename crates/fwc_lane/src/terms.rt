// What a lane keeps of the book's conditions from moment to moment.
ghost use Rattle.std.specs.Prelude.{◌≡◌, ◌<◌, ◌^◌, length, IfOk};
ghost use Rattle.ecam_spec.specs.Book as plain;
ghost use Rattle.ecam_spec.specs.BookTerms.{terms_of, slots_in};
ghost use Rattle.book_model.specs.Sealed.{the_book};
ghost use Rattle.book_model.specs.Conditions.{places};
ghost use Rattle.condition_codes.specs.IsCodes.{IsCodes};
ghost use Rattle.condition_codes.specs.IsAskers.{IsAskers};
ghost use Rattle.watch_lists.specs.Watching.{IsWatch};
ghost use Rattle.term_eval.specs.CellState.{StandForNone};
ghost use Rattle.fwc_lane.specs.TermsFit.{TermsFit, TookTerms, OwnsBelow};

use crate::line_alerts::alerts_of_lines;
use crate::strokes::Strokes;
use book_model::Book;
use condition_codes::{Askers, CodeTable, Codes};
use std::alloc::{AllocError, Global};
use term_eval::Cells;
use wakes::{BitSet, Marked, Wakes};
use watch_lists::Watch;

/// All that is kept of the conditions, each under its number in stepping order: by which code it is stepped, what it
/// remembers, what it said, and when it turns by itself; and of what they name what the lane has nowhere else.
#[derive(Drop)]
pub struct Terms {
    /// The code by which each is stepped. Nothing changes it, and lanes of one book may share it.
    pub codes: Codes,
    /// Which nodes ask for what. Nothing changes it, and lanes of one book may share it.
    pub askers: Askers,
    /// What the conditions remember, and what is kept of their nodes, one code behind another.
    pub cells: Cells,
    /// Per condition whether it held in the last moment.
    pub truths: Vec<bool>,
    /// Per condition the moment in which it turns by itself.
    pub dues: Wakes,
    /// The conditions that the moment which is stepped wakes, whose nodes are counted. Between moments it says nothing.
    pub woken: BitSet,
    /// Those of them that may turn, which alone are stepped: of which a temporal node is to be looked at, or the first node
    /// turned. Between moments it says nothing.
    pub stirred: Marked,
    /// Which conditions name what. Nothing changes it.
    pub watch: Watch,
    /// Per procedure line the alert that has it. Nothing changes it.
    pub line_alerts: Vec<u32>,
    /// The keys, of which is told which counted as pressed in the last moment.
    pub keys: Strokes,
    /// Computer 1 was up in the last moment.
    pub one_up: bool,
    /// Computer 2 was up in the last moment.
    pub two_up: bool,
}

impl Terms {
    /// Of conditions that no moment has stepped. Its cost is a few writes a condition and a slot, and at most seven visits of
    /// each node. An error is want of memory.
    pub fn new(alloc: Global, book: &Book) -> Result<Terms, AllocError>
        ensures fits { IfOk result (TermsFit (the_book book.now)) }
        ensures stands { IfOk result (λ t. StandForNone t.cells.slots) }
        ensures visits { IfOk result (λ t. t.cells.visits ≡ 0) }
        ensures watch { IfOk result (λ t. IsWatch book.now t.watch) }
    {
        let codes = Codes::new(alloc, book)?;
        let askers = Askers::new(alloc, book, codes.table())?;
        Terms::with(alloc, book, codes, askers)
    }

    /// The same, with the codes and the askers of another lane of the same book. Its cost is a few writes a condition, a node
    /// and a slot. An error is want of memory.
    pub fn beside(alloc: Global, book: &Book, other: &Terms) -> Result<Terms, AllocError>
        requires { TermsFit (the_book book.now) other.now }
        ensures fits { IfOk result (TermsFit (the_book book.now)) }
        ensures stands { IfOk result (λ t. StandForNone t.cells.slots) }
        ensures visits { IfOk result (λ t. t.cells.visits ≡ 0) }
    {
        Terms::with(alloc, book, other.codes.share()?, other.askers.share()?)
    }

    // The same, by these codes and askers.
    fn with(alloc: Global, book: &Book, codes: Codes, askers: Askers) -> Result<Terms, AllocError>
        requires codes { IsCodes (the_book book.now) codes }
        requires askers { IsAskers (the_book book.now) askers }
        ensures fits { IfOk result (TermsFit (the_book book.now)) }
        ensures stands { IfOk result (λ t. StandForNone t.cells.slots) }
        ensures visits { IfOk result (λ t. t.cells.visits ≡ 0) }
        ensures watch { IfOk result (λ t. IsWatch book.now t.watch) }
    {
        let count = condition_count(book);
        let mut cells = Cells::with_nodes(alloc, codes.table().count(), book.slots())?;
        own_slots(&mut cells, codes.table(), count);
        let truths = vec![in alloc; false; count]?;
        let dues = Wakes::new(alloc, count)?;
        let woken = BitSet::new(alloc, count)?;
        let stirred = Marked::new(alloc, count)?;
        let watch = Watch::new(alloc, book)?;
        let line_alerts = alerts_of_lines(alloc, book)?;
        Ok(Terms {
            codes,
            askers,
            cells,
            truths,
            dues,
            woken,
            stirred,
            watch,
            line_alerts,
            keys: Strokes::new(),
            one_up: false,
            two_up: false,
        })
    }

    /// Forgets all moments. What is told of the last one says nothing then: the first moment asks each condition. Its cost
    /// is one write a slot.
    pub fn clear(&mut self)
        ensures fits { (b : plain.Book) → TermsFit b self.old → TermsFit b self.new }
        ensures stands { StandForNone self.new.cells.slots }
        ensures visits { self.new.cells.visits ≡ self.old.cells.visits }
    {
        self.cells.clear();
    }

    /// Takes over what is kept of the same book's conditions by another lane, but for the count of visits. Its cost is a
    /// write a node and a slot, and a few a condition.
    pub fn copy_from(&mut self, other: &Terms)
        requires { (b : plain.Book) × TermsFit b self.old × TermsFit b other.now }
        ensures fits { (b : plain.Book) → TermsFit b self.old → TermsFit b self.new }
        ensures took { TookTerms other.now self.new }
        ensures visits { self.new.cells.visits ≡ self.old.cells.visits }
    {
        self.cells.copy_from(&other.cells);
        self.truths.copy_from_slice(&other.truths);
        self.dues.copy_from(&other.dues);
        self.keys.copy_from(&other.keys);
        self.one_up = other.one_up;
        self.two_up = other.two_up;
    }
}

// Tells each slot of the temporal node that it is of, for so many conditions. Its cost is a look at each of them, and a write
// a slot.
fn own_slots(cells: &mut Cells, codes: &CodeTable, count: usize)
    requires codes { (b : plain.Book) × IsCodes b codes.now × (count ≡ length (places b))
        × (length cells.old.slots ≡ slots_in (terms_of b)) }
    ensures owners { (b : plain.Book) → IsCodes b codes.now → count ≡ length (places b)
        → OwnsBelow b count cells.new.owners }
    ensures many { length cells.new.owners ≡ length cells.old.owners }
    ensures slots { cells.new.slots ≡ cells.old.slots }
    ensures nodes { cells.new.nodes ≡ cells.old.nodes }
    ensures visits { cells.new.visits ≡ cells.old.visits }
{
    for number in 0..count {
        let parts = codes.parts(number);
        cells.own(parts.slot, parts.owners);
    }
}

// How many conditions a book has.
fn condition_count(book: &Book) -> usize
    ensures count { result ≡ length (places (the_book book.now)) }
    ensures few { result < 2 ^ 32 }
{
    6 + book.alerts().len() + 2 * book.line_count() + book.memos().len()
}
