// The words of the last Tick, and those that are written at a further one.
ghost use Rattle.std.specs.Prelude.{◌≡◌, ◌∷◌, ◌++◌, ◌≤◌, [], List, IfOk, OnOk, OnErr};
ghost use Rattle.ecam_io.specs.Outside.{Rose, Appended, AppendedPrefix};
ghost use Rattle.ecam_spec.specs.Book as plain;
ghost use Rattle.ecam_spec.specs.declared.kinds.Event.{Event};
ghost use Rattle.ecam_spec.specs.declared.kinds.Event.TheVariants.{Tick};
ghost use Rattle.ecam_spec.specs.Replay.{tick_count};
ghost use Rattle.ecam_spec.specs.Replay as replay;
ghost use Rattle.book_model.specs.Sealed.{the_book};
ghost use Rattle.fwc_pair.specs.PairState.{PairStands};
ghost use Rattle.fwc_pair.specs.Views.{IsNext, GoesOn, Adds, AddsPart};
ghost use Rattle.view_spec.specs.OutputWords as spec;
ghost use Rattle.view_spec.proofs.TickLaws.{each_tick_nil, each_tick_begun};
ghost use Rattle.word_out.specs.WordsStand.{WordsStand};

use crate::data::GROUP;
use crate::lines::{Lines, put, put_words};
use book_model::Book;
use ecam_io::{Failed, Sink, put_all};
use ecam_kinds::Event;
use fwc_pair::{Pair, View};
use std::alloc::{AllocError, Global};

// Every so many Ticks, which are ten seconds, all words are written.
const REPEAT: u8 = 100;

/// The computers' own words of a replay, as lines of a record on bus 15. Memory is taken in `new` alone, and nothing grows
/// with the history.
#[derive(Drop)]
pub struct WordOut {
    // The number of the next Tick since the last at which all words were written; 0 where it is one.
    tick: u8,
    // The words of the last Tick.
    words: Vec<u32>,
}

impl WordOut {
    /// Before any event. An error is want of memory.
    pub fn new(alloc: Global, book: &Book) -> Result<WordOut, AllocError>
        ensures { IfOk result (WordsStand (the_book book.now) []) }
    {
        let groups = book.alerts().len().div_ceil(GROUP);
        Ok(WordOut {
            tick: 0,
            words: vec![in alloc; 0; 1 + groups]?,
        })
    }

    // Takes a Tick, and answers its lines. Costs a look at each alert, and a line for each word that is written.
    fn take(&mut self, book: &Book, pair: &Pair) -> Lines
        requires { (h : List Event) × WordsStand (the_book book.now) h self.old }
        ensures lines { (h : List Event) → WordsStand (the_book book.now) h self.old
            → PairStands (the_book book.now) (h ++ Tick ∷ []) pair.now
            → result.items ≡ spec.tick_text (the_book book.now) (tick_count h) (h ++ Tick ∷ []) }
        ensures stands { (h : List Event) → WordsStand (the_book book.now) h self.old
            → PairStands (the_book book.now) (h ++ Tick ∷ []) pair.now
            → WordsStand (the_book book.now) (h ++ Tick ∷ []) self.new }
    {
        book.sealed();
        let mut lines = Lines::new();
        put_words(&mut lines, self.tick == 0, &mut self.words, pair);
        put(&mut lines, b"T\n");
        self.tick = (self.tick + 1) % REPEAT;
        lines
    }
}

// Whether an event ends a moment.
fn is_tick(event: &Event) -> bool
    ensures { result ≡ replay.is_tick event.now }
{
    matches!(event, Event::Tick)
}

/// The words of a Tick are written as soon as the pair has taken it. Other events cost nothing.
impl View for WordOut {
    ghost Settings = { Unit {0} };

    ghost settings = { λ _. tt };

    ghost fits = { λ _ _. Unit {0} };

    ghost text = { λ _ b. spec.words_text b };

    ghost closing = { λ _ _ _. spec.words_end };

    ghost stands = { λ w b h. WordsStand b h w };

    ghost begins_empty = { λ _ b. each_tick_nil (spec.tick_text b) };

    ghost goes_on = { λ _ b h e. let begun = each_tick_begun (spec.tick_text b) h e in
        record { more = begun.0; joined = begun.1 } };

    fn event<O: Sink>(
        &mut self,
        book: &Book,
        pair: &Pair,
        event: &Event,
        _fresh: bool,
        out: &mut O,
    ) -> Result<(), Failed> {
        if !is_tick(event) {
            return Ok(());
        }
        put_all(out, self.take(book, pair).as_slice())
    }

    fn close<O: Sink>(&mut self, _book: &Book, _ticks: u64, out: &mut O) -> Result<(), Failed> {
        put_all(out, b"E\n")
    }
}
