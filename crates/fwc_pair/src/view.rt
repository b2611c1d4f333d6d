// Another output of the two computers.
ghost use Rattle.std.specs.Prelude.{◌≡◌, ◌≤◌, ℕ, [], ◌∷◌, ◌++◌, List, OnOk, OnErr};
ghost use Rattle.ecam_io.specs.Outside.{Rose, Appended, AppendedPrefix};
ghost use Rattle.ecam_spec.specs.declared.kinds.Event.{Event};
ghost use Rattle.ecam_spec.specs.Book.{Text};
ghost use Rattle.ecam_spec.specs.Book as plain;
ghost use Rattle.ecam_spec.specs.Replay.{tick_count};
ghost use Rattle.book_model.specs.Sealed.{the_book};
ghost use Rattle.fwc_pair.specs.Views.{IsNext, GoesOn, Adds, AddsPart};

use crate::pair::Pair;
use book_model::Book;
use ecam_io::{Failed, Sink};
use ecam_kinds::Event;

/// What is written of a replay. A view takes the events of a history one by one, each after the pair has taken it, and
/// writes what the history's text gets by it; at the end it writes its closing. Neither call takes memory.
pub trait View {
    /// What a view is set to. No call changes its settings.
    ghost Settings: { Type 0 };

    ghost settings: { Self → Settings };

    /// A view with these settings can be led by the book. One that was made for a book fits it.
    ghost fits: { Settings → plain.Book → Type 0 };

    /// What is written of a history,
    ghost text: { Settings → plain.Book → List Event → Text };

    /// and behind it where the record ends there.
    ghost closing: { Settings → plain.Book → List Event → Text };

    /// The view has taken this history. A new one stands for the empty history.
    ghost stands: { Self → plain.Book → List Event → Type 0 };

    /// Takes the next event, which isn't a record's end, and writes what it adds to the text. The pair has taken it
    /// already. `fresh` tells whether it begins an era: a computer comes up while both were down. After `Failed` a
    /// prefix of what it adds was written.
    fn event<O: Sink>(
        &mut self,
        book: &Book,
        pair: &Pair,
        event: &Event,
        fresh: bool,
        out: &mut O,
    ) -> Result<(), Failed>
        requires fits { fits (settings self.old) (the_book book.now) }
        requires next { (h : List Event) × (stands self.old (the_book book.now) h
            × IsNext (the_book book.now) h event.now fresh pair.now) }
        ensures settings { settings self.new ≡ settings self.old }
        // Whatever the history was.
        ensures stands { (h : List Event) → stands self.old (the_book book.now) h
            → IsNext (the_book book.now) h event.now fresh pair.now
            → OnOk result (stands self.new (the_book book.now) (h ++ event.now ∷ [])) }
        ensures adds { (h : List Event) → stands self.old (the_book book.now) h
            → IsNext (the_book book.now) h event.now fresh pair.now
            → OnOk result (Adds O.agrees out.old out.new
            (text (settings self.old) (the_book book.now) h)
            (text (settings self.old) (the_book book.now) (h ++ event.now ∷ []))) }
        ensures part { (h : List Event) → stands self.old (the_book book.now) h
            → IsNext (the_book book.now) h event.now fresh pair.now
            → OnErr result (AddsPart O.agrees out.old out.new
            (text (settings self.old) (the_book book.now) h)
            (text (settings self.old) (the_book book.now) (h ++ event.now ∷ []))) }
        ensures cause { OnErr result (Rose (O.faults out.old) (O.faults out.new)) }
        ensures faults { O.faults out.old ≤ O.faults out.new }
        ensures quiet { OnOk result (O.faults out.new ≡ O.faults out.old) };

    /// Writes what stands at the end. `ticks` is the number of the history's Ticks. After `Failed` a prefix was
    /// written.
    fn close<O: Sink>(&mut self, book: &Book, ticks: u64, out: &mut O) -> Result<(), Failed>
        requires fits { fits (settings self.old) (the_book book.now) }
        requires ended { (h : List Event) × (stands self.old (the_book book.now) h
            × (ticks ≡ tick_count h)) }
        ensures settings { settings self.new ≡ settings self.old }
        ensures closes { (h : List Event) → stands self.old (the_book book.now) h
            → ticks ≡ tick_count h
            → OnOk result (Appended O.agrees out.old out.new
            (closing (settings self.old) (the_book book.now) h)) }
        ensures part { (h : List Event) → stands self.old (the_book book.now) h
            → ticks ≡ tick_count h
            → OnErr result (AppendedPrefix O.agrees out.old out.new
            (closing (settings self.old) (the_book book.now) h)) }
        ensures cause { OnErr result (Rose (O.faults out.old) (O.faults out.new)) }
        ensures faults { O.faults out.old ≤ O.faults out.new }
        ensures quiet { OnOk result (O.faults out.new ≡ O.faults out.old) };

    /// Nothing is written of no event,
    ghost begins_empty: { (s : Settings) (b : plain.Book) → text s b [] ≡ [] };

    /// and what was written of a history stays, whatever comes next.
    ghost goes_on: { (s : Settings) (b : plain.Book) (h : List Event) (e : Event)
        → GoesOn (text s b h) (text s b (h ++ e ∷ [])) };
}
