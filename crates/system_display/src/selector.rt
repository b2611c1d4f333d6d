// What the system display is asked to show, moment by moment.
ghost use Rattle.std.specs.Prelude.{◌≡◌, ◌↔◌, ◌<◌, ◌+◌, ℕ, suc, false, length, IfSome, Option, None};
ghost use Rattle.ecam_spec.specs.Book as plain;
ghost use Rattle.ecam_spec.specs.Past.{Signal, running_since};
ghost use Rattle.ecam_spec.specs.Selection.{Panel};
ghost use Rattle.book_model.specs.Sealed.{the_book};
ghost use Rattle.system_display.specs.Panels.{AreInputs, CallsItsPages, SelectsNothing, Shows};
ghost use Rattle.system_display.specs.Selecting.{Stands, SelectorFits, CanGoOn, IsChoiceOf, IsKept};
ghost use Rattle.ecam_spec.specs.Runs.{choice_before};

use crate::inputs::Inputs;
use crate::selection::{Selection, page_in_turn};
use book_model::Book;
use ecam_kinds::Keys;
use ecam_spec::Choice;

/// What the keys ALL, PG1 to PG16, STS, CLR and EMER CANC have selected so far. It has the same few bytes whatever
/// the history. The keys are the A320's (DSC-31, in outline), the exact rules this project's.
#[derive(Clone, Copy, Debug, PartialEq, Eq)]
pub struct Selector {
    // How many moments there were.
    moments: u64,
    // The first moment of the stretch in which ALL is held, where it is held in the last one.
    all_since: Option<u64>,
    selection: Selection,
    // The last moment changed the choice.
    changed: bool,
}

impl Selector {
    /// The selector before the first moment: the choice is automatic.
    pub fn new() -> Selector
        ensures fits { (b : plain.Book) → SelectorFits b result }
        ensures stands { (p : Panel) → Stands p 0 result }
        ensures moments { result.moments ≡ 0 }
    {
        Selector {
            moments: 0,
            all_since: None,
            selection: Selection::new(),
            changed: false,
        }
    }

    /// Takes one moment more, of 100 ms, with its keys and the alert at which CLR and EMER CANC aim. The cost is a
    /// few looks, and where a key is pressed one at the key of each page.
    pub fn step(&mut self, book: &Book, keys: &Keys, target: Option<u32>)
        requires goes_on { CanGoOn self.old }
        requires fits { SelectorFits (the_book book.now) self.old }
        requires target { IfSome target (λ a. a < length book.now.alerts.items) }
        ensures fits { SelectorFits (the_book book.now) self.new }
        // Whatever the moments before were, it then stands for one more.
        ensures stands { (p : Panel) (k : ℕ) → Stands p k self.old
            → Shows (the_book book.now) keys.now target p k → Stands p (suc k) self.new }
        ensures moments { self.new.moments ≡ self.old.moments + 1 }
    {
        self.take(&Inputs::of(book, keys, target));
    }

    /// Takes one moment more in which nothing is selected: ALL isn't held, no key of a page, STS or CLR is pressed, and EMER
    /// CANC calls off no caution. The choice stays as it is. The cost is three writes.
    pub fn rest(&mut self)
        requires { CanGoOn self.old }
        ensures fits { (b : plain.Book) → SelectorFits b self.old → SelectorFits b self.new }
        ensures moments { self.new.moments ≡ self.old.moments + 1 }
        ensures selection { self.new.selection ≡ self.old.selection }
        ensures changed { self.new.changed ≡ false }
        ensures all_since { self.new.all_since ≡ None }
        ensures stands { (p : Panel) (k : ℕ) → SelectsNothing p k → Stands p k self.old
            → Stands p (suc k) self.new }
    {
        self.moments += 1;
        self.all_since = None;
        self.changed = false;
    }

    /// Takes one moment more like `rest`, where ALL wasn't held in the last one, nor was the choice changed by it. The cost is
    /// one write.
    pub fn pass(&mut self)
        requires goes_on { CanGoOn self.old }
        requires changed { self.old.changed ≡ false }
        requires all_since { self.old.all_since ≡ None }
        ensures fits { (b : plain.Book) → SelectorFits b self.old → SelectorFits b self.new }
        ensures moments { self.new.moments ≡ self.old.moments + 1 }
        ensures selection { self.new.selection ≡ self.old.selection }
        ensures changed { self.new.changed ≡ false }
        ensures all_since { self.new.all_since ≡ None }
        ensures stands { (p : Panel) (k : ℕ) → SelectsNothing p k → Stands p k self.old
            → Stands p (suc k) self.new }
    {
        self.moments += 1;
    }

    fn take(&mut self, inputs: &Inputs)
        requires goes_on { CanGoOn self.old }
        requires called { CallsItsPages inputs.now }
        requires choice { IsChoiceOf inputs.now.pages self.old.selection.choice }
        ensures choice { IsChoiceOf inputs.now.pages self.new.selection.choice }
        ensures stands { (p : Panel) (k : ℕ) → Stands p k self.old → AreInputs p k inputs.now
            → Stands p (suc k) self.new }
        ensures moments { self.new.moments ≡ self.old.moments + 1 }
    {
        let now = self.moments;
        let since = self.held_since(inputs.all_held);
        let turn = page_in_turn(since, now, inputs.pages);
        let selection = self.selection.next(inputs, turn);
        self.changed = differ(selection.choice, self.selection.choice);
        self.selection = selection;
        self.all_since = since;
        self.moments = now + 1;
    }

    // The first moment of the stretch in which ALL is held, where it is held in the moment that is taken.
    fn held_since(&self, held: bool) -> Option<u64>
        ensures { (q : Signal) → held ≡ q self.now.moments
            → self.now.all_since ≡ running_since q self.now.moments
            → result ≡ running_since q (suc self.now.moments) }
    {
        if held {
            Some(self.all_since.unwrap_or(self.moments))
        } else {
            None
        }
    }

    /// What is shown in the last moment: what the situation calls for, a page of the book from 0, or a status page
    /// by its number from 0, not yet taken modulo the number of status pages. Before the first moment it is
    /// automatic.
    pub fn choice(&self) -> Choice
        ensures choice { (p : Panel) (k : ℕ) → Stands p k self.now → result ≡ choice_before p k }
        ensures within { (b : plain.Book) → SelectorFits b self.now
            → IsChoiceOf (length b.pages) result }
    {
        self.selection.choice
    }

    /// Whether the choice of the last moment is another than that of the moment before it, which is automatic for
    /// the first. Before the first moment nothing has changed.
    pub fn changed(&self) -> bool
        ensures { (p : Panel) (k : ℕ) → Stands p k self.now → (result ≡ false) ↔ IsKept p k }
    {
        self.changed
    }
}

fn differ(one: Choice, other: Choice) -> bool
    ensures { (result ≡ false) ↔ (one ≡ other) }
{
    one != other
}
