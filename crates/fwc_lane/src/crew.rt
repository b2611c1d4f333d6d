// What the crew makes of a moment: the marks, the lights and the sound, and the selection.
ghost use Rattle.std.specs.Prelude.{◌≡◌, ◌+◌, ◌<◌, ◌==◌, ◌&&◌, ℕ, suc, false, length, not, nat_lt, IfSome};
ghost use Rattle.ecam_spec.specs.Book as plain;
ghost use Rattle.ecam_spec.specs.History.{Moment};
ghost use Rattle.ecam_spec.specs.Situation.{strokes_in, phase_in, condition_in};
ghost use Rattle.ecam_spec.specs.Screen as screen;
ghost use Rattle.ecam_spec.specs.Screen.{cockpit};
ghost use Rattle.ecam_kinds.specs.KeyState.{KeysStand};
ghost use Rattle.book_model.specs.Sealed.{the_book};
ghost use Rattle.alert_truth.specs.TruthsState.{TruthsFit, TruthsStand};
ghost use Rattle.crew_marks.specs.MarksState.{MarksFit, MarksStand};
ghost use Rattle.crew_marks.specs.CrewMarks as marking;
ghost use Rattle.attention.specs.State.{AttentionFits, AttentionStands};
ghost use Rattle.attention.specs.State as lighting;
ghost use Rattle.system_display.specs.Selecting.{SelectorFits};
ghost use Rattle.system_display.specs.Selecting as selecting;
ghost use Rattle.wakes.specs.Marks.{is_marked};
ghost use Rattle.crew_marks.specs.MarkSets.{mark_at};
ghost use Rattle.fwc_lane.specs.CrewStands.{CrewStands, IsShownAsBefore, IsUpAsBefore, OthersAsBefore};

use crate::flags::is_either;
use crate::strokes::Strokes;
use alert_truth::Truths;
use attention::Attention;
use book_model::Book;
use crew_marks::Marks;
use ecam_kinds::{Keys, Phase};
use system_display::Selector;

/// Whether phase 1 starts with a moment that isn't the first.
pub fn enters_one(ticked: bool, was: Phase, phase: Phase) -> bool
    ensures { (b : plain.Book) (m : ℕ → Moment) (k : ℕ) → ticked ≡ nat_lt 0 k
        → phase.number ≡ phase_in b m k
        → ((j : ℕ) → k ≡ suc j → was.number ≡ phase_in b m j) → result ≡ screen.enters_one b m k }
{
    enters(ticked, was.number, phase.number)
}

fn enters(ticked: bool, was: u8, phase: u8) -> bool
    ensures { result ≡ (phase == 1 && (ticked && not (was == 1))) }
{
    phase == 1 && ticked && was != 1
}

// Steps the crew's marks. Where no alert turned it looks at none, unless the crew does something, and else at those that
// turned; where it does, at the near ones and those that are marked too.
fn step_marks(marks: &mut Marks, truths: &Truths, book: &Book, keys: &Keys, enters_one: bool)
    requires truths { TruthsFit (the_book book.now) truths.now }
    requires marks { MarksFit (the_book book.now) marks.old }
    requires goes_on { marking.CanGoOn marks.old }
    ensures marks { MarksFit (the_book book.now) marks.new }
    ensures moments { marks.new.moments ≡ marks.old.moments + 1 }
    ensures stands { (m : ℕ → Moment) (k : ℕ)
        → TruthsStand (the_book book.now) (condition_in (the_book book.now) m)
        (phase_in (the_book book.now) m) (suc k) truths.now
        → KeysStand (strokes_in (the_book book.now) m) k keys.now
        → enters_one ≡ screen.enters_one (the_book book.now) m k
        → MarksStand (the_book book.now) (cockpit (the_book book.now) m) k marks.old
        → MarksStand (the_book book.now) (cockpit (the_book book.now) m) (suc k) marks.new }
    ensures kept { marks.new.changed ≡ false → marks.new.sets ≡ marks.old.sets }
    // Of the alerts that weren't looked at none is up that wasn't, or was and isn't, nor did its mark turn.
    ensures up { (m : ℕ → Moment) (k : ℕ)
        → TruthsStand (the_book book.now) (condition_in (the_book book.now) m)
        (phase_in (the_book book.now) m) (suc k) truths.now
        → (a : ℕ) → a < length (the_book book.now).alerts
        → is_marked marks.new.looked a ≡ false → IsUpAsBefore (the_book book.now) m k a }
    ensures others { (a : ℕ) → is_marked marks.new.looked a ≡ false
        → mark_at marks.new.sets a ≡ mark_at marks.old.sets a }
{
    if truths.changed() {
        marks.step_turned(
            book,
            truths.up(),
            truths.waiting(),
            truths.near(),
            truths.turned(),
            keys,
            enters_one,
        );
        return;
    }
    marks.step_still(
        book,
        truths.up(),
        truths.waiting(),
        truths.near(),
        keys,
        enters_one,
    );
}

// Steps the lights and the sound. Where no alert turned, nor any mark, it looks at none, unless a press acknowledges, and
// else at those of which the marks were looked at, and at a press at those whose onset is open.
fn step_attention(
    attention: &mut Attention,
    marks: &Marks,
    truths: &Truths,
    book: &Book,
    keys: &Keys,
)
    requires truths { TruthsFit (the_book book.now) truths.now }
    requires marks { MarksFit (the_book book.now) marks.now }
    requires attention { AttentionFits (the_book book.now) attention.old }
    requires goes_on { lighting.CanGoOn attention.old }
    ensures attention { AttentionFits (the_book book.now) attention.new }
    ensures moments { attention.new.moments ≡ attention.old.moments + 1 }
    ensures stands { (m : ℕ → Moment) (k : ℕ)
        → TruthsStand (the_book book.now) (condition_in (the_book book.now) m)
        (phase_in (the_book book.now) m) (suc k) truths.now
        → KeysStand (strokes_in (the_book book.now) m) k keys.now
        → MarksStand (the_book book.now) (cockpit (the_book book.now) m) (suc k) marks.now
        → (marks.now.changed ≡ false → IsShownAsBefore (the_book book.now) m k)
        → OthersAsBefore (the_book book.now) m k marks.now.looked
        → AttentionStands (the_book book.now) (screen.attention (the_book book.now) m) k
        attention.old
        → AttentionStands (the_book book.now) (screen.attention (the_book book.now) m) (suc k)
        attention.new }
{
    if is_either(truths.changed(), marks.changed()) {
        attention.step_turned(book, truths.up(), marks.shown(), marks.looked(), keys);
        return;
    }
    attention.step_still(book, truths.up(), marks.shown(), keys);
}

// Steps the selection. It stays as it is where no key is pressed, and ALL isn't held.
fn step_selection(selector: &mut Selector, book: &Book, keys: &Strokes, target: Option<u32>)
    requires selector { SelectorFits (the_book book.now) selector.old }
    requires goes_on { selecting.CanGoOn selector.old }
    requires target { IfSome target (λ a. a < length book.now.alerts.items) }
    ensures selector { SelectorFits (the_book book.now) selector.new }
    ensures moments { selector.new.moments ≡ selector.old.moments + 1 }
    ensures stands { (m : ℕ → Moment) (k : ℕ)
        → KeysStand (strokes_in (the_book book.now) m) k keys.now
        → target ≡ screen.target_in (the_book book.now) m k
        → selecting.Stands (screen.panel (the_book book.now) m) k selector.old
        → selecting.Stands (screen.panel (the_book book.now) m) (suc k) selector.new }
{
    book.sealed();
    if keys.are_idle() {
        selector.rest();
        return;
    }
    selector.step(book, keys.keys(), target);
}

/// Steps the crew's marks, the lights and the sound, and the selection by one moment. CLR and EMER CANC aim at the first
/// alert that the moment before showed. Its cost is a few looks; where a key is pressed or held one at the key of each page;
/// and, where an alert turned or a key acts on them, a few for each 64 alerts and at each of which something is told or kept.
pub fn step_crew(
    marks: &mut Marks,
    attention: &mut Attention,
    selector: &mut Selector,
    truths: &Truths,
    book: &Book,
    keys: &Strokes,
    enters_one: bool,
)
    requires truths { TruthsFit (the_book book.now) truths.now }
    requires marks { MarksFit (the_book book.now) marks.old }
    requires attention { AttentionFits (the_book book.now) attention.old }
    requires selector { SelectorFits (the_book book.now) selector.old }
    requires marks_go_on { marking.CanGoOn marks.old }
    requires attention_goes_on { lighting.CanGoOn attention.old }
    requires selector_goes_on { selecting.CanGoOn selector.old }
    ensures marks { MarksFit (the_book book.now) marks.new }
    ensures attention { AttentionFits (the_book book.now) attention.new }
    ensures selector { SelectorFits (the_book book.now) selector.new }
    ensures marks_moments { marks.new.moments ≡ marks.old.moments + 1 }
    ensures attention_moments { attention.new.moments ≡ attention.old.moments + 1 }
    ensures selector_moments { selector.new.moments ≡ selector.old.moments + 1 }
    ensures stands { (m : ℕ → Moment) (k : ℕ)
        → TruthsStand (the_book book.now) (condition_in (the_book book.now) m)
        (phase_in (the_book book.now) m) (suc k) truths.now
        → KeysStand (strokes_in (the_book book.now) m) k keys.now
        → enters_one ≡ screen.enters_one (the_book book.now) m k
        → CrewStands (the_book book.now) m k marks.old attention.old selector.old
        → CrewStands (the_book book.now) m (suc k) marks.new attention.new selector.new }
    ensures kept { marks.new.changed ≡ false → marks.new.sets ≡ marks.old.sets }
{
    step_marks(marks, truths, book, keys.keys(), enters_one);
    step_attention(attention, marks, truths, book, keys.keys());
    step_selection(selector, book, keys, marks.target());
}
