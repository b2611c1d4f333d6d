// What a moment brings is read, and wakes the conditions that name what of it is another.
ghost use Rattle.std.specs.Prelude.{◌≡◌, ◌<◌, ◌^◌, ℕ, List, true, false, None, length, slice_index_or};
ghost use Rattle.ecam_spec.specs.Value.{BusWord, value};
ghost use Rattle.ecam_spec.specs.History.{Moment};
ghost use Rattle.ecam_spec.specs.Situation.{parameter_at, words_in};
ghost use Rattle.book_model.specs.Sealed.{the_book};
ghost use Rattle.param_table.specs.Asked.{is_asked_for};
ghost use Rattle.param_table.specs.TableState.{ParamsFit, ParamsStand};
ghost use Rattle.system_display.specs.Pages.{AreShort};
ghost use Rattle.fwc_lane.specs.Conditions.{TermsStand, BookHalf};
ghost use Rattle.fwc_lane.specs.Given.{Came, AreBefore};
ghost use Rattle.fwc_lane.specs.TermsFit.{TermsFit};

use crate::strokes::Strokes;
use crate::terms::Terms;
use crate::values::read_moment;
use crate::waking::{wake_computers, wake_first, wake_keys};
use book_model::Book;
use param_table::Params;

/// Begins the end of moment `now`: reads its values, in the first moment all, in a later one those that may have turned of
/// the parameters that the book asks for; and marks and counts the conditions that are due, and those that name a value, a
/// key or a computer that is another than it was, whose nodes that ask for it are told. Answers whether some value may be
/// another. Its cost is a look for each 64 parameters, at most two writes for each 64 conditions, a look at each source of
/// the parameters that are asked for and may have another value, three at each key if one is or was pressed, a few looks
/// and writes for each condition that is due and for each node that asks for what is another, and a look at each that is
/// told; in the first moment a look at each source of all.
pub fn begin_moment(
    terms: &mut Terms,
    values: &mut Vec<Option<i64>>,
    params: &Params,
    keys: &Strokes,
    book: &Book,
    one_up: bool,
    two_up: bool,
    now: u64,
) -> bool
    requires fits { TermsFit (the_book book.now) terms.old }
    requires params { ParamsFit (the_book book.now) params.now }
    requires many { length values.old.items ≡ length (the_book book.now).parameters }
    requires short { AreShort values.old.items }
    requires now { now < 2 ^ 63 }
    ensures fits { TermsFit (the_book book.now) terms.new }
    ensures many { length values.new.items ≡ length values.old.items }
    ensures first { now ≡ 0 → (words : ℕ → List BusWord) (k : ℕ)
        → ParamsStand (the_book book.now) words k params.now
        → (p : ℕ) → p < length (the_book book.now).parameters
        → slice_index_or values.new.items p None
        ≡ value (parameter_at (the_book book.now) p) words k }
    ensures values { (words : ℕ → List BusWord) (k : ℕ)
        → ParamsStand (the_book book.now) words k params.now
        → AreBefore (the_book book.now) words k values.old.items
        → (p : ℕ) → p < length (the_book book.now).parameters
        → is_asked_for (the_book book.now) p ≡ true
        → slice_index_or values.new.items p None
        ≡ value (parameter_at (the_book book.now) p) words k }
    ensures short { AreShort values.new.items }
    ensures kept { result ≡ false → values.new.items ≡ values.old.items }
    ensures begins { (m : ℕ → Moment)
        → Came (the_book book.now) m now params.now keys.now one_up two_up
        → TermsStand (the_book book.now) m now terms.old
        → AreBefore (the_book book.now) (words_in (the_book book.now) m) now values.old.items
        → BookHalf (the_book book.now) m now 0 0 terms.old.cells.visits terms.new }
{
    book.sealed();
    wake_first(
        &mut terms.woken,
        &mut terms.stirred,
        &mut terms.dues,
        &mut terms.cells,
        terms.codes.table(),
        terms.truths.len(),
        now,
    );
    let any = read_moment(values, terms, params, book, now);
    wake_keys(terms, book, keys);
    wake_computers(terms, book, one_up, two_up);
    any
}
