// The values of a moment.
ghost use Rattle.std.specs.Prelude.{◌≡◌, ◌<◌, ◌+◌, ◌*◌, ℕ, suc, ℤ, List, length, slice_index_or, true, false, Option, None};
ghost use Rattle.ecam_spec.specs.Value.{BusWord, value};
ghost use Rattle.ecam_spec.specs.Situation.{parameter_at};
ghost use Rattle.book_model.specs.Sealed.{the_book};
ghost use Rattle.param_table.specs.Asked.{is_asked_for};
ghost use Rattle.param_table.specs.TableState.{ParamsFit, ParamsStand};
ghost use Rattle.system_display.specs.Pages.{AreShort};
ghost use Rattle.term_eval.specs.declared.reading.Reading.TheVariants.{Value};
ghost use Rattle.fwc_lane.specs.TermsFit.{TermsFit};
ghost use Rattle.fwc_lane.specs.Waking.{HasWoken, ranged, value_turned};
ghost use Rattle.fwc_lane.specs.Given.{AreBefore};
ghost use Rattle.fwc_lane.specs.ReadTo.{AreReadTo};

use crate::flags::{is_either, set_value};
use crate::terms::Terms;
use crate::waking::wake;
use book_model::Book;
use param_table::Params;
use term_eval::Reading;
use wakes::{bits_from, lowest};

/// Makes the values of the moment before those of moment `now`, which hasn't ended, and answers whether any may be other
/// than it was. In the first moment each value is read, and wakes no condition, since that moment wakes all. In a later
/// one those are read that may be others, of the parameters that the book asks for; one that is wakes the conditions that
/// name it, and the rest stay as they are. Its cost is that of `read_first` or of `read_values`.
#[inline(always)]
pub fn read_moment(
    values: &mut Vec<Option<i64>>,
    terms: &mut Terms,
    params: &Params,
    book: &Book,
    now: u64,
) -> bool
    requires fits { ParamsFit (the_book book.now) params.now }
    requires many { length values.old.items ≡ length (the_book book.now).parameters }
    requires short { AreShort values.old.items }
    requires terms { TermsFit (the_book book.now) terms.old }
    ensures many { length values.new.items ≡ length values.old.items }
    ensures first { now ≡ 0 → (words : ℕ → List BusWord) (k : ℕ)
        → ParamsStand (the_book book.now) words k params.now
        → (p : ℕ) → p < length (the_book book.now).parameters
        → slice_index_or values.new.items p None
        ≡ value (parameter_at (the_book book.now) p) words k }
    ensures values { (words : ℕ → List BusWord) (k : ℕ)
        → ParamsStand (the_book book.now) words k params.now
        → AreBefore (the_book book.now) words k values.old.items
        → (p : ℕ) → p < length (the_book book.now).parameters
        → is_asked_for (the_book book.now) p ≡ true
        → slice_index_or values.new.items p None
        ≡ value (parameter_at (the_book book.now) p) words k }
    ensures short { AreShort values.new.items }
    ensures terms { TermsFit (the_book book.now) terms.new }
    ensures same { now ≡ 0 → terms.new ≡ terms.old }
    ensures wakes { (h : ℕ) → now ≡ suc h → HasWoken (the_book book.now)
        (ranged 0 (length (the_book book.now).parameters)
        (value_turned values.old.items values.new.items))
        (λ o. Value (slice_index_or values.new.items o None)) terms.old terms.new }
    ensures kept { result ≡ false → values.new.items ≡ values.old.items }
{
    if now > 0 {
        return read_values(values, terms, params, book);
    }
    read_first(values, params, book);
    true
}

// The same in the first moment. Its cost is a look at each source of each parameter, and a write for each. (It stands by
// itself, since only the first moment calls it.)
#[inline(never)]
fn read_first(values: &mut Vec<Option<i64>>, params: &Params, book: &Book)
    requires fits { ParamsFit (the_book book.now) params.now }
    requires many { length values.old.items ≡ length (the_book book.now).parameters }
    requires short { AreShort values.old.items }
    ensures many { length values.new.items ≡ length values.old.items }
    ensures values { (words : ℕ → List BusWord) (k : ℕ)
        → ParamsStand (the_book book.now) words k params.now
        → (p : ℕ) → p < length (the_book book.now).parameters
        → slice_index_or values.new.items p None
        ≡ value (parameter_at (the_book book.now) p) words k }
    ensures short { AreShort values.new.items }
{
    for param in 0..book.params().len() {
        values[param] = params.value(book, param);
    }
}

// The same in a later moment. Its cost is a look for each 64 parameters, a look at each source of those that may have another
// value and a write for each of them, and what `wake` costs for each that has.
fn read_values(
    values: &mut Vec<Option<i64>>,
    terms: &mut Terms,
    params: &Params,
    book: &Book,
) -> bool
    requires fits { ParamsFit (the_book book.now) params.now }
    requires many { length values.old.items ≡ length (the_book book.now).parameters }
    requires short { AreShort values.old.items }
    requires terms { TermsFit (the_book book.now) terms.old }
    ensures many { length values.new.items ≡ length values.old.items }
    ensures values { (words : ℕ → List BusWord) (k : ℕ)
        → ParamsStand (the_book book.now) words k params.now
        → AreBefore (the_book book.now) words k values.old.items
        → (p : ℕ) → p < length (the_book book.now).parameters
        → is_asked_for (the_book book.now) p ≡ true
        → slice_index_or values.new.items p None
        ≡ value (parameter_at (the_book book.now) p) words k }
    ensures short { AreShort values.new.items }
    ensures terms { TermsFit (the_book book.now) terms.new }
    ensures wakes { HasWoken (the_book book.now)
        (ranged 0 (length (the_book book.now).parameters)
        (value_turned values.old.items values.new.items))
        (λ o. Value (slice_index_or values.new.items o None)) terms.old terms.new }
    ensures kept { result ≡ false → values.new.items ≡ values.old.items }
{
    let words = book.params().len().div_ceil(64);
    let mut any = false;
    let mut place = params.next_changed_word(book, 0);
    while place < words {
        any = is_either(any, read_word(values, terms, params, book, place));
        place = params.next_changed_word(book, place + 1);
    }
    any
}

// The same of the 64 parameters from 64 · `place` on, where those before them are read.
#[inline(always)]
fn read_word(
    values: &mut Vec<Option<i64>>,
    terms: &mut Terms,
    params: &Params,
    book: &Book,
    place: usize,
) -> bool
    requires fits { ParamsFit (the_book book.now) params.now }
    requires place { 64 * place < length book.now.params.items }
    requires read { (was : List (Option ℤ)) × (first : Terms)
        × AreReadTo (the_book book.now) params.now was first (64 * place)
        values.old.items terms.old }
    ensures read { (was : List (Option ℤ)) (first : Terms)
        → AreReadTo (the_book book.now) params.now was first (64 * place)
        values.old.items terms.old
        → AreReadTo (the_book book.now) params.now was first (64 * place + 64)
        values.new.items terms.new }
    ensures kept { result ≡ false → values.new.items ≡ values.old.items }
{
    let mut any = false;
    let mut from = 64 * place;
    let mut rest = params.changed_word(book, place);
    while rest != 0 {
        let low = lowest(rest);
        let param = from + low;
        let other = read_value(values, terms, params, book, param);
        any = is_either(any, other);
        rest = bits_from(bits_from(rest, low), 1);
        from = param + 1;
    }
    any
}

// The same of one parameter, where those before it are read. The conditions are touched only where its value is another.
#[inline(always)]
fn read_value(
    values: &mut Vec<Option<i64>>,
    terms: &mut Terms,
    params: &Params,
    book: &Book,
    param: usize,
) -> bool
    requires fits { ParamsFit (the_book book.now) params.now }
    requires param { param < length book.now.params.items }
    requires read { (was : List (Option ℤ)) × (first : Terms)
        × AreReadTo (the_book book.now) params.now was first param
        values.old.items terms.old }
    ensures read { (was : List (Option ℤ)) (first : Terms)
        → AreReadTo (the_book book.now) params.now was first param
        values.old.items terms.old
        → AreReadTo (the_book book.now) params.now was first (param + 1)
        values.new.items terms.new }
    ensures kept { result ≡ false → values.new.items ≡ values.old.items }
{
    let value = params.value(book, param);
    if !set_value(values, param, value) {
        return false;
    }
    wake(terms, book, param, true, Reading::Value(value));
    true
}
