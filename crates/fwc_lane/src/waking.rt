// Which conditions a moment wakes: all in the first, then those that are due, and those that name what is another.
ghost use Rattle.std.specs.Prelude.{◌≡◌, ℕ, suc, ◌+◌, ◌-◌, ◌<◌, ◌≤◌, ◌^◌, ◌==◌, ◌&&◌, ◌||◌, not, min, nat_le, true, false, List, length, slice_get, slice_index, Some, MatchOption, if◌then◌else◌};
ghost use Rattle.ecam_spec.specs.Keys.{IsKey, key_number};
ghost use Rattle.book_model.specs.Sealed.{the_book};
ghost use Rattle.book_model.specs.Conditions.{places};
ghost use Rattle.wakes.specs.Marks.{is_marked, room};
ghost use Rattle.condition_codes.specs.IsCodes.{IsCodes};
ghost use Rattle.ecam_spec.specs.Book as plain;
ghost use Rattle.ecam_spec.specs.TermSize.{Placed, nodes};
ghost use Rattle.term_eval.specs.declared.reading.Reading.TheVariants.{InPhase, Flag};
ghost use Rattle.term_eval.specs.Reading.{IsReading};
ghost use Rattle.term_eval.specs.Woken.{differ};
ghost use Rattle.fwc_lane.specs.Strokes.{NonePressed};
ghost use Rattle.fwc_lane.specs.TermsFit.{TermsFit, AreWoken, Watches};
ghost use Rattle.fwc_lane.specs.Visits.{IsCounted};
ghost use Rattle.fwc_lane.specs.Waking.{HasWoken, CanTurn, TurnsEach, MarksEach, NamesNone, ranged};
ghost use Rattle.fwc_lane.specs.Waking.{key_turned, key_read};

use crate::strokes::Strokes;
use crate::terms::Terms;
use book_model::Book;
use condition_codes::{Asker, CodeTable};
use ecam_kinds::{Key, Keys, Phase};
use term_eval::{Cells, Reading};
use wakes::{BitSet, Marked, Wakes};
use watch_lists::Watch;

/// Wakes the conditions that name the operand of this number, where it is another than it was, counts the nodes of each that
/// wasn't woken before, and tells their nodes that ask for it what it reads. Its cost is a few looks and writes for each of
/// these nodes, and a look at each that is told of one that turned; nothing where it is as it was.
#[inline(always)]
pub fn wake(terms: &mut Terms, book: &Book, operand: usize, other: bool, reading: Reading)
    requires operand { operand < length (the_book book.now).parameters
        + length (the_book book.now).alerts + 28 }
    requires fits { TermsFit (the_book book.now) terms.old }
    requires reading { IsReading reading }
    ensures fits { TermsFit (the_book book.now) terms.new }
    ensures wakes { HasWoken (the_book book.now) (λ o. other && (o == operand)) (λ o. reading)
        terms.old terms.new }
{
    if other {
        turn_each(
            &mut terms.cells,
            &mut terms.woken,
            &mut terms.stirred,
            terms.codes.table(),
            terms.askers.asking(operand),
            reading,
        );
    }
}

// Tells some nodes what the operand that they ask for reads, marks their conditions, counts the nodes of those that weren't
// marked before, and marks as stirred those that may turn by that.
#[inline(always)]
fn turn_each(
    cells: &mut Cells,
    woken: &mut BitSet,
    stirred: &mut Marked,
    codes: &CodeTable,
    asking: &[Asker],
    reading: Reading,
)
    requires can { (b : plain.Book)
        × CanTurn b asking.now codes.now cells.old.nodes woken.old stirred.old }
    requires reading { IsReading reading }
    ensures turns { (b : plain.Book)
        → CanTurn b asking.now codes.now cells.old.nodes woken.old stirred.old
        → TurnsEach b asking.now reading cells.old.nodes stirred.old cells.new.nodes stirred.new }
    ensures marks { (b : plain.Book)
        → CanTurn b asking.now codes.now cells.old.nodes woken.old stirred.old
        → MarksEach b asking.now woken.old cells.old woken.new cells.new }
    ensures stirs { AreWoken woken.old stirred.old → AreWoken woken.new stirred.new }
{
    if asking.is_empty() {
        return;
    }
    let mut fresh = 0;
    for asker in asking {
        let term = asker.term as usize;
        let holds = codes.says(asker, reading);
        let links = codes.links_by(asker);
        let first = asker.first as usize;
        if cells.turn(asker.link, links, first, usize::from(asker.node), holds) {
            stirred.mark(term);
        }
        fresh += usize::from(asker.size) * usize::from(woken.put(term));
    }
    cells.count(fresh);
}

// Marks a condition of so many nodes, and counts these where it wasn't marked before.
#[inline(always)]
fn mark_counted(woken: &mut BitSet, cells: &mut Cells, term: usize, size: usize)
    requires room { term < room woken.old }
    ensures room { room woken.new ≡ room woken.old }
    ensures marks { (j : ℕ) → is_marked woken.new j ≡ (j == term || is_marked woken.old j) }
    ensures slots { cells.new.slots ≡ cells.old.slots }
    ensures nodes { cells.new.nodes ≡ cells.old.nodes }
    ensures owners { cells.new.owners ≡ cells.old.owners }
    ensures most { cells.old.visits ≤ 2 ^ 64 - 1 → cells.new.visits ≤ 2 ^ 64 - 1 }
    ensures counts { (ps : List Placed) (visited : ℕ) → term < length ps
        → ((p : Placed) → slice_get ps term ≡ Some p → size ≡ nodes p.tree)
        → IsCounted ps visited woken.old cells.old.visits
        → IsCounted ps visited woken.new cells.new.visits }
{
    let is_new = woken.put(term);
    cells.count(if is_new { size } else { 0 });
}

/// Wakes the conditions that name the flight phase, where it is another.
#[inline(always)]
pub fn wake_phase(terms: &mut Terms, book: &Book, other: bool, phase: Phase)
    requires fits { TermsFit (the_book book.now) terms.old }
    requires first { 1 ≤ phase.number }
    requires last { phase.number ≤ 10 }
    ensures fits { TermsFit (the_book book.now) terms.new }
    ensures wakes { HasWoken (the_book book.now)
        (λ o. other && (o == length (the_book book.now).parameters
        + length (the_book book.now).alerts))
        (λ o. InPhase phase) terms.old terms.new }
{
    if other {
        turn_phase(terms, book, phase);
    }
}

// Wakes the conditions that name the flight phase. (It stands by itself, since the phase seldom turns.)
#[inline(never)]
fn turn_phase(terms: &mut Terms, book: &Book, phase: Phase)
    requires fits { TermsFit (the_book book.now) terms.old }
    requires first { 1 ≤ phase.number }
    requires last { phase.number ≤ 10 }
    ensures fits { TermsFit (the_book book.now) terms.new }
    ensures wakes { HasWoken (the_book book.now)
        (λ o. o == length (the_book book.now).parameters + length (the_book book.now).alerts)
        (λ o. InPhase phase) terms.old terms.new }
{
    wake(
        terms,
        book,
        book.params().len() + book.alerts().len(),
        true,
        Reading::InPhase(phase),
    );
}

/// Wakes the conditions that name an alert, where it became active or is no longer.
pub fn wake_alert(terms: &mut Terms, book: &Book, alert: usize, other: bool, active: bool)
    requires alert { alert < length (the_book book.now).alerts }
    requires fits { TermsFit (the_book book.now) terms.old }
    ensures fits { TermsFit (the_book book.now) terms.new }
    ensures wakes { HasWoken (the_book book.now)
        (λ o. other && (o == length (the_book book.now).parameters + alert)) (λ o. Flag active)
        terms.old terms.new }
{
    wake(
        terms,
        book,
        book.params().len() + alert,
        other,
        Reading::Flag(active),
    );
}

/// Wakes the conditions that name a key which is pressed in the moment and was not in the one before, or the other way
/// round. Its cost is three looks at each key, and what `wake` costs for each that turned; nothing where no key is or was
/// pressed, and two reads where no condition of the book names a key.
pub fn wake_keys(terms: &mut Terms, book: &Book, keys: &Strokes)
    requires fits { TermsFit (the_book book.now) terms.old }
    ensures fits { TermsFit (the_book book.now) terms.new }
    ensures wakes { HasWoken (the_book book.now)
        (ranged (length (the_book book.now).parameters + length (the_book book.now).alerts + 1) 25
        (key_turned terms.old.keys keys.now))
        (λ o. key_read keys.now (o - (length (the_book book.now).parameters
        + length (the_book book.now).alerts + 1)))
        terms.old terms.new }
{
    if are_quiet(&terms.keys, keys) {
        return;
    }
    if are_unheard(&terms.watch, book) {
        return;
    }
    for number in 0..25 {
        let other = key_turned(terms.keys.keys(), keys.keys(), number);
        wake_key(terms, book, number, other, is_pressed(keys.keys(), number));
    }
}

// Whether it is known that no key is pressed in either of two moments.
fn are_quiet(was: &Strokes, keys: &Strokes) -> bool
    ensures was { result ≡ true → NonePressed was.now }
    ensures keys { result ≡ true → NonePressed keys.now }
{
    !was.any() && !keys.any()
}

// Whether no condition of the book names a key.
fn are_unheard(watch: &Watch, book: &Book) -> bool
    requires { Watches (the_book book.now) watch.now }
    ensures { result ≡ true → NamesNone (the_book book.now) (length (the_book book.now).parameters
        + length (the_book book.now).alerts + 1) 25 }
{
    let first = book.params().len() + book.alerts().len() + 1;
    watch.is_silent(first, first + 25)
}

// Wakes the conditions that name the key of this number, where it is another. (It stands by itself, since a key seldom
// turns.)
#[inline(never)]
fn wake_key(terms: &mut Terms, book: &Book, number: usize, other: bool, pressed: bool)
    requires number { number < 25 }
    requires fits { TermsFit (the_book book.now) terms.old }
    ensures fits { TermsFit (the_book book.now) terms.new }
    ensures wakes { HasWoken (the_book book.now)
        (λ o. other && (o == length (the_book book.now).parameters
        + length (the_book book.now).alerts + 1 + number))
        (λ o. Flag pressed) terms.old terms.new }
{
    wake(
        terms,
        book,
        book.params().len() + book.alerts().len() + 1 + number,
        other,
        Reading::Flag(pressed),
    );
}

// Whether the key of this number is pressed in one of two moments alone.
fn key_turned(was: &Keys, keys: &Keys, number: usize) -> bool
    requires { number < 25 }
    ensures { result ≡ key_turned was.now keys.now number }
{
    match key_at(number) {
        Some(key) => differ(keys.pressed(key), was.pressed(key)),
        None => false,
    }
}

// Whether the key of this number is pressed.
fn is_pressed(keys: &Keys, number: usize) -> bool
    requires { number < 25 }
    ensures { Flag result ≡ key_read keys.now number }
{
    match key_at(number) {
        Some(key) => keys.pressed(key),
        None => false,
    }
}

// The key of this number. There is none of number 8, since pages count from 1.
fn key_at(number: usize) -> Option<Key>
    requires { number < 25 }
    ensures { MatchOption result (number ≡ 8) (λ key. IsKey key × (key_number key ≡ number)) }
{
    match number {
        0 => Some(Key::Clr),
        1 => Some(Key::Rcl),
        2 => Some(Key::Sts),
        3 => Some(Key::All),
        4 => Some(Key::Emer),
        5 => Some(Key::ToCfg),
        6 => Some(Key::Mw),
        7 => Some(Key::Mc),
        8 => None,
        page => Some(Key::Page((page - 8) as u8)),
    }
}

/// Wakes the conditions that name a computer which came up or failed.
#[inline(always)]
pub fn wake_computers(terms: &mut Terms, book: &Book, one_up: bool, two_up: bool)
    requires fits { TermsFit (the_book book.now) terms.old }
    ensures fits { TermsFit (the_book book.now) terms.new }
    ensures wakes { HasWoken (the_book book.now)
        (λ o. (differ one_up terms.old.one_up && (o == length (the_book book.now).parameters
        + length (the_book book.now).alerts + 26))
        || (differ two_up terms.old.two_up && (o == length (the_book book.now).parameters
        + length (the_book book.now).alerts + 27)))
        (λ o. Flag (if o == length (the_book book.now).parameters
        + length (the_book book.now).alerts + 26
        then one_up else two_up))
        terms.old terms.new }
{
    if differ(one_up, terms.one_up) || differ(two_up, terms.two_up) {
        turn_computers(terms, book, one_up, two_up);
    }
}

// The same, called where one did. (It stands by itself, since a computer seldom does.)
#[inline(never)]
fn turn_computers(terms: &mut Terms, book: &Book, one_up: bool, two_up: bool)
    requires fits { TermsFit (the_book book.now) terms.old }
    ensures fits { TermsFit (the_book book.now) terms.new }
    ensures wakes { HasWoken (the_book book.now)
        (λ o. (differ one_up terms.old.one_up && (o == length (the_book book.now).parameters
        + length (the_book book.now).alerts + 26))
        || (differ two_up terms.old.two_up && (o == length (the_book book.now).parameters
        + length (the_book book.now).alerts + 27)))
        (λ o. Flag (if o == length (the_book book.now).parameters
        + length (the_book book.now).alerts + 26
        then one_up else two_up))
        terms.old terms.new }
{
    let first = book.params().len() + book.alerts().len() + 26;
    let one = differ(one_up, terms.one_up);
    let two = differ(two_up, terms.two_up);
    wake(terms, book, first, one, Reading::Flag(one_up));
    wake(terms, book, first + 1, two, Reading::Flag(two_up));
}

/// Begins to gather the conditions that moment `now` wakes, each of which is stirred too: all in the first, else those that
/// are due; the others are due when they were. The nodes of each are counted. Its cost is one write for each 64
/// conditions, one more where any was stirred in the moment before, and a few for each that it wakes.
pub fn wake_first(
    woken: &mut BitSet,
    stirred: &mut Marked,
    dues: &mut Wakes,
    cells: &mut Cells,
    codes: &CodeTable,
    count: usize,
    now: u64,
)
    requires codes { (b : plain.Book) × IsCodes b codes.now × (count ≡ length (places b)) }
    requires room { count ≤ room woken.old }
    requires stirred_room { count ≤ room stirred.old }
    requires dues { length dues.old ≡ count }
    requires now { now < 2 ^ 63 }
    ensures room { room woken.new ≡ room woken.old }
    ensures stirred_room { room stirred.new ≡ room stirred.old }
    ensures same { (j : ℕ) → is_marked stirred.new j ≡ is_marked woken.new j }
    ensures len { length dues.new ≡ length dues.old }
    ensures first { now ≡ 0 → (j : ℕ) → j < count → is_marked woken.new j ≡ true }
    ensures marks { (h : ℕ) → now ≡ suc h → (j : ℕ) → j < count
        → is_marked woken.new j ≡ nat_le (slice_index dues.old j) now }
    ensures dues { (j : ℕ) → is_marked woken.new j ≡ false
        → slice_index dues.new j ≡ slice_index dues.old j }
    ensures slots { cells.new.slots ≡ cells.old.slots }
    ensures nodes { cells.new.nodes ≡ cells.old.nodes }
    ensures owners { cells.new.owners ≡ cells.old.owners }
    ensures most { cells.old.visits ≤ 2 ^ 64 - 1 → cells.new.visits ≤ 2 ^ 64 - 1 }
    ensures counts { (b : plain.Book) (visited : ℕ) → IsCodes b codes.now
        → count ≡ length (places b) → cells.old.visits ≡ min visited (2 ^ 64 - 1)
        → IsCounted (places b) visited woken.new cells.new.visits }
{
    woken.clear();
    stirred.clear();
    if now == 0 {
        dues.pass(now);
        wake_all(woken, stirred, cells, codes, count);
        return;
    }
    wake_due(woken, stirred, dues, cells, codes, now);
}

// Marks all conditions below this number in both sets, and counts their nodes. (It stands by itself, since only the first
// moment calls it.)
#[inline(never)]
fn wake_all(
    woken: &mut BitSet,
    stirred: &mut Marked,
    cells: &mut Cells,
    codes: &CodeTable,
    count: usize,
)
    requires codes { (b : plain.Book) × IsCodes b codes.now × (count ≡ length (places b)) }
    requires room { count ≤ room woken.old }
    requires stirred_room { count ≤ room stirred.old }
    requires same { (j : ℕ) → is_marked stirred.old j ≡ is_marked woken.old j }
    ensures room { room woken.new ≡ room woken.old }
    ensures stirred_room { room stirred.new ≡ room stirred.old }
    ensures same { (j : ℕ) → is_marked stirred.new j ≡ is_marked woken.new j }
    ensures marks { (j : ℕ) → j < count → is_marked woken.new j ≡ true }
    ensures slots { cells.new.slots ≡ cells.old.slots }
    ensures nodes { cells.new.nodes ≡ cells.old.nodes }
    ensures owners { cells.new.owners ≡ cells.old.owners }
    ensures most { cells.old.visits ≤ 2 ^ 64 - 1 → cells.new.visits ≤ 2 ^ 64 - 1 }
    ensures counts { (b : plain.Book) (visited : ℕ) → IsCodes b codes.now
        → count ≡ length (places b)
        → IsCounted (places b) visited woken.old cells.old.visits
        → IsCounted (places b) visited woken.new cells.new.visits }
{
    for term in 0..count {
        mark_counted(woken, cells, term, codes.size(term));
        stirred.mark(term);
    }
}

// Marks the conditions that are due in both sets, and counts their nodes. The others are due when they were.
fn wake_due(
    woken: &mut BitSet,
    stirred: &mut Marked,
    dues: &mut Wakes,
    cells: &mut Cells,
    codes: &CodeTable,
    now: u64,
)
    requires codes { (b : plain.Book) × IsCodes b codes.now
        × (length dues.old ≡ length (places b)) }
    requires room { length dues.old ≤ room woken.old }
    requires stirred_room { length dues.old ≤ room stirred.old }
    requires none { (j : ℕ) → is_marked woken.old j ≡ false }
    requires same { (j : ℕ) → is_marked stirred.old j ≡ is_marked woken.old j }
    requires now { now < 2 ^ 63 }
    ensures room { room woken.new ≡ room woken.old }
    ensures stirred_room { room stirred.new ≡ room stirred.old }
    ensures same { (j : ℕ) → is_marked stirred.new j ≡ is_marked woken.new j }
    ensures len { length dues.new ≡ length dues.old }
    ensures marks { (j : ℕ) → j < length dues.old
        → is_marked woken.new j ≡ nat_le (slice_index dues.old j) now }
    ensures dues { (j : ℕ) → is_marked woken.new j ≡ false
        → slice_index dues.new j ≡ slice_index dues.old j }
    ensures slots { cells.new.slots ≡ cells.old.slots }
    ensures nodes { cells.new.nodes ≡ cells.old.nodes }
    ensures owners { cells.new.owners ≡ cells.old.owners }
    ensures most { cells.old.visits ≤ 2 ^ 64 - 1 → cells.new.visits ≤ 2 ^ 64 - 1 }
    ensures counts { (b : plain.Book) (visited : ℕ) → IsCodes b codes.now
        → length dues.old ≡ length (places b)
        → IsCounted (places b) visited woken.old cells.old.visits
        → IsCounted (places b) visited woken.new cells.new.visits }
{
    while let Some(next) = dues.take(now) {
        mark_counted(woken, cells, next, codes.size(next));
        stirred.mark(next);
    }
}

/// Whether two flags differ.
pub fn differ(now: bool, was: bool) -> bool
    ensures { result ≡ differ now was }
{
    now != was
}

/// Whether two phases differ.
pub fn is_other_phase(phase: Phase, was: Phase) -> bool
    ensures { result ≡ not (phase.number == was.number) }
{
    phase.number != was.number
}
