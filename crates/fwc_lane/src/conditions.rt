// One condition of the book in one moment.
ghost use Rattle.std.specs.Prelude.{◌≡◌, ◌<◌, ◌≤◌, ◌^◌, true, length, slice_get, slice_set, Some};
ghost use Rattle.ecam_spec.specs.Book as plain;
ghost use Rattle.ecam_spec.specs.TermNames.{IsWithin};
ghost use Rattle.ecam_spec.specs.TermSize.{Placed};
ghost use Rattle.book_model.specs.View.{tree_in, placed_of};
ghost use Rattle.book_model.specs.Conditions.{places};
ghost use Rattle.wakes.specs.Marks.{is_marked};
ghost use Rattle.term_eval.specs.declared.env.Env.{Env};
ghost use Rattle.fwc_lane.specs.Conditions.{StepsTerm};
ghost use Rattle.fwc_lane.specs.TermsFit.{TermsFit};

use crate::terms::Terms;
use book_model::Term;
use ecam_kinds::Phase;
use term_eval::{Env, Turn};

/// Steps a condition by moment `now`, which has this number, and answers whether it holds in it. One that isn't stirred holds
/// where it held, and costs two looks. One that is stirred costs a look at each of its temporal nodes, and one at each node
/// that turns and at those right above; in the first moment a look at each of its nodes.
#[inline(always)]
pub fn step_term(terms: &mut Terms, number: usize, _term: &Term, env: &Env<'_>, now: u64) -> bool
    requires place { (b : plain.Book) × TermsFit b terms.old
        × (slice_get (places b) number ≡ Some (placed_of _term.now)) }
    requires names { IsWithin (length env.now.values.now) (length env.now.active.now)
        (tree_in _term.now) }
    requires first { 1 ≤ env.now.phase.number }
    requires last { env.now.phase.number ≤ 10 }
    requires now { now < 2 ^ 63 }
    ensures fits { (b : plain.Book) → TermsFit b terms.old → TermsFit b terms.new }
    ensures steps { (b : plain.Book) → TermsFit b terms.old
        → slice_get (places b) number ≡ Some (placed_of _term.now)
        → StepsTerm (places b) env.now now number (placed_of _term.now) terms.old terms.new result }
{
    if now > 0 {
        return step_later(terms, number, now);
    }
    begin_term(terms, number, env)
}

/// The same of a condition that is known to be stirred, by its number, so that nothing looks whether it is. The environment is
/// lent without phase and alerts, which come beside it: it is put together in the first moment alone.
#[inline(always)]
pub fn step_stirred(
    terms: &mut Terms,
    number: usize,
    env: &Env<'_>,
    phase: Phase,
    active: &[bool],
    now: u64,
) -> bool
    requires place { (b : plain.Book) × (p : Placed) × TermsFit b terms.old
        × (slice_get (places b) number ≡ Some p)
        × IsWithin (length env.now.values.now) (length active.now) p.tree }
    requires stirred { is_marked terms.old.stirred number ≡ true }
    requires first { 1 ≤ phase.number }
    requires last { phase.number ≤ 10 }
    requires now { now < 2 ^ 63 }
    ensures fits { (b : plain.Book) → TermsFit b terms.old → TermsFit b terms.new }
    ensures steps { (b : plain.Book) (p : Placed) → TermsFit b terms.old
        → slice_get (places b) number ≡ Some p
        → IsWithin (length env.now.values.now) (length active.now) p.tree
        → StepsTerm (places b) (record env.now { phase = phase; active = active.entry }) now number
        p terms.old terms.new result }
    ensures truths { terms.new.truths.items ≡ slice_set terms.old.truths.items number result }
{
    if now > 0 {
        return run_term(terms, number, now);
    }
    begin_whole(terms, number, env, phase, active)
}

// Puts the environment together and steps one in the first moment. (It stands by itself, since what the condition sees is
// gathered there, and nothing of it is looked at in a later moment.)
#[inline(never)]
fn begin_whole(
    terms: &mut Terms,
    number: usize,
    env: &Env<'_>,
    phase: Phase,
    active: &[bool],
) -> bool
    requires place { (b : plain.Book) × (p : Placed) × TermsFit b terms.old
        × (slice_get (places b) number ≡ Some p)
        × IsWithin (length env.now.values.now) (length active.now) p.tree }
    requires first { 1 ≤ phase.number }
    requires last { phase.number ≤ 10 }
    ensures fits { (b : plain.Book) → TermsFit b terms.old → TermsFit b terms.new }
    ensures steps { (b : plain.Book) (p : Placed) → TermsFit b terms.old
        → slice_get (places b) number ≡ Some p
        → IsWithin (length env.now.values.now) (length active.now) p.tree
        → StepsTerm (places b) (record env.now { phase = phase; active = active.entry }) 0 number
        p terms.old terms.new result }
    ensures truths { terms.new.truths.items ≡ slice_set terms.old.truths.items number result }
{
    let whole = Env {
        phase,
        active,
        ..*env
    };
    begin_term(terms, number, &whole)
}

/// The same in a moment that isn't the first. What the condition names was told to it where it turned, so that nothing of the
/// moment is looked at here.
// (The look stands where it is asked for, since many conditions that are asked aren't stirred.)
#[inline(always)]
pub fn step_later(terms: &mut Terms, number: usize, now: u64) -> bool
    requires place { (b : plain.Book) × (p : Placed) × TermsFit b terms.old
        × (slice_get (places b) number ≡ Some p) }
    requires later { 0 < now }
    requires now { now < 2 ^ 63 }
    ensures fits { (b : plain.Book) → TermsFit b terms.old → TermsFit b terms.new }
    ensures steps { (b : plain.Book) (p : Placed) (env : Env) → TermsFit b terms.old
        → slice_get (places b) number ≡ Some p
        → StepsTerm (places b) env now number p terms.old terms.new result }
{
    if !terms.stirred.has(number) {
        return terms.truths[number];
    }
    run_term(terms, number, now)
}

// Steps one in the first moment. (It stands by itself, since only the first moment calls it.)
#[inline(never)]
fn begin_term(terms: &mut Terms, number: usize, env: &Env<'_>) -> bool
    requires place { (b : plain.Book) × (p : Placed) × TermsFit b terms.old
        × (slice_get (places b) number ≡ Some p)
        × IsWithin (length env.now.values.now) (length env.now.active.now) p.tree }
    requires first { 1 ≤ env.now.phase.number }
    requires last { env.now.phase.number ≤ 10 }
    ensures fits { (b : plain.Book) → TermsFit b terms.old → TermsFit b terms.new }
    ensures steps { (b : plain.Book) (p : Placed) → TermsFit b terms.old
        → slice_get (places b) number ≡ Some p
        → IsWithin (length env.now.values.now) (length env.now.active.now) p.tree
        → StepsTerm (places b) env.now 0 number p terms.old terms.new result }
    ensures truths { terms.new.truths.items ≡ slice_set terms.old.truths.items number result }
{
    let codes = terms.codes.table();
    let steps = codes.code(number);
    let start = codes.start(number);
    let turn = terms.cells.begin(steps, start, env);
    note(terms, number, turn)
}

// Steps one that is stirred in a later moment.
#[inline(never)]
pub fn run_term(terms: &mut Terms, number: usize, now: u64) -> bool
    requires place { (b : plain.Book) × (p : Placed) × TermsFit b terms.old
        × (slice_get (places b) number ≡ Some p) }
    requires woken { is_marked terms.old.woken number ≡ true }
    requires later { 0 < now }
    requires now { now < 2 ^ 63 }
    ensures fits { (b : plain.Book) → TermsFit b terms.old → TermsFit b terms.new }
    ensures steps { (b : plain.Book) (p : Placed) (env : Env) → TermsFit b terms.old
        → slice_get (places b) number ≡ Some p
        → StepsTerm (places b) env now number p terms.old terms.new result }
    ensures truths { terms.new.truths.items ≡ slice_set terms.old.truths.items number result }
{
    let codes = terms.codes.table();
    let parts = codes.parts(number);
    let turn = terms.cells.run(
        parts.links,
        parts.first,
        parts.owners.len(),
        parts.slot,
        now,
    );
    note(terms, number, turn)
}

// Keeps what one says that was run, and when it turns, and answers what it says.
#[inline(always)]
fn note(terms: &mut Terms, number: usize, turn: Turn) -> bool
    requires truths { number < length terms.old.truths.items }
    requires dues { number < length terms.old.dues }
    ensures holds { result ≡ turn.holds }
    ensures rest { terms.new ≡ record terms.old {
      truths = terms.new.truths;
      dues = terms.new.dues;
    } }
    ensures truths { terms.new.truths.items ≡ slice_set terms.old.truths.items number turn.holds }
    ensures dues { terms.new.dues ≡ slice_set terms.old.dues number turn.due }
{
    terms.truths[number] = turn.holds;
    terms.dues.set(number, turn.due);
    turn.holds
}
