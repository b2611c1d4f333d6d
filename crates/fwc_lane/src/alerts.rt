// The alerts of a moment, in the book's order.
ghost use Rattle.std.specs.Prelude.{◌≡◌, ◌<◌, ◌≤◌, ◌^◌, ◌+◌, ℕ, suc, true, false, length};
ghost use Rattle.ecam_spec.specs.History.{Moment};
ghost use Rattle.ecam_spec.specs.Situation.{condition_in, phase_in};
ghost use Rattle.book_model.specs.Sealed.{the_book};
ghost use Rattle.book_model.specs.Conditions.{alerts_from, lines_from};
ghost use Rattle.term_eval.specs.declared.env.Env.{Env};
ghost use Rattle.wakes.specs.Marks.{is_marked};
ghost use Rattle.alert_truth.specs.TruthsState.{TruthsFit, TruthsStand, OthersStay};
ghost use Rattle.fwc_lane.specs.Conditions.{BookHalf, AlertsHalf, WasPhase};
ghost use Rattle.fwc_lane.specs.Given.{Lends};
ghost use Rattle.fwc_lane.specs.TermsFit.{TermsFit};
ghost use Rattle.fwc_lane.specs.Waking.{NoneMarked};

use crate::alert_turn::turn_alert;
use crate::conditions::{run_term, step_later};
use crate::first_alerts::begin_alerts;
use crate::next::{next_due, next_stirred};
use crate::numbers::alert_number;
use crate::terms::Terms;
use crate::waking::is_other_phase;
use alert_truth::Truths;
use book_model::Book;
use ecam_kinds::Phase;
use term_eval::Env;

/// Steps by moment `now`, before which the phase was this one, the alerts that may change, and settles which are starred and
/// up. Those are the ones whose condition turned, those whose confirmation is complete and, where the phase turned, those that
/// are restless; in the first moment all. The others are as they were, and aren't looked at. Its cost is a look for each 64
/// alerts and for each whose condition is stirred, a few at each that may change, what the conditions cost that are stirred,
/// what an alert that changes wakes, and what it costs to settle. The environment is lent without phase and alerts, which come
/// beside it: it is put together in the first moment alone.
pub fn step_alerts(
    terms: &mut Terms,
    truths: &mut Truths,
    book: &Book,
    env: &Env<'_>,
    phase: Phase,
    was: Phase,
    now: u64,
)
    requires terms { TermsFit (the_book book.now) terms.old }
    requires fits { TruthsFit (the_book book.now) truths.old }
    requires moments { truths.old.moments ≡ now }
    requires values { length env.now.values.now ≡ length book.now.params.items }
    requires first { 1 ≤ phase.number }
    requires last { phase.number ≤ 10 }
    requires now { now < 2 ^ 63 }
    ensures terms { TermsFit (the_book book.now) terms.new }
    ensures fits { TruthsFit (the_book book.now) truths.new }
    ensures moments { truths.new.moments ≡ truths.old.moments + 1 }
    ensures truths { (m : ℕ → Moment) (visits : ℕ) → Lends (the_book book.now) m now env.now
        → phase.number ≡ phase_in (the_book book.now) m now
        → WasPhase (the_book book.now) m now was
        → BookHalf (the_book book.now) m now alerts_from 1 visits terms.old
        → TruthsStand (the_book book.now) (condition_in (the_book book.now) m)
        (phase_in (the_book book.now) m) now truths.old
        → TruthsStand (the_book book.now) (condition_in (the_book book.now) m)
        (phase_in (the_book book.now) m) (suc now) truths.new }
    ensures stands { (m : ℕ → Moment) (visits : ℕ) → Lends (the_book book.now) m now env.now
        → phase.number ≡ phase_in (the_book book.now) m now
        → WasPhase (the_book book.now) m now was
        → BookHalf (the_book book.now) m now alerts_from 1 visits terms.old
        → TruthsStand (the_book book.now) (condition_in (the_book book.now) m)
        (phase_in (the_book book.now) m) now truths.old
        → BookHalf (the_book book.now) m now (lines_from (the_book book.now))
        (suc (length (the_book book.now).alerts)) visits terms.new }
{
    truths.gather_due(is_other_phase(phase, was));
    step_changing(terms, truths, book, env, phase, now);
    truths.settle(book);
}

// Steps by moment `now` the alerts that may change, of which those are gathered that may though their condition holds where it
// held: in the first moment all.
#[inline(always)]
fn step_changing(
    terms: &mut Terms,
    truths: &mut Truths,
    book: &Book,
    env: &Env<'_>,
    phase: Phase,
    now: u64,
)
    requires terms { TermsFit (the_book book.now) terms.old }
    requires fits { TruthsFit (the_book book.now) truths.old }
    requires values { length env.now.values.now ≡ length book.now.params.items }
    requires first { 1 ≤ phase.number }
    requires last { phase.number ≤ 10 }
    requires now { now < 2 ^ 63 }
    ensures terms { TermsFit (the_book book.now) terms.new }
    ensures fits { TruthsFit (the_book book.now) truths.new }
    ensures moments { truths.new.moments ≡ truths.old.moments }
    ensures stands { (m : ℕ → Moment) (visits : ℕ) → Lends (the_book book.now) m now env.now
        → phase.number ≡ phase_in (the_book book.now) m now
        → OthersStay (the_book book.now) (condition_in (the_book book.now) m)
        (phase_in (the_book book.now) m) now truths.old.due
        → AlertsHalf (the_book book.now) m now 0 visits terms.old truths.old
        → AlertsHalf (the_book book.now) m now (length book.now.alerts.items) visits terms.new
        truths.new }
{
    if now > 0 {
        step_later_alerts(terms, truths, book, phase, now);
        return;
    }
    begin_alerts(terms, truths, book, env, phase);
}

// Steps a stirred condition by a moment that isn't the first, and its alert, which isn't due, where the condition holds and
// didn't in the moment before, or the other way round. Where it holds as it held, the alert is as it was, and isn't looked at.
#[inline(always)]
fn step_stirred(
    terms: &mut Terms,
    truths: &mut Truths,
    book: &Book,
    alert: usize,
    phase: Phase,
    now: u64,
)
    requires terms { TermsFit (the_book book.now) terms.old }
    requires fits { TruthsFit (the_book book.now) truths.old }
    requires alert { alert < length book.now.alerts.items }
    requires stirred { is_marked terms.old.stirred (alerts_from + alert) ≡ true }
    requires first { 1 ≤ phase.number }
    requires last { phase.number ≤ 10 }
    requires later { 0 < now }
    requires now { now < 2 ^ 63 }
    ensures terms { TermsFit (the_book book.now) terms.new }
    ensures fits { TruthsFit (the_book book.now) truths.new }
    ensures moments { truths.new.moments ≡ truths.old.moments }
    ensures due { truths.new.due ≡ truths.old.due }
    ensures stands { (m : ℕ → Moment) (visits : ℕ) (env : Env)
        → phase.number ≡ phase_in (the_book book.now) m now
        → OthersStay (the_book book.now) (condition_in (the_book book.now) m)
        (phase_in (the_book book.now) m) now truths.old.due
        → is_marked truths.old.due alert ≡ false
        → AlertsHalf (the_book book.now) m now alert visits terms.old truths.old
        → AlertsHalf (the_book book.now) m now (suc alert) visits terms.new truths.new }
{
    book.sealed();
    let number = alert_number(alert);
    let held = terms.truths[number];
    let holds = run_term(terms, number, now);
    if holds != held {
        turn_alert(terms, truths, book, alert, holds, phase);
    }
}

// Steps those of the alerts from one up to another, none of which is due, whose condition is stirred. The others are as they
// were, and aren't looked at.
#[inline(always)]
fn step_up_to(
    terms: &mut Terms,
    truths: &mut Truths,
    book: &Book,
    from: usize,
    due: usize,
    phase: Phase,
    now: u64,
)
    requires terms { TermsFit (the_book book.now) terms.old }
    requires fits { TruthsFit (the_book book.now) truths.old }
    requires from { from ≤ due }
    requires due { due ≤ length book.now.alerts.items }
    requires first { 1 ≤ phase.number }
    requires last { phase.number ≤ 10 }
    requires later { 0 < now }
    requires now { now < 2 ^ 63 }
    ensures terms { TermsFit (the_book book.now) terms.new }
    ensures fits { TruthsFit (the_book book.now) truths.new }
    ensures moments { truths.new.moments ≡ truths.old.moments }
    ensures due { truths.new.due ≡ truths.old.due }
    ensures stands { (m : ℕ → Moment) (visits : ℕ) (env : Env)
        → phase.number ≡ phase_in (the_book book.now) m now
        → OthersStay (the_book book.now) (condition_in (the_book book.now) m)
        (phase_in (the_book book.now) m) now truths.old.due
        → NoneMarked truths.old.due from due
        → AlertsHalf (the_book book.now) m now from visits terms.old truths.old
        → AlertsHalf (the_book book.now) m now due visits terms.new truths.new }
{
    book.sealed();
    let mut next = next_stirred(&terms.stirred, from, due);
    while next < due {
        step_stirred(terms, truths, book, next, phase, now);
        next = next_stirred(&terms.stirred, next + 1, due);
    }
}

// Steps an alert that is due and its condition by a moment that isn't the first, whether the condition is stirred or not. (It
// stands by itself, since few alerts are due.)
#[inline(never)]
fn step_due(
    terms: &mut Terms,
    truths: &mut Truths,
    book: &Book,
    alert: usize,
    phase: Phase,
    now: u64,
)
    requires terms { TermsFit (the_book book.now) terms.old }
    requires fits { TruthsFit (the_book book.now) truths.old }
    requires alert { alert < length book.now.alerts.items }
    requires first { 1 ≤ phase.number }
    requires last { phase.number ≤ 10 }
    requires later { 0 < now }
    requires now { now < 2 ^ 63 }
    ensures terms { TermsFit (the_book book.now) terms.new }
    ensures fits { TruthsFit (the_book book.now) truths.new }
    ensures moments { truths.new.moments ≡ truths.old.moments }
    ensures due { truths.new.due ≡ truths.old.due }
    ensures stands { (m : ℕ → Moment) (visits : ℕ) (env : Env)
        → phase.number ≡ phase_in (the_book book.now) m now
        → AlertsHalf (the_book book.now) m now alert visits terms.old truths.old
        → AlertsHalf (the_book book.now) m now (suc alert) visits terms.new truths.new }
{
    book.sealed();
    let holds = step_later(terms, alert_number(alert), now);
    turn_alert(terms, truths, book, alert, holds, phase);
}

// Steps by a moment that isn't the first the alerts that may change: those that are due, and between one of them and the next
// those whose condition is stirred.
#[inline(always)]
fn step_later_alerts(terms: &mut Terms, truths: &mut Truths, book: &Book, phase: Phase, now: u64)
    requires terms { TermsFit (the_book book.now) terms.old }
    requires fits { TruthsFit (the_book book.now) truths.old }
    requires first { 1 ≤ phase.number }
    requires last { phase.number ≤ 10 }
    requires later { 0 < now }
    requires now { now < 2 ^ 63 }
    ensures terms { TermsFit (the_book book.now) terms.new }
    ensures fits { TruthsFit (the_book book.now) truths.new }
    ensures moments { truths.new.moments ≡ truths.old.moments }
    ensures stands { (m : ℕ → Moment) (visits : ℕ) (env : Env)
        → phase.number ≡ phase_in (the_book book.now) m now
        → OthersStay (the_book book.now) (condition_in (the_book book.now) m)
        (phase_in (the_book book.now) m) now truths.old.due
        → AlertsHalf (the_book book.now) m now 0 visits terms.old truths.old
        → AlertsHalf (the_book book.now) m now (length book.now.alerts.items) visits terms.new
        truths.new }
{
    let end = book.alerts().len();
    let mut next = 0;
    loop {
        let due = next_due(truths, book, next);
        step_up_to(terms, truths, book, next, due, phase, now);
        if due >= end {
            return;
        }
        step_due(terms, truths, book, due, phase, now);
        next = due + 1;
    }
}
