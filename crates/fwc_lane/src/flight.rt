// The flight phase of a moment, by its six inputs.
ghost use Rattle.std.specs.Prelude.{◌≡◌, ◌<◌, ◌≤◌, ◌^◌, ℕ, suc, length};
ghost use Rattle.ecam_spec.specs.History.{Moment};
ghost use Rattle.ecam_spec.specs.Situation.{flight, phase_in};
ghost use Rattle.book_model.specs.Sealed.{the_book};
ghost use Rattle.book_model.specs.Conditions.{alerts_from};
ghost use Rattle.flight_phases.specs.Inputs.{AreInputs};
ghost use Rattle.flight_phases.specs.State as flight_phases;
ghost use Rattle.fwc_lane.specs.Conditions.{BookHalf, WasPhase};
ghost use Rattle.fwc_lane.specs.Given.{Lends};
ghost use Rattle.fwc_lane.specs.PhaseTruths.{inputs_by};
ghost use Rattle.fwc_lane.specs.TermsFit.{TermsFit};

use crate::conditions::step_term;
use crate::next::inputs_rest;
use crate::terms::Terms;
use crate::waking::{is_other_phase, wake_phase};
use book_model::Book;
use ecam_kinds::Phase;
use flight_phases::{PhaseInputs, PhaseState};
use term_eval::Env;

// What six conditions in the place of the inputs said in the last moment.
fn kept_inputs(truths: &[bool]) -> PhaseInputs
    requires { alerts_from ≤ length truths.now }
    ensures { result ≡ inputs_by truths.now }
{
    PhaseInputs {
        gnd: truths[0],
        run: truths[1],
        tp: truths[2],
        fast: truths[3],
        high: truths[4],
        low: truths[5],
    }
}

/// Steps the six inputs of the phase by moment `now`, where the phase that the environment lends is 1. Where none is stirred
/// they are what they were, for one look at the set of those that are and one at each truth; else the cost is two looks at
/// each, and what those cost that are stirred.
fn step_inputs(terms: &mut Terms, book: &Book, env: &Env<'_>, now: u64) -> PhaseInputs
    requires fits { TermsFit (the_book book.now) terms.old }
    requires values { length env.now.values.now ≡ length book.now.params.items }
    requires active { length env.now.active.now ≡ 0 }
    requires phase { env.now.phase.number ≡ 1 }
    requires now { now < 2 ^ 63 }
    ensures fits { TermsFit (the_book book.now) terms.new }
    ensures inputs { (m : ℕ → Moment) (visits : ℕ) → Lends (the_book book.now) m now env.now
        → BookHalf (the_book book.now) m now 0 0 visits terms.old
        → AreInputs (flight (the_book book.now) m) now result }
    ensures stands { (m : ℕ → Moment) (visits : ℕ) → Lends (the_book book.now) m now env.now
        → BookHalf (the_book book.now) m now 0 0 visits terms.old
        → BookHalf (the_book book.now) m now alerts_from 0 visits terms.new }
{
    let inputs = book.phase_terms();
    if inputs_rest(&terms.stirred) {
        return kept_inputs(&terms.truths);
    }
    let gnd = step_term(terms, 0, &inputs.gnd, env, now);
    let run = step_term(terms, 1, &inputs.run, env, now);
    let tp = step_term(terms, 2, &inputs.tp, env, now);
    let fast = step_term(terms, 3, &inputs.fast, env, now);
    let high = step_term(terms, 4, &inputs.high, env, now);
    let low = step_term(terms, 5, &inputs.low, env, now);
    PhaseInputs {
        gnd,
        run,
        tp,
        fast,
        high,
        low,
    }
}

/// Steps the inputs of the phase, and the phase, by moment `now`, and answers the phase. The environment lends phase 1 and
/// no alert: the inputs may ask for neither. A phase that is another than it was wakes the conditions that name it. Its cost
/// is at most two looks at each input, what those cost that are stirred, and what the phase wakes.
pub fn step_phase(
    terms: &mut Terms,
    state: &mut PhaseState,
    book: &Book,
    env: &Env<'_>,
    was: Phase,
    now: u64,
) -> Phase
    requires fits { TermsFit (the_book book.now) terms.old }
    requires values { length env.now.values.now ≡ length book.now.params.items }
    requires active { length env.now.active.now ≡ 0 }
    requires phase { env.now.phase.number ≡ 1 }
    requires now { now < 2 ^ 63 }
    ensures fits { TermsFit (the_book book.now) terms.new }
    ensures first { 1 ≤ result.number }
    ensures last { result.number ≤ 10 }
    ensures phase { (m : ℕ → Moment) (visits : ℕ) → Lends (the_book book.now) m now env.now
        → BookHalf (the_book book.now) m now 0 0 visits terms.old
        → flight_phases.Stands (flight (the_book book.now) m) now state.old
        → result.number ≡ phase_in (the_book book.now) m now }
    ensures state { (m : ℕ → Moment) (visits : ℕ) → Lends (the_book book.now) m now env.now
        → BookHalf (the_book book.now) m now 0 0 visits terms.old
        → flight_phases.Stands (flight (the_book book.now) m) now state.old
        → flight_phases.Stands (flight (the_book book.now) m) (suc now) state.new }
    ensures stands { (m : ℕ → Moment) (visits : ℕ) → Lends (the_book book.now) m now env.now
        → BookHalf (the_book book.now) m now 0 0 visits terms.old
        → flight_phases.Stands (flight (the_book book.now) m) now state.old
        → WasPhase (the_book book.now) m now was
        → BookHalf (the_book book.now) m now alerts_from 1 visits terms.new }
{
    book.sealed();
    let inputs = step_inputs(terms, book, env, now);
    let phase = state.step(&inputs);
    let other = is_other_phase(phase, was);
    wake_phase(terms, book, other, phase);
    phase
}
