// All conditions of a moment.
ghost use Rattle.std.specs.Prelude.{◌≡◌, ◌<◌, ◌≤◌, ◌^◌, ◌+◌, ℕ, false, length};
ghost use Rattle.ecam_spec.specs.BookTerms.{lines_of};
ghost use Rattle.ecam_spec.specs.Term.{holds};
ghost use Rattle.ecam_spec.specs.History.{Moment};
ghost use Rattle.ecam_spec.specs.Situation.{world, phase_in};
ghost use Rattle.ecam_spec.specs.Screen.{line_stands};
ghost use Rattle.book_model.specs.Sealed.{the_book};
ghost use Rattle.book_model.specs.Told.{TellsOf};
ghost use Rattle.alert_truth.specs.TruthsState.{TruthsFit};
ghost use Rattle.fwc_lane.specs.Conditions.{ConditionsWait, ConditionsStepped};
ghost use Rattle.fwc_lane.specs.Given.{Lends};
ghost use Rattle.fwc_lane.specs.LineFlags.{KeepsShown};
ghost use Rattle.fwc_lane.specs.TermsFit.{TermsFit};

use crate::alerts::step_alerts;
use crate::flight::step_phase;
use crate::memos::step_memos;
use crate::procedures::step_lines;
use crate::terms::Terms;
use alert_truth::Truths;
use book_model::Book;
use ecam_kinds::Phase;
use flight_phases::PhaseState;
use term_eval::Env;

/// What the conditions of a moment made of it.
#[derive(Clone, Copy, Debug)]
pub struct Stepped {
    pub phase: Phase,
    /// The flag of some line turned whose alert is shown.
    pub lines: bool,
    /// Some memo's flag turned.
    pub memos: bool,
}

/// Steps the conditions of the book by moment `now`, in their order: those that are stirred, while the others hold where they
/// held. Its cost is a look for each 64 conditions, what those cost that are stirred, what the phase and the alerts wake, and
/// what it costs to step and settle the alerts.
pub fn step_conditions(
    terms: &mut Terms,
    state: &mut PhaseState,
    truths: &mut Truths,
    lines: &mut Vec<bool>,
    memos: &mut Vec<bool>,
    book: &Book,
    shown: &[bool],
    env: &Env<'_>,
    was: Phase,
    now: u64,
) -> Stepped
    requires terms { TermsFit (the_book book.now) terms.old }
    requires truths { TruthsFit (the_book book.now) truths.old }
    requires moments { truths.old.moments ≡ now }
    requires shown { length shown.now ≡ length book.now.alerts.items }
    requires lines { length lines.old.items ≡ length (lines_of (the_book book.now).alerts) }
    requires memos { length memos.old.items ≡ length (the_book book.now).memos }
    requires values { length env.now.values.now ≡ length book.now.params.items }
    requires active { length env.now.active.now ≡ 0 }
    requires phase { env.now.phase.number ≡ 1 }
    requires now { now < 2 ^ 63 }
    ensures terms { TermsFit (the_book book.now) terms.new }
    ensures truths { TruthsFit (the_book book.now) truths.new }
    ensures moments { truths.new.moments ≡ truths.old.moments + 1 }
    ensures lines { length lines.new.items ≡ length lines.old.items }
    ensures memos { length memos.new.items ≡ length memos.old.items }
    ensures first { 1 ≤ result.phase.number }
    ensures last { result.phase.number ≤ 10 }
    ensures stands { (m : ℕ → Moment) (visits : ℕ) → Lends (the_book book.now) m now env.now
        → ConditionsWait (the_book book.now) m now visits terms.old state.old truths.old was
        lines.old.items memos.old.items
        → ConditionsStepped (the_book book.now) m now visits terms.new state.new truths.new }
    ensures phase { (m : ℕ → Moment) (visits : ℕ) → Lends (the_book book.now) m now env.now
        → ConditionsWait (the_book book.now) m now visits terms.old state.old truths.old was
        lines.old.items memos.old.items
        → result.phase.number ≡ phase_in (the_book book.now) m now }
    ensures line_flags { (m : ℕ → Moment) (visits : ℕ) → Lends (the_book book.now) m now env.now
        → ConditionsWait (the_book book.now) m now visits terms.old state.old truths.old was
        lines.old.items memos.old.items
        → TellsOf lines.new.items (lines_of (the_book book.now).alerts)
        (line_stands (the_book book.now) m now) }
    ensures memo_flags { (m : ℕ → Moment) (visits : ℕ) → Lends (the_book book.now) m now env.now
        → ConditionsWait (the_book book.now) m now visits terms.old state.old truths.old was
        lines.old.items memos.old.items
        → TellsOf memos.new.items (the_book book.now).memos
        (λ x. holds (world (the_book book.now) m) x.when now) }
    ensures lines_kept { result.lines ≡ false
        → KeepsShown (the_book book.now) shown.now lines.old.items lines.new.items }
    ensures memos_kept { result.memos ≡ false → memos.new.items ≡ memos.old.items }
{
    let phase = step_phase(terms, state, book, env, was, now);
    step_alerts(terms, truths, book, env, phase, was, now);
    let lines = step_lines(terms, lines, book, shown, env, phase, truths.active(), now);
    let memos = step_memos(terms, memos, book, env, phase, truths.active(), now);
    Stepped {
        phase,
        lines,
        memos,
    }
}
