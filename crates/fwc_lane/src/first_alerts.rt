// The alerts of the first moment, of which each may change.
ghost use Rattle.std.specs.Prelude.{◌≡◌, ◌<◌, ◌≤◌, ℕ, suc, length, slice_get, Some};
ghost use Rattle.ecam_spec.specs.Book as plain;
ghost use Rattle.ecam_spec.specs.History.{Moment};
ghost use Rattle.ecam_spec.specs.Situation.{phase_in};
ghost use Rattle.book_model.specs.Sealed.{the_book};
ghost use Rattle.ecam_spec.specs.TermNames.{IsWithin};
ghost use Rattle.book_model.specs.View.{tree_in, placed_of};
ghost use Rattle.book_model.specs.Conditions.{places};
ghost use Rattle.alert_truth.specs.TruthsState.{TruthsFit};
ghost use Rattle.fwc_lane.specs.Conditions.{AlertsHalf, StepsTerm};
ghost use Rattle.fwc_lane.specs.Given.{Lends};
ghost use Rattle.fwc_lane.specs.TermsFit.{TermsFit};

use crate::alert_turn::turn_alert;
use crate::conditions::step_term;
use crate::numbers::alert_number;
use crate::terms::Terms;
use alert_truth::Truths;
use book_model::{Book, Term};
use ecam_kinds::Phase;
use term_eval::Env;

// Steps the condition of an alert by the first moment, in which it sees these alerts. (The environment is lent without them and
// without the phase, which come beside it.)
fn begin_own(
    terms: &mut Terms,
    number: usize,
    own: &Term,
    before: &[bool],
    env: &Env<'_>,
    phase: Phase,
) -> bool
    requires place { (b : plain.Book) × TermsFit b terms.old
        × (slice_get (places b) number ≡ Some (placed_of own.now)) }
    requires names { IsWithin (length env.now.values.now) (length before.now) (tree_in own.now) }
    requires first { 1 ≤ phase.number }
    requires last { phase.number ≤ 10 }
    ensures fits { (b : plain.Book) → TermsFit b terms.old → TermsFit b terms.new }
    ensures steps { (b : plain.Book) → TermsFit b terms.old
        → slice_get (places b) number ≡ Some (placed_of own.now)
        → StepsTerm (places b) (record env.now { active = before.entry; phase = phase }) 0 number
        (placed_of own.now) terms.old terms.new result }
{
    let first = Env {
        active: before,
        phase,
        ..*env
    };
    step_term(terms, number, own, &first, 0)
}

// Steps one alert and its condition by the first moment. The condition sees the alerts before it in the book as they are in
// this moment, and no others.
fn begin_alert(
    terms: &mut Terms,
    truths: &mut Truths,
    book: &Book,
    alert: usize,
    env: &Env<'_>,
    phase: Phase,
)
    requires terms { TermsFit (the_book book.now) terms.old }
    requires fits { TruthsFit (the_book book.now) truths.old }
    requires values { length env.now.values.now ≡ length book.now.params.items }
    requires alert { alert < length book.now.alerts.items }
    requires first { 1 ≤ phase.number }
    requires last { phase.number ≤ 10 }
    ensures terms { TermsFit (the_book book.now) terms.new }
    ensures fits { TruthsFit (the_book book.now) truths.new }
    ensures moments { truths.new.moments ≡ truths.old.moments }
    ensures stands { (m : ℕ → Moment) (visits : ℕ) → Lends (the_book book.now) m 0 env.now
        → phase.number ≡ phase_in (the_book book.now) m 0
        → AlertsHalf (the_book book.now) m 0 alert visits terms.old truths.old
        → AlertsHalf (the_book book.now) m 0 (suc alert) visits terms.new truths.new }
{
    let own = &book.alerts()[alert].when;
    let before = &truths.active()[..alert];
    let holds = begin_own(terms, alert_number(alert), own, before, env, phase);
    turn_alert(terms, truths, book, alert, holds, phase);
}

/// Steps all alerts by the first moment, in which each may change. (It stands by itself, since what a condition sees is put
/// together there, and nothing of it is looked at in a later moment.)
#[inline(never)]
pub fn begin_alerts(
    terms: &mut Terms,
    truths: &mut Truths,
    book: &Book,
    env: &Env<'_>,
    phase: Phase,
)
    requires terms { TermsFit (the_book book.now) terms.old }
    requires fits { TruthsFit (the_book book.now) truths.old }
    requires values { length env.now.values.now ≡ length book.now.params.items }
    requires first { 1 ≤ phase.number }
    requires last { phase.number ≤ 10 }
    ensures terms { TermsFit (the_book book.now) terms.new }
    ensures fits { TruthsFit (the_book book.now) truths.new }
    ensures moments { truths.new.moments ≡ truths.old.moments }
    ensures stands { (m : ℕ → Moment) (visits : ℕ) → Lends (the_book book.now) m 0 env.now
        → phase.number ≡ phase_in (the_book book.now) m 0
        → AlertsHalf (the_book book.now) m 0 0 visits terms.old truths.old
        → AlertsHalf (the_book book.now) m 0 (length book.now.alerts.items) visits terms.new
        truths.new }
{
    for alert in 0..book.alerts().len() {
        begin_alert(terms, truths, book, alert, env, phase);
    }
}
