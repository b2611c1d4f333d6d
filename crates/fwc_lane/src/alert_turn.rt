// An alert whose condition was stepped.
ghost use Rattle.std.specs.Prelude.{◌≡◌, ◌<◌, ◌≤◌, ◌+◌, ℕ, suc, length};
ghost use Rattle.ecam_spec.specs.History.{Moment};
ghost use Rattle.ecam_spec.specs.Situation.{condition_in, phase_in};
ghost use Rattle.book_model.specs.Sealed.{the_book};
ghost use Rattle.book_model.specs.Conditions.{alerts_from};
ghost use Rattle.alert_truth.specs.TruthsState.{TruthsFit, HalfStand};
ghost use Rattle.fwc_lane.specs.Conditions.{BookHalf, AlertsHalf};
ghost use Rattle.fwc_lane.specs.TermsFit.{TermsFit};

use crate::terms::Terms;
use crate::waking::{differ, wake_alert};
use alert_truth::Truths;
use book_model::Book;
use ecam_kinds::Phase;

/// Steps an alert whose condition was stepped, and holds so. One that becomes active, or is active no longer, wakes the
/// conditions that name it.
#[inline(always)]
pub fn turn_alert(
    terms: &mut Terms,
    truths: &mut Truths,
    book: &Book,
    alert: usize,
    holds: bool,
    phase: Phase,
)
    requires terms { TermsFit (the_book book.now) terms.old }
    requires fits { TruthsFit (the_book book.now) truths.old }
    requires alert { alert < length book.now.alerts.items }
    requires first { 1 ≤ phase.number }
    requires last { phase.number ≤ 10 }
    ensures terms { TermsFit (the_book book.now) terms.new }
    ensures fits { TruthsFit (the_book book.now) truths.new }
    ensures moments { truths.new.moments ≡ truths.old.moments }
    ensures due { truths.new.due ≡ truths.old.due }
    ensures stands { (m : ℕ → Moment) (k visits : ℕ)
        → phase.number ≡ phase_in (the_book book.now) m k
        → holds ≡ condition_in (the_book book.now) m alert k
        → BookHalf (the_book book.now) m k (alerts_from + suc alert) (suc alert) visits terms.old
        → HalfStand (the_book book.now) (condition_in (the_book book.now) m)
        (phase_in (the_book book.now) m) k alert truths.old
        → AlertsHalf (the_book book.now) m k (suc alert) visits terms.new truths.new }
{
    book.sealed();
    let was = truths.active()[alert];
    let active = truths.step_one(book, alert, holds, phase);
    let other = differ(active, was);
    wake_alert(terms, book, alert, other, active);
}
