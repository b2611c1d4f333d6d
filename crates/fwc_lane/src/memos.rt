// The memos of a moment.
ghost use Rattle.std.specs.Prelude.{◌≡◌, ◌<◌, ◌≤◌, ◌^◌, ℕ, suc, false, length};
ghost use Rattle.ecam_spec.specs.Term.{holds};
ghost use Rattle.ecam_spec.specs.History.{Moment};
ghost use Rattle.ecam_spec.specs.Situation.{world};
ghost use Rattle.book_model.specs.Sealed.{the_book};
ghost use Rattle.book_model.specs.Told.{TellsOf};
ghost use Rattle.book_model.specs.Conditions.{memos_from};
ghost use Rattle.fwc_lane.specs.Conditions.{BookHalf, MemosWere, AllStepped};
ghost use Rattle.fwc_lane.specs.Given.{ShowsFirst};
ghost use Rattle.fwc_lane.specs.TermsFit.{TermsFit};

use crate::conditions::step_stirred;
use crate::flags::{is_either, set_flag};
use crate::next::next_memo;
use crate::numbers::first_memo;
use crate::terms::Terms;
use book_model::Book;
use ecam_kinds::Phase;
use term_eval::Env;

/// Steps all memos by moment `now`: `flags` has, per memo, whether it holds, and before it of the moment before. Answers
/// whether any flag turned. A memo whose condition isn't stirred holds where it held, and isn't looked at. The cost is a look
/// for each 64 memos, and what the conditions cost that are stirred. The environment is lent without phase and alerts, which
/// come beside it: it is put together in the first moment alone.
pub fn step_memos(
    terms: &mut Terms,
    flags: &mut Vec<bool>,
    book: &Book,
    env: &Env<'_>,
    phase: Phase,
    active: &[bool],
    now: u64,
) -> bool
    requires fits { TermsFit (the_book book.now) terms.old }
    requires flags { length flags.old.items ≡ length (the_book book.now).memos }
    requires values { length env.now.values.now ≡ length book.now.params.items }
    requires active { length active.now ≡ length book.now.alerts.items }
    requires first { 1 ≤ phase.number }
    requires last { phase.number ≤ 10 }
    requires now { now < 2 ^ 63 }
    ensures fits { TermsFit (the_book book.now) terms.new }
    ensures flags { length flags.new.items ≡ length flags.old.items }
    ensures told { (m : ℕ → Moment) (visits : ℕ)
        → ShowsFirst (record env.now { phase = phase; active = active.entry })
        (world (the_book book.now) m) now
        → MemosWere (the_book book.now) m now flags.old.items
        → BookHalf (the_book book.now) m now (memos_from (the_book book.now))
        (suc (length (the_book book.now).alerts)) visits terms.old
        → TellsOf flags.new.items (the_book book.now).memos
        (λ x. holds (world (the_book book.now) m) x.when now) }
    ensures stands { (m : ℕ → Moment) (visits : ℕ)
        → ShowsFirst (record env.now { phase = phase; active = active.entry })
        (world (the_book book.now) m) now
        → MemosWere (the_book book.now) m now flags.old.items
        → BookHalf (the_book book.now) m now (memos_from (the_book book.now))
        (suc (length (the_book book.now).alerts)) visits terms.old
        → AllStepped (the_book book.now) m now visits terms.new }
    ensures kept { result ≡ false → flags.new.items ≡ flags.old.items }
{
    book.sealed();
    let first = first_memo(book);
    let mut turned = false;
    let mut next = 0;
    while let Some(memo) = next_memo(&terms.stirred, book, next) {
        let holds = step_stirred(terms, first + memo, env, phase, active, now);
        let other = set_flag(flags, memo, holds);
        turned = is_either(turned, other);
        next = memo + 1;
    }
    turned
}
