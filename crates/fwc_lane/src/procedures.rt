// The procedure lines of a moment, whether their alerts are shown or not.
ghost use Rattle.std.specs.Prelude.{◌≡◌, ◌<◌, ◌≤◌, ◌^◌, ℕ, suc, false, length};
ghost use Rattle.ecam_spec.specs.BookTerms.{lines_of};
ghost use Rattle.ecam_spec.specs.History.{Moment};
ghost use Rattle.ecam_spec.specs.Situation.{world};
ghost use Rattle.ecam_spec.specs.Screen.{line_stands};
ghost use Rattle.book_model.specs.Sealed.{the_book};
ghost use Rattle.book_model.specs.Told.{TellsOf};
ghost use Rattle.book_model.specs.Conditions.{lines_from, memos_from};
ghost use Rattle.fwc_lane.specs.Conditions.{BookHalf, LinesWere};
ghost use Rattle.fwc_lane.specs.Given.{ShowsFirst};
ghost use Rattle.fwc_lane.specs.LineFlags.{KeepsShown, stands_by};
ghost use Rattle.fwc_lane.specs.TermsFit.{TermsFit};

use crate::conditions::step_stirred;
use crate::flags::is_either;
use crate::numbers::{first_memo, line_number};
use crate::shown_lines::note_line;
use crate::terms::Terms;
use book_model::Book;
use ecam_kinds::Phase;
use term_eval::Env;

// Whether a line of which the first condition has this number stands by what is kept of both.
fn stands_as_kept(terms: &Terms, number: usize) -> bool
    requires { suc number < length terms.now.truths.items }
    ensures { result ≡ stands_by terms.now.truths.items number }
{
    let when = terms.truths[number];
    let done = terms.truths[number + 1];
    when && !done
}

/// Steps all lines by moment `now`: `flags` has, per line, whether it stands, and before it of the moment before. Answers
/// whether the flag of any line turned whose alert is shown, even where it turned back. A line of which no condition is
/// stirred stands where it stood, and isn't looked at. The cost is a look for each 64 conditions, and for each that is
/// stirred what it costs and a look at its line. The environment is lent without phase and alerts, which come beside it: it is
/// put together in the first moment alone.
pub fn step_lines(
    terms: &mut Terms,
    flags: &mut Vec<bool>,
    book: &Book,
    shown: &[bool],
    env: &Env<'_>,
    phase: Phase,
    active: &[bool],
    now: u64,
) -> bool
    requires fits { TermsFit (the_book book.now) terms.old }
    requires shown { length shown.now ≡ length book.now.alerts.items }
    requires flags { length flags.old.items ≡ length (lines_of (the_book book.now).alerts) }
    requires values { length env.now.values.now ≡ length book.now.params.items }
    requires active { length active.now ≡ length book.now.alerts.items }
    requires first { 1 ≤ phase.number }
    requires last { phase.number ≤ 10 }
    requires now { now < 2 ^ 63 }
    ensures fits { TermsFit (the_book book.now) terms.new }
    ensures flags { length flags.new.items ≡ length flags.old.items }
    ensures told { (m : ℕ → Moment) (visits : ℕ)
        → ShowsFirst (record env.now { phase = phase; active = active.entry })
        (world (the_book book.now) m) now
        → LinesWere (the_book book.now) m now flags.old.items
        → BookHalf (the_book book.now) m now (lines_from (the_book book.now))
        (suc (length (the_book book.now).alerts)) visits terms.old
        → TellsOf flags.new.items (lines_of (the_book book.now).alerts)
        (line_stands (the_book book.now) m now) }
    ensures stands { (m : ℕ → Moment) (visits : ℕ)
        → ShowsFirst (record env.now { phase = phase; active = active.entry })
        (world (the_book book.now) m) now
        → LinesWere (the_book book.now) m now flags.old.items
        → BookHalf (the_book book.now) m now (lines_from (the_book book.now))
        (suc (length (the_book book.now).alerts)) visits terms.old
        → BookHalf (the_book book.now) m now (memos_from (the_book book.now))
        (suc (length (the_book book.now).alerts)) visits terms.new }
    ensures kept { result ≡ false
        → KeepsShown (the_book book.now) shown.now flags.old.items flags.new.items }
{
    book.sealed();
    let first = line_number(book, 0);
    let end = first_memo(book);
    let mut turned = false;
    let mut number = terms.stirred.next_or(first, end);
    while number < end {
        step_stirred(terms, number, env, phase, active, now);
        let line = (number - first) / 2;
        let stands = stands_as_kept(terms, first + 2 * line);
        let other = note_line(flags, &terms.line_alerts, shown, line, stands);
        turned = is_either(turned, other);
        number = terms.stirred.next_or(number + 1, end);
    }
    turned
}
