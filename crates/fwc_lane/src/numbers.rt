// The numbers of the conditions, in the order in which a moment steps them: six inputs of the phase, the alerts' own, two
// for each line, and the memos'.
ghost use Rattle.std.specs.Prelude.{◌≡◌, ◌+◌, ◌*◌, ◌<◌, ◌≤◌};
ghost use Rattle.ecam_spec.specs.declared.limits.TheConstants.{ALERTS, LINES};
ghost use Rattle.book_model.specs.Sealed.{the_book};
ghost use Rattle.book_model.specs.Conditions.{alerts_from, lines_from, memos_from};

use book_model::Book;

/// The number of an alert's own condition.
pub fn alert_number(alert: usize) -> usize
    requires { alert < ALERTS }
    ensures { result ≡ alerts_from + alert }
{
    6 + alert
}

/// The number of a line's first condition, by the line's place among all; that of the second is one more.
pub fn line_number(book: &Book, line: usize) -> usize
    requires { line ≤ ALERTS * LINES }
    ensures { result ≡ lines_from (the_book book.now) + 2 * line }
{
    6 + book.alerts().len() + 2 * line
}

/// The number of the first memo's condition.
pub fn first_memo(book: &Book) -> usize
    ensures { result ≡ memos_from (the_book book.now) }
{
    6 + book.alerts().len() + 2 * book.line_count()
}
