// The next of some items that has a condition of a set.
ghost use Rattle.std.specs.Prelude.{◌≡◌, ◌+◌, ◌<◌, ◌≤◌, ◌^◌, ℕ, true, false, length};
ghost use Rattle.book_model.specs.Sealed.{the_book};
ghost use Rattle.book_model.specs.Conditions.{alerts_from};
ghost use Rattle.wakes.specs.Marks.{is_marked};
ghost use Rattle.fwc_lane.specs.Waking.{NoneMarked, FindsNext, memo_number};

use crate::numbers::first_memo;
use alert_truth::Truths;
use book_model::Book;
use wakes::Marked;

/// The first alert from one on that is due; where there is none the number of alerts. Its cost is a look for each 64 alerts
/// that it goes over, and one alone behind the last that is due.
pub fn next_due(truths: &Truths, book: &Book, from: usize) -> usize
    requires { from ≤ length book.now.alerts.items }
    ensures from { from ≤ result }
    ensures within { result ≤ length book.now.alerts.items }
    ensures none { NoneMarked truths.now.due from result }
{
    truths.due().next_or(from, book.alerts().len())
}

/// The first alert from one on whose condition is in the set; where there is none before the next that is due, that one. Its
/// cost is a look for each 64 alerts that it goes over.
pub fn next_stirred(set: &Marked, from: usize, due: usize) -> usize
    requires few { due < 2 ^ 32 }
    requires from { from ≤ due }
    ensures from { from ≤ result }
    ensures within { result ≤ due }
    ensures marked { result < due → is_marked set.now (alerts_from + result) ≡ true }
    ensures none { NoneMarked set.now (alerts_from + from) (alerts_from + result) }
{
    set.next_or(6 + from, 6 + due) - 6
}

/// Whether no input of the phase is in the set. Its cost is a look for each 64 conditions up to the first that is.
pub fn inputs_rest(set: &Marked) -> bool
    ensures { result ≡ true → NoneMarked set.now 0 alerts_from }
{
    set.next_or(0, 6) == 6
}

/// Whether the set has no number. Its cost is a look for each 64 numbers up to the first that it has.
pub fn none_marked(marked: &Marked) -> bool
    ensures { result ≡ true → (j : ℕ) → is_marked marked.now j ≡ false }
{
    marked.first_from(0).is_none()
}

/// The first memo from one on whose condition is in the set. Its cost is a look for each 64 memos that it goes over.
pub fn next_memo(set: &Marked, book: &Book, from: usize) -> Option<usize>
    requires { from ≤ length book.now.memos.items }
    ensures { FindsNext set.now (memo_number (the_book book.now)) from
        (length book.now.memos.items) result }
{
    let first = first_memo(book);
    let count = book.memos().len();
    let term = set.first_from(first + from)?;
    if term >= first + count {
        return None;
    }
    Some(term - first)
}
