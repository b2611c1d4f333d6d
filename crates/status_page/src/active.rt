// The places of the active alerts.
ghost use Rattle.std.specs.Prelude.{◌≡◌, ◌≤◌, ◌<◌, ℕ, [], filter, length, get_or, All, true, false, IfSome};
ghost use Rattle.ecam_spec.specs.Places.{below};
ghost use Rattle.ecam_spec.specs.Screen.{alert_numbers};
ghost use Rattle.book_model.specs.Sealed.{the_book};
ghost use Rattle.book_model.specs.Told.{flagged};
ghost use Rattle.wakes.specs.Marks.{is_marked};

use crate::near::next_known;
use arrayvec::ArrayVec;
use book_model::Book;
use ecam_spec::limits;
use wakes::Marked;

const ALERTS: usize = limits::ALERTS;

/// Places of alerts in a book. Its room is cleared when one is made, for as many alerts as a book may have.
pub(crate) type Places = ArrayVec<u16, ALERTS>;

/// The place of the first active alert from one on; the number of alerts where there is none. Costs a look at each flag
/// that it goes over, and nothing else.
pub(crate) fn next_active(active: &[bool], from: usize) -> usize
    requires { from ≤ length active.now }
    ensures from { from ≤ result }
    ensures end { result ≤ length active.now }
    ensures none { filter (flagged active.now) (below result)
        ≡ filter (flagged active.now) (below from) }
    ensures active { result < length active.now → flagged active.now result ≡ true }
{
    for i in from..active.len() {
        if active[i] {
            return i;
        }
    }
    active.len()
}

/// Gathers the places of the active alerts, in the book's order, where it may be known which are near. Costs the walk of
/// `next_known`, and a look at no alert.
pub(crate) fn gather(places: &mut Places, book: &Book, near: Option<&Marked>, active: &[bool])
    requires none { places.old.items ≡ [] }
    requires active { length active.now ≡ length book.now.alerts.items }
    requires near { IfSome near (λ n. (a : ℕ) → get_or active.now a false ≡ true
        → is_marked n.now a ≡ true) }
    ensures places { places.new.items
        ≡ filter (flagged active.now) (alert_numbers (the_book book.now)) }
    ensures within { All (λ a. a < length book.now.alerts.items) places.new.items }
{
    book.sealed();
    let mut next = next_known(near, active, 0);
    while next < active.len() {
        places.push(next as u16);
        next = next_known(near, active, next + 1);
    }
}
