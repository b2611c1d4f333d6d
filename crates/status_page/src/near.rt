// The places of the active alerts, sought among those that are near.
ghost use Rattle.std.specs.Prelude.{◌≡◌, ◌≤◌, ◌<◌, ℕ, filter, length, get_or, true, false, IfSome};
ghost use Rattle.ecam_spec.specs.Places.{below};
ghost use Rattle.book_model.specs.Told.{flagged};
ghost use Rattle.wakes.specs.Marks.{is_marked};

use crate::active::next_active;
use wakes::Marked;

/// The place of the first active alert from one on, where it may be known which are near; the number of alerts where there
/// is none. Costs a look for each 64 alerts and at each near one that it goes over; where these aren't known, at each flag.
pub(crate) fn next_known(near: Option<&Marked>, active: &[bool], from: usize) -> usize
    requires from { from ≤ length active.now }
    requires near { IfSome near (λ n. (a : ℕ) → get_or active.now a false ≡ true
        → is_marked n.now a ≡ true) }
    ensures from { from ≤ result }
    ensures end { result ≤ length active.now }
    ensures none { filter (flagged active.now) (below result)
        ≡ filter (flagged active.now) (below from) }
    ensures active { result < length active.now → flagged active.now result ≡ true }
{
    match near {
        Some(near) => next_among(near, active, from),
        None => next_active(active, from),
    }
}

/// The place of the first active alert from one on, where each of them is near; the number of alerts where there is none.
/// Costs a look for each 64 alerts and at each near one that it goes over.
pub(crate) fn next_among(near: &Marked, active: &[bool], from: usize) -> usize
    requires from { from ≤ length active.now }
    requires near { (a : ℕ) → get_or active.now a false ≡ true → is_marked near.now a ≡ true }
    ensures from { from ≤ result }
    ensures end { result ≤ length active.now }
    ensures none { filter (flagged active.now) (below result)
        ≡ filter (flagged active.now) (below from) }
    ensures active { result < length active.now → flagged active.now result ≡ true }
{
    let mut next = near.next_or(from, active.len());
    while next < active.len() {
        if active[next] {
            return next;
        }
        next = near.next_or(next + 1, active.len());
    }
    next
}
