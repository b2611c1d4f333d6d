// Searches for flags that are set.
ghost use Rattle.std.specs.Prelude.{◌≡◌, ◌<◌, ◌≤◌, ℕ, All, IfSome, drop, false, filter, length, slice_index_or, take, true};
ghost use Rattle.book_model.specs.Told.{flagged};
ghost use Rattle.ecam_spec.specs.Places.{below};
ghost use Rattle.ecam_spec.specs.declared.limits.TheConstants.{ALERTS};
ghost use Rattle.warning_display.specs.ShownPlaces.{HasPlaces};

use wakes::Marked;

// So many flags are looked at together, in a few instructions.
const BLOCK: usize = 16;

/// The first number from one on, before an end, whose flag is set; the end where there is none. Costs a look at each
/// flag that it goes over, and nothing else; where many in a row aren't set, these are looked at together.
pub(crate) fn next_set(flags: &[bool], from: usize, end: usize) -> usize
    requires from { from ≤ end }
    requires end { end ≤ length flags.now }
    ensures from { from ≤ result }
    ensures end { result ≤ end }
    ensures none { filter (flagged flags.now) (below result)
        ≡ filter (flagged flags.now) (below from) }
    ensures set { result < end → flagged flags.now result ≡ true }
{
    for i in skip_clear(flags, from, end)..end {
        if flags[i] {
            return i;
        }
    }
    end
}

// Goes from one on over each block of flags of which none is set.
fn skip_clear(flags: &[bool], from: usize, end: usize) -> usize
    requires from { from ≤ end }
    requires end { end ≤ length flags.now }
    ensures from { from ≤ result }
    ensures end { result ≤ end }
    ensures none { filter (flagged flags.now) (below result)
        ≡ filter (flagged flags.now) (below from) }
{
    let mut next = from;
    while end - next >= BLOCK && is_clear(&flags[next..next + BLOCK]) {
        next += BLOCK;
    }
    next
}

// Whether none of some flags is set.
fn is_clear(flags: &[bool]) -> bool
    ensures { result ≡ true → (i : ℕ) → flagged flags.now i ≡ false }
{
    !flags.contains(&true)
}

/// The place in the order, from one on, of the first alert that is shown; the end of the order where none is. Costs a
/// look for each 64 alerts that it goes over, where the places of those that are shown are known as a set; else a look at
/// the flag of each.
pub(crate) fn next_shown(
    order: &[u32],
    shown: &[bool],
    ranked: Option<&Marked>,
    from: usize,
) -> usize
    requires from { from ≤ length order.now }
    requires flags { All (λ a. a < length shown.now) order.now }
    requires ranked { IfSome ranked (λ set. HasPlaces order.now shown.now set.now) }
    ensures from { from ≤ result }
    ensures end { result ≤ length order.now }
    ensures none { filter (flagged shown.now) (take result order.now)
        ≡ filter (flagged shown.now) (take from order.now) }
    ensures shown { result < length order.now
        → flagged shown.now (slice_index_or order.now result 0) ≡ true }
{
    match ranked {
        Some(ranked) => ranked.next_or(from, order.len()),
        None => walk_to_shown(order, shown, from),
    }
}

// The same, by the flags alone.
fn walk_to_shown(order: &[u32], shown: &[bool], from: usize) -> usize
    requires from { from ≤ length order.now }
    requires flags { All (λ a. a < length shown.now) order.now }
    ensures from { from ≤ result }
    ensures end { result ≤ length order.now }
    ensures none { filter (flagged shown.now) (take result order.now)
        ≡ filter (flagged shown.now) (take from order.now) }
    ensures shown { result < length order.now
        → flagged shown.now (slice_index_or order.now result 0) ≡ true }
{
    for i in from..order.len() {
        if shown[order[i] as usize] {
            return i;
        }
    }
    order.len()
}

/// How many alerts are shown from a place of the order on. Costs a look for each 64 alerts, where the places of those that
/// are shown are known as a set; else a look at the flag of each.
pub(crate) fn count_shown(
    order: &[u32],
    shown: &[bool],
    ranked: Option<&Marked>,
    from: usize,
) -> u32
    requires from { from ≤ length order.now }
    requires few { length order.now ≤ ALERTS }
    requires flags { All (λ a. a < length shown.now) order.now }
    requires ranked { IfSome ranked (λ set. HasPlaces order.now shown.now set.now) }
    ensures { result ≡ length (filter (flagged shown.now) (drop from order.now)) }
{
    match ranked {
        Some(ranked) => ranked.count_from(from, order.len()) as u32,
        None => count_flags(order, shown, from),
    }
}

// The same, by the flags alone.
fn count_flags(order: &[u32], shown: &[bool], from: usize) -> u32
    requires from { from ≤ length order.now }
    requires few { length order.now ≤ ALERTS }
    requires flags { All (λ a. a < length shown.now) order.now }
    ensures { result ≡ length (filter (flagged shown.now) (drop from order.now)) }
{
    let mut count = 0;
    for i in from..order.len() {
        count += u32::from(shown[order[i] as usize]);
    }
    count
}
