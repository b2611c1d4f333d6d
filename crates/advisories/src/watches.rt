// The advisories, and what is kept of each.
ghost use Rattle.std.specs.Prelude.{◌≡◌, ◌<◌, ◌≤◌, ℕ, length, map, filter, option_map, IfOk};
ghost use Rattle.ecam_spec.specs.Places.{first_in};
ghost use Rattle.ecam_spec.specs.History.{Moment};
ghost use Rattle.ecam_spec.specs.Situation.{value_in};
ghost use Rattle.book_model.specs.Sealed.{the_book};
ghost use Rattle.fwc_lane.specs.LaneFits.{LaneFits};
ghost use Rattle.advisories.specs.View.{list_of};
ghost use Rattle.advisories.specs.Watches.{watched, all_watched, AreWithin, rested, stepped, is_told};
ghost use Rattle.advisories.specs.State.{HasEnded};

use crate::drift::Drift;
use crate::limits::Advisory;
use book_model::Book;
use ecam_kinds::Phase;
use fwc_pair::Lane;
use std::alloc::{AllocError, Global};

/// An advisory, and what the moments so far leave of it.
#[derive(Clone, Copy)]
pub(crate) struct Watch {
    pub(crate) advisory: Advisory,
    pub(crate) drift: Drift,
}

/// These advisories before the first moment. An error is want of memory.
pub(crate) fn watches_of(alloc: Global, list: &[Advisory]) -> Result<Vec<Watch>, AllocError>
    ensures advisories { IfOk result (λ v. all_watched v.items ≡ list_of list.now) }
    ensures rest { IfOk result (λ v. map rested v.items ≡ v.items) }
{
    let mut watches = Vec::new(alloc);
    for advisory in list {
        watches.push(Watch {
            advisory: *advisory,
            drift: Drift::new(),
        })?;
    }
    Ok(watches)
}

fn rest_one(watch: &mut Watch)
    ensures { watch.new ≡ rested watch.old }
{
    watch.drift = Drift::new();
}

/// Forgets all moments.
pub(crate) fn rest(watches: &mut [Watch])
    ensures { watches.new ≡ map rested watches.old }
{
    for i in 0..watches.len() {
        rest_one(&mut watches[i]);
    }
}

fn step_one(watch: &mut Watch, lane: &Lane, book: &Book)
    requires fits { LaneFits (the_book book.now) lane.now }
    requires within { watch.old.advisory.param < length book.now.params.items }
    ensures watched { watched watch.new ≡ watched watch.old }
    ensures stepped { (m : ℕ → Moment) (k : ℕ) → HasEnded (the_book book.now) m k lane.now
        → watch.new ≡ stepped (λ p. value_in (the_book book.now) m p k) watch.old }
{
    let value = lane.value(book, watch.advisory.param as usize);
    watch.drift = watch.drift.next(&watch.advisory, value);
}

/// Takes one moment more, the last whole one of a computer. It costs a look at each advisory, and one at each source of its
/// parameter.
pub(crate) fn step(watches: &mut [Watch], lane: &Lane, book: &Book)
    requires fits { LaneFits (the_book book.now) lane.now }
    requires within { AreWithin (length book.now.params.items) watches.old }
    ensures watched { all_watched watches.new ≡ all_watched watches.old }
    ensures stepped { (m : ℕ → Moment) (k : ℕ) → HasEnded (the_book book.now) m k lane.now
        → watches.new ≡ map (stepped (λ p. value_in (the_book book.now) m p k)) watches.old }
{
    for i in 0..watches.len() {
        step_one(&mut watches[i], lane, book);
    }
}

fn is_told(watch: &Watch, phase: Phase) -> bool
    requires first { 1 ≤ phase.number }
    requires last { phase.number ≤ 10 }
    ensures { result ≡ is_told phase.number watch.now }
{
    watch.drift.drifts && !watch.advisory.inhibit.has(phase)
}

/// How many advisories are told in a moment of this phase.
pub(crate) fn count_told(watches: &[Watch], phase: Phase) -> usize
    requires first { 1 ≤ phase.number }
    requires last { phase.number ≤ 10 }
    ensures { result ≡ length (filter (is_told phase.number) watches.now) }
{
    let mut count = 0;
    for watch in watches {
        if is_told(watch, phase) {
            count += 1;
        }
    }
    count
}

/// The first of them.
pub(crate) fn first_told(watches: &[Watch], phase: Phase) -> Option<&Watch>
    requires first { 1 ≤ phase.number }
    requires last { phase.number ≤ 10 }
    ensures { option_map (λ w. w.now) result
        ≡ first_in (filter (is_told phase.number) watches.now) }
{
    for watch in watches {
        if is_told(watch, phase) {
            return Some(watch);
        }
    }
    None
}
