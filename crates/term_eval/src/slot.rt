// What is kept of temporal nodes, one slot for each.
ghost use Rattle.std.specs.Prelude.{◌≡◌, ℕ, ◌+◌, ◌<◌, ◌≤◌, length, slice_get, slice_set};
ghost use Rattle.term_eval.specs.CellWords.{cell_at};
ghost use Rattle.term_eval.specs.Linked.{AreOwned};
ghost use Rattle.term_eval.specs.Slots.{wakes_of, cells_of, owners_of, empty};
ghost use Rattle.term_eval.specs.declared.memory.Cell.TheVariants.{Off};

use crate::memory::Cell;
use crate::owner::{Owner, Timing};

/// What is kept of one temporal node, in 32 bytes, and what is read of it where it is looked at.
#[derive(Clone, Copy, Debug, PartialEq, Eq)]
pub struct Slot {
    /// The moment in which the node turns by itself, or 0 where the next moment is to look at it.
    pub wake: u64,
    /// What it remembers of the moments so far.
    pub cell: Cell,
    /// Which node it is, and how it goes by moments.
    pub owner: Owner,
}

/// A slot of no moment, which no node has yet.
pub fn empty() -> Slot
    ensures { result ≡ empty }
{
    Slot {
        wake: 0,
        cell: Cell::Off,
        owner: Owner {
            moments: 0,
            node: 0,
            timing: Timing::Confirmed,
        },
    }
}

/// The node of slot `i` is to be looked at again in this moment.
#[inline(always)]
pub fn keep_wake(slots: &mut [Slot], i: usize, wake: u64)
    requires { i < length slots.old }
    ensures wakes { wakes_of slots.new ≡ slice_set (wakes_of slots.old) i wake }
    ensures cells { cells_of slots.new ≡ cells_of slots.old }
    ensures owners { owners_of slots.new ≡ owners_of slots.old }
{
    slots[i].wake = wake;
}

/// Forgets all moments.
pub fn forget(slots: &mut [Slot])
    ensures cells { (i : ℕ) → cell_at (cells_of slots.new) i ≡ Off }
    ensures wakes { wakes_of slots.new ≡ wakes_of slots.old }
    ensures owners { owners_of slots.new ≡ owners_of slots.old }
{
    for i in 0..slots.len() {
        slots[i].cell = Cell::Off;
    }
}

/// The slots from `at` on are of these temporal nodes.
pub fn own(slots: &mut [Slot], at: usize, owners: &[Owner])
    requires { at + length owners.now ≤ length slots.old }
    ensures owned { AreOwned (owners_of slots.new) at owners.now }
    ensures before { (i : ℕ) → i < at
        → slice_get (owners_of slots.new) i ≡ slice_get (owners_of slots.old) i }
    ensures behind { (i : ℕ) → at + length owners.now ≤ i
        → slice_get (owners_of slots.new) i ≡ slice_get (owners_of slots.old) i }
    ensures cells { cells_of slots.new ≡ cells_of slots.old }
    ensures wakes { wakes_of slots.new ≡ wakes_of slots.old }
{
    for i in 0..owners.len() {
        slots[at + i].owner = owners[i];
    }
}
