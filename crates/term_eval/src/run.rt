// A condition is stepped by its links and temporal nodes: those of these that may turn are looked at, from the last to the
// first.
ghost use Rattle.std.specs.Prelude.{◌≡◌, ◌<◌, ◌≤◌, ◌+◌, min, length, take, drop};
ghost use Rattle.term_eval.specs.CellWords.{never};
ghost use Rattle.term_eval.specs.Slots.{wakes_of, cells_of, owners_of, owner_at};
ghost use Rattle.term_eval.specs.Run.{look, look_or_leave, pass_over, node_by, temporal_says, due_after, cells_after, SlotWithin, CanLook, CanPass};

use crate::climb::climb;
use crate::code::Node;
use crate::link::Link;
use crate::memory::{confirm, hold, latch, rise};
use crate::nodes::NodeState;
use crate::owner::{Owner, Timing};
use crate::slot::{Slot, keep_wake};
use crate::turn::{NEVER, Turn, lasting};

/// What comes first is due.
#[inline(always)]
pub fn earlier(due: &mut u64, own: u64)
    ensures { due.new ≡ min due.old own }
{
    *due = (*due).min(own);
}

// What a temporal node of this kind says of whose children so many hold, and the first or not, and when it turns by itself.
#[inline(always)]
fn tell_by(
    timing: Timing,
    moments: u32,
    slot: usize,
    count: usize,
    first: bool,
    slots: &mut [Slot],
    now: u64,
) -> Turn
    requires { slot < length slots.old }
    ensures holds { result.holds ≡ temporal_says now (cells_of slots.old) count first
        (node_by timing moments slot) }
    ensures due { result.due ≡ due_after now (cells_of slots.old) count
        (node_by timing moments slot) }
    ensures cells { cells_of slots.new ≡ cells_after now (cells_of slots.old) count first
        (node_by timing moments slot) }
    ensures wakes { wakes_of slots.new ≡ wakes_of slots.old }
    ensures owners { owners_of slots.new ≡ owners_of slots.old }
{
    match timing {
        Timing::Confirmed => confirm(&mut slots[slot].cell, count > 0, moments, now),
        Timing::Held => hold(&mut slots[slot].cell, count > 0, moments, now),
        Timing::Risen => rise(&mut slots[slot].cell, count > 0, now),
        Timing::Latched => {
            let reset = if first { count > 1 } else { count > 0 };
            lasting(latch(&mut slots[slot].cell, first, reset))
        }
    }
}

/// The same of a node of code. One that isn't temporal says nothing here.
pub fn tell(node: &Node, count: usize, first: bool, slots: &mut [Slot], now: u64) -> Turn
    requires { SlotWithin (length slots.old) node.now }
    ensures holds { result.holds ≡ temporal_says now (cells_of slots.old) count first node.now }
    ensures due { result.due ≡ due_after now (cells_of slots.old) count node.now }
    ensures cells { cells_of slots.new
        ≡ cells_after now (cells_of slots.old) count first node.now }
    ensures wakes { wakes_of slots.new ≡ wakes_of slots.old }
    ensures owners { owners_of slots.new ≡ owners_of slots.old }
{
    match node {
        Node::Conf(moments, slot) => {
            tell_by(Timing::Confirmed, *moments, *slot, count, first, slots, now)
        }
        Node::Hold(moments, slot) => {
            tell_by(Timing::Held, *moments, *slot, count, first, slots, now)
        }
        Node::Rise(slot) => tell_by(Timing::Risen, 0, *slot, count, first, slots, now),
        Node::Latch(slot) => tell_by(Timing::Latched, 0, *slot, count, first, slots, now),
        _ => lasting(false),
    }
}

// Looks at a temporal node, which has this slot.
#[inline(always)]
fn look(
    links: &[Link],
    first: usize,
    owner: Owner,
    slot: usize,
    states: &mut [NodeState],
    slots: &mut [Slot],
    due: &mut u64,
    now: u64,
)
    requires { CanLook links.now first (length states.old) (length slots.old) (length slots.old)
        owner slot }
    ensures looks { record {
      states = states.new;
      wakes = wakes_of slots.new;
      cells = cells_of slots.new;
      due = due.new;
    }
        ≡ look now links.now first owner slot (record {
          states = states.old;
          wakes = wakes_of slots.old;
          cells = cells_of slots.old;
          due = due.old;
        }) }
    ensures owners { owners_of slots.new ≡ owners_of slots.old }
{
    let node = usize::from(owner.node);
    let at = first + node;
    let turn = tell_by(
        owner.timing,
        owner.moments,
        slot,
        usize::from(states[at].count),
        states[at + 1].told,
        slots,
        now,
    );
    keep_wake(slots, slot, turn.due);
    earlier(due, turn.due);
    climb(links[node], states, slots, links, first, node, turn.holds);
}

// Looks at the node that has this slot, or leaves it as it is where it isn't to be looked at yet.
#[inline(always)]
fn look_or_leave(
    links: &[Link],
    first: usize,
    slot: usize,
    states: &mut [NodeState],
    slots: &mut [Slot],
    due: &mut u64,
    now: u64,
)
    requires { CanLook links.now first (length states.old) (length slots.old) (length slots.old)
        (owner_at (owners_of slots.old) slot) slot }
    ensures looks { record {
      states = states.new;
      wakes = wakes_of slots.new;
      cells = cells_of slots.new;
      due = due.new;
    }
        ≡ look_or_leave now links.now first (owner_at (owners_of slots.old) slot) slot (record {
          states = states.old;
          wakes = wakes_of slots.old;
          cells = cells_of slots.old;
          due = due.old;
        }) }
    ensures owners { owners_of slots.new ≡ owners_of slots.old }
{
    let Slot { wake, owner, .. } = slots[slot];
    if now < wake {
        earlier(due, wake);
    } else {
        look(links, first, owner, slot, states, slots, due, now);
    }
}

/// Steps a condition that has these links and so many temporal nodes, with states from `first` on and slots from `at` on, which
/// are of these nodes, and answers when the condition turns by itself. Children come before the node that they stand in.
pub fn pass(
    links: &[Link],
    first: usize,
    count: usize,
    at: usize,
    states: &mut [NodeState],
    slots: &mut [Slot],
    now: u64,
) -> u64
    requires range { at + count ≤ length slots.old }
    requires can { CanPass links.now first (length states.old) (length slots.old)
        (length slots.old) (take count (drop at (owners_of slots.old))) at }
    ensures passes { record {
      states = states.new;
      wakes = wakes_of slots.new;
      cells = cells_of slots.new;
      due = result;
    }
        ≡ pass_over now links.now first (take count (drop at (owners_of slots.old))) at (record {
          states = states.old;
          wakes = wakes_of slots.old;
          cells = cells_of slots.old;
          due = never;
        }) }
    ensures owners { owners_of slots.new ≡ owners_of slots.old }
{
    let mut due = NEVER;
    let mut slot = count;
    while slot > 0 {
        slot -= 1;
        look_or_leave(links, first, at + slot, states, slots, &mut due, now);
    }
    due
}
