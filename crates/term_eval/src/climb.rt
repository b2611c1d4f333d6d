// A node that turned is told to the gates above it.
ghost use Rattle.std.specs.Prelude.{◌≡◌, ◌≢◌, ◌+◌, ◌<◌, length, Ok};
ghost use Rattle.term_eval.specs.declared.link.Gate.TheVariants as kind;
ghost use Rattle.term_eval.specs.Slots.{wakes_of, cells_of, owners_of};
ghost use Rattle.term_eval.specs.Climb.{climb, count_with, gate_says, link_at, CanClimb};

use crate::link::{Gate, Link};
use crate::nodes::NodeState;
use crate::slot::{Slot, keep_wake};

// How many children hold where one turned, modulo 256: this asks for no test.
#[inline(always)]
fn count_with(count: u8, holds: bool) -> u8
    ensures { result ≡ count_with count holds }
{
    count.wrapping_add(if holds { 1 } else { 255 })
}

// What the gate above says, of whose children so many hold.
#[inline(always)]
fn gate_says(link: Link, count: u8) -> bool
    requires untimed { link.gate ≢ kind.Temporal }
    requires there { link.gate ≢ kind.Top }
    ensures { gate_says link.gate link.number count ≡ Ok result }
{
    (link.number <= u32::from(count)) != (link.gate == Gate::Fewer)
}

/// Node `node` of a condition, whose nodes start at `first` and have these links, and which has this one, says so from now
/// on. Where it said otherwise, the node above it counts it, and is told in turn if it is a gate, and so on; a temporal node
/// is to be looked at. Answers whether there is such a one, or the first node turned. The link of a node above is read only
/// where that turned.
#[inline(always)]
pub fn climb(
    link: Link,
    states: &mut [NodeState],
    slots: &mut [Slot],
    links: &[Link],
    first: usize,
    node: usize,
    holds: bool,
) -> bool
    requires can { CanClimb links.now first (length states.old) (length slots.old) }
    requires node { node < length links.now }
    requires link { link ≡ link_at links.now node }
    ensures climbs { record { states = states.new; wakes = wakes_of slots.new; stirs = result }
        ≡ climb (node + 1) links.now first node holds states.old (wakes_of slots.old) }
    ensures cells { cells_of slots.new ≡ cells_of slots.old }
    ensures owners { owners_of slots.new ≡ owners_of slots.old }
{
    let mut link = link;
    let mut node = node;
    let mut holds = holds;
    if states[first + node].told == holds {
        return false;
    }
    'up: loop {
        states[first + node].told = holds;
        if link.gate == Gate::Top {
            return true;
        }
        node -= usize::from(link.up);
        let count = count_with(states[first + node].count, holds);
        states[first + node].count = count;
        if link.gate == Gate::Temporal {
            keep_wake(slots, link.number as usize, 0);
            return true;
        }
        holds = gate_says(link, count);
        if states[first + node].told == holds {
            return false;
        }
        link = links[node];
    }
}
