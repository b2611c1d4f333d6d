// In the first moment each node of a condition is asked, from the last to the first.
ghost use Rattle.std.specs.Prelude.{◌≡◌, ◌+◌, ◌<◌, ◌≤◌, length, slice_set};
ghost use Rattle.term_eval.specs.CellWords.{never};
ghost use Rattle.term_eval.specs.Slots.{wakes_of, cells_of, owners_of};
ghost use Rattle.term_eval.specs.Climb.{told_as};
ghost use Rattle.term_eval.specs.NodeState.{state_at};
ghost use Rattle.term_eval.specs.Run.{cells_after, due_after, SlotWithin};
ghost use Rattle.term_eval.specs.Begin.{answer, wakes_after, count_up, ask, ask_over, Has, CanAsk, AllCanAsk, unasked_from};

use crate::code::{Node, Step};
use crate::env::Env;
use crate::nodes::{NodeState, unasked};
use crate::run::{earlier, tell};
use crate::slot::{Slot, keep_wake};
use crate::turn::{NEVER, Turn, lasting};

// What a node says of whose children so many hold, and the first or not, and when it turns by itself.
fn answer(node: &Node, count: usize, first: bool, slots: &mut [Slot], env: &Env<'_>) -> Turn
    requires has { Has env.now (length slots.old) node.now }
    requires phase { 1 ≤ env.now.phase.number }
    requires last { env.now.phase.number ≤ 10 }
    ensures holds { result.holds ≡ answer env.now (cells_of slots.old) count first node.now }
    ensures due { result.due ≡ due_after 0 (cells_of slots.old) count node.now }
    ensures cells { cells_of slots.new ≡ cells_after 0 (cells_of slots.old) count first node.now }
    ensures wakes { wakes_of slots.new ≡ wakes_of slots.old }
    ensures owners { owners_of slots.new ≡ owners_of slots.old }
{
    match node {
        Node::Const(truth) => lasting(*truth),
        Node::Disc(param) => lasting(env.is_one(*param)),
        Node::Valid(param) => lasting(env.has_value(*param)),
        Node::Cmp(param, op, number) => lasting(env.compares(*param, *op, *number)),
        Node::InPhase(phases) => lasting(phases.has(env.phase)),
        Node::Alert(alert) => lasting(env.is_active(*alert)),
        Node::Press(key) => lasting(env.keys.pressed(*key)),
        Node::Fwc(computer) => lasting(env.is_up(*computer)),
        Node::Not => lasting(count == 0),
        Node::All(members) => lasting(count == *members),
        Node::Any => lasting(count > 0),
        Node::AtLeast(least) => lasting(*least as usize <= count),
        _ => tell(node, count, first, slots, 0),
    }
}

// When a temporal node is to be looked at again.
fn keep_due(node: &Node, slots: &mut [Slot], due: u64)
    requires { SlotWithin (length slots.old) node.now }
    ensures wakes { wakes_of slots.new ≡ wakes_after node.now (wakes_of slots.old) due }
    ensures cells { cells_of slots.new ≡ cells_of slots.old }
    ensures owners { owners_of slots.new ≡ owners_of slots.old }
{
    match node {
        Node::Conf(_, slot) | Node::Hold(_, slot) => keep_wake(slots, *slot, due),
        Node::Rise(slot) | Node::Latch(slot) => keep_wake(slots, *slot, due),
        _ => {}
    }
}

// Whether the first child of node `i` holds, if it has one.
fn first_child(states: &[NodeState], i: usize) -> bool
    requires { i < length states.now }
    ensures { result ≡ (state_at states.now (i + 1)).told }
{
    i + 1 < states.len() && states[i + 1].told
}

// What node `i` says is kept.
fn keep_told(states: &mut [NodeState], i: usize, holds: bool)
    requires { i < length states.old }
    ensures { states.new ≡ slice_set states.old i (told_as holds (state_at states.old i)) }
{
    states[i].told = holds;
}

// The node that stands so far before node `i` counts it where it holds, if there is one.
fn count_up(states: &mut [NodeState], i: usize, up: usize, holds: bool)
    requires within { i < length states.old }
    requires up { up ≤ i }
    ensures { states.new ≡ count_up i up holds states.old }
{
    if holds && up > 0 {
        states[i - up].count = states[i - up].count.saturating_add(1);
    }
}

// Asks node `i`, of which all children have been asked.
fn ask(
    step: &Step,
    i: usize,
    states: &mut [NodeState],
    slots: &mut [Slot],
    due: &mut u64,
    env: &Env<'_>,
)
    requires can { CanAsk env.now (length states.old) (length slots.old) (length slots.old) i
        step.now }
    requires phase { 1 ≤ env.now.phase.number }
    requires last { env.now.phase.number ≤ 10 }
    ensures asks { record {
      states = states.new;
      wakes = wakes_of slots.new;
      cells = cells_of slots.new;
      due = due.new;
    }
        ≡ ask env.now i step.now (record {
          states = states.old;
          wakes = wakes_of slots.old;
          cells = cells_of slots.old;
          due = due.old;
        }) }
    ensures owners { owners_of slots.new ≡ owners_of slots.old }
{
    let first = first_child(states, i);
    let count = usize::from(states[i].count);
    let turn = answer(&step.node, count, first, slots, env);
    earlier(due, turn.due);
    keep_due(&step.node, slots, turn.due);
    keep_told(states, i, turn.holds);
    count_up(states, i, step.up, turn.holds);
}

// So many nodes from `first` on are as they are before they are asked.
fn clear(states: &mut [NodeState], first: usize, count: usize)
    requires { first + count ≤ length states.old }
    ensures { states.new ≡ unasked_from first count states.old }
{
    states[first..first + count].fill(unasked());
}

/// Asks each node of a condition's code, whose states start at `first`, in moment 0, and answers when the condition turns by
/// itself. Children come before the node that they stand in.
pub fn ask_all(
    steps: &[Step],
    first: usize,
    states: &mut [NodeState],
    slots: &mut [Slot],
    env: &Env<'_>,
) -> u64
    requires can { AllCanAsk env.now (length states.old) (length slots.old) (length slots.old) first
        steps.now }
    requires room { first + length steps.now ≤ length states.old }
    requires phase { 1 ≤ env.now.phase.number }
    requires last { env.now.phase.number ≤ 10 }
    ensures asks { record {
      states = states.new;
      wakes = wakes_of slots.new;
      cells = cells_of slots.new;
      due = result;
    }
        ≡ ask_over env.now first steps.now (record {
          states = unasked_from first (length steps.now) states.old;
          wakes = wakes_of slots.old;
          cells = cells_of slots.old;
          due = never;
        }) }
    ensures owners { owners_of slots.new ≡ owners_of slots.old }
{
    clear(states, first, steps.len());
    let mut due = NEVER;
    let mut i = steps.len();
    while i > 0 {
        i -= 1;
        ask(&steps[i], first + i, states, slots, &mut due, env);
    }
    due
}
