// The code of a condition: its nodes one behind another, each before its children, with what it takes to step it without the
// tree.
ghost use Rattle.std.specs.Prelude.{◌≡◌, ◌+◌, ◌<◌, ◌≤◌, ◌^◌, ◌++◌, [], ◌∷◌, length, OnOk};
ghost use Rattle.ecam_spec.specs.TermSize.{slots, slots_of};
ghost use Rattle.term_tree.specs.View.{tree_of, trees_of};
ghost use Rattle.term_eval.specs.Code.{code, codes, step, IsShort, AreShort};

use ecam_kinds::{Key, PhaseSet};
use std::alloc::AllocError;
use term_tree::{Cond, Op};

/// What a node of a condition says. An atom tells its own truth; any other node goes by how many of its children hold.
#[derive(Clone, Copy, Debug, PartialEq, Eq)]
pub enum Node {
    /// Always, or never.
    Const(bool),
    /// The discrete has the value 1.
    Disc(u32),
    /// The parameter has a value.
    Valid(u32),
    /// The parameter has a value, which stands so to this number.
    Cmp(u32, Op, i64),
    /// The flight phase is one of these.
    InPhase(PhaseSet),
    /// The alert is active.
    Alert(u32),
    /// The key is pressed.
    Press(Key),
    /// Flight warning computer 1 or 2 is up.
    Fwc(u8),
    /// Its child doesn't hold.
    Not,
    /// All of its children hold, of which there are so many.
    All(usize),
    /// One or more of its children hold.
    Any,
    /// At least so many of its children hold.
    AtLeast(u32),
    /// Its child is confirmed by so many moments, in this slot.
    Conf(u32, usize),
    /// Its child is held for so many moments, in this slot.
    Hold(u32, usize),
    /// Its child has risen, in this slot.
    Rise(usize),
    /// The first of its two children, which stands right behind it, sets the latch of this slot, and the other resets it.
    Latch(usize),
}

/// One node of a condition, and its place in the code.
#[derive(Clone, Copy, Debug, PartialEq, Eq)]
pub struct Step {
    pub node: Node,
    /// How far before it the node stands of which it is a child; 0 where there is none.
    pub up: usize,
}

/// Puts the code of a condition, whose slots start at `at`, behind the steps that are there. Its cost is one visit of each
/// node. An error is want of memory.
pub fn add_code(steps: &mut Vec<Step>, cond: &Cond, at: usize) -> Result<(), AllocError>
    requires { at + slots (tree_of cond.now) ≤ usize.MAX }
    ensures code { OnOk result (steps.new.items ≡ steps.old.items ++ code at 0 (tree_of cond.now)) }
    ensures short { OnOk result (IsShort (tree_of cond.now)) }
{
    let mut next = at;
    add_node(steps, cond, 0, &mut next)
}

// Puts one step more behind the others.
fn add(steps: &mut Vec<Step>, node: Node, up: usize) -> Result<(), AllocError>
    ensures { OnOk result (steps.new.items ≡ steps.old.items ++ step node up ∷ []) }
{
    steps.push(Step { node, up })?;
    Ok(())
}

// A number of moments is less than 2^32.
fn short(moments: u32) -> u32
    ensures same { result ≡ moments }
    ensures few { moments < 2 ^ 32 }
{
    moments
}

// A temporal node's own slot comes before its children's.
fn own_slot(next: &mut usize) -> usize
    requires { next.old + 1 ≤ usize.MAX }
    ensures own { result ≡ next.old }
    ensures next { next.new ≡ next.old + 1 }
{
    let own = *next;
    *next += 1;
    own
}

// The same of a condition whose first slot is `next`, which is the first slot behind it afterwards, and whose parent stands
// `up` before it.
#[cycle(coding)]
#[tactic(auto, unfolding(ecam_spec::specs::TermSize::slots, crate::specs::Code::code, crate::specs::Code::IsShort))]
fn add_node(
    steps: &mut Vec<Step>,
    cond: &Cond,
    up: usize,
    next: &mut usize,
) -> Result<(), AllocError>
    requires { next.old + slots (tree_of cond.now) ≤ usize.MAX }
    ensures next { OnOk result (next.new ≡ next.old + slots (tree_of cond.now)) }
    ensures code { OnOk result (steps.new.items ≡ steps.old.items
        ++ code next.old up (tree_of cond.now)) }
    ensures short { OnOk result (IsShort (tree_of cond.now)) }
{
    match cond {
        Cond::Const(truth) => add(steps, Node::Const(*truth), up),
        Cond::Disc(param) => add(steps, Node::Disc(*param), up),
        Cond::Valid(param) => add(steps, Node::Valid(*param), up),
        Cond::Cmp(param, op, number) => add(steps, Node::Cmp(*param, *op, *number), up),
        Cond::InPhase(phases) => add(steps, Node::InPhase(*phases), up),
        Cond::Alert(alert) => add(steps, Node::Alert(*alert), up),
        Cond::Press(key) => add(steps, Node::Press(*key), up),
        Cond::Fwc(computer) => add(steps, Node::Fwc(*computer), up),
        Cond::Not(of) => {
            add(steps, Node::Not, up)?;
            add_node(steps, of, 1, next)
        }
        Cond::All(members) => {
            add(steps, Node::All(members.len()), up)?;
            add_nodes(steps, members, next)
        }
        Cond::Any(members) => {
            add(steps, Node::Any, up)?;
            add_nodes(steps, members, next)
        }
        Cond::AtLeast(least, members) => {
            add(steps, Node::AtLeast(*least), up)?;
            add_nodes(steps, members, next)
        }
        Cond::Conf(of, moments) => {
            let own = own_slot(next);
            add(steps, Node::Conf(short(*moments), own), up)?;
            add_node(steps, of, 1, next)
        }
        Cond::Hold(of, moments) => {
            let own = own_slot(next);
            add(steps, Node::Hold(short(*moments), own), up)?;
            add_node(steps, of, 1, next)
        }
        Cond::Rise(of) => {
            let own = own_slot(next);
            add(steps, Node::Rise(own), up)?;
            add_node(steps, of, 1, next)
        }
        Cond::Latch(set, reset) => {
            let own = own_slot(next);
            let at = steps.len();
            add(steps, Node::Latch(own), up)?;
            add_node(steps, set, 1, next)?;
            let behind = steps.len() - at;
            add_node(steps, reset, behind, next)
        }
    }
}

// The same of the members of a list, whose own step is the last that is there.
#[cycle(coding)]
fn add_nodes(steps: &mut Vec<Step>, members: &[Cond], next: &mut usize) -> Result<(), AllocError>
    requires room { next.old + slots_of (trees_of members.now) ≤ usize.MAX }
    requires own { 1 ≤ length steps.old.items }
    ensures next { OnOk result (next.new ≡ next.old + slots_of (trees_of members.now)) }
    ensures code { OnOk result (steps.new.items ≡ steps.old.items
        ++ codes next.old 1 (trees_of members.now)) }
    ensures short { OnOk result (AreShort (trees_of members.now)) }
{
    let own = steps.len() - 1;
    for member in members {
        let up = steps.len() - own;
        add_node(steps, member, up, next)?;
    }
    Ok(())
}
