// What is read of a temporal node where it is looked at.
ghost use Rattle.std.specs.Prelude.{◌≡◌, ◌<◌, ◌≤◌, ◌^◌, ◌++◌, length, OnOk};
ghost use Rattle.term_eval.specs.Code.{has_slot, owner_of, owners};

use crate::code::{Node, Step};
use std::alloc::AllocError;

/// How a temporal node goes by moments.
#[derive(Clone, Copy, Debug, PartialEq, Eq)]
pub enum Timing {
    /// Its child is confirmed.
    Confirmed,
    /// Its child is held.
    Held,
    /// Its child has risen.
    Risen,
    /// The first of its children sets its latch, and the other resets it.
    Latched,
}

/// What is read of a temporal node where it is looked at, in eight bytes.
#[derive(Clone, Copy, Debug, PartialEq, Eq)]
pub struct Owner {
    /// By how many moments its child is confirmed, or for how many it is held; else 0.
    pub moments: u32,
    /// Its number within the code.
    pub node: u8,
    pub timing: Timing,
}

/// Puts what is read of a code's temporal nodes behind what is there, in the order of their slots. Its cost is one visit of
/// each step. An error is want of memory.
pub fn add_owners(list: &mut Vec<Owner>, steps: &[Step]) -> Result<(), AllocError>
    requires { length steps.now ≤ 2 ^ 8 }
    ensures { OnOk result (list.new.items ≡ list.old.items ++ owners 0 steps.now) }
{
    for (i, step) in steps.iter().enumerate() {
        if has_slot(&step.node) {
            list.push(owner_of(i, &step.node))?;
        }
    }
    Ok(())
}

// Whether a node has a slot.
fn has_slot(node: &Node) -> bool
    ensures { result ≡ has_slot node.now }
{
    matches!(
        node,
        Node::Conf(_, _) | Node::Hold(_, _) | Node::Rise(_) | Node::Latch(_)
    )
}

// What is read of a node that has a slot, and this number.
fn owner_of(number: usize, node: &Node) -> Owner
    requires { number < 2 ^ 8 }
    ensures { result ≡ owner_of number node.now }
{
    let (moments, timing) = match node {
        Node::Conf(moments, _) => (*moments, Timing::Confirmed),
        Node::Hold(moments, _) => (*moments, Timing::Held),
        Node::Rise(_) => (0, Timing::Risen),
        _ => (0, Timing::Latched),
    };
    Owner {
        moments,
        node: number as u8,
        timing,
    }
}
