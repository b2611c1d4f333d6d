// What is read of a node where it turns: where the node above it stands, and how that goes by its children.
ghost use Rattle.std.specs.Prelude.{◌≡◌, ℕ, ◌+◌, ◌<◌, ◌≤◌, ◌^◌, ◌++◌, OnOk};
ghost use Rattle.ecam_spec.specs.Book.{Tree};
ghost use Rattle.ecam_spec.specs.TermSize.{slots};
ghost use Rattle.term_eval.specs.Code.{IsCode};
ghost use Rattle.term_eval.specs.Links.{gate_of, number_of, narrowed, link_from, links_from, IsLinkable};

use crate::code::{Node, Step};
use std::alloc::AllocError;

/// How the node above goes by its children.
#[derive(Clone, Copy, Debug, PartialEq, Eq)]
pub enum Gate {
    /// It holds where at least so many of its children do.
    AtLeast,
    /// It holds where fewer of its children do.
    Fewer,
    /// It goes by moments before, too, in a slot of its own.
    Temporal,
    /// There is none: the node is a condition's first.
    Top,
}

/// What is read of a node where it turns, in eight bytes: where the node above it stands, and how that goes by its children.
#[derive(Clone, Copy, Debug, PartialEq, Eq)]
pub struct Link {
    /// How many of its children the gate above asks for, or the slot of a temporal node above; 0 where there is none.
    pub number: u32,
    /// How far before it the node above stands; 0 where there is none.
    pub up: u8,
    pub gate: Gate,
}

// How a node goes by its children.
fn gate_of(node: &Node) -> Gate
    ensures { result ≡ gate_of node.now }
{
    match node {
        Node::Not => Gate::Fewer,
        Node::Conf(_, _) | Node::Hold(_, _) | Node::Rise(_) | Node::Latch(_) => Gate::Temporal,
        _ => Gate::AtLeast,
    }
}

// How many of its children it asks for, or its slot.
fn number_of(node: &Node) -> u32
    requires { narrowed node.now < 2 ^ 32 }
    ensures { result ≡ number_of node.now }
{
    match node {
        Node::All(members) => *members as u32,
        Node::AtLeast(least) => *least,
        Node::Conf(_, slot) | Node::Hold(_, slot) => *slot as u32,
        Node::Rise(slot) | Node::Latch(slot) => *slot as u32,
        _ => 1,
    }
}

/// The link of a node of a condition's code. Its cost is a look at the node and at the one above it.
pub fn link_at(steps: &[Step], node: usize) -> Link
    requires { IsLinkable steps.now node }
    ensures { result ≡ link_from steps.now node }
{
    let up = steps[node].up;
    if up == 0 {
        return Link {
            number: 0,
            up: 0,
            gate: Gate::Top,
        };
    }
    let above = &steps[node - up].node;
    Link {
        number: number_of(above),
        up: up as u8,
        gate: gate_of(above),
    }
}

/// Puts the links of a condition's code behind those that are there. Its cost is two looks for each step. An error is want of
/// memory.
pub fn add_links(links: &mut Vec<Link>, steps: &[Step]) -> Result<(), AllocError>
    requires { (c : Tree) × (at : ℕ) × IsCode c at steps.now × (at + slots c ≤ 2 ^ 32) }
    ensures { OnOk result (links.new.items ≡ links.old.items ++ links_from steps.now) }
{
    for node in 0..steps.len() {
        links.push(link_at(steps, node))?;
    }
    Ok(())
}
