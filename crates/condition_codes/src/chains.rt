// All steps are gone through once, and each is put before the others that ask for the same operand.
ghost use Rattle.std.specs.Prelude.{◌≡◌, ℕ, ◌+◌, ◌<◌, ◌^◌, List, All, map, length, slice_index, Option, Some, OnOk, IfOk};
ghost use Rattle.std.specs.Option.{option_map};
ghost use Rattle.std.specs.Box.{boxed_slice_items};
ghost use Rattle.term_eval.specs.Asked.{node_asks};
ghost use Rattle.term_eval.specs.declared.code.Step.{Step};
ghost use Rattle.watch_lists.specs.Naming.{operand_count, operand_number};
ghost use Rattle.condition_codes.specs.Chains.{AsksWithin, wanted, AreChains, AreAskers, AddsAskers};

use crate::askers::Asker;
use std::alloc::{AllocError, Global};
use std::boxed::BoxedSlice;
use term_eval::{Node, Step};
use watch_lists::{Sizes, key_place};

// The number of the operand that a node asks for.
fn number_asked(node: Node, sizes: Sizes) -> Option<usize>
    requires few { sizes.params + sizes.alerts < 2 ^ 32 }
    requires own { AsksWithin sizes (node_asks node) }
    ensures number { result ≡ option_map (operand_number sizes) (node_asks node) }
    ensures bound { (o : ℕ) → result ≡ Some o → o < operand_count sizes }
{
    match node {
        Node::Disc(param) => Some(param as usize),
        Node::Valid(param) => Some(param as usize),
        Node::Cmp(param, _, _) => Some(param as usize),
        Node::InPhase(_) => Some(sizes.params + sizes.alerts),
        Node::Alert(alert) => Some(sizes.params + alert as usize),
        Node::Press(key) => Some(sizes.params + sizes.alerts + 1 + key_place(key)),
        Node::Fwc(computer) => Some(sizes.params + sizes.alerts + 25 + usize::from(computer)),
        _ => None,
    }
}

/// Per operand the first node that asks for it, and per node the next that asks for the same; where there is none, the
/// number of nodes. Its cost is two visits of each step and one of each operand.
pub fn chains_of(
    alloc: Global,
    steps: &[Step],
    sizes: Sizes,
) -> Result<(Vec<usize>, Vec<usize>), AllocError>
    requires few { sizes.params + sizes.alerts < 2 ^ 32 }
    requires own { All (λ (s : Step). AsksWithin sizes (node_asks s.node)) steps.now }
    ensures operands { IfOk result (λ r. length r.0.items ≡ operand_count sizes) }
    ensures nodes { IfOk result (λ r. length r.1.items ≡ length steps.now) }
    ensures chains { IfOk result (λ r. AreChains (map (wanted sizes) steps.now) 0
        r.0.items r.1.items) }
    ensures forward { IfOk result (λ r. (m : ℕ) → m < length r.1.items
        → m < slice_index r.1.items m) }
{
    let none = steps.len();
    let mut firsts = vec![in alloc; none; sizes.params + sizes.alerts + 28]?;
    let mut nexts = vec![in alloc; none; none]?;
    let mut node = none;
    while node > 0 {
        node -= 1;
        if let Some(operand) = number_asked(steps[node].node, sizes) {
            nexts[node] = firsts[operand];
            firsts[operand] = node;
        }
    }
    Ok((firsts, nexts))
}

// The nodes of one chain.
fn add_chain(
    askers: &mut Vec<Asker>,
    first: usize,
    nexts: &[usize],
    nodes: &[Asker],
) -> Result<(), AllocError>
    requires forward { (m : ℕ) → m < length nexts.now → m < slice_index nexts.now m }
    requires nodes { length nodes.now ≡ length nexts.now }
    ensures { OnOk result (AddsAskers first nexts.now nodes.now askers.old.items askers.new.items) }
{
    let mut node = first;
    while node < nexts.len() {
        askers.push(nodes[node])?;
        node = nexts[node];
    }
    Ok(())
}

/// The chains one behind another, and where each starts. Its cost is one visit of each node that asks for an operand, and
/// one of each operand.
pub fn list_chains(
    alloc: Global,
    firsts: &[usize],
    nexts: &[usize],
    nodes: &[Asker],
) -> Result<(BoxedSlice<usize>, BoxedSlice<Asker>), AllocError>
    requires forward { (m : ℕ) → m < length nexts.now → m < slice_index nexts.now m }
    requires nodes { length nodes.now ≡ length nexts.now }
    ensures { IfOk result (λ r. (ws : List (Option ℕ)) → length ws ≡ length nexts.now
        → AreChains ws 0 firsts.now nexts.now
        → AreAskers ws nodes.now (length firsts.now) (boxed_slice_items r.0)
        (boxed_slice_items r.1)) }
{
    let mut starts = Vec::with_capacity(alloc, firsts.len() + 1)?;
    let mut askers = Vec::with_capacity(alloc, nexts.len())?;
    starts.push(0)?;
    for first in firsts {
        add_chain(&mut askers, *first, nexts, nodes)?;
        starts.push(askers.len())?;
    }
    Ok((starts.into_boxed_slice(), askers.into_boxed_slice()))
}
