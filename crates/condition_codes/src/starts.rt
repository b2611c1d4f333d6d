// Where what belongs to a condition starts among that of all.
ghost use Rattle.std.specs.Prelude.{◌≡◌, ℕ, suc, ◌<◌, ◌^◌, length, slice_index, IfOk};
ghost use Rattle.condition_codes.specs.IsCodes.{node_starts, owner_starts, slot_starts};

use std::alloc::{AllocError, Global};

/// Where what belongs to a condition starts among that of all, one behind another, in twelve bytes.
#[derive(Clone, Copy, Debug, PartialEq, Eq)]
pub struct Starts {
    /// Its first node, and with it its code and its links.
    pub node: u32,
    /// Its first slot.
    pub slot: u32,
    /// Its first temporal node among the temporal ones.
    pub owner: u32,
}

/// Those of some conditions by where the nodes of each start, its slots, and its temporal nodes; and one more, where the last
/// ends, which tells of no slot. Its cost is three reads and a write a condition. An error is want of memory.
pub fn starts_of(
    alloc: Global,
    nodes: &[usize],
    slots: &[usize],
    owners: &[usize],
) -> Result<Vec<Starts>, AllocError>
    requires nodes { length nodes.now ≡ suc (length slots.now) }
    requires owners { length owners.now ≡ suc (length slots.now) }
    requires few_nodes { (j : ℕ) → j < length nodes.now → slice_index nodes.now j < 2 ^ 32 }
    requires few_slots { (j : ℕ) → j < length slots.now → slice_index slots.now j < 2 ^ 32 }
    requires few_owners { (j : ℕ) → j < length owners.now → slice_index owners.now j < 2 ^ 32 }
    ensures nodes { IfOk result (λ r. node_starts r.items ≡ nodes.now) }
    ensures owners { IfOk result (λ r. owner_starts r.items ≡ owners.now) }
    ensures slots { IfOk result (λ r. (j : ℕ) → j < length slots.now
        → slice_index (slot_starts r.items) j ≡ slice_index slots.now j) }
{
    let mut starts = Vec::with_capacity(alloc, nodes.len())?;
    for number in 0..slots.len() {
        starts.push(Starts {
            node: nodes[number] as u32,
            slot: slots[number] as u32,
            owner: owners[number] as u32,
        })?;
    }
    starts.push(Starts {
        node: nodes[slots.len()] as u32,
        slot: 0,
        owner: owners[slots.len()] as u32,
    })?;
    Ok(starts)
}
