// The nodes that ask for an operand, listed for each operand of a book.
ghost use Rattle.std.specs.Prelude.{◌≡◌, ℕ, suc, ◌-◌, ◌^◌, ◌<◌, ◌≤◌, length, slice_get, slice_index, Some, IfOk};
ghost use Rattle.ecam_spec.specs.Book as plain;
ghost use Rattle.ecam_spec.specs.TermSize.{Placed};
ghost use Rattle.ecam_spec.specs.declared.limits.TheConstants.{TERM_NODES};
ghost use Rattle.book_model.specs.Sealed.{the_book};
ghost use Rattle.book_model.specs.Conditions.{places};
ghost use Rattle.term_eval.specs.Asked.{Asks};
ghost use Rattle.term_eval.specs.Woken.{Operand};
ghost use Rattle.watch_lists.specs.Naming.{operand_count, operand_number};
ghost use Rattle.condition_codes.specs.Chains.{AreNodes};
ghost use Rattle.condition_codes.specs.IsAskers.{IsAskers, IsAmong, IsAsking, sizes_in};
ghost use Rattle.condition_codes.specs.IsCodes.{IsCodes, node_starts};

use crate::chains::{chains_of, list_chains};
use crate::codes::CodeTable;
use crate::starts::Starts;
use book_model::Book;
use std::alloc::{AllocError, Global};
use std::boxed::BoxedSlice;
use std::marker::Model;
use std::rc::Rc;
use term_eval::{Link, Step, Test, code_asks_for_what_the_condition_asks_for, test_of};
use watch_lists::Sizes;

/// A node of a condition which asks for an operand, with what is read of it where the operand is another, in twenty
/// bytes.
#[derive(Clone, Copy, Debug, PartialEq, Eq)]
pub struct Asker {
    /// The condition's number in stepping order.
    pub term: u32,
    /// The number of the condition's first node among the nodes of all conditions.
    pub first: u32,
    /// The node's link.
    pub link: Link,
    /// The number of the node within the condition's code.
    pub node: u8,
    /// How many nodes the condition has.
    pub size: u8,
    /// How the node goes by what the operand reads.
    pub test: Test,
}

/// Per operand of a book the nodes that ask for it, in one flat list, which its owners share. Nothing changes it, and it
/// can't grow.
#[derive(Drop)]
pub struct Askers {
    table: Rc<AskerTable>,
}

impl Model for Askers {
    ghost use Rattle.condition_codes.specs.declared.askers.AskerTable.{AskerTable};

    ghost Value = { AskerTable };

    ghost view = { λ a. a.table.value };
}

// What the owners share.
#[derive(Drop)]
struct AskerTable {
    starts: BoxedSlice<usize>,
    askers: BoxedSlice<Asker>,
}

impl Askers {
    /// The askers of a book, by its codes. Its cost is a few visits of each step and of each operand. An error is want of
    /// memory.
    pub fn new(alloc: Global, book: &Book, codes: &CodeTable) -> Result<Askers, AllocError>
        requires { IsCodes (the_book book.now) codes.now }
        ensures { IfOk result (IsAskers (the_book book.now)) }
    {
        book.sealed();
        code_asks_for_what_the_condition_asks_for();
        let sizes = Sizes {
            params: book.params().len(),
            alerts: book.alerts().len(),
        };
        let (firsts, nexts) = chains_of(alloc, codes.steps(), sizes)?;
        let nodes = nodes_of(alloc, codes.starts(), codes.steps(), codes.links())?;
        let (starts, askers) = list_chains(alloc, &firsts, &nexts, &nodes)?;
        let table = AskerTable { starts, askers };
        Ok(Askers {
            table: Rc::new(alloc, table)?,
        })
    }

    /// The same askers, for one owner more. It takes no memory, and costs a look and a write. An error is want of memory:
    /// there are as many owners as can be counted.
    pub fn share(&self) -> Result<Askers, AllocError>
        ensures { IfOk result (λ a. a ≡ self.now) }
    {
        Ok(Askers {
            table: self.table.clone()?,
        })
    }

    /// The nodes that ask for an operand. A look-up costs three reads.
    pub fn asking(&self, operand: usize) -> &[Asker]
        requires { (b : plain.Book) × IsAskers b self.now × (operand < operand_count (sizes_in b)) }
        ensures each { (b : plain.Book) → IsAskers b self.now
            → operand < operand_count (sizes_in b)
            → (j i : ℕ) (p : Placed) (x : Operand) → slice_get (places b) j ≡ Some p
            → Asks p.tree i x → operand_number (sizes_in b) x ≡ operand
            → IsAmong result.now j i }
        ensures only { (b : plain.Book) → IsAskers b self.now
            → operand < operand_count (sizes_in b)
            → (k : ℕ) (a : Asker) → slice_get result.now k ≡ Some a
            → IsAsking b operand a }
    {
        let table = self.table.as_ref();
        &table.askers[table.starts[operand]..table.starts[operand + 1]]
    }
}

// All nodes, one condition behind another, by where the code of each starts.
fn nodes_of(
    alloc: Global,
    starts: &[Starts],
    steps: &[Step],
    links: &[Link],
) -> Result<Vec<Asker>, AllocError>
    requires first { slice_index (node_starts starts.now) 0 ≡ 0 }
    requires some { 1 ≤ length starts.now }
    requires ordered { (j : ℕ) → suc j < length starts.now
        → slice_index (node_starts starts.now) j ≤ slice_index (node_starts starts.now) (suc j) }
    requires small { (j : ℕ) → suc j < length starts.now
        → slice_index (node_starts starts.now) (suc j) - slice_index (node_starts starts.now) j
        ≤ TERM_NODES }
    requires few { length starts.now ≤ 2 ^ 26 }
    requires steps { slice_index (node_starts starts.now) (length starts.now - 1)
        ≡ length steps.now }
    requires links { length links.now ≡ length steps.now }
    ensures nodes { IfOk result (λ r. AreNodes (node_starts starts.now) steps.now links.now
        r.items) }
    ensures count { IfOk result (λ r. length r.items ≡ length steps.now) }
{
    let mut nodes = Vec::with_capacity(alloc, steps.len())?;
    for term in 0..starts.len() - 1 {
        let first = starts[term].node;
        let size = starts[term + 1].node - first;
        for node in 0..size {
            let place = (first + node) as usize;
            nodes.push(Asker {
                term: term as u32,
                first,
                link: links[place],
                node: node as u8,
                size: size as u8,
                test: test_of(&steps[place].node),
            })?;
        }
    }
    Ok(nodes)
}
