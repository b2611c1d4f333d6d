// The memory of all conditions, and the calls that step one.
ghost use Rattle.std.specs.Prelude.{◌≡◌, ◌≢◌, ◌⊎◌, ℕ, suc, ◌+◌, ◌-◌, ◌^◌, ◌<◌, ◌≤◌, Bool, true, false, min, length, slice_get, slice_index, IfOk};
ghost use Rattle.ecam_spec.specs.Book.{Tree};
ghost use Rattle.ecam_spec.specs.Term.{World, holds};
ghost use Rattle.ecam_spec.specs.TermSize.{slots, nodes};
ghost use Rattle.ecam_spec.specs.TermNames.{IsWithin};
ghost use Rattle.term_tree.specs.View.{tree_of};
ghost use Rattle.term_eval.specs.CellWords.{cell_at};
ghost use Rattle.term_eval.specs.CellState.{Stand, StandForNone};
ghost use Rattle.term_eval.specs.Due.{staying, IsDue};
ghost use Rattle.term_eval.specs.Shown.{Shows};
ghost use Rattle.term_eval.specs.Code.{code, IsReady};
ghost use Rattle.term_eval.specs.Climb.{step_at};
ghost use Rattle.term_eval.specs.Links.{link_from};
ghost use Rattle.term_eval.specs.Linked.{AreLinked, AreOwned, CanRun};
ghost use Rattle.term_eval.specs.NodeState.{state_at, also, NodesWait, NodesStand, Within, first_wake};
ghost use Rattle.term_eval.specs.Asked.{heard, Asks, AreAtoms};
ghost use Rattle.term_eval.specs.Reading.{Reads, atom_says};
ghost use Rattle.term_eval.specs.declared.reading.Reading.{Reading};
ghost use Rattle.term_eval.specs.Woken.{moved, Operand};

use crate::begin::ask_all;
use crate::climb::climb;
use crate::code::Step;
use crate::env::Env;
use crate::link::Link;
use crate::nodes::{NodeState, unasked};
use crate::owner::Owner;
use crate::run::pass;
use crate::slot::{Slot, empty, forget, own};
use crate::turn::Turn;
use crate::walk::step;
use std::alloc::{AllocError, Global};
use std::boxed::BoxedSlice;
use std::marker::Model;
use term_tree::Cond;

/// What conditions remember from moment to moment: a state of two bytes for each node, in the order of their codes, and 32
/// bytes for each slot, whatever the bound of its node and the length of the history. It can't grow after it was made.
#[derive(Drop)]
pub struct Cells {
    pub(crate) states: BoxedSlice<NodeState>,
    pub(crate) slots: BoxedSlice<Slot>,
    visits: u64,
}

impl Model for Cells {
    ghost use Rattle.std.specs.Box.{boxed_slice_items};
    ghost use Rattle.term_eval.specs.Memory.{Memory};
    ghost use Rattle.term_eval.specs.Slots.{wakes_of, cells_of, owners_of};

    ghost Value = { Memory };

    ghost view = { λ c. record {
      slots = cells_of (boxed_slice_items c.slots);
      visits = c.visits;
      nodes = record {
        states = boxed_slice_items c.states;
        wakes = wakes_of (boxed_slice_items c.slots);
      };
      owners = owners_of (boxed_slice_items c.slots);
    } };
}

impl Cells {
    /// Cells for so many slots, which stand for no moment, and for no node that has a state: such conditions are stepped by
    /// their trees alone. An error is want of memory.
    pub fn new(alloc: Global, slots: usize) -> Result<Cells, AllocError>
        ensures len { IfOk result (λ cells. length cells.slots ≡ slots) }
        ensures states { IfOk result (λ cells. length cells.nodes.states ≡ 0) }
        ensures stands { IfOk result (λ cells. StandForNone cells.slots) }
        ensures visits { IfOk result (λ cells. cells.visits ≡ 0) }
    {
        Cells::with_nodes(alloc, 0, slots)
    }

    /// Cells for so many nodes and slots. An error is want of memory.
    pub fn with_nodes(alloc: Global, nodes: usize, slots: usize) -> Result<Cells, AllocError>
        ensures len { IfOk result (λ cells. length cells.slots ≡ slots) }
        ensures states { IfOk result (λ cells. length cells.nodes.states ≡ nodes) }
        ensures wakes { IfOk result (λ cells. length cells.nodes.wakes ≡ slots) }
        ensures owners { IfOk result (λ cells. length cells.owners ≡ slots) }
        ensures stands { IfOk result (λ cells. StandForNone cells.slots) }
        ensures visits { IfOk result (λ cells. cells.visits ≡ 0) }
    {
        Ok(Cells {
            states: vec![in alloc; unasked(); nodes]?.into_boxed_slice(),
            slots: vec![in alloc; empty(); slots]?.into_boxed_slice(),
            visits: 0,
        })
    }

    /// The slots from `at` on are of these temporal nodes from now on.
    pub fn own(&mut self, at: usize, owners: &[Owner])
        requires { at + length owners.now ≤ length self.old.slots }
        ensures owned { AreOwned self.new.owners at owners.now }
        ensures before { (i : ℕ) → i < at
            → slice_get self.new.owners i ≡ slice_get self.old.owners i }
        ensures behind { (i : ℕ) → at + length owners.now ≤ i
            → slice_get self.new.owners i ≡ slice_get self.old.owners i }
        ensures len { length self.new.owners ≡ length self.old.owners }
        ensures slots { self.new.slots ≡ self.old.slots }
        ensures nodes { self.new.nodes ≡ self.old.nodes }
        ensures visits { self.new.visits ≡ self.old.visits }
    {
        own(&mut self.slots, at, owners);
    }

    /// Forgets all moments. Its cost is that of one write a slot.
    pub fn clear(&mut self)
        ensures len { length self.new.slots ≡ length self.old.slots }
        ensures stands { StandForNone self.new.slots }
        ensures nodes { self.new.nodes ≡ self.old.nodes }
        ensures owners { self.new.owners ≡ self.old.owners }
        ensures visits { self.new.visits ≡ self.old.visits }
    {
        forget(&mut self.slots);
    }

    /// Takes over what the other cells hold, of which there are as many, but for the count of visits.
    pub fn copy_from(&mut self, other: &Cells)
        requires slots { length self.old.slots ≡ length other.now.slots }
        requires nodes { length self.old.nodes.states ≡ length other.now.nodes.states }
        ensures slots { self.new.slots ≡ other.now.slots }
        ensures nodes { self.new.nodes ≡ other.now.nodes }
        ensures owners { self.new.owners ≡ other.now.owners }
        ensures visits { self.new.visits ≡ self.old.visits }
    {
        self.states.copy_from_slice(&other.states);
        self.slots.copy_from_slice(&other.slots);
    }

    /// How many visits of nodes were counted, up to 2^64 - 1.
    pub fn visits(&self) -> u64
        ensures { result ≡ self.now.visits }
    {
        self.visits
    }

    /// Steps a condition, whose slots start at `at`, by the moment of number `now`, and tells whether it holds in that
    /// moment and when it turns by itself. Every node is stepped, whatever the others answer, and no slot but the
    /// condition's own changes. The cost is one visit of each node, whatever the bounds of its temporal nodes and
    /// the length of the history.
    pub fn refresh(&mut self, cond: &Cond, at: usize, env: &Env, now: u64) -> Turn
        requires range { at + slots (tree_of cond.now) ≤ length self.old.slots }
        requires names { IsWithin (length env.now.values.now) (length env.now.active.now)
            (tree_of cond.now) }
        requires first { 1 ≤ env.now.phase.number }
        requires last { env.now.phase.number ≤ 10 }
        requires now { now < 2 ^ 63 }
        ensures truth { (w : World) → Shows env.now w now
            → Stand w now (tree_of cond.now) at self.old.slots
            → result.holds ≡ holds w (tree_of cond.now) now }
        ensures due { (w : World) → Shows env.now w now
            → Stand w now (tree_of cond.now) at self.old.slots
            → IsDue (staying w now) (tree_of cond.now) now result.due }
        ensures stands { (w : World) → Shows env.now w now
            → Stand w now (tree_of cond.now) at self.old.slots
            → Stand w (suc now) (tree_of cond.now) at self.new.slots }
        ensures before { (i : ℕ) → i < at → cell_at self.new.slots i ≡ cell_at self.old.slots i }
        ensures behind { (i : ℕ) → at + slots (tree_of cond.now) ≤ i
            → cell_at self.new.slots i ≡ cell_at self.old.slots i }
        ensures len { length self.new.slots ≡ length self.old.slots }
        ensures visits { self.new.visits ≡ min (self.old.visits + nodes (tree_of cond.now))
            (2 ^ 64 - 1) }
        ensures nodes { self.new.nodes ≡ self.old.nodes }
        ensures owners { self.new.owners ≡ self.old.owners }
    {
        let mut next = at;
        step(cond, &mut self.slots, &mut next, &mut self.visits, env, now)
    }

    /// Steps a condition by moment 0: by its code, as `refresh` steps it by its tree, with what is kept of its nodes, which
    /// start at `first`. The cost is one visit of each node.
    pub fn begin(&mut self, steps: &[Step], first: usize, env: &Env<'_>) -> Turn
        requires ready { (c : Tree) × (at : ℕ) × IsReady steps.now self.old c at first
            × IsWithin (length env.now.values.now) (length env.now.active.now) c }
        requires phase { 1 ≤ env.now.phase.number }
        requires last { env.now.phase.number ≤ 10 }
        ensures truth { (c : Tree) (at : ℕ) → IsReady steps.now self.old c at first
            → (w : World) → Shows env.now w 0 → Stand w 0 c at self.old.slots
            → result.holds ≡ holds w c 0 }
        ensures due { (c : Tree) (at : ℕ) → IsReady steps.now self.old c at first
            → (w : World) → Shows env.now w 0 → Stand w 0 c at self.old.slots
            → IsDue (staying w 0) c 0 result.due }
        ensures wake { (c : Tree) (at : ℕ) → IsReady steps.now self.old c at first
            → result.due ≡ first_wake self.new.nodes.wakes at (slots c) }
        ensures stands { (c : Tree) (at : ℕ) → IsReady steps.now self.old c at first
            → (w : World) → Shows env.now w 0 → Stand w 0 c at self.old.slots
            → Stand w 1 c at self.new.slots }
        ensures nodes { (c : Tree) (at : ℕ) → IsReady steps.now self.old c at first
            → (w : World) → Shows env.now w 0 → Stand w 0 c at self.old.slots
            → NodesStand w 0 c at first self.new.nodes }
        ensures within { (c : Tree) (at : ℕ) → IsReady steps.now self.old c at first
            → Within first (first + nodes c) at (at + slots c) self.old.nodes self.new.nodes }
        ensures before { (c : Tree) (at : ℕ) → IsReady steps.now self.old c at first
            → (i : ℕ) → i < at → cell_at self.new.slots i ≡ cell_at self.old.slots i }
        ensures behind { (c : Tree) (at : ℕ) → IsReady steps.now self.old c at first
            → (i : ℕ) → at + slots c ≤ i → cell_at self.new.slots i ≡ cell_at self.old.slots i }
        ensures len { length self.new.slots ≡ length self.old.slots }
        ensures owners { self.new.owners ≡ self.old.owners }
        ensures visits { self.new.visits ≡ self.old.visits }
    {
        let due = ask_all(steps, first, &mut self.states, &mut self.slots, env);
        Turn {
            holds: self.states[first].told,
            due,
        }
    }

    /// Steps a condition, whose slots start at `at`, and which has these links and so many temporal nodes, by a moment after
    /// the first, once each of its atoms has been turned whose operand moves in it. The slots are of its temporal nodes. The
    /// cost is a look at each temporal node, and one at each node that turns and at those right above.
    pub fn run(&mut self, links: &[Link], first: usize, count: usize, at: usize, now: u64) -> Turn
        requires ready { (c : Tree)
            × CanRun links.now count self.old c at first }
        requires now { now < 2 ^ 63 }
        ensures truth { (c : Tree)
            → CanRun links.now count self.old c at first
            → (w : World) (h : ℕ) → now ≡ suc h
            → Stand w now c at self.old.slots
            → NodesWait w h (heard (moved w now) c) c at first self.old.nodes
            → result.holds ≡ holds w c now }
        ensures due { (c : Tree)
            → CanRun links.now count self.old c at first
            → (w : World) (h : ℕ) → now ≡ suc h
            → Stand w now c at self.old.slots
            → NodesWait w h (heard (moved w now) c) c at first self.old.nodes
            → IsDue (staying w now) c now result.due }
        ensures wake { (c : Tree)
            → CanRun links.now count self.old c at first
            → (w : World) (h : ℕ) → now ≡ suc h
            → Stand w now c at self.old.slots
            → NodesWait w h (heard (moved w now) c) c at first self.old.nodes
            → result.due ≡ first_wake self.new.nodes.wakes at (slots c) }
        ensures stands { (c : Tree)
            → CanRun links.now count self.old c at first
            → (w : World) (h : ℕ) → now ≡ suc h
            → Stand w now c at self.old.slots
            → NodesWait w h (heard (moved w now) c) c at first self.old.nodes
            → Stand w (suc now) c at self.new.slots }
        ensures nodes { (c : Tree)
            → CanRun links.now count self.old c at first
            → (w : World) (h : ℕ) → now ≡ suc h
            → Stand w now c at self.old.slots
            → NodesWait w h (heard (moved w now) c) c at first self.old.nodes
            → NodesStand w now c at first self.new.nodes }
        ensures within { (c : Tree)
            → CanRun links.now count self.old c at first
            → Within first (first + nodes c) at (at + slots c) self.old.nodes self.new.nodes }
        ensures before { (c : Tree)
            → CanRun links.now count self.old c at first
            → (i : ℕ) → i < at → cell_at self.new.slots i ≡ cell_at self.old.slots i }
        ensures behind { (c : Tree)
            → CanRun links.now count self.old c at first
            → (i : ℕ) → at + slots c ≤ i → cell_at self.new.slots i ≡ cell_at self.old.slots i }
        ensures len { length self.new.slots ≡ length self.old.slots }
        ensures owners { self.new.owners ≡ self.old.owners }
        ensures visits { self.new.visits ≡ self.old.visits }
    {
        let due = pass(
            links,
            first,
            count,
            at,
            &mut self.states,
            &mut self.slots,
            now,
        );
        Turn {
            holds: self.states[first].told,
            due,
        }
    }

    /// Node `node` of a condition, whose nodes start at `first` and have these links, is an atom, which has this link and
    /// says so in a moment: it is told, and with it each node right above one that turned, up to a temporal one, which is
    /// then to be looked at. `false` says that no temporal node is to be looked at that wasn't, and that the condition's
    /// first node tells what it told; `true` that a temporal node is to be looked at, or that the first node turned. Its
    /// cost is a look at each of these nodes.
    #[inline(always)]
    pub fn turn(
        &mut self,
        link: Link,
        links: &[Link],
        first: usize,
        node: usize,
        holds: bool,
    ) -> bool
        requires { (c : Tree) × (at : ℕ) × AreLinked links.now self.old.nodes c at first
            × (node < nodes c) × (link ≡ link_from (code at 0 c) node) }
        ensures waits { (c : Tree) (at : ℕ) → AreLinked links.now self.old.nodes c at first
            → (w : World) (h : ℕ) (updated : ℕ → Bool) (x : Operand) (reading : Reading)
            → AreAtoms c updated → Asks c node x → Reads w (suc h) x reading
            → holds ≡ atom_says (step_at (code at 0 c) node).node reading
            → NodesWait w h updated c at first self.old.nodes
            → NodesWait w h (also node updated) c at first self.new.nodes }
        ensures within { (c : Tree) (at : ℕ) → AreLinked links.now self.old.nodes c at first
            → Within first (first + nodes c) at (at + slots c) self.old.nodes self.new.nodes }
        ensures wakes { result ≡ false → self.new.nodes.wakes ≡ self.old.nodes.wakes }
        ensures told { result ≡ false
            → (state_at self.new.nodes.states first).told
            ≡ (state_at self.old.nodes.states first).told }
        ensures stirs { (c : Tree) (at : ℕ) → AreLinked links.now self.old.nodes c at first
            → result ≡ true
            → ((state_at self.new.nodes.states first).told
            ≢ (state_at self.old.nodes.states first).told)
            ⊎ ((s : ℕ) × (at ≤ s) × (s < at + slots c)
            × (slice_index self.new.nodes.wakes s ≡ 0)) }
        ensures slots { self.new.slots ≡ self.old.slots }
        ensures owners { self.new.owners ≡ self.old.owners }
        ensures visits { self.new.visits ≡ self.old.visits }
    {
        climb(
            link,
            &mut self.states,
            &mut self.slots,
            links,
            first,
            node,
            holds,
        )
    }

    /// Counts so many visits of nodes.
    pub fn count(&mut self, visits: usize)
        ensures slots { self.new.slots ≡ self.old.slots }
        ensures nodes { self.new.nodes ≡ self.old.nodes }
        ensures owners { self.new.owners ≡ self.old.owners }
        ensures visits { self.new.visits ≡ min (self.old.visits + visits) (2 ^ 64 - 1) }
    {
        self.visits = self.visits.saturating_add(visits as u64);
    }
}
