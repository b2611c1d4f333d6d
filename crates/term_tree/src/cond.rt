// The tree of a condition, and its measures.
ghost use Rattle.std.specs.Prelude.{◌≡◌, min, IfOk};
ghost use Rattle.ecam_spec.specs.TermSize.{nodes, nodes_of, depth, depth_of, slots, slots_of};
ghost use Rattle.term_tree.specs.View.{tree_of, trees_of};

use ecam_kinds::{Key, PhaseSet};
use ecam_spec::Op;
use std::alloc::{AllocError, Global};

/// A condition on what a flight warning computer knows in each moment, in past-time logic. Parameters and
/// alerts go by their places in the book.
#[derive(Debug, PartialEq, Eq, Drop)]
pub enum Cond {
    /// Always, or never.
    Const(bool),
    /// The discrete has the value 1.
    Disc(u32),
    /// The parameter has a value.
    Valid(u32),
    /// The parameter has a value, which stands so to this number.
    Cmp(u32, Op, i64),
    /// The flight phase is one of these.
    InPhase(PhaseSet),
    /// The alert is active.
    Alert(u32),
    /// The key is pressed.
    Press(Key),
    /// Flight warning computer 1 or 2 is up.
    Fwc(u8),
    /// The condition doesn't hold.
    Not(Box<Cond>),
    /// Each of these holds.
    All(Vec<Cond>),
    /// One or more of these hold.
    Any(Vec<Cond>),
    /// At least so many of these hold.
    AtLeast(u32, Vec<Cond>),
    /// Confirmed: it holds now and in each of so many moments before, which are all there.
    Conf(Box<Cond>, u32),
    /// It holds now or held in one of so many moments before.
    Hold(Box<Cond>, u32),
    /// It holds now, and didn't in the moment before.
    Rise(Box<Cond>),
    /// The first has held, and the second hasn't since, nor with it.
    Latch(Box<Cond>, Box<Cond>),
}

impl Cond {
    /// How many nodes the tree has, ending at `usize::MAX`.
    #[cycle(size)]
    #[tactic(auto, unfolding(ecam_spec::specs::TermSize::nodes))]
    pub fn size(&self) -> usize
        ensures { result ≡ min (nodes (tree_of self.now)) usize.MAX }
    {
        match self {
            Cond::Const(_)
            | Cond::Disc(_)
            | Cond::Valid(_)
            | Cond::Cmp(_, _, _)
            | Cond::InPhase(_)
            | Cond::Alert(_)
            | Cond::Press(_)
            | Cond::Fwc(_) => 1,
            Cond::Not(of) | Cond::Conf(of, _) | Cond::Hold(of, _) | Cond::Rise(of) => {
                of.size().saturating_add(1)
            }
            Cond::All(members) | Cond::Any(members) | Cond::AtLeast(_, members) => {
                sizes(members).saturating_add(1)
            }
            Cond::Latch(set, reset) => { set.size().saturating_add(reset.size()).saturating_add(1) }
        }
    }

    /// How many nodes stand on the longest way down, ending at `usize::MAX`. An atom has 1.
    #[cycle(depth)]
    #[tactic(auto, unfolding(ecam_spec::specs::TermSize::depth))]
    pub fn depth(&self) -> usize
        ensures { result ≡ min (depth (tree_of self.now)) usize.MAX }
    {
        match self {
            Cond::Const(_)
            | Cond::Disc(_)
            | Cond::Valid(_)
            | Cond::Cmp(_, _, _)
            | Cond::InPhase(_)
            | Cond::Alert(_)
            | Cond::Press(_)
            | Cond::Fwc(_) => 1,
            Cond::Not(of) | Cond::Conf(of, _) | Cond::Hold(of, _) | Cond::Rise(of) => {
                of.depth().saturating_add(1)
            }
            Cond::All(members) | Cond::Any(members) | Cond::AtLeast(_, members) => {
                greatest_depth(members).saturating_add(1)
            }
            Cond::Latch(set, reset) => set.depth().max(reset.depth()).saturating_add(1),
        }
    }

    /// How many slots the tree has, ending at `usize::MAX`: one for each node that remembers something from
    /// moment to moment, which are those of `Conf`, `Hold`, `Rise` and `Latch`. A node's slot comes before
    /// its children's, and children come in order.
    #[cycle(slots)]
    #[tactic(auto, unfolding(ecam_spec::specs::TermSize::slots))]
    pub fn slots(&self) -> usize
        ensures { result ≡ min (slots (tree_of self.now)) usize.MAX }
    {
        match self {
            Cond::Const(_)
            | Cond::Disc(_)
            | Cond::Valid(_)
            | Cond::Cmp(_, _, _)
            | Cond::InPhase(_)
            | Cond::Alert(_)
            | Cond::Press(_)
            | Cond::Fwc(_) => 0,
            Cond::Not(of) => of.slots(),
            Cond::Conf(of, _) | Cond::Hold(of, _) | Cond::Rise(of) => of.slots().saturating_add(1),
            Cond::All(members) | Cond::Any(members) | Cond::AtLeast(_, members) => {
                slots_of_all(members)
            }
            Cond::Latch(set, reset) => {
                set.slots().saturating_add(reset.slots()).saturating_add(1)
            }
        }
    }

    /// An equal tree. It costs as much as the tree is large. An error is want of memory.
    #[cycle(copy)]
    pub fn copy(&self, alloc: Global) -> Result<Cond, AllocError>
        ensures { IfOk result (λ c. tree_of c ≡ tree_of self.now) }
    {
        match self {
            Cond::Const(value) => Ok(Cond::Const(*value)),
            Cond::Disc(param) => Ok(Cond::Disc(*param)),
            Cond::Valid(param) => Ok(Cond::Valid(*param)),
            Cond::Cmp(param, op, number) => Ok(Cond::Cmp(*param, *op, *number)),
            Cond::InPhase(phases) => Ok(Cond::InPhase(*phases)),
            Cond::Alert(alert) => Ok(Cond::Alert(*alert)),
            Cond::Press(key) => Ok(Cond::Press(*key)),
            Cond::Fwc(number) => Ok(Cond::Fwc(*number)),
            Cond::Not(of) => Ok(Cond::Not(boxed_copy(alloc, of)?)),
            Cond::All(members) => Ok(Cond::All(copies(alloc, members)?)),
            Cond::Any(members) => Ok(Cond::Any(copies(alloc, members)?)),
            Cond::AtLeast(least, members) => Ok(Cond::AtLeast(*least, copies(alloc, members)?)),
            Cond::Conf(of, moments) => Ok(Cond::Conf(boxed_copy(alloc, of)?, *moments)),
            Cond::Hold(of, moments) => Ok(Cond::Hold(boxed_copy(alloc, of)?, *moments)),
            Cond::Rise(of) => Ok(Cond::Rise(boxed_copy(alloc, of)?)),
            Cond::Latch(set, reset) => {
                let set = boxed_copy(alloc, set)?;
                Ok(Cond::Latch(set, boxed_copy(alloc, reset)?))
            }
        }
    }
}

#[cycle(size)]
fn sizes(members: &[Cond]) -> usize
    ensures { result ≡ min (nodes_of (trees_of members.now)) usize.MAX }
{
    let mut sum = 0usize;
    for member in members {
        sum = sum.saturating_add(member.size());
    }
    sum
}

#[cycle(depth)]
fn greatest_depth(members: &[Cond]) -> usize
    ensures { result ≡ min (depth_of (trees_of members.now)) usize.MAX }
{
    let mut greatest = 0usize;
    for member in members {
        greatest = greatest.max(member.depth());
    }
    greatest
}

#[cycle(slots)]
fn slots_of_all(members: &[Cond]) -> usize
    ensures { result ≡ min (slots_of (trees_of members.now)) usize.MAX }
{
    let mut sum = 0usize;
    for member in members {
        sum = sum.saturating_add(member.slots());
    }
    sum
}

#[cycle(copy)]
fn boxed_copy(alloc: Global, cond: &Cond) -> Result<Box<Cond>, AllocError>
    ensures { IfOk result (λ b. tree_of b.value ≡ tree_of cond.now) }
{
    let copy = cond.copy(alloc)?;
    Ok(Box::new(alloc, copy)?)
}

#[cycle(copy)]
fn copies(alloc: Global, members: &[Cond]) -> Result<Vec<Cond>, AllocError>
    ensures { IfOk result (λ v. trees_of v.items ≡ trees_of members.now) }
{
    let mut copies = Vec::new(alloc);
    for member in members {
        let copy = member.copy(alloc)?;
        copies.push(copy)?;
    }
    Ok(copies)
}
