// A condition that was read, and what is to be judged of it.
ghost use Rattle.std.specs.Prelude.{◌≡◌, ℕ, ◌+◌, ◌≤◌, min, None, true, false, Option, IfOk, bit_or, if◌then◌else◌};
ghost use Rattle.ecam_spec.specs.Book.{Text, Tree, constant, in_phase, negation, risen, confirmed, held, latched};
ghost use Rattle.ecam_spec.specs.TermSize.{nodes, depth};
ghost use Rattle.ecam_spec.specs.TermText.{TermNames, Flaw as Wrong, earliest, moments_flaw, phase_flaw, judged_tree, amount};
ghost use Rattle.ecam_spec.specs.TermNumber.{one_phase};
ghost use Rattle.term_tree.specs.View.{tree_of};
ghost use Rattle.term_text.specs.Answer.{Tells};
ghost use Rattle.term_text.specs.Flaws.{flaw_in, earlier_of};
ghost use Rattle.term_text.specs.Parts.{Judges, Measures, most, with_phase};

use crate::error::TermError;
use crate::flaw::{Flaw, earlier_of};
use crate::resolve::amount_at;
use bitflags::Flags;
use ecam_kinds::{Phase, PhaseSet};
use ecam_spec::{Span, limits};
use std::alloc::{AllocError, Global};
use term_tree::Cond;

/// The deepest that a condition may be.
const DEEPEST: usize = limits::TERM_DEPTH;

/// The most nodes that a condition may have.
const LARGEST: usize = limits::TERM_NODES;

/// The most moments of a confirmation or a hold.
const LONGEST: u64 = limits::WAIT as u64;

/// A condition that was read.
#[derive(Drop)]
pub(crate) struct Part {
    /// What is wrong first with its names and its numbers.
    pub flaw: Option<Flaw>,
    /// How many nodes stand on its tree's longest way down, ending at `usize::MAX`.
    pub depth: usize,
    /// How many nodes its tree has, ending at `usize::MAX`.
    pub size: usize,
    /// Its tree, or a constant in its place where it is refused. So no tree is deeper than one may be.
    pub cond: Cond,
}

impl Part {
    /// A condition of this tree.
    #[inline(always)]
    pub fn new(flaw: Option<Flaw>, depth: usize, size: usize, cond: Cond) -> Part
        ensures { (tree : Tree) → Measures (flaw_in flaw) depth size cond tree
            → Judges result (flaw_in flaw) tree }
    {
        let is_kept = flaw.is_none() && depth <= DEEPEST && size <= LARGEST;
        let cond = kept(is_kept, cond);
        Part {
            flaw,
            depth,
            size,
            cond,
        }
    }

    /// A condition with no condition in it.
    pub fn atom(flaw: Option<Flaw>, cond: Cond) -> Part
        ensures { (tree : Tree) → depth tree ≡ 1 → nodes tree ≡ 1
            → (flaw_in flaw ≡ None → tree_of cond ≡ tree) → Judges result (flaw_in flaw) tree }
    {
        Part::new(flaw, 1, 1, cond)
    }

    /// A copy of this condition, which is made only where it is neither too deep nor too large.
    pub fn copy_of(alloc: Global, cond: &Cond) -> Result<Part, AllocError>
        ensures { IfOk result (λ p. Judges p None (tree_of cond.now)) }
    {
        let depth = cond.depth();
        let size = cond.size();
        let cond = copy_if(alloc, depth <= DEEPEST && size <= LARGEST, cond)?;
        Ok(Part {
            flaw: None,
            depth,
            size,
            cond,
        })
    }

    /// A node over conditions of this depth and this size.
    pub fn above(flaw: Option<Flaw>, depth: usize, size: usize, node: Cond) -> Part
        ensures { (tree : Tree) → Measures (flaw_in flaw) (min (depth + 1) most)
            (min (size + 1) most) node tree → Judges result (flaw_in flaw) tree }
    {
        Part::new(flaw, depth.saturating_add(1), size.saturating_add(1), node)
    }

    /// That this one doesn't hold.
    pub fn negated(self, alloc: Global) -> Result<Part, AllocError>
        ensures { (wrong : Option Wrong) (tree : Tree) → Judges self wrong tree
            → IfOk result (λ p. Judges p wrong (negation tree)) }
    {
        let Part {
            flaw,
            depth,
            size,
            cond,
        } = self;
        let node = Cond::Not(Box::new(alloc, cond)?);
        Ok(Part::above(flaw, depth, size, node))
    }

    /// That this one begins to hold.
    pub fn risen(self, alloc: Global) -> Result<Part, AllocError>
        ensures { (wrong : Option Wrong) (tree : Tree) → Judges self wrong tree
            → IfOk result (λ p. Judges p wrong (risen tree)) }
    {
        let Part {
            flaw,
            depth,
            size,
            cond,
        } = self;
        let node = Cond::Rise(Box::new(alloc, cond)?);
        Ok(Part::above(flaw, depth, size, node))
    }

    /// That this one has held for so many moments.
    pub fn confirmed(self, alloc: Global, text: &[u8], number: Span) -> Result<Part, AllocError>
        ensures { (names : TermNames) (wrong : Option Wrong) (tree : Tree) → Judges self wrong tree
            → IfOk result (λ p. Judges p (earlier_of wrong
            (earliest (moments_flaw names text.now number)))
            (confirmed tree (amount names text.now number))) }
    {
        let Part {
            flaw,
            depth,
            size,
            cond,
        } = self;
        let moments = amount_at(text, number, 0, LONGEST);
        let node = Cond::Conf(Box::new(alloc, cond)?, moments.value as u32);
        Ok(Part::above(earlier_of(flaw, moments.flaw), depth, size, node))
    }

    /// That this one holds or held so many moments before.
    pub fn held(self, alloc: Global, text: &[u8], number: Span) -> Result<Part, AllocError>
        ensures { (names : TermNames) (wrong : Option Wrong) (tree : Tree) → Judges self wrong tree
            → IfOk result (λ p. Judges p (earlier_of wrong
            (earliest (moments_flaw names text.now number)))
            (held tree (amount names text.now number))) }
    {
        let Part {
            flaw,
            depth,
            size,
            cond,
        } = self;
        let moments = amount_at(text, number, 0, LONGEST);
        let node = Cond::Hold(Box::new(alloc, cond)?, moments.value as u32);
        Ok(Part::above(earlier_of(flaw, moments.flaw), depth, size, node))
    }

    /// That this one has held, and the other hasn't since.
    pub fn latched(self, alloc: Global, reset: Part) -> Result<Part, AllocError>
        ensures { (wrong other_wrong : Option Wrong) (tree other : Tree) → Judges self wrong tree
            → Judges reset other_wrong other
            → IfOk result (λ p. Judges p (earlier_of wrong other_wrong) (latched tree other)) }
    {
        let flaw = earlier_of(self.flaw, reset.flaw);
        let depth = self.depth.max(reset.depth);
        let size = self.size.saturating_add(reset.size);
        let set = Box::new(alloc, self.cond)?;
        let node = Cond::Latch(set, Box::new(alloc, reset.cond)?);
        Ok(Part::above(flaw, depth, size, node))
    }

    /// Takes one more phase to those that this condition has.
    pub fn also_in_phase(self, text: &[u8], number: Span) -> Part
        ensures { (names : TermNames) (wrong : Option Wrong) (set : ℕ)
            → Judges self wrong (in_phase set)
            → Judges result (earlier_of wrong (earliest (phase_flaw names text.now number)))
            (in_phase (bit_or set (one_phase (amount names text.now number)))) }
    {
        let Part {
            flaw,
            depth,
            size,
            cond,
        } = self;
        let number = amount_at(text, number, 1, 10);
        let phase = Phase {
            number: number.value as u8,
        };
        Part::new(
            earlier_of(flaw, number.flaw),
            depth,
            size,
            with_phase(cond, phase),
        )
    }

    /// The tree, or why it is refused.
    pub fn judged(self) -> Result<Cond, TermError>
        ensures { (names : TermNames) (text : Text) (wrong : Option Wrong) (tree : Tree)
            → Judges self wrong tree → Tells (judged_tree names text wrong tree) result }
    {
        match self.flaw {
            Some(Flaw::UnknownName(at)) => Err(TermError::UnknownName { at }),
            Some(Flaw::OutOfRange(at)) => Err(TermError::Number { at }),
            None => self.measured(),
        }
    }

    fn measured(self) -> Result<Cond, TermError>
        ensures { (names : TermNames) (text : Text) (tree : Tree) → Judges self None tree
            → Tells (judged_tree names text None tree) result }
    {
        if self.depth > DEEPEST {
            Err(TermError::TooDeep)
        } else if self.size > LARGEST {
            Err(TermError::TooLarge)
        } else {
            Ok(self.cond)
        }
    }
}

// One more phase in a set of phases.
#[tactic(auto, unfolding(ecam_spec::specs::TermNumber::one_phase))]
fn with_phase(cond: Cond, phase: Phase) -> Cond
    requires first { 1 ≤ phase.number }
    requires last { phase.number ≤ 10 }
    ensures { tree_of result ≡ with_phase phase.number (tree_of cond) }
{
    match cond {
        Cond::InPhase(set) => Cond::InPhase(set.union(PhaseSet::only(phase))),
        other => other,
    }
}

// A tree, or a constant in its place.
fn kept(is_kept: bool, cond: Cond) -> Cond
    ensures { tree_of result ≡ (if is_kept then tree_of cond else constant false) }
{
    if is_kept { cond } else { Cond::Const(false) }
}

// A copy of a tree, or a constant in its place.
fn copy_if(alloc: Global, is_kept: bool, cond: &Cond) -> Result<Cond, AllocError>
    ensures { is_kept ≡ true → IfOk result (λ c. tree_of c ≡ tree_of cond.now) }
{
    if is_kept {
        cond.copy(alloc)
    } else {
        Ok(Cond::Const(false))
    }
}
