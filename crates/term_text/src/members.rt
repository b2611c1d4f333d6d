// The conditions of a list, as they are taken from the last to the first.
ghost use Rattle.std.specs.Prelude.{◌≡◌, OnOk};
ghost use Rattle.ecam_spec.specs.Book.{Text};
ghost use Rattle.ecam_spec.specs.Grammar.{Form, Forms, no_more, and_then};
ghost use Rattle.ecam_spec.specs.TermText.{TermNames};
ghost use Rattle.ecam_spec.proofs.TermReading.{list_form};
ghost use Rattle.term_text.specs.Parts.{JudgesForm, JudgesForms};

use crate::flaw::{Flaw, earlier_of};
use crate::part::Part;
use crate::resolve::amount_at;
use ecam_spec::Connective;
use std::alloc::{AllocError, Global};
use term_tree::Cond;

/// The conditions of a list, so far.
#[derive(Drop)]
pub(crate) struct Members {
    /// What is wrong first with their names and numbers.
    pub flaw: Option<Flaw>,
    /// The greatest of their depths, ending at `usize::MAX`.
    pub depth: usize,
    /// How many nodes they have, ending at `usize::MAX`.
    pub size: usize,
    /// Their trees, the last first.
    pub conds: Vec<Cond>,
}

impl Members {
    /// No condition yet.
    pub fn new(alloc: Global) -> Members
        ensures { (names : TermNames) (text : Text) → JudgesForms names text result no_more }
    {
        Members {
            flaw: None,
            depth: 0,
            size: 0,
            conds: Vec::new(alloc),
        }
    }

    /// Takes the condition before those that were taken.
    pub fn add(&mut self, part: Part) -> Result<(), AllocError>
        ensures { (names : TermNames) (text : Text) (f : Form) (fs : Forms)
            → JudgesForm names text part f → JudgesForms names text self.old fs
            → OnOk result (JudgesForms names text self.new (and_then f fs)) }
    {
        let Part {
            flaw,
            depth,
            size,
            cond,
        } = part;
        self.conds.push(cond)?;
        self.flaw = earlier_of(flaw, self.flaw);
        self.depth = self.depth.max(depth);
        self.size = self.size.saturating_add(size);
        Ok(())
    }

    /// The condition over them.
    pub fn listed(self, text: &[u8], list: Connective) -> Part
        ensures { (names : TermNames) (f : Form) (fs : Forms)
            → JudgesForms names text.now self (and_then f fs)
            → JudgesForm names text.now result (list_form list f fs) }
    {
        let Members {
            flaw,
            depth,
            size,
            conds,
        } = self;
        let mut conds = conds;
        conds.reverse();
        match list {
            Connective::All => Part::above(flaw, depth, size, Cond::All(conds)),
            Connective::Any => Part::above(flaw, depth, size, Cond::Any(conds)),
            Connective::AtLeast(number) => {
                let least = amount_at(text, number, 1, conds.len() as u64);
                let count = u32::try_from(least.value).unwrap_or(u32::MAX);
                let node = Cond::AtLeast(count, conds);
                Part::above(earlier_of(flaw, least.flaw), depth, size, node)
            }
        }
    }
}
