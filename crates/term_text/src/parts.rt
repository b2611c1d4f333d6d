// The conditions that were read of a text and belong to no other yet.
ghost use Rattle.std.specs.Prelude.{◌≡◌, ◌-◌, [], ◌∷◌, List, Some, IfOk, OnOk};
ghost use Rattle.ecam_spec.specs.Book.{Text};
ghost use Rattle.ecam_spec.specs.Grammar.{Form, Forms, no_more, and_then};
ghost use Rattle.ecam_spec.specs.TermText.{TermNames};
ghost use Rattle.ecam_spec.proofs.TermReading.{gathered};
ghost use Rattle.term_text.specs.Parts.{JudgesForms, StandFor, parts};
ghost use Rattle.term_text.specs.declared.part.Part.{Part as Kept};

use crate::members::Members;
use crate::part::Part;
use std::alloc::{AllocError, Global};
use term_tree::Cond;

/// The conditions that were read, the last on top.
#[derive(Drop)]
pub(crate) struct Parts {
    pub stack: Vec<Part>,
}

impl Parts {
    /// None yet.
    pub fn new(alloc: Global) -> Parts
        ensures { parts result ≡ [] }
    {
        Parts {
            stack: Vec::new(alloc),
        }
    }

    /// Puts a condition on top.
    pub fn push(&mut self, part: Part) -> Result<(), AllocError>
        ensures { OnOk result (parts self.new ≡ part ∷ parts self.old) }
    {
        self.stack.push(part)?;
        Ok(())
    }

    /// Takes the condition on top. The steps of a text never ask for one that isn't there; it would be a constant.
    pub fn pop(&mut self) -> Part
        ensures { (top : Kept) (rest : List Kept) → parts self.old ≡ top ∷ rest
            → (result ≡ top) × (parts self.new ≡ rest) }
    {
        match self.stack.pop() {
            Some(part) => part,
            None => Part::atom(None, Cond::Const(false)),
        }
    }

    /// Takes so many conditions, which are those of a list: one or more.
    pub fn take(&mut self, alloc: Global, count: usize) -> Result<Members, AllocError>
        ensures { (names : TermNames) (text : Text) (forms older : List Form) (f : Form)
            (fs : Forms)
            → StandFor names text (parts self.old) forms
            → gathered (count - 1) no_more forms ≡ Some (f, fs, older)
            → IfOk result (λ m. JudgesForms names text m (and_then f fs)
            × StandFor names text (parts self.new) older) }
    {
        let mut members = Members::new(alloc);
        for _ in 0..count.max(1) {
            members.add(self.pop())?;
        }
        Ok(members)
    }
}
