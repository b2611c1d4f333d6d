// Codes are put one behind another.
ghost use Rattle.std.specs.Prelude.{[], ◌∷◌, OnOk, IfOk};
ghost use Rattle.book_model.specs.View.{placed_of};
ghost use Rattle.condition_codes.specs.Pieces.{AddsCodes, HasCodes, FitsLinks};

use book_model::Term;
use std::alloc::{AllocError, Global};
use term_eval::{Link, Owner, Step, add_code, add_links, add_owners};

/// The codes of some conditions.
#[derive(Drop)]
pub struct Pieces {
    /// The codes, one behind another.
    pub steps: Vec<Step>,
    /// The links of all steps.
    pub links: Vec<Link>,
    /// Where each starts, and where the last ends.
    pub starts: Vec<usize>,
    /// The temporal nodes of each, slot by slot, one condition behind another.
    pub owners: Vec<Owner>,
    /// Where those of each start, and where the last end.
    pub owner_starts: Vec<usize>,
    /// Where the slots of each start.
    pub slot_starts: Vec<usize>,
}

impl Pieces {
    /// Of no condition.
    pub fn new(alloc: Global) -> Result<Pieces, AllocError>
        ensures { IfOk result (HasCodes []) }
    {
        let mut starts = Vec::new(alloc);
        starts.push(0)?;
        let mut owner_starts = Vec::new(alloc);
        owner_starts.push(0)?;
        Ok(Pieces {
            steps: Vec::new(alloc),
            links: Vec::new(alloc),
            starts,
            owners: Vec::new(alloc),
            owner_starts,
            slot_starts: Vec::new(alloc),
        })
    }

    /// Of one condition more. Its cost is three visits of each node.
    pub fn add(&mut self, term: &Term) -> Result<(), AllocError>
        requires { FitsLinks term.now }
        ensures { OnOk result (AddsCodes (placed_of term.now ∷ []) self.old self.new) }
    {
        let first = self.steps.len();
        add_code(&mut self.steps, &term.cond, term.at)?;
        add_links(&mut self.links, &self.steps[first..])?;
        self.starts.push(self.steps.len())?;
        add_owners(&mut self.owners, &self.steps[first..])?;
        self.owner_starts.push(self.owners.len())?;
        self.slot_starts.push(term.at)?;
        Ok(())
    }
}
