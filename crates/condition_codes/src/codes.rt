// The codes of a book in one list.
ghost use Rattle.std.specs.Prelude.{◌≡◌, ℕ, suc, ◌<◌, length, slice_get, Some, IfOk};
ghost use Rattle.std.specs.Box.{boxed_slice_items};
ghost use Rattle.ecam_spec.specs.Book as plain;
ghost use Rattle.ecam_spec.specs.TermSize.{Placed, nodes};
ghost use Rattle.term_eval.specs.Code.{code, IsCode};
ghost use Rattle.book_model.specs.Sealed.{the_book};
ghost use Rattle.book_model.specs.Conditions.{places};
ghost use Rattle.term_eval.specs.Climb.{step_at};
ghost use Rattle.term_eval.specs.Reading.{IsReading, atom_says};
ghost use Rattle.condition_codes.specs.IsAskers.{IsAsking};
ghost use Rattle.condition_codes.specs.IsCodes.{IsCodes};
ghost use Rattle.condition_codes.specs.Pieces.{links_of, owners_of};
ghost use Rattle.condition_codes.specs.Places.{nodes_before};

use crate::askers::Asker;
use crate::book::add_all;
use crate::pieces::Pieces;
use crate::starts::{Starts, starts_of};
use book_model::Book;
use std::alloc::{AllocError, Global};
use std::boxed::BoxedSlice;
use std::marker::Model;
use std::rc::Rc;
use term_eval::{Link, Owner, Reading, Step, says};

/// The codes of a book, which their owners share. Nothing changes them.
#[derive(Drop)]
pub struct Codes {
    table: Rc<CodeTable>,
}

impl Model for Codes {
    ghost use Rattle.condition_codes.specs.declared.codes.CodeTable.{CodeTable};

    ghost Value = { CodeTable };

    ghost view = { λ c. c.table.value };
}

/// The codes of all conditions of a book, each under its number in stepping order. Nothing changes them, and they can't
/// grow.
#[derive(Drop)]
pub struct CodeTable {
    steps: BoxedSlice<Step>,
    links: BoxedSlice<Link>,
    owners: BoxedSlice<Owner>,
    starts: BoxedSlice<Starts>,
}

/// What of a condition is read where it is run.
#[derive(Clone, Copy)]
pub struct Parts<'a> {
    /// The links of its nodes.
    pub links: &'a [Link],
    /// Its temporal nodes, slot by slot.
    pub owners: &'a [Owner],
    /// The number of its first node among the nodes of all conditions, which are numbered in stepping order.
    pub first: usize,
    /// Where its slots start.
    pub slot: usize,
}

impl Codes {
    /// The codes of a book. Its cost is three visits of each node of the book's conditions, and one of each condition more. An
    /// error is want of memory.
    pub fn new(alloc: Global, book: &Book) -> Result<Codes, AllocError>
        ensures { IfOk result (IsCodes (the_book book.now)) }
    {
        let mut pieces = Pieces::new(alloc)?;
        add_all(&mut pieces, book)?;
        book.sealed();
        let starts = starts_of(
            alloc,
            &pieces.starts,
            &pieces.slot_starts,
            &pieces.owner_starts,
        )?;
        let table = CodeTable {
            steps: pieces.steps.into_boxed_slice(),
            links: pieces.links.into_boxed_slice(),
            owners: pieces.owners.into_boxed_slice(),
            starts: starts.into_boxed_slice(),
        };
        Ok(Codes {
            table: Rc::new(alloc, table)?,
        })
    }

    /// The same codes, for one owner more. It takes no memory, and costs a look and a write. An error is want of memory:
    /// there are as many owners as can be counted.
    pub fn share(&self) -> Result<Codes, AllocError>
        ensures { IfOk result (λ c. c ≡ self.now) }
    {
        Ok(Codes {
            table: self.table.clone()?,
        })
    }

    /// The codes, to look at. It costs one read, which what looks at several saves.
    pub fn table(&self) -> &CodeTable
        ensures { result.now ≡ self.now }
    {
        &self.table
    }
}

impl CodeTable {
    /// The code of the condition of this number. A look-up costs two reads.
    pub fn code(&self, number: usize) -> &[Step]
        requires { (b : plain.Book) × IsCodes b self.now × (number < length (places b)) }
        ensures { (b : plain.Book) → IsCodes b self.now → (p : Placed)
            → slice_get (places b) number ≡ Some p → IsCode p.tree p.at result.now }
    {
        &self.steps[self.start(number)..self.start_behind(number)]
    }

    /// All that is read of it where it is run. A look-up costs a look at two records one behind the other.
    #[inline(always)]
    pub fn parts(&self, number: usize) -> Parts<'_>
        requires { (b : plain.Book) × IsCodes b self.now × (number < length (places b)) }
        ensures links { (b : plain.Book) → IsCodes b self.now → (p : Placed)
            → slice_get (places b) number ≡ Some p → result.links.now ≡ links_of p }
        ensures owners { (b : plain.Book) → IsCodes b self.now → (p : Placed)
            → slice_get (places b) number ≡ Some p → result.owners.now ≡ owners_of p }
        ensures first { (b : plain.Book) → IsCodes b self.now → number < length (places b)
            → result.first ≡ nodes_before (places b) number }
        ensures slot { (b : plain.Book) → IsCodes b self.now → (p : Placed)
            → slice_get (places b) number ≡ Some p → result.slot ≡ p.at }
    {
        let own = self.starts[number];
        let next = self.starts[number + 1];
        Parts {
            links: &self.links[own.node as usize..next.node as usize],
            owners: &self.owners[own.owner as usize..next.owner as usize],
            first: own.node as usize,
            slot: own.slot as usize,
        }
    }

    /// The links of the nodes of the condition in which a node asks. A look-up costs no read but of the asker.
    #[inline(always)]
    pub fn links_by(&self, asker: &Asker) -> &[Link]
        requires { (b : plain.Book) × (o : ℕ) × IsCodes b self.now × IsAsking b o asker.now }
        ensures { (b : plain.Book) (o : ℕ) → IsCodes b self.now → IsAsking b o asker.now
            → (p : Placed) → slice_get (places b) asker.now.term ≡ Some p
            → result.now ≡ links_of p }
    {
        let first = asker.first as usize;
        &self.links[first..first + usize::from(asker.size)]
    }

    /// What a node says that asks for an operand which reads so. Its step is read only where numbers of its own decide.
    #[inline(always)]
    pub fn says(&self, asker: &Asker, reading: Reading) -> bool
        requires asks { (b : plain.Book) × (o : ℕ) × IsCodes b self.now × IsAsking b o asker.now }
        requires reading { IsReading reading }
        ensures { (b : plain.Book) (o : ℕ) → IsCodes b self.now → IsAsking b o asker.now
            → (p : Placed) → slice_get (places b) asker.now.term ≡ Some p
            → result ≡ atom_says (step_at (code p.at 0 p.tree) asker.now.node).node reading }
    {
        let place = asker.first as usize + usize::from(asker.node);
        says(asker.test, &self.steps[place].node, reading)
    }

    /// The number of its first node among the nodes of all conditions, which are numbered in stepping order. A look-up
    /// costs one read.
    pub fn start(&self, number: usize) -> usize
        requires { (b : plain.Book) × IsCodes b self.now × (number < length (places b)) }
        ensures { (b : plain.Book) → IsCodes b self.now → number < length (places b)
            → result ≡ nodes_before (places b) number }
    {
        self.starts[number].node as usize
    }

    /// How many nodes it has. A look-up costs two reads.
    pub fn size(&self, number: usize) -> usize
        requires { (b : plain.Book) × IsCodes b self.now × (number < length (places b)) }
        ensures { (b : plain.Book) → IsCodes b self.now → (p : Placed)
            → slice_get (places b) number ≡ Some p → result ≡ nodes p.tree }
    {
        self.start_behind(number) - self.start(number)
    }

    /// How many nodes all conditions have. Its cost is one read.
    pub fn count(&self) -> usize
        ensures { (b : plain.Book) → IsCodes b self.now
            → result ≡ nodes_before (places b) (length (places b)) }
    {
        self.steps.len()
    }

    /// Where what belongs to each condition starts, and where the last ends.
    pub(crate) fn starts(&self) -> &[Starts]
        ensures { result.now ≡ boxed_slice_items self.now.starts }
    {
        &self.starts
    }

    /// All steps, one behind another.
    pub(crate) fn steps(&self) -> &[Step]
        ensures { result.now ≡ boxed_slice_items self.now.steps }
    {
        &self.steps
    }

    /// The links of all.
    pub(crate) fn links(&self) -> &[Link]
        ensures { result.now ≡ boxed_slice_items self.now.links }
    {
        &self.links
    }

    // The number of the first node behind it.
    #[inline(always)]
    fn start_behind(&self, number: usize) -> usize
        requires { (b : plain.Book) × IsCodes b self.now × (number < length (places b)) }
        ensures { (b : plain.Book) → IsCodes b self.now → number < length (places b)
            → result ≡ nodes_before (places b) (suc number) }
    {
        self.starts[number + 1].node as usize
    }
}
