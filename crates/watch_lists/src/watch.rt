// The lists of a book in one.
ghost use Rattle.std.specs.Prelude.{◌≡◌, ℕ, ◌<◌, ◌≤◌, true, length, IfOk};
ghost use Rattle.std.specs.Box.{boxed_slice_items};
ghost use Rattle.book_model.specs.Sealed.{the_book};
ghost use Rattle.book_model.specs.Conditions.{places};
ghost use Rattle.book_model.specs.declared.draft.Draft.{Draft};
ghost use Rattle.watch_lists.specs.Naming.{sizes_of, operand_count, names_at};
ghost use Rattle.watch_lists.specs.Listed.{has_term, items_of};
ghost use Rattle.watch_lists.specs.Flat.{IsFlat};
ghost use Rattle.watch_lists.specs.Watching.{IsWatch, NoneNamed};

use crate::book::lists_of;
use book_model::Book;
use std::alloc::{AllocError, Global};
use std::boxed::BoxedSlice;

/// Per operand of a book the numbers of the conditions that name it, in one flat list. Nothing changes it, and it can't grow.
#[derive(Drop)]
pub struct Watch {
    starts: BoxedSlice<usize>,
    terms: BoxedSlice<usize>,
}

impl Watch {
    /// The watch of a book. Its cost is one visit of each node of the book's conditions. An error is want of memory.
    pub fn new(alloc: Global, book: &Book) -> Result<Watch, AllocError>
        ensures { IfOk result (IsWatch book.now) }
    {
        let lists = lists_of(alloc, book)?;
        let (starts, terms) = flatten(alloc, &lists)?;
        Ok(Watch { starts, terms })
    }

    /// The numbers of the conditions that name an operand, each once for each time that it does.
    pub fn listed(&self, operand: usize) -> &[usize]
        requires { (d : Draft) × IsWatch d self.now × (operand < operand_count (sizes_of d)) }
        ensures { (d : Draft) → IsWatch d self.now → operand < operand_count (sizes_of d)
            → (j : ℕ) → has_term result.now j
            ≡ names_at (sizes_of d) (places (the_book d)) j operand }
    {
        &self.terms[self.starts[operand]..self.starts[operand + 1]]
    }

    /// Whether no condition names any of the operands from one up to another. Its cost is two reads.
    pub fn is_silent(&self, from: usize, to: usize) -> bool
        requires { (d : Draft) × IsWatch d self.now × (from ≤ to)
            × (to ≤ operand_count (sizes_of d)) }
        ensures silent { (d : Draft) → IsWatch d self.now → to ≤ operand_count (sizes_of d)
            → result ≡ true → NoneNamed d from to }
        ensures named { (d : Draft) → IsWatch d self.now → from ≤ to
            → to ≤ operand_count (sizes_of d) → NoneNamed d from to → result ≡ true }
    {
        self.starts[from] == self.starts[to]
    }
}

// The lists one behind another, and where each starts.
fn flatten(
    alloc: Global,
    lists: &[Vec<usize>],
) -> Result<(BoxedSlice<usize>, BoxedSlice<usize>), AllocError>
    ensures { IfOk result (λ r. IsFlat (items_of lists.now) (boxed_slice_items r.0)
        (boxed_slice_items r.1)) }
{
    let mut starts = Vec::new(alloc);
    let mut terms = Vec::new(alloc);
    starts.push(0)?;
    for list in lists {
        terms.extend_from_slice(list)?;
        starts.push(terms.len())?;
    }
    Ok((starts.into_boxed_slice(), terms.into_boxed_slice()))
}
