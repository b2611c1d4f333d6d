// The order in which the alerts are shown, and by alert its place in it.
ghost use Rattle.std.specs.Prelude.{◌≡◌, IfOk};
ghost use Rattle.std.specs.Box.{boxed_slice_items};
ghost use Rattle.ecam_spec.specs.Screen.{order};
ghost use Rattle.book_model.specs.Sealed.{the_book};
ghost use Rattle.crew_marks.specs.Ranks.{AreRanks};

use book_model::Book;
use std::alloc::{AllocError, Global};
use std::boxed::BoxedSlice;

/// The alerts of the book in the order in which they are shown. An error is want of memory.
pub fn order_of(alloc: Global, book: &Book) -> Result<BoxedSlice<u32>, AllocError>
    ensures { IfOk result (λ xs. boxed_slice_items xs ≡ order (the_book book.now)) }
{
    Ok(book.order().to_vec(alloc)?.into_boxed_slice())
}

/// By alert of the book, its place in the order. An error is want of memory.
pub fn ranks_of(alloc: Global, book: &Book) -> Result<BoxedSlice<u32>, AllocError>
    ensures { IfOk result (λ ranks. AreRanks (order (the_book book.now))
        (boxed_slice_items ranks)) }
{
    book.sealed();
    let order = book.order();
    let mut ranks = vec![in alloc; 0u32; order.len()]?;
    for rank in 0..order.len() {
        ranks[order[rank] as usize] = rank as u32;
    }
    Ok(ranks.into_boxed_slice())
}
