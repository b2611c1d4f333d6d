// Which parameters a book asks for: those that a condition names or a page shows.
ghost use Rattle.std.specs.Prelude.{◌≡◌, ◌<◌, ◌||◌, ℕ, false, length, map, slice_index_or, All, IfOk};
ghost use Rattle.ecam_spec.specs.KeepsLimits.{IsSoundPage, IsSoundRow};
ghost use Rattle.book_model.specs.Sealed.{the_book};
ghost use Rattle.book_model.specs.View.{page_of, row_of};
ghost use Rattle.watch_lists.specs.Watching.{IsWatch};
ghost use Rattle.param_table.specs.Asked.{is_asked_for, is_named, shows};

use book_model::{Book, Page};
use std::alloc::{AllocError, Global};
use watch_lists::Watch;

/// Per parameter whether a condition or a page of the book asks for its value. Its cost is two reads a parameter, and a look
/// at each row of a page. An error is want of memory.
pub fn asked_for(alloc: Global, book: &Book, watch: &Watch) -> Result<Vec<bool>, AllocError>
    requires { IsWatch book.now watch.now }
    ensures count { IfOk result (λ v. length v.items ≡ length (the_book book.now).parameters) }
    ensures asked { IfOk result (λ v. (p : ℕ) → p < length (the_book book.now).parameters
        → slice_index_or v.items p false ≡ is_asked_for (the_book book.now) p) }
{
    let mut asked = named(alloc, book, watch)?;
    for page in book.pages() {
        add_shown(&mut asked, page);
    }
    Ok(asked)
}

// Per parameter whether a condition does.
fn named(alloc: Global, book: &Book, watch: &Watch) -> Result<Vec<bool>, AllocError>
    requires { IsWatch book.now watch.now }
    ensures count { IfOk result (λ v. length v.items ≡ length (the_book book.now).parameters) }
    ensures named { IfOk result (λ v. (p : ℕ) → p < length (the_book book.now).parameters
        → slice_index_or v.items p false ≡ is_named (the_book book.now) p) }
{
    let mut named = Vec::new(alloc);
    for param in 0..book.params().len() {
        named.push(!watch.is_silent(param, param + 1))?;
    }
    Ok(named)
}

// The parameters that a page shows are asked for too.
fn add_shown(asked: &mut [bool], page: &Page)
    requires { All (IsSoundRow (length asked.old)) (map row_of page.now.rows.items) }
    ensures count { length asked.new ≡ length asked.old }
    ensures asked { (p : ℕ) → slice_index_or asked.new p false
        ≡ (slice_index_or asked.old p false || shows p (page_of page.now)) }
{
    for row in &page.rows {
        if let Some(param) = row.show {
            asked[param as usize] = true;
        }
    }
}
