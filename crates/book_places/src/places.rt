// Where a parameter and a page stand in the book, by their names.
ghost use Rattle.std.specs.Prelude.{◌≡◌, ◌<◌, ◌^◌, length, map, IfSome};
ghost use Rattle.std.specs.List.{position_from};
ghost use Rattle.ecam_spec.specs.Bytes.{same_text};
ghost use Rattle.book_model.specs.Sealed.{the_book};
ghost use Rattle.book_model.specs.View.{parameter_of, page_of};
ghost use Rattle.view_spec.specs.Places as spec;

use book_model::{Book, Page, Param};
use ecam_spec::Kind;

fn gives_numbers(kind: Kind) -> bool
    ensures { result ≡ spec.gives_numbers kind }
{
    match kind {
        Kind::Disc => false,
        Kind::Bnr => true,
        Kind::Bcd => true,
    }
}

fn is_number(param: &Param, name: &str) -> bool
    ensures { result ≡ spec.is_number name.now (parameter_of param.now) }
{
    name == param.name.as_str() && gives_numbers(param.kind)
}

fn is_page(page: &Page, name: &str) -> bool
    ensures { result ≡ same_text name.now (page_of page.now).name }
{
    name == page.name.as_str()
}

fn first_number(params: &[Param], name: &str) -> Option<u32>
    requires { length params.now < 2 ^ 32 }
    ensures { result ≡ position_from (spec.is_number name.now) 0 (map parameter_of params.now) }
{
    for (i, param) in params.iter().enumerate() {
        if is_number(param, name) {
            return Some(i as u32);
        }
    }
    None
}

fn first_page(pages: &[Page], name: &str) -> Option<u32>
    requires { length pages.now < 2 ^ 32 }
    ensures { result ≡ position_from (λ p. same_text name.now p.name) 0 (map page_of pages.now) }
{
    for (i, page) in pages.iter().enumerate() {
        if is_page(page, name) {
            return Some(i as u32);
        }
    }
    None
}

/// The place of a parameter that gives numbers. It costs a look at each parameter before it.
pub fn number_place(book: &Book, name: &str) -> Option<u32>
    ensures place { result ≡ spec.number_place (the_book book.now) name.now }
    ensures within { IfSome result (λ p. p < length (the_book book.now).parameters) }
{
    first_number(book.params(), name)
}

/// The place of a page. It costs a look at each page before it.
pub fn page_place(book: &Book, name: &str) -> Option<u32>
    ensures { result ≡ spec.page_place (the_book book.now) name.now }
{
    first_page(book.pages(), name)
}
