// What the selection goes by in a moment, read from the keys, the target and the book.
ghost use Rattle.std.specs.Prelude.{◌≡◌, ◌≤◌, ◌<◌, ◌&&◌, ℕ, length, IfSome};
ghost use Rattle.ecam_spec.specs.declared.limits.TheConstants.{PAGES};
ghost use Rattle.ecam_spec.specs.declared.kinds.Key.TheVariants.{Emer};
ghost use Rattle.ecam_spec.specs.Selection.{Panel};
ghost use Rattle.ecam_kinds.specs.KeyState.{is_pressed};
ghost use Rattle.book_model.specs.Sealed.{the_book};
ghost use Rattle.system_display.specs.Panels.{AreInputs, Shows, CallsItsPages, page_pressed, is_caution_target};

use book_model::Book;
use ecam_kinds::{Key, Keys, Level};

/// What the selection goes by in one moment of 100 ms.
#[derive(Clone, Copy, Debug, PartialEq, Eq)]
pub struct Inputs {
    /// How many pages the book has.
    pub pages: usize,
    /// ALL is held.
    pub all_held: bool,
    /// The page, from 0, whose key is pressed; of several the least.
    pub page_called: Option<usize>,
    /// STS is pressed.
    pub sts: bool,
    /// CLR is pressed.
    pub clr: bool,
    /// EMER CANC is pressed, and its target is a caution.
    pub cancels: bool,
}

impl Inputs {
    /// The inputs by the keys and the target of the moment. The cost is a few looks, and where a key is pressed one at the
    /// key of each page.
    pub fn of(book: &Book, keys: &Keys, target: Option<u32>) -> Inputs
        requires { IfSome target (λ a. a < length book.now.alerts.items) }
        ensures inputs { (p : Panel) (k : ℕ) → Shows (the_book book.now) keys.now target p k
            → AreInputs p k result }
        ensures pages { result.pages ≡ length (the_book book.now).pages }
        ensures called { CallsItsPages result }
    {
        let pages = book.pages().len();
        Inputs {
            pages,
            all_held: keys.held(Key::All),
            page_called: page_called(keys, pages),
            sts: keys.pressed(Key::Sts),
            clr: keys.pressed(Key::Clr),
            cancels: keys.pressed(Key::Emer) && is_caution(book, target),
        }
    }
}

// The first page, from 0, of so many whose key is pressed. Where no key is pressed none is looked at.
fn page_called(keys: &Keys, pages: usize) -> Option<usize>
    requires { pages ≤ PAGES }
    ensures pressed { result ≡ page_pressed keys.now pages }
    ensures within { IfSome result (λ i. i < pages) }
{
    if !keys.any_pressed() {
        return None;
    }
    for i in 0..pages {
        if keys.pressed(Key::Page(i as u8 + 1)) {
            return Some(i);
        }
    }
    None
}

// Whether there is a target, and its level is 1 or 2.
fn is_caution(book: &Book, target: Option<u32>) -> bool
    requires { IfSome target (λ a. a < length book.now.alerts.items) }
    ensures { result ≡ is_caution_target (the_book book.now) target }
{
    match target {
        None => false,
        Some(alert) => book.alerts()[alert as usize].level != Level::Three,
    }
}
