// The pages in turn while ALL is held: their titles, and which row changes.
ghost use Rattle.std.specs.Prelude.{◌≡◌, ◌+◌, ◌<◌, ◌^◌};
ghost use Rattle.book_model.specs.Sealed.{the_book};
ghost use Rattle.system_display.specs.Selecting.{SelectorFits, CanGoOn};

use super::{are_told, book_of, is_display};
use book_model::Book;
use ecam_kinds::{Key, Keys, Picture, ROWS};
use std::process::Abort;
use std::test::Fail;
use system_display::{Choice, Selector, fill_page};

const BOOK: &str = "version = 1\n\
[[page]]\nname = \"p1\"\ntitle = \"P1\"\n\
[[page]]\nname = \"p2\"\ntitle = \"P2\"\n\
[[page]]\nname = \"p3\"\ntitle = \"P3\"\n";

// One moment with these keys: the page that is selected then is shown.
fn step(
    selector: &mut Selector,
    book: &Book,
    keys: &mut Keys,
    picture: &mut Picture,
    changed: &mut [bool; ROWS],
)
    requires goes_on { CanGoOn selector.old }
    requires fits { SelectorFits (the_book book.now) selector.old }
    ensures fits { SelectorFits (the_book book.now) selector.new }
    ensures moments { selector.new.moments ≡ selector.old.moments + 1 }
{
    selector.step(book, keys, None);
    keys.tick();
    match selector.choice() {
        Choice::Page(page) if page < book.pages().len() && book.params().len() == 0 => {
            fill_page(book, Some(page), &[], picture, changed);
        }
        _ => {}
    }
}

// The row of the title in a moment, and whether it is told as changed.
fn title_in(moment: u64) -> (&'static [u8], &'static [u8]) {
    match moment {
        0 => (b"W P1", b"*"),
        1..=9 => (b"W P1", b"-"),
        10 => (b"W P2", b"*"),
        11..=19 => (b"W P2", b"-"),
        20 => (b"W P3", b"*"),
        _ => (b"W P3", b"-"),
    }
}

fn shows_title(rt: &impl Abort, moment: u64, picture: &Picture, changed: &[bool; ROWS]) {
    let (title, told) = title_in(moment);
    assert!(rt; is_display(picture, title), "moment {moment}");
    assert!(rt; are_told(changed, 15, told), "moment {moment}");
}

// Holds ALL for 25 moments, and one moment more.
fn hold_all(rt: &impl Abort, book: &Book) {
    let mut selector = Selector::new();
    let mut keys = Keys::new();
    let mut picture = Picture::blank();
    keys.press(Key::All);
    for moment in 0..26u64 {
        if moment == 25 {
            keys.release(Key::All);
        }
        let mut changed = [false; ROWS];
        step(&mut selector, book, &mut keys, &mut picture, &mut changed);
        shows_title(rt, moment, &picture, &changed);
    }
}

#[test]
fn all_shows_each_page_for_a_second(rt: HostRuntime) -> Result<(), Fail> {
    let book = book_of(rt.alloc(), BOOK)?;
    hold_all(&rt, &book);
    Ok(())
}
