// The keys of a small book, moment by moment. What is expected follows from the rules by hand.
ghost use Rattle.std.specs.Prelude.{◌<◌, ◌≤◌, ◌+◌, ◌^◌, length, IfSome};
ghost use Rattle.book_model.specs.Sealed.{the_book};
ghost use Rattle.system_display.specs.Selecting.{SelectorFits};

use super::book_of;
use book_model::Book;
use ecam_kinds::{Key, Keys};
use std::process::Abort;
use std::test::Fail;
use system_display::{Choice, Selector};

// Three pages, a caution and a warning.
const BOOK: &str = "version = 1\nsystems = [\"HYD\"]\n\
[[page]]\nname = \"p1\"\ntitle = \"P1\"\n\
[[page]]\nname = \"p2\"\ntitle = \"P2\"\n\
[[page]]\nname = \"p3\"\ntitle = \"P3\"\n\
[[alert]]\nname = \"caution\"\ntitle = \"CAUTION\"\nsystem = \"HYD\"\nlevel = 2\nwhen = \"true\"\n\
[[alert]]\nname = \"warning\"\ntitle = \"WARNING\"\nsystem = \"HYD\"\nlevel = 3\nwhen = \"true\"\n";

// The stroke that a letter stands for: STS, CLR, EMER CANC of the caution, of the warning and of nothing, ALL down and
// up, and the first five pages, of which the book has three.
fn strike(keys: &mut Keys, letter: u8) {
    match letter {
        b'S' => keys.press(Key::Sts),
        b'C' => keys.press(Key::Clr),
        b'E' | b'W' | b'N' => keys.press(Key::Emer),
        b'A' => keys.press(Key::All),
        b'a' => keys.release(Key::All),
        b'1' => keys.press(Key::Page(1)),
        b'2' => keys.press(Key::Page(2)),
        b'3' => keys.press(Key::Page(3)),
        b'4' => keys.press(Key::Page(4)),
        b'5' => keys.press(Key::Page(5)),
        _ => {}
    }
}

// The target of EMER CANC by its letter. The caution is the first alert, and the warning the second.
fn target_of(book: &Book, letters: &[u8]) -> Option<u32>
    ensures { IfSome result (λ a. a < length book.now.alerts.items) }
{
    let target: u32 = if letters.contains(&b'W') { 1 } else { 0 };
    if letters.contains(&b'N') || book.alerts().len() <= target as usize {
        return None;
    }
    Some(target)
}

// Whether what is chosen is what two letters stand for: nothing, a page, a status page.
fn is_chosen(choice: Choice, letters: &[u8]) -> bool {
    match choice {
        Choice::Auto => letters == b"--".as_slice(),
        Choice::Page(0) => letters == b"P0".as_slice(),
        Choice::Page(1) => letters == b"P1".as_slice(),
        Choice::Page(2) => letters == b"P2".as_slice(),
        Choice::Status(0) => letters == b"S0".as_slice(),
        Choice::Status(1) => letters == b"S1".as_slice(),
        Choice::Status(2) => letters == b"S2".as_slice(),
        _ => false,
    }
}

// So many moments, of which the first has these strokes. Answers whether this is chosen in all of them, and whether
// the first changed the choice exactly where that is wanted, and no other did.
fn go_on(
    selector: &mut Selector,
    book: &Book,
    keys: &mut Keys,
    letters: &[u8],
    times: u8,
    chosen: &[u8],
    changes: bool,
) -> bool
    requires room { selector.old.moments + 256 ≤ 2 ^ 63 }
    requires fits { SelectorFits (the_book book.now) selector.old }
    ensures moments { selector.new.moments ≤ selector.old.moments + 256 }
    ensures fits { SelectorFits (the_book book.now) selector.new }
{
    for letter in letters {
        strike(keys, *letter);
    }
    let target = target_of(book, letters);
    let mut so = true;
    for i in 0..times {
        selector.step(book, keys, target);
        so = so
            && is_chosen(selector.choice(), chosen)
            && selector.changed() == (changes && i == 0);
        keys.tick();
    }
    so
}

// How many rows, from the first on, come out as they say: the strokes of their first moment, how many moments they are,
// what is chosen in each, and whether the first changes it.
fn right_rows(book: &Book, rows: &[(&[u8], u8, &[u8], bool)]) -> usize
    requires { length rows.now ≤ 100 }
{
    let mut selector = Selector::new();
    let mut keys = Keys::new();
    for (row, (letters, times, chosen, changes)) in rows.iter().enumerate() {
        if !go_on(
            &mut selector,
            book,
            &mut keys,
            letters,
            *times,
            chosen,
            *changes,
        ) {
            return row;
        }
    }
    rows.len()
}

// The strokes of the first moment, how many moments they are, what is chosen, and whether the first changes it.
type Struck = (&'static [u8], u8, &'static [u8], bool);

const STRUCK: [Struck; 42] = [
    (b"", 1, b"--", false),
    // STS shows one page further with each press, and after CLR the first
    (b"S", 1, b"S0", true),
    (b"S", 1, b"S1", true),
    (b"S", 4, b"S2", true),
    (b"C", 2, b"--", true),
    (b"S", 1, b"S0", true),
    // EMER CANC shows the first, and STS after it the second
    (b"E", 1, b"S0", false),
    (b"S", 1, b"S1", true),
    (b"S", 1, b"S2", true),
    (b"E", 1, b"S0", true),
    (b"S", 1, b"S1", true),
    (b"C", 1, b"--", true),
    // of a warning, and of nothing, it selects nothing
    (b"W", 1, b"--", false),
    (b"N", 1, b"--", false),
    (b"S", 1, b"S0", true),
    (b"W", 1, b"S0", false),
    (b"S", 1, b"S1", true),
    // STS comes before CLR, and CLR before EMER CANC
    (b"CS", 1, b"S2", true),
    (b"EC", 1, b"--", true),
    (b"ES", 1, b"S0", true),
    // of two pages the first, and none that the book doesn't have
    (b"2", 3, b"P1", true),
    (b"32", 1, b"P1", false),
    (b"4", 1, b"P1", false),
    (b"45", 1, b"P1", false),
    (b"4C", 1, b"--", true),
    (b"S3", 1, b"P2", true),
    (b"S", 1, b"S0", true),
    // ALL shows each page for a second, and the last one stays
    (b"A", 10, b"P0", true),
    (b"", 10, b"P1", true),
    (b"", 5, b"P2", true),
    (b"a", 12, b"P2", false),
    (b"C", 1, b"--", true),
    // held again, it begins with the first, and no other key selects
    (b"A", 10, b"P0", true),
    (b"C", 10, b"P1", true),
    (b"1", 10, b"P2", true),
    // behind the last page it shows the first again
    (b"", 10, b"P0", true),
    (b"", 5, b"P1", true),
    // released and pressed in one moment it is held on
    (b"aA", 5, b"P1", false),
    (b"", 1, b"P2", true),
    // and pressed and released in one it isn't held
    (b"a", 1, b"P2", false),
    (b"S", 1, b"S0", true),
    (b"Aa", 1, b"S0", false),
];

fn select(rt: &impl Abort, book: &Book) {
    let before = Selector::new();
    assert!(rt; before.choice() == Choice::Auto && !before.changed());
    assert_eq!(rt; right_rows(book, &STRUCK), 42);
}

#[test]
fn keys_select(rt: HostRuntime) -> Result<(), Fail> {
    let book = book_of(rt.alloc(), BOOK)?;
    select(&rt, &book);
    Ok(())
}
