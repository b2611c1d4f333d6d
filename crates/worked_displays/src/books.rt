// A book from its text, and rows compared with what is printed of them.
ghost use Rattle.std.specs.Prelude.{IfSome};
ghost use Rattle.system_display.specs.Pages.{IsShort};

use book_checker::seal;
use book_model::{Book, LoadError};
use book_reader::read_book;
use ecam_kinds::{Colour, Picture, ROWS, Row};
use std::alloc::{AllocError, Global};

/// The book that a text is. A text with a fault counts as want of memory here.
pub(crate) fn book_of(alloc: Global, text: &str) -> Result<Book, AllocError> {
    let draft = match read_book(alloc, text.as_bytes()) {
        Ok(draft) => draft,
        Err(LoadError::Memory) => return Err(AllocError),
        Err(LoadError::Fault(_)) => return Err(AllocError),
    };
    match seal(alloc, draft) {
        Ok(book) => Ok(book),
        Err(LoadError::Memory) => Err(AllocError),
        Err(LoadError::Fault(_)) => Err(AllocError),
    }
}

/// Nine flags: each is set but at a `-`.
pub(crate) fn flags_of(letters: &[u8; 9]) -> [bool; 9] {
    let mut flags = [false; 9];
    for i in 0..9 {
        flags[i] = letters[i] != b'-';
    }
    flags
}

fn colour_of(letter: Option<&u8>) -> Colour {
    match letter {
        Some(b'R') => Colour::Red,
        Some(b'A') => Colour::Amber,
        Some(b'G') => Colour::Green,
        Some(b'W') => Colour::White,
        Some(b'C') => Colour::Cyan,
        Some(b'M') => Colour::Magenta,
        _ => Colour::Blank,
    }
}

/// A row is printed so: the letter of its colour, a blank, and its text; `-` where it is blank.
pub(crate) fn is_printed(row: &Row, line: &[u8]) -> bool {
    row.is(colour_of(line.first()), line.get(2..).unwrap_or(b""))
}

/// So many rows from a place on are printed so, with `/` between them. Those that are left out are blank.
pub(crate) fn is_zone(picture: &Picture, from: usize, room: usize, printed: &[u8]) -> bool {
    let mut lines = printed.split(|byte| *byte == b'/');
    for i in 0..room {
        let line = lines.next().unwrap_or(b"-");
        match picture.rows.get(from.saturating_add(i)) {
            Some(row) => {
                if !is_printed(row, line) {
                    return false;
                }
            }
            None => return false,
        }
    }
    true
}

/// The eighteen rows of the system display are printed so, and the rows around them are blank.
pub(crate) fn is_display(picture: &Picture, printed: &[u8]) -> bool {
    is_zone(picture, 14, 1, b"-")
        && is_zone(picture, 15, 18, printed)
        && is_zone(picture, 33, 1, b"-")
}

/// From a place on the rows at an asterisk are told as changed, and no other row is.
pub(crate) fn are_told(changed: &[bool; ROWS], from: usize, letters: &[u8]) -> bool {
    for i in 0..ROWS {
        let letter = if i < from {
            None
        } else {
            letters.get(i - from)
        };
        if changed[i] != (letter == Some(&b'*')) {
            return false;
        }
    }
    true
}

/// A value from -1000000 to 1000000; any other is as none.
pub(crate) fn short(value: Option<i64>) -> Option<i64>
    ensures { IfSome result IsShort }
{
    match value {
        Some(z) if -1000000 <= z && z <= 1000000 => Some(z),
        _ => None,
    }
}
