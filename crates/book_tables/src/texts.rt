// What may stand as a name, as a text and as a label.
ghost use Rattle.std.specs.Prelude.{◌≡◌, ◌≤◌, ◌<◌, ◌==◌, ◌&&◌, nat_le, Bool, true, length, map, slice_index, option_map};
ghost use Rattle.std.specs.List.{list_all, list_any};
ghost use Rattle.ecam_spec.specs.BookText.{is_name, is_text, is_term_text, is_printable};
ghost use Rattle.ecam_spec.specs.Bytes.{same_text, is_small_letter, is_name_byte};
ghost use Rattle.book_model.specs.View.{bytes_of};
ghost use Rattle.book_spec.specs.Fields.{passing, label_from};
ghost use Rattle.book_spec.specs.Fields.{is_octal};
ghost use Rattle.book_tables.specs.Reading.{texts_of};
ghost use Rattle.book_tables.specs.Outcome.{has_no_blank_end, label_of};

use book_model::{Name, Text};
use ecam_spec::limits::{NAME, TERM_TEXT, TEXT};
use term_text::is_reserved;

/// Whether a text is one of these.
pub(crate) fn is_one_of(known: &[&str], text: &str) -> bool
    ensures { result ≡ list_any (same_text text.now) (texts_of known.now) }
{
    for word in known {
        if text == *word {
            return true;
        }
    }
    false
}

fn is_small_letter(byte: u8) -> bool
    ensures { result ≡ is_small_letter byte }
{
    b'a' <= byte && byte <= b'z'
}

fn is_name_byte(byte: u8) -> bool
    ensures { result ≡ is_name_byte byte }
{
    is_small_letter(byte) || (b'0' <= byte && byte <= b'9' || byte == b'_')
}

fn has_name_bytes(text: &[u8]) -> bool
    ensures { result ≡ list_all is_name_byte text.now }
{
    for byte in text {
        if !is_name_byte(*byte) {
            return false;
        }
    }
    true
}

// No byte ends the loop early, so that many of them are tried at once.
fn is_printable(text: &[u8]) -> bool
    ensures { result ≡ is_printable text.now }
{
    let mut so_far = true;
    for byte in text {
        so_far = so_far & is_printable_byte(*byte);
    }
    so_far
}

fn is_printable_byte(byte: u8) -> bool
    ensures { result ≡ (nat_le 32 byte && nat_le byte 126) }
{
    (32 <= byte) & (byte <= 126)
}

fn begins_with_letter(text: &[u8]) -> bool
    ensures { result ≡ is_small_letter (slice_index text.now 0) }
{
    match text {
        [first, ..] => is_small_letter(*first),
        [] => false,
    }
}

// Whether neither end of a text is a blank.
fn has_no_blank_end(text: &[u8]) -> bool
    requires { 0 < length text.now }
    ensures { result ≡ has_no_blank_end text.now }
{
    text[0] != b' ' && text[text.len() - 1] != b' '
}

/// Whether a text has the form of a name: 1 to 24 small letters, digits and `_`, with a letter first, and no
/// word of conditions.
#[tactic(auto, unfolding(ecam_spec::specs::BookText::is_name))]
pub fn is_name(text: &str) -> bool
    ensures value { result ≡ is_name text.now }
    ensures short { result ≡ true → length text.now ≤ NAME }
{
    let bytes = text.as_bytes();
    1 <= bytes.len()
        && bytes.len() <= NAME
        && begins_with_letter(bytes)
        && has_name_bytes(bytes)
        && !is_reserved(bytes)
}

/// Whether a text has 1 to `most` bytes of printable ASCII, with no blank at either end.
#[tactic(auto, unfolding(ecam_spec::specs::BookText::is_text))]
pub fn is_text(text: &str, most: usize) -> bool
    ensures value { result ≡ is_text most text.now }
    ensures short { result ≡ true → length text.now ≤ most }
{
    let bytes = text.as_bytes();
    1 <= bytes.len() && bytes.len() <= most && is_printable(bytes) && has_no_blank_end(bytes)
}

/// Whether a text has the form of a condition's text: 1 to 2048 bytes of printable ASCII.
#[tactic(auto, unfolding(ecam_spec::specs::BookText::is_term_text))]
pub fn is_term_text(text: &str) -> bool
    ensures value { result ≡ is_term_text text.now }
    ensures short { result ≡ true → length text.now ≤ TERM_TEXT }
{
    let bytes = text.as_bytes();
    1 <= bytes.len() && bytes.len() <= TERM_TEXT && is_printable(bytes)
}

/// The name that a text is, if it has a name's form.
pub(crate) fn name_from(text: &str) -> Option<Name>
    ensures { option_map bytes_of result ≡ passing is_name text.now }
{
    if !is_name(text) {
        return None;
    }
    match Name::from(text) {
        Ok(name) => Some(name),
        Err(_) => None,
    }
}

/// The text of at most `most` bytes that a string is, if it has a text's form.
pub(crate) fn text_from(text: &str, most: usize) -> Option<Text>
    requires { most ≤ TEXT }
    ensures { option_map bytes_of result ≡ passing (is_text most) text.now }
{
    if !is_text(text, most) {
        return None;
    }
    match Text::from(text) {
        Ok(text) => Some(text),
        Err(_) => None,
    }
}

fn is_octal(byte: u8) -> bool
    ensures { result ≡ is_octal byte }
{
    b'0' <= byte && byte <= b'7'
}

/// The label that three octal digits spell, if the text is that and at most 377.
#[tactic(auto, unfolding(book_spec::specs::Fields::label_from))]
pub fn label_from(text: &str) -> Option<u8>
    ensures { result ≡ label_from text.now }
{
    match text.as_bytes() {
        [a, b, c] => label_of(*a, *b, *c),
        _ => None,
    }
}

fn label_of(a: u8, b: u8, c: u8) -> Option<u8>
    ensures { result ≡ label_of a b c }
{
    if !(is_octal(a) && is_octal(b) && is_octal(c)) {
        return None;
    }
    let label = u16::from(a - b'0') * 64 + u16::from(b - b'0') * 8 + u16::from(c - b'0');
    if label <= 255 {
        Some(label as u8)
    } else {
        None
    }
}
