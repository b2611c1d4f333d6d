// The forms of a line.
ghost use Rattle.std.specs.Prelude.{◌≡◌, ◌==◌, [], ◌∷◌, position};
ghost use Rattle.ecam_spec.specs.RecordLine.{bits_of, event_of, key_of, word_event};
ghost use Rattle.record_lines.specs.Line.{digit_value, named_key_of, number_of, number_within};

use ecam_kinds::{Event, Key};
use ecam_spec::limits;
use memchr::memchr;

// The event that a line says, without its line feed.
pub(crate) fn event_of(line: &[u8]) -> Option<Event>
    ensures { result ≡ event_of line.now }
{
    match line {
        [letter] => event_of_letter(*letter),
        [letter, b' ', words @ ..] => event_of_words(*letter, words),
        _ => None,
    }
}

// The event of a line of one letter.
fn event_of_letter(letter: u8) -> Option<Event>
    ensures { result ≡ event_of (letter ∷ []) }
{
    match letter {
        b'T' => Some(Event::Tick),
        b'E' => Some(Event::End),
        _ => None,
    }
}

// The event of a line with a letter, a blank and what follows it.
fn event_of_words(letter: u8, words: &[u8]) -> Option<Event>
    ensures { result ≡ event_of (letter ∷ 32 ∷ words.now) }
{
    match letter {
        b'W' => word_event(words),
        b'P' => key_of(words).map(Event::Press),
        b'R' => key_of(words).map(Event::Release),
        b'F' => number_within(words, 1, 2).map(Event::Fail),
        b'U' => number_within(words, 1, 2).map(Event::Up),
        _ => None,
    }
}

// A bus, one blank, and the word's eight digits.
fn word_event(words: &[u8]) -> Option<Event>
    ensures { result ≡ word_event words.now }
{
    let blank = place_of(b' ', words)?;
    let bus = number_within(&words[..blank], 0, 15)?;
    let bits = bits_of(&words[blank + 1..])?;
    Some(Event::Word { bus, bits })
}

// The first place of a byte.
pub(crate) fn place_of(byte: u8, bytes: &[u8]) -> Option<usize>
    ensures { result ≡ position (λ b. b == byte) bytes.now }
{
    memchr(byte, bytes)
}

// The bits of eight hexadecimal digits, highest first.
fn bits_of(word: &[u8]) -> Option<u32>
    ensures { result ≡ bits_of word.now }
{
    let mut bytes = [0; 4];
    match hex::decode_to_slice(word, &mut bytes) {
        Ok(()) => Some(u32::from_be_bytes(bytes)),
        Err(_) => None,
    }
}

// The key that a word names.
fn key_of(word: &[u8]) -> Option<Key>
    ensures { result ≡ key_of word.now }
{
    match word.strip_prefix(b"PG") {
        Some(number) => number_within(number, 1, limits::PAGES as u8).map(Key::Page),
        None => named_key_of(word),
    }
}

// The key that a word other than a page's names.
#[tactic(auto, using(crate::proofs::Numbers::named_cases))]
fn named_key_of(word: &[u8]) -> Option<Key>
    ensures { result ≡ named_key_of word.now }
{
    if word == b"CLR".as_slice() {
        Some(Key::Clr)
    } else if word == b"RCL".as_slice() {
        Some(Key::Rcl)
    } else if word == b"STS".as_slice() {
        Some(Key::Sts)
    } else if word == b"ALL".as_slice() {
        Some(Key::All)
    } else if word == b"EMER".as_slice() {
        Some(Key::Emer)
    } else if word == b"TOCFG".as_slice() {
        Some(Key::ToCfg)
    } else if word == b"MW".as_slice() {
        Some(Key::Mw)
    } else if word == b"MC".as_slice() {
        Some(Key::Mc)
    } else {
        None
    }
}

// A number of this range, which lies below 20, in decimal without leading zeros.
fn number_within(word: &[u8], low: u8, high: u8) -> Option<u8>
    ensures { result ≡ number_within low high word.now }
{
    number_of(word).filter(|n| low <= *n && *n <= high)
}

// A number 0 to 19 in decimal without leading zeros.
fn number_of(word: &[u8]) -> Option<u8>
    ensures { result ≡ number_of word.now }
{
    match word {
        [digit] => digit_value(*digit),
        [b'1', digit] => digit_value(*digit).map(|n| n + 10),
        _ => None,
    }
}

// What a decimal digit is worth.
pub(crate) fn digit_value(digit: u8) -> Option<u8>
    ensures { result ≡ digit_value digit }
{
    match digit {
        b'0'..=b'9' => Some(digit - b'0'),
        _ => None,
    }
}
