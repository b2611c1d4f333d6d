// The tokens of a condition's text.
ghost use Rattle.std.specs.Prelude.{◌≡◌, ◌≤◌, ◌<◌, ◌+◌, suc, true, slice_index, drop, length};
ghost use Rattle.std.specs.List.{list_all};
ghost use Rattle.ecam_spec.specs.Token.{run_length, may_take_equals, begins_with_equals, more_bytes, word_token, sign_token, token_at};
ghost use Rattle.ecam_spec.specs.Bytes.{is_small_letter, is_digit, is_letter, is_name_byte, is_word_byte};

use crate::words::{key_of, reserved_of};
use ecam_spec::{Op, Span, Token};

fn is_small_letter(byte: u8) -> bool
    ensures { result ≡ is_small_letter byte }
{
    b'a' <= byte && byte <= b'z'
}

fn is_digit(byte: u8) -> bool
    ensures { result ≡ is_digit byte }
{
    b'0' <= byte && byte <= b'9'
}

fn is_letter(byte: u8) -> bool
    ensures { result ≡ is_letter byte }
{
    is_small_letter(byte) || b'A' <= byte && byte <= b'Z'
}

fn is_name_byte(byte: u8) -> bool
    ensures { result ≡ is_name_byte byte }
{
    is_small_letter(byte) || is_digit(byte) || byte == b'_'
}

fn is_word_byte(byte: u8) -> bool
    ensures { result ≡ is_word_byte byte }
{
    is_letter(byte) || is_digit(byte) || byte == b'_'
}

// How many bytes at the front may stand in a word.
#[tactic(auto, using(crate::proofs::Runs::run_is))]
fn word_length(bytes: &[u8]) -> usize
    ensures value { result ≡ run_length is_word_byte bytes.now }
    ensures within { result ≤ length bytes.now }
{
    for (i, byte) in bytes.iter().enumerate() {
        if !is_word_byte(*byte) {
            return i;
        }
    }
    bytes.len()
}

// How many bytes at the front are digits.
#[tactic(auto, using(crate::proofs::Runs::run_is))]
fn digit_count(bytes: &[u8]) -> usize
    ensures value { result ≡ run_length is_digit bytes.now }
    ensures within { result ≤ length bytes.now }
{
    for (i, byte) in bytes.iter().enumerate() {
        if !is_digit(*byte) {
            return i;
        }
    }
    bytes.len()
}

fn may_take_equals(byte: u8) -> bool
    ensures { result ≡ may_take_equals byte }
{
    byte == b'<' || byte == b'>' || byte == b'!'
}

fn begins_with_equals(bytes: &[u8]) -> bool
    ensures value { result ≡ begins_with_equals bytes.now }
    ensures within { result ≡ true → 0 < length bytes.now }
{
    match bytes {
        [first, ..] => *first == b'=',
        [] => false,
    }
}

// How many bytes follow a token's first one.
fn more_bytes(first: u8, rest: &[u8]) -> usize
    ensures value { result ≡ more_bytes first rest.now }
    ensures within { result ≤ length rest.now }
{
    if is_letter(first) {
        word_length(rest)
    } else if is_digit(first) || first == b'-' {
        digit_count(rest)
    } else {
        usize::from(may_take_equals(first) && begins_with_equals(rest))
    }
}

fn is_name(word: &[u8]) -> bool
    ensures { result ≡ list_all is_name_byte word.now }
{
    for byte in word {
        if !is_name_byte(*byte) {
            return false;
        }
    }
    true
}

// A word is a reserved one, or a name, or a key's.
#[tactic(auto, unfolding(ecam_spec::specs::Token::word_token))]
fn word_token(span: Span, word: &[u8]) -> Token
    ensures { result ≡ word_token span word.now }
{
    if let Some(reserved) = reserved_of(word) {
        Token::Word(reserved)
    } else if is_name(word) {
        Token::Name(span)
    } else if let Some(key) = key_of(word) {
        Token::KeyWord(key)
    } else {
        Token::Stray
    }
}

// A sign of one byte, or of two where an equals sign follows.
fn sign_token(first: u8, with_equals: bool) -> Token
    ensures { result ≡ sign_token first with_equals }
{
    if with_equals {
        match first {
            b'<' => Token::Sign(Op::LessEq),
            b'>' => Token::Sign(Op::MoreEq),
            _ => Token::Sign(Op::Differ),
        }
    } else {
        match first {
            b'(' => Token::Open,
            b')' => Token::Close,
            b',' => Token::Comma,
            b'<' => Token::Sign(Op::Less),
            b'>' => Token::Sign(Op::More),
            b'=' => Token::Sign(Op::Equal),
            _ => Token::Stray,
        }
    }
}

/// A token, and the place behind it.
#[derive(Clone, Copy)]
pub(crate) struct Found {
    pub token: Token,
    pub end: usize,
}

/// The token that begins at a place, which is no blank's.
#[tactic(auto, unfolding(ecam_spec::specs::Token::token_at))]
pub(crate) fn token_at(text: &[u8], at: usize) -> Found
    requires { at < length text.now }
    ensures token { result.token ≡ token_at at (slice_index text.now at) (drop (at + 1) text.now) }
    ensures end { result.end ≡ at + suc (more_bytes (slice_index text.now at)
        (drop (at + 1) text.now)) }
    ensures within { result.end ≤ length text.now }
{
    let first = text[at];
    let more = more_bytes(first, &text[at + 1..]);
    let end = at + 1 + more;
    let span = Span { at, end };
    let token = if is_letter(first) {
        word_token(span, &text[at..end])
    } else if is_digit(first) || first == b'-' && more > 0 {
        Token::Number(span)
    } else {
        sign_token(first, more > 0)
    };
    Found { token, end }
}
