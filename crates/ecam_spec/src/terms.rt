// The tokens of a condition's text: plain data that the definitions and the program both speak of.
use crate::{Key, Op};

/// The bytes of a text from one place up to another, counted from 0.
#[derive(Clone, Copy)]
pub struct Span {
    pub at: usize,
    pub end: usize,
}

/// The words of conditions that are no names.
#[derive(Clone, Copy)]
pub enum Reserved {
    True,
    False,
    Valid,
    Phase,
    Alert,
    Press,
    Fwc,
    Not,
    Rise,
    All,
    Any,
    AtLeast,
    Conf,
    Hold,
    Latch,
}

/// A token of a condition's text.
#[derive(Clone, Copy)]
pub enum Token {
    Word(Reserved),
    /// The name of a parameter, an alert or a condition.
    Name(Span),
    /// A key's word.
    KeyWord(Key),
    /// A whole number in decimal.
    Number(Span),
    /// A comparison.
    Sign(Op),
    Open,
    Comma,
    Close,
    /// What fits nowhere.
    Stray,
}
