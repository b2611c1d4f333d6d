// How the text of a condition is read, token by token: plain data of which the program speaks, and the proof that each
// text has a verdict. No definition speaks of it.
use crate::{Key, Op, Span};

/// A condition over a list of conditions; `AtLeast` has the place of its number.
#[derive(Clone, Copy)]
pub enum Connective {
    All,
    Any,
    AtLeast(Span),
}

/// What a name is read for.
#[derive(Clone, Copy)]
pub enum NameRole {
    Valid,
    Alert,
}

/// What a number is read for.
#[derive(Clone, Copy)]
pub enum NumberRole {
    Compared(Op),
    Computer,
    Phase,
    AlsoPhase,
    Confirmed,
    Held,
}

/// What was read of a condition, in the order in which its parts are whole: a node comes after its children.
/// `Compared` makes a comparison of the name before it, and `AlsoPhase` adds to the phases before it.
#[derive(Clone, Copy)]
pub enum Step {
    Constant(bool),
    Named(Span),
    Compared(Op, Span),
    Valid(Span),
    Alerted(Span),
    Pressed(Key),
    Computer(Span),
    Phase(Span),
    AlsoPhase(Span),
    Negation,
    Risen,
    /// Over so many of the conditions before it.
    Over(Connective, usize),
    Confirmed(Span),
    Held(Span),
    Latched,
}

/// What is still expected of a condition's text.
#[derive(Clone, Copy)]
pub enum Expected {
    /// A condition.
    Condition,
    /// After a name, a comparison or nothing.
    Tail,
    /// An opening bracket.
    Opening,
    /// A comma.
    Separator,
    /// A closing bracket.
    Closing,
    /// The closing bracket with which this step is made.
    Finish(Step),
    /// A name.
    AName(NameRole),
    /// A key's word.
    AKey,
    /// A number.
    ANumber(NumberRole),
    /// The number of `atleast`, and all that follows it.
    Least,
    /// After a condition of a list, of which there were so many: further ones, and the closing bracket.
    Others(Connective, usize),
    /// After a phase's number: further ones, and the closing bracket.
    Phases,
}
