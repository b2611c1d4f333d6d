// What the tables of a book may hold: plain data that the definitions and the program both speak of.
use ecam_spec::Kind;

/// A closed list of words.
#[derive(Clone, Copy)]
pub enum Words {
    Kind,
    Sound,
    Section,
    Zone,
    Colour,
}

/// What a key may hold that holds no tables.
#[derive(Clone, Copy)]
pub enum Leaf {
    /// The name of an item.
    Name,
    /// A text of at most so many bytes.
    Text(usize),
    /// The text of a condition.
    Term,
    /// A label: three octal digits.
    Label,
    /// One of these words.
    Word(Words),
    /// The name of a page.
    Page,
    /// A system's text.
    System,
    /// The name of a parameter.
    Parameter,
    /// Names of alerts, 0 to 16.
    Alerts,
    /// Flight phases, 0 to 10.
    Phases,
    /// A whole number, from the first to the second.
    Number(u32, u32),
}

/// A table inside an item: a row of a page; a source, of a parameter of this kind if it has one; a line of a
/// procedure; a line of the status page.
#[derive(Clone, Copy)]
pub enum Inner {
    Row,
    Source(Option<Kind>),
    Line,
    Status,
}

/// What a key of an item may hold: a value without tables, or so many to so many tables.
#[derive(Clone, Copy)]
pub enum Shape {
    Leaf(Leaf),
    Tables(Inner, usize, usize),
}

/// An item of a section, or the table of the flight phase.
#[derive(Clone, Copy)]
pub enum Item {
    Page,
    Param,
    Term,
    Phase,
    Alert,
    Memo,
}

/// What each value of a document keeps. A document that breaks one has a fault.
#[derive(Clone, Copy)]
pub enum Rule {
    /// A table has no key that isn't listed for it.
    Known,
    /// A key that is needed is there.
    Needed,
    /// A value has its type.
    Typed,
    /// A name has the form of names.
    Named,
    /// A text, and a condition's text, has its form.
    Written,
    /// A number is in its range.
    Ranged,
    /// A list has as many members as it may.
    Counted,
    /// A word is one of its list.
    Worded,
    /// A label is three octal digits, at most 377.
    Labelled,
    /// An alert's page is one of the pages.
    Paged,
    /// An alert's system is one of the systems.
    Grouped,
    /// A condition has the grammar of conditions.
    Spelled,
    /// What a condition or a row of a page names is there.
    Found,
    /// A condition is no deeper and no larger than it may be.
    Small,
    /// The numbers of a condition are in their ranges.
    Measured,
}
