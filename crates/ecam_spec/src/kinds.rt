// The plain data that the definitions and the program both speak of.

/// What a line of a record says.
#[derive(Clone, Copy, Debug, PartialEq, Eq)]
pub enum Event {
    /// An ARINC 429 word of 32 bits comes on a bus, 0 to 15.
    Word { bus: u8, bits: u32 },
    /// The moment, of 100 ms, ends.
    Tick,
    /// A key goes down.
    Press(Key),
    /// A key goes up.
    Release(Key),
    /// Flight warning computer 1 or 2 goes down.
    Fail(u8),
    /// Flight warning computer 1 or 2 comes up.
    Up(u8),
    /// The record ends.
    End,
}

/// A key of the ECAM control panel, or a master light push-button.
#[derive(Clone, Copy, Debug, PartialEq, Eq)]
pub enum Key {
    /// CLR, clear.
    Clr,
    /// RCL, recall.
    Rcl,
    /// STS, status.
    Sts,
    /// ALL, each system page in turn.
    All,
    /// EMER CANC, emergency cancel.
    Emer,
    /// T.O. CONFIG, the take-off configuration test.
    ToCfg,
    /// The MASTER WARN light.
    Mw,
    /// The MASTER CAUT light.
    Mc,
    /// A page's own key, 1 to 16.
    Page(u8),
}

/// The level of an alert: 3 is red with a continuous sound, 2 amber with a single chime, 1 amber alone.
#[derive(Clone, Copy, Debug, PartialEq, Eq)]
pub enum Level {
    One,
    Two,
    Three,
}

/// The colour of a row. A row without text is blank.
#[derive(Clone, Copy, Debug, PartialEq, Eq)]
pub enum Colour {
    Red,
    Amber,
    Green,
    White,
    Cyan,
    Magenta,
    Blank,
}

/// An aural warning: none, the single chime, the repetitive chime, the cavalry charge, the cricket.
#[derive(Clone, Copy, Debug, PartialEq, Eq)]
pub enum Sound {
    Quiet,
    Chime,
    Repetitive,
    Cavalry,
    Cricket,
}

/// How a number is compared with a whole number.
#[derive(Clone, Copy, Debug, PartialEq, Eq)]
pub enum Op {
    Less,
    LessEq,
    More,
    MoreEq,
    Equal,
    Differ,
}

/// How the data of a parameter's words are read: one bit, a two's complement number, or five decimal digits.
#[derive(Clone, Copy, Debug, PartialEq, Eq)]
pub enum Kind {
    Disc,
    Bnr,
    Bcd,
}

/// What the system display shows: what the situation calls for, a page of the book, or a status page by its
/// number from 0.
#[derive(Clone, Copy, Debug, PartialEq, Eq)]
pub enum Choice {
    Auto,
    Page(usize),
    Status(u32),
}

/// Where an alert stands, as `why` tells it.
#[derive(Clone, Copy, Debug, PartialEq, Eq)]
pub enum Standing {
    /// No computer is up.
    Dead,
    /// It isn't present.
    Quiet,
    /// It is present, and neither active nor shown: an inhibited phase holds it back.
    Waiting,
    /// Its system stands in the right zone, since this primary failure explains it.
    Starred { primary: u32 },
    /// The crew cancelled it.
    Cancelled,
    /// The crew cleared it.
    Cleared,
    /// Its title stands in this row of the left zone, 1 to 7.
    Titled { row: u8 },
    /// Its title stands beyond the seventh row, and is counted.
    Counted,
}

/// What is wrong with a record.
#[derive(Clone, Copy, Debug, PartialEq, Eq)]
pub enum FaultKind {
    /// A line has more than 32 bytes.
    Long,
    /// A line has none of the forms.
    Form,
    /// The last line has no line feed.
    Cut,
    /// No line ends the record.
    NoEnd,
    /// Bytes follow the line that ends the record.
    AfterEnd,
    /// The record has more bytes than its limit.
    Limit,
}

/// A fault of a record, and its line, counted from 1.
#[derive(Clone, Copy, Debug, PartialEq, Eq)]
pub struct RecordFault {
    pub kind: FaultKind,
    pub line: u32,
}

/// A section of a book. Its faults are told in this order.
#[derive(Clone, Copy, Debug, PartialEq, Eq)]
pub enum Section {
    Top,
    System,
    Page,
    Param,
    Term,
    Phase,
    Alert,
    Memo,
}

/// What is wrong with a book: the fault's code, 1 to 26, or 0 for a book without a fault that isn't replayed; the
/// section in which it stands; and the item of the section, counted from 1, or 0 for the section as a whole.
#[derive(Clone, Copy, Debug, PartialEq, Eq)]
pub struct BookFault {
    pub code: u8,
    pub section: Section,
    pub item: u32,
}
