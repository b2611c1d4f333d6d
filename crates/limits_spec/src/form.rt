// What the tables of a limits file may hold: plain data and numbers that the definitions and the program both speak
// of.

/// The most bytes that a limits file may have.
pub const LIMITS_BYTES: usize = 65536;
/// The most advisories of a limits file.
pub const ADVISORIES: usize = 64;

/// What each advisory of a document keeps. A document that breaks one has a fault.
#[derive(Clone, Copy)]
pub enum Rule {
    /// A table has no key that isn't listed for it.
    Known,
    /// A key that is needed is there.
    Needed,
    /// A value has its type.
    Typed,
    /// A name has the form of names.
    Named,
    /// A number is in its range.
    Ranged,
    /// A list has as many members as it may.
    Counted,
    /// A name stands at no other advisory.
    Single,
    /// A parameter is one of the book's that gives numbers.
    Measured,
    /// A page is one of the book's.
    Paged,
    /// Inside the range, by the margin, there is a value that is back.
    Roomy,
}

/// A fault of a limits file: its code, 1 to 13, and the number of the advisory, from 1. Number 0 is the top of the file,
/// and the list of advisories as a whole.
#[derive(Clone, Copy, Debug, PartialEq, Eq)]
pub struct LimitsFault {
    pub code: u8,
    pub item: u32,
}
