// A book as its author wrote it, with the names resolved to places.
use arrayvec::ArrayString;
use ecam_kinds::{Colour, Level, PhaseSet, Sound};
use ecam_spec::Kind;
use ecam_spec::limits::{NAME, TEXT};
use term_tree::{Cond, NamedTerm};

/// A name: 1 to 24 bytes, small letters, digits and `_`, with a letter first.
pub type Name = ArrayString<NAME>;

/// A text of a display: 1 to 36 bytes of printable ASCII, with no blank at either end.
pub type Text = ArrayString<TEXT>;

/// A condition, and the first of its slots among those of the whole book. In a draft that was read it is 0.
#[derive(Debug, PartialEq, Eq, Drop)]
pub struct Term {
    pub cond: Cond,
    pub at: usize,
}

/// A book as its author wrote it. Parameters, systems and pages go by their places in their lists, and
/// secondaries by name. `terms` are the conditions that are named, of a book of version 2 alone; where a condition
/// names one, its whole tree stands there.
#[derive(Drop)]
pub struct Draft {
    pub systems: Vec<Text>,
    pub pages: Vec<Page>,
    pub params: Vec<Param>,
    pub terms: Vec<NamedTerm>,
    pub phase: PhaseTerms,
    pub alerts: Vec<Alert>,
    pub memos: Vec<Memo>,
}

/// A system page: its title, the phases in which it is shown of itself, and its rows, at most 17.
#[derive(Drop)]
pub struct Page {
    pub name: Name,
    pub title: Text,
    pub phases: PhaseSet,
    pub rows: Vec<PageRow>,
}

/// A row of a page: a text in its colour, or, where `show` has a parameter's place, a text of at most 24 bytes
/// and the parameter's value, with a unit of at most 6 bytes.
#[derive(Drop)]
pub struct PageRow {
    pub text: Text,
    pub show: Option<u32>,
    pub unit: Option<Text>,
    pub colour: Colour,
}

/// A parameter: how its words are read, for how many moments (1 to 600) a word stays fresh, and where its words
/// come from, in order of preference.
#[derive(Drop)]
pub struct Param {
    pub name: Name,
    pub kind: Kind,
    pub stale: u32,
    pub sources: Vec<WordSource>,
}

/// A source of a parameter's words: the bus (0 to 15), the label, and the SDI if it names one. A discrete is
/// read from bit 11 to 29, a number in two's complement from the bits `low` to 29 with this range. What the
/// parameter's kind doesn't use is 11, 11 and 1.
#[derive(Clone, Copy, Debug, PartialEq, Eq)]
pub struct WordSource {
    pub bus: u8,
    pub label: u8,
    pub sdi: Option<u8>,
    pub bit: u8,
    pub low: u8,
    pub range: u32,
}

/// The six conditions that the flight phase goes by: on ground, an engine runs, take-off power, fast, high, low.
#[derive(Drop)]
pub struct PhaseTerms {
    pub gnd: Term,
    pub run: Term,
    pub tp: Term,
    pub fast: Term,
    pub high: Term,
    pub low: Term,
}

/// An alert: what it waits for, how long it has to be so (`confirm`, in moments of 100 ms), in which phases it
/// is inhibited, which failures it explains, and what it shows.
#[derive(Drop)]
pub struct Alert {
    pub name: Name,
    pub title: Text,
    pub system: u32,
    pub level: Level,
    pub when: Term,
    pub page: Option<u32>,
    pub confirm: u32,
    pub sound: Sound,
    pub inhibit: PhaseSet,
    pub secondary: Vec<Name>,
    pub lines: Vec<Line>,
    pub status: Vec<StatusLine>,
}

/// A line of a procedure. It stands while `when` holds and `done` doesn't.
#[derive(Drop)]
pub struct Line {
    pub text: Text,
    pub colour: Colour,
    pub when: Term,
    pub done: Term,
}

/// A line of the status page, in section 0 to 4: limitations, approach, procedure, information, inop.
#[derive(Clone, Copy)]
pub struct StatusLine {
    pub section: u8,
    pub text: Text,
}

/// A memo of the left zone, or of the right.
#[derive(Drop)]
pub struct Memo {
    pub name: Name,
    pub text: Text,
    pub left: bool,
    pub when: Term,
    pub colour: Colour,
}
