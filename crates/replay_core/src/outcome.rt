// How a command ends, and what it tells on standard error.
ghost use Rattle.std.specs.Prelude.{◌≡◌, ◌≤◌, ◌<◌, ◌+◌, ◌++◌, length, codes, decimal};
ghost use Rattle.ecam_spec.specs.Complaint.{section_word, kind_word, code_text, book_complaint, record_complaint};
ghost use Rattle.replay_core.specs.Calls.{sink_call};
ghost use Rattle.replay_core.specs.Outcomes.{complaint, limits_complaint, status_of, status_code, Complains};

use crate::block::put;
use arrayvec::ArrayVec;
use ecam_io::{Sink, put_all};
use ecam_spec::{BookFault, FaultKind, RecordFault, Section};
use itoa::Buffer;
use limits_spec::LimitsFault;

/// How the program ends.
#[derive(Clone, Copy, Debug, PartialEq, Eq)]
pub enum Status {
    /// All was read and written.
    Done,
    /// The words have none of the forms.
    Usage,
    /// The book has a fault.
    BookRefused,
    /// The record has a fault.
    RecordRefused,
    /// A file isn't there, or opening or reading failed.
    ReadFault,
    /// Writing failed.
    WriteFault,
    /// There was too little memory for the book.
    NoMemory,
    /// The book has no number parameter of that name.
    NoSuch,
    /// The limits file has a fault.
    LimitsRefused,
}

impl Status {
    /// The number with which the program ends, 0 to 8.
    pub fn code(self) -> u8
        ensures { result ≡ status_code self }
    {
        match self {
            Status::Done => 0,
            Status::Usage => 1,
            Status::BookRefused => 2,
            Status::RecordRefused => 3,
            Status::ReadFault => 4,
            Status::WriteFault => 5,
            Status::NoMemory => 6,
            Status::NoSuch => 7,
            Status::LimitsRefused => 8,
        }
    }
}

// How a command ends, with the fault that ends it.
#[derive(Clone, Copy, Debug, PartialEq, Eq)]
pub(crate) enum Outcome {
    Done,
    Usage,
    BookRefused(BookFault),
    RecordRefused(RecordFault),
    ReadFault,
    WriteFault,
    NoMemory,
    NoSuch,
    LimitsRefused(LimitsFault),
}

// The longest line has fewer bytes.
type Complaint = ArrayVec<u8, 256>;

impl Outcome {
    pub(crate) fn status(self) -> Status
        ensures { result ≡ status_of self }
    {
        match self {
            Outcome::Done => Status::Done,
            Outcome::Usage => Status::Usage,
            Outcome::BookRefused(_) => Status::BookRefused,
            Outcome::RecordRefused(_) => Status::RecordRefused,
            Outcome::ReadFault => Status::ReadFault,
            Outcome::WriteFault => Status::WriteFault,
            Outcome::NoMemory => Status::NoMemory,
            Outcome::NoSuch => Status::NoSuch,
            Outcome::LimitsRefused(_) => Status::LimitsRefused,
        }
    }

    // Writes its line. Where that fails, nothing follows from it.
    pub(crate) fn tell<E: Sink>(self, err: &mut E)
        ensures told { Complains (sink_call E.Sink err.old err.new) self }
        ensures quiet { self ≡ Outcome.Done → E.faults err.new ≡ E.faults err.old }
        ensures faults { E.faults err.old ≤ E.faults err.new }
    {
        let _ = put_all(err, self.line().as_slice());
    }

    // Its line, with a line feed where it has any.
    fn line(self) -> Complaint
        ensures { result.items ≡ complaint self }
    {
        match self {
            Outcome::Done => ArrayVec::new(),
            Outcome::Usage => text_line(
                "usage: check BOOK | replay BOOK RECORD [--limit N] | why BOOK RECORD | drill BOOK SEED MOMENTS | migrate BOOK | callouts BOOK RECORD NAME | advise BOOK RECORD LIMITS | report BOOK RECORD | words BOOK RECORD",
            ),
            Outcome::BookRefused(fault) => book_line(fault),
            Outcome::RecordRefused(fault) => record_line(fault),
            Outcome::ReadFault => text_line("read fault"),
            Outcome::WriteFault => text_line("write fault"),
            Outcome::NoMemory => text_line("no memory"),
            Outcome::NoSuch => text_line("no such number"),
            Outcome::LimitsRefused(fault) => limits_line(fault),
        }
    }
}

fn text_line(text: &str) -> Complaint
    requires { length text.now ≤ 240 }
    ensures { result.items ≡ text.now ++ codes "\n" }
{
    let mut line = ArrayVec::new();
    put(&mut line, text.as_bytes());
    put(&mut line, b"\n");
    line
}

fn section_word(section: Section) -> &'static str
    ensures word { result.now ≡ section_word section }
    ensures short { length result.now ≤ 6 }
{
    match section {
        Section::Top => "top",
        Section::System => "system",
        Section::Page => "page",
        Section::Param => "param",
        Section::Term => "term",
        Section::Phase => "phase",
        Section::Alert => "alert",
        Section::Memo => "memo",
    }
}

fn kind_word(kind: FaultKind) -> &'static str
    ensures word { result.now ≡ kind_word kind }
    ensures short { length result.now ≤ 8 }
{
    match kind {
        FaultKind::Long => "Long",
        FaultKind::Form => "Form",
        FaultKind::Cut => "Cut",
        FaultKind::NoEnd => "NoEnd",
        FaultKind::AfterEnd => "AfterEnd",
        FaultKind::Limit => "Limit",
    }
}

// Appends the two digits of a code.
fn put_code(line: &mut Complaint, code: u8)
    requires { length line.old.items ≤ 20 }
    ensures digits { line.new.items ≡ line.old.items ++ code_text code }
    ensures short { length line.new.items ≤ length line.old.items + 41 }
{
    let mut buffer = Buffer::new();
    if code < 10 {
        put(line, b"0");
    }
    put(line, buffer.format(code).as_bytes());
}

fn book_line(fault: BookFault) -> Complaint
    ensures { result.items ≡ book_complaint fault ++ codes "\n" }
{
    let mut line = ArrayVec::new();
    let mut buffer = Buffer::new();
    put(&mut line, b"book: F");
    put_code(&mut line, fault.code);
    put(&mut line, b" ");
    put(&mut line, section_word(fault.section).as_bytes());
    put(&mut line, b" ");
    put(&mut line, buffer.format(fault.item).as_bytes());
    put(&mut line, b"\n");
    line
}

fn record_line(fault: RecordFault) -> Complaint
    ensures { result.items ≡ record_complaint fault ++ codes "\n" }
{
    let mut line = ArrayVec::new();
    let mut buffer = Buffer::new();
    put(&mut line, b"record: ");
    put(&mut line, kind_word(fault.kind).as_bytes());
    put(&mut line, b" line ");
    put(&mut line, buffer.format(fault.line).as_bytes());
    put(&mut line, b"\n");
    line
}

fn limits_line(fault: LimitsFault) -> Complaint
    ensures { result.items ≡ limits_complaint fault ++ codes "\n" }
{
    let mut line = ArrayVec::new();
    let mut buffer = Buffer::new();
    put(&mut line, b"limits: A");
    put_code(&mut line, fault.code);
    put(&mut line, b" item ");
    put(&mut line, buffer.format(fault.item).as_bytes());
    put(&mut line, b"\n");
    line
}
