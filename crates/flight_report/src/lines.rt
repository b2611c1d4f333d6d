// The lines of a report.
ghost use Rattle.std.specs.Prelude.{◌≡◌, ◌≤◌, ◌<◌, ◌+◌, ◌++◌, ◌∷◌, length, decimal};
ghost use Rattle.ecam_spec.specs.declared.limits.TheConstants.{NAME};
ghost use Rattle.ecam_spec.specs.Output as output;
ghost use Rattle.ecam_spec.specs.Situation.{alert_at};
ghost use Rattle.book_model.specs.Sealed.{the_book};
ghost use Rattle.view_spec.specs.FlightReport as spec;

use arrayvec::ArrayVec;
use book_model::Book;
use itoa::Buffer;
use view_spec::flight_report::Entry;

// Three numbers of at most 40 digits, the words between them and a line feed take fewer bytes, as does a name.
const LINE: usize = 160;

pub(crate) type Line = ArrayVec<u8, LINE>;

// Appends bytes for which there is room.
fn put(line: &mut Line, bytes: &[u8])
    requires { length line.old.items + length bytes.now ≤ LINE }
    ensures { line.new.items ≡ line.old.items ++ bytes.now }
{
    let _ = line.try_extend_from_slice(bytes);
}

// Appends the digits of a number.
fn put_number(line: &mut Line, number: u64)
    requires { length line.old.items + 40 ≤ LINE }
    ensures digits { line.new.items ≡ line.old.items ++ decimal number }
    ensures short { length line.new.items ≤ length line.old.items + 40 }
{
    let mut buffer = Buffer::new();
    put(line, buffer.format(number).as_bytes());
}

// Appends the name of an alert by its place in the book; past the last alert there is none.
fn put_name(line: &mut Line, book: &Book, alert: u32)
    requires { length line.old.items + NAME ≤ LINE }
    ensures name { line.new.items ≡ line.old.items ++ (alert_at (the_book book.now) alert).name }
    ensures short { length line.new.items ≤ length line.old.items + NAME }
{
    let place = alert as usize;
    let alerts = book.alerts();
    if place < alerts.len() {
        put(line, alerts[place].name.as_bytes());
    }
}

/// The line of a flight: its number, its first Tick, and how many alerts came up in it.
#[tactic(auto, unfolding(view_spec::specs::FlightReport::flight_line))]
pub(crate) fn flight_line(number: u64, from: u64, onsets: u64) -> Line
    ensures { result.items ≡ spec.flight_line number from onsets }
{
    let mut line = Line::new();
    put(&mut line, b"FLIGHT ");
    put_number(&mut line, number);
    put(&mut line, b" FROM ");
    put_number(&mut line, from);
    put(&mut line, b" ONSETS ");
    put_number(&mut line, onsets);
    put(&mut line, b"\n");
    line
}

/// The line of an alert that came up.
#[tactic(auto, unfolding(view_spec::specs::FlightReport::entry_line))]
pub(crate) fn entry_line(book: &Book, entry: &Entry) -> Line
    ensures { result.items
        ≡ spec.entry_line (λ a. (alert_at (the_book book.now) a).name) entry.now }
{
    let mut line = Line::new();
    put(&mut line, b"@");
    put_number(&mut line, entry.tick);
    put(&mut line, b" PHASE ");
    put_number(&mut line, u64::from(entry.phase));
    put(&mut line, b" ");
    put_name(&mut line, book, entry.alert);
    put(&mut line, b"\n");
    line
}

/// The line that ends a report of so many Ticks.
#[tactic(auto, unfolding(ecam_spec::specs::Output::end_line))]
pub(crate) fn end_line(ticks: u64) -> Line
    ensures { result.items ≡ output.end_line ticks }
{
    let mut line = Line::new();
    put(&mut line, b"END ");
    put_number(&mut line, ticks);
    put(&mut line, b"\n");
    line
}
