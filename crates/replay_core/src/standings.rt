// Where each alert stands, as lines.
ghost use Rattle.std.specs.Prelude.{◌≡◌, ◌≤◌, ◌<◌, ◌+◌, ◌++◌, ◌∷◌, List, length, OnOk, OnErr};
ghost use Rattle.ecam_io.specs.Outside.{Rose, Appended, AppendedPrefix};
ghost use Rattle.ecam_spec.specs.declared.kinds.Event.{Event};
ghost use Rattle.ecam_spec.specs.declared.limits.TheConstants.{NAME};
ghost use Rattle.ecam_spec.specs.Output as output;
ghost use Rattle.ecam_spec.specs.Replay as replay;
ghost use Rattle.ecam_spec.specs.Situation.{alert_at};
ghost use Rattle.ecam_spec.specs.Standing.{standing_text};
ghost use Rattle.book_model.specs.Sealed.{the_book};
ghost use Rattle.fwc_pair.specs.PairState.{PairFits, PairStands};

use crate::block::put;
use crate::load::{Loaded, give_up};
use arrayvec::ArrayVec;
use book_model::Book;
use ecam_io::{Failed, Sink, put_all};
use fwc_pair::{Pair, Standing};
use itoa::Buffer;

// Two names, the longest word and a line feed take fewer bytes.
type Line = ArrayVec<u8, 160>;

// Appends the name of an alert by its place in the book; past the last alert there is none.
fn put_name(line: &mut Line, book: &Book, alert: usize)
    requires { length line.old.items + NAME ≤ 160 }
    ensures name { line.new.items ≡ line.old.items ++ (alert_at (the_book book.now) alert).name }
    ensures short { length line.new.items ≤ length line.old.items + NAME }
{
    let alerts = book.alerts();
    if alert < alerts.len() {
        put(line, alerts[alert].name.as_bytes());
    }
}

// Appends the words of a standing.
#[tactic(auto, unfolding(ecam_spec::specs::Standing::standing_text))]
fn put_standing(line: &mut Line, book: &Book, standing: Standing)
    requires { length line.old.items + 64 ≤ 160 }
    ensures text { line.new.items ≡ line.old.items
        ++ standing_text (λ p. (alert_at (the_book book.now) p).name) standing }
    ensures short { length line.new.items ≤ length line.old.items + 64 }
{
    let mut buffer = Buffer::new();
    match standing {
        Standing::Dead => put(line, b"dead"),
        Standing::Quiet => put(line, b"quiet"),
        Standing::Waiting => put(line, b"waiting"),
        Standing::Starred { primary } => {
            put(line, b"starred ");
            put_name(line, book, primary as usize);
        }
        Standing::Cancelled => put(line, b"cancelled"),
        Standing::Cleared => put(line, b"cleared"),
        Standing::Titled { row } => {
            put(line, b"titled ");
            put(line, buffer.format(row).as_bytes());
        }
        Standing::Counted => put(line, b"counted"),
    }
}

// The line of an alert: its name, a blank and its standing.
fn standing_line(book: &Book, alert: usize, standing: Standing) -> Line
    ensures { result.items ≡ output.line ((alert_at (the_book book.now) alert).name
        ++ 32 ∷ standing_text (λ p. (alert_at (the_book book.now) p).name) standing) }
{
    let mut line = Line::new();
    put_name(&mut line, book, alert);
    put(&mut line, b" ");
    put_standing(&mut line, book, standing);
    put(&mut line, b"\n");
    line
}

// Writes where each alert stands, an alert a line in the book's order, and gives up the book.
pub(crate) fn put_standings<O: Sink>(loaded: Loaded, out: &mut O) -> Result<(), Failed>
    requires { PairFits (the_book loaded.book) loaded.pair }
    ensures all { (h : List Event) → PairStands (the_book loaded.book) h loaded.pair
        → OnOk result (Appended O.agrees out.old out.new
        (replay.standing_lines (the_book loaded.book) h)) }
    ensures prefix { (h : List Event) → PairStands (the_book loaded.book) h loaded.pair
        → OnErr result (AppendedPrefix O.agrees out.old out.new
        (replay.standing_lines (the_book loaded.book) h)) }
    ensures faults { O.faults out.old ≤ O.faults out.new }
    ensures quiet { OnOk result (O.faults out.new ≡ O.faults out.old) }
    ensures cause { OnErr result (Rose (O.faults out.old) (O.faults out.new)) }
{
    let written = put_lines(&loaded.book, &loaded.pair, out);
    give_up(loaded);
    written
}

fn put_lines<O: Sink>(book: &Book, pair: &Pair, out: &mut O) -> Result<(), Failed>
    requires { PairFits (the_book book.now) pair.now }
    ensures all { (h : List Event) → PairStands (the_book book.now) h pair.now
        → OnOk result (Appended O.agrees out.old out.new
        (replay.standing_lines (the_book book.now) h)) }
    ensures prefix { (h : List Event) → PairStands (the_book book.now) h pair.now
        → OnErr result (AppendedPrefix O.agrees out.old out.new
        (replay.standing_lines (the_book book.now) h)) }
    ensures faults { O.faults out.old ≤ O.faults out.new }
    ensures quiet { OnOk result (O.faults out.new ≡ O.faults out.old) }
    ensures cause { OnErr result (Rose (O.faults out.old) (O.faults out.new)) }
{
    for alert in 0..book.alerts().len() {
        let line = standing_line(book, alert, pair.standing(book, alert));
        put_all(out, line.as_slice())?;
    }
    Ok(())
}
