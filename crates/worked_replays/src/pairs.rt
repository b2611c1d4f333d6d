// What a pair shows and tells of the worked records, event by event.
ghost use Rattle.std.specs.Prelude.{◌<◌, []};
ghost use Rattle.book_model.specs.Sealed.{the_book};
ghost use Rattle.fwc_pair.specs.PairState.{PairFits, PairStands};

use crate::books::TWO;
use crate::outside::{file, lines_of};
use crate::records::{FAILURES, RECORDS, Worked, row_of};
use book_checker::seal;
use book_model::{Book, LoadError};
use book_reader::read_book;
use ecam_io::{MemoryShelf, Shelf};
use ecam_kinds::{Colour, Event, ROWS, Row};
use fwc_pair::Pair;
use itoa::Buffer;
use record_lines::LineReader;
use std::alloc::{AllocError, Global};
use std::fmt::Write as _;
use std::process::Abort;
use std::test::Fail;

// The names of the rows, in the picture's order.
const NAMES: [&str; ROWS] = [
    "L1", "L2", "L3", "L4", "L5", "L6", "L7", "R1", "R2", "R3", "R4", "R5", "R6", "R7", "FL",
    "S01", "S02", "S03", "S04", "S05", "S06", "S07", "S08", "S09", "S10", "S11", "S12", "S13",
    "S14", "S15", "S16", "S17", "S18", "MW", "MC", "AU",
];

// The book of a text. A fault counts as want of memory here.
fn book_of(alloc: Global, text: &str) -> Result<Book, AllocError> {
    let draft = match read_book(alloc, text.as_bytes()) {
        Ok(draft) => draft,
        Err(LoadError::Memory) => return Err(AllocError),
        Err(LoadError::Fault(_)) => return Err(AllocError),
    };
    match seal(alloc, draft) {
        Ok(book) => Ok(book),
        Err(LoadError::Memory) => Err(AllocError),
        Err(LoadError::Fault(_)) => Err(AllocError),
    }
}

// A shelf with an open record of these lines.
fn open_record(alloc: Global, text: &str) -> Result<MemoryShelf, AllocError> {
    let mut files = Vec::new(alloc);
    files.push(file(alloc, "record", lines_of(alloc, text)?.as_bytes())?)?;
    let mut shelf = MemoryShelf::new(files, Vec::new(alloc), 4096);
    let _ = shelf.open("record");
    Ok(shelf)
}

fn letter_of(colour: Colour) -> &'static str {
    match colour {
        Colour::Red => "R ",
        Colour::Amber => "A ",
        Colour::Green => "G ",
        Colour::White => "W ",
        Colour::Cyan => "C ",
        Colour::Magenta => "M ",
        Colour::Blank => "-",
    }
}

fn put_row(out: &mut Vec<u8>, name: &str, row: &Row) -> Result<(), AllocError> {
    out.extend_from_slice(name.as_bytes())?;
    out.extend_from_slice(b" ")?;
    out.extend_from_slice(letter_of(row.colour).as_bytes())?;
    out.extend_from_slice(row.text.as_slice())?;
    out.extend_from_slice(b"/")?;
    Ok(())
}

// Writes the rows that a Tick changed, under its number, if there are any.
fn put_block(out: &mut Vec<u8>, tick: u32, pair: &Pair) -> Result<(), AllocError> {
    let mut begun = false;
    for i in 0..ROWS {
        if pair.changed()[i] {
            if !begun {
                let mut buffer = Buffer::new();
                out.extend_from_slice(b"@")?;
                out.extend_from_slice(buffer.format(tick).as_bytes())?;
                out.extend_from_slice(b"/")?;
                begun = true;
            }
            put_row(out, NAMES[i], &pair.picture().rows[i])?;
        }
    }
    Ok(())
}

// Feeds a pair a record, and tells what it shows.
fn play(alloc: Global, pair: &mut Pair, book: &Book, record: &str) -> Result<Vec<u8>, AllocError>
    requires { PairFits (the_book book.now) pair.old }
    ensures { PairFits (the_book book.now) pair.new }
{
    let mut shelf = open_record(alloc, record)?;
    let mut reader = LineReader::new(4096);
    let mut shown = Vec::new(alloc);
    let mut tick: u32 = 0;
    for _ in 0..200 {
        let event = match reader.next(&mut shelf) {
            Ok(event) => event,
            Err(_) => return Err(AllocError),
        };
        if pair.moments() >= 200 {
            return Err(AllocError);
        }
        pair.event(book, &event);
        if let Event::Tick = event {
            put_block(&mut shown, tick, pair)?;
            tick = tick.saturating_add(1);
        }
        if let Event::End = event {
            break;
        }
    }
    Ok(shown)
}

// Plays worked records, and asks where each alert stands at the end of each.
fn plays(rt: &impl Abort, alloc: Global, records: &str) -> Result<(), Fail> {
    for line in records.lines() {
        let worked = row_of(line).expect(rt, "a worked record");
        let book = book_of(alloc, worked.book)?;
        let mut pair = Pair::new(alloc, &book)?;
        let told = tells(rt, alloc, &mut pair, &book, &worked);
        pair.give_up();
        told?;
    }
    Ok(())
}

// What a pair shows of a record, and where each alert stands at its end.
fn tells(
    rt: &impl Abort,
    alloc: Global,
    pair: &mut Pair,
    book: &Book,
    worked: &Worked<'_>,
) -> Result<(), Fail>
    requires { PairFits (the_book book.now) pair.old }
{
    let shown = play(alloc, pair, book, worked.record_text)?;
    assert_eq!(rt; shown.as_slice(), worked.shown.as_bytes());
    let standings = standings_of(alloc, pair, book)?;
    assert_eq!(rt; standings.as_str(), worked.standings);
    Ok(())
}

// Where each alert of a book stands.
fn standings_of(alloc: Global, pair: &Pair, book: &Book) -> Result<String, Fail>
    requires { PairFits (the_book book.now) pair.now }
{
    let mut standings = String::new(alloc);
    for alert in 0..book.alerts().len() {
        write!(standings, "{:?}/", pair.standing(book, alert))?;
    }
    Ok(standings)
}

#[test]
fn what_a_pair_shows(rt: HostRuntime) -> Result<(), Fail> {
    plays(&rt, rt.alloc(), RECORDS)?;
    plays(&rt, rt.alloc(), FAILURES)
}

// What a computer that is down holds has no bearing: it is overwritten from a pair of another history, and takes over from
// the other computer when it comes up.
fn forgets(
    rt: &impl Abort,
    alloc: Global,
    book: &Book,
    other: &mut Pair,
    pair: &mut Pair,
) -> Result<(), Fail>
    requires other { PairFits (the_book book.now) other.old }
    requires fits { PairFits (the_book book.now) pair.old }
    requires stands { PairStands (the_book book.now) [] pair.old }
{
    play(alloc, other, book, "W 0 0000081d/T/P CLR/T/P RCL/E/")?;
    pair.event(book, &Event::Fail(2));
    pair.two.copy_from(&other.one);
    let shown = play(
        alloc,
        pair,
        book,
        "W 0 80000c1d/T/P CLR/T/P CLR/P RCL/T/P RCL/U 2/F 1/T/E/",
    )?;
    assert_eq!(rt;
        shown.as_slice(),
        b"@0/L1 A ALERT X/L2 A ALERT Y/@1/L1 A ALERT Y/L2 -/@2/L1 A ALERT X/@3/L2 A ALERT Y/".as_slice()
    );
    pair.restart(book);
    let again = play(alloc, pair, book, "T/W 0 0000041d/T/E/")?;
    assert_eq!(rt; again.as_slice(), b"@1/L1 A ALERT X/".as_slice());
    Ok(())
}

// The same of a new pair, beside another.
fn forgets_another(
    rt: &impl Abort,
    alloc: Global,
    book: &Book,
    other: &mut Pair,
) -> Result<(), Fail>
    requires { PairFits (the_book book.now) other.old }
{
    let mut pair = Pair::new(alloc, book)?;
    let told = forgets(rt, alloc, book, other, &mut pair);
    pair.give_up();
    told
}

#[test]
fn a_down_computer_is_forgotten(rt: HostRuntime) -> Result<(), Fail> {
    let alloc = rt.alloc();
    let book = book_of(alloc, TWO)?;
    let mut other = Pair::new(alloc, &book)?;
    let told = forgets_another(&rt, alloc, &book, &mut other);
    other.give_up();
    told
}
