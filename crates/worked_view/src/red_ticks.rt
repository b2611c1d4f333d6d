// How many Ticks have a red row.
ghost use Rattle.std.specs.Prelude.{◌≡◌, ◌+◌, ◌<◌, ◌≤◌, ◌^◌, ◌++◌, [], refl, length, codes, decimal, if◌then◌else◌};
ghost use Rattle.std.specs.List.{list_any};
ghost use Rattle.ecam_spec.specs.Book as plain;
ghost use Rattle.ecam_spec.specs.Output as output;
ghost use Rattle.ecam_spec.specs.Replay.{is_tick};
ghost use Rattle.worked_view.specs.RedTicks.{is_red, red_ticks, red_line};

use arrayvec::ArrayVec;
use book_model::Book;
use ecam_io::{Failed, Sink, put_all};
use ecam_kinds::{Colour, Event, Row};
use fwc_pair::{Pair, View};
use itoa::Buffer;

/// Counts the Ticks whose picture has a red row, and tells their number at the end.
#[derive(Clone, Copy, Debug, PartialEq, Eq)]
pub struct RedTicks {
    count: u64,
}

// A word, a number of at most 40 digits and a line feed take fewer bytes.
type Line = ArrayVec<u8, 64>;

impl RedTicks {
    /// No Tick was counted yet.
    pub fn new() -> RedTicks
        ensures { (b : plain.Book) → result.count ≡ red_ticks b [] }
    {
        RedTicks { count: 0 }
    }

    // Counts a Tick if it is red.
    fn count(&mut self, red: bool)
        requires { self.old.count < 2 ^ 32 }
        ensures { self.new.count ≡ self.old.count + (if red then 1 else 0) }
    {
        if red {
            self.count += 1;
        }
    }

    fn line(&self) -> Line
        ensures { result.items ≡ output.line (codes "RED " ++ decimal self.now.count) }
    {
        let mut line = Line::new();
        let mut buffer = Buffer::new();
        put(&mut line, b"RED ");
        put(&mut line, buffer.format(self.count).as_bytes());
        put(&mut line, b"\n");
        line
    }
}

fn is_red(colour: Colour) -> bool
    ensures { result ≡ is_red colour }
{
    matches!(colour, Colour::Red)
}

// Whether one of the rows is red.
fn has_red(rows: &[Row]) -> bool
    ensures { result ≡ list_any (λ r. is_red r.colour) rows.now }
{
    rows.iter().any(|row| is_red(row.colour))
}

// Whether an event ends a moment.
fn is_tick(event: &Event) -> bool
    ensures { result ≡ is_tick event.now }
{
    matches!(event, Event::Tick)
}

// Appends bytes for which there is room.
fn put(line: &mut Line, bytes: &[u8])
    requires { length line.old.items + length bytes.now ≤ 64 }
    ensures { line.new.items ≡ line.old.items ++ bytes.now }
{
    let _ = line.try_extend_from_slice(bytes);
}

impl View for RedTicks {
    ghost Settings = { Unit {0} };

    ghost settings = { λ _. tt };

    ghost fits = { λ _ _. Unit {0} };

    ghost text = { λ _ _ _. [] };

    ghost closing = { λ _ b h. red_line b h };

    ghost stands = { λ view b h. view.count ≡ red_ticks b h };

    ghost begins_empty = { λ _ _. refl };

    ghost goes_on = { λ _ _ _ _. record { more = []; joined = refl } };

    fn event<O: Sink>(
        &mut self,
        _book: &Book,
        pair: &Pair,
        event: &Event,
        _fresh: bool,
        _out: &mut O,
    ) -> Result<(), Failed> {
        if is_tick(event) {
            self.count(has_red(&pair.picture().rows));
        }
        Ok(())
    }

    fn close<O: Sink>(&mut self, _book: &Book, _ticks: u64, out: &mut O) -> Result<(), Failed> {
        put_all(out, self.line().as_slice())
    }
}
