// The reader of a record's lines.
ghost use Rattle.std.specs.Prelude.{◌≡◌, ◌≢◌, ℕ, ◌+◌, ◌*◌, ◌<◌, ◌≤◌, ◌==◌, true, false, List, [], ◌∷◌, ◌++◌, take, length, position, is_none, IfOk, IfSome, IfNone, OnOk, OnErr};
ghost use Rattle.arrayvec.specs.ArrayVec.{array_vec_len};
ghost use Rattle.ecam_io.specs.Outside.{Rose, Appended};
ghost use Rattle.ecam_spec.specs.Keys.{IsEvent};
ghost use Rattle.ecam_spec.specs.RecordLine.{event_of, is_end, is_end_event};
ghost use Rattle.record_lines.specs.Reader.{room, settled, kept_answer, cost, fault_in, carried, filled, wait, lacks_line, reads_next};
ghost use Rattle.record_lines.specs.Reads.{Reads, Tells, Takes, MeetsEnd, Makes, Asks, last_call, piece_call, Gives, IsFromBytes, Advances, IsSpent};
ghost use Rattle.std.specs.Io.KnownBytes.{Consumes};

use crate::common::{is_tick_line, word_line};
use crate::line::{event_of, place_of};
use crate::outcome::{LineError, Stage};
use crate::piece::Piece;
use arrayvec::ArrayVec;
use ecam_io::{Failed, Source};
use ecam_kinds::Event;
use ecam_spec::{FaultKind, RecordFault, limits};
use std::marker::Model;

// How many bytes a line has at most, without its line feed.
const LONGEST: usize = limits::RECORD_LINE;

/// Reads the lines of a record from a source, under a limit on the number of bytes. It holds a piece of 4096 bytes
/// and a line of 32, reads only where nothing of the piece is left, and takes no memory. A Tick and a word on a bus of
/// one digit cost one look at each byte. Of any other line each byte is gone through once for the line feed and once
/// for its form, and where it lies across pieces it is copied once.
#[derive(Drop)]
pub struct LineReader {
    piece: Piece,
    // The bytes of the line that came before the piece.
    line: ArrayVec<u8, LONGEST>,
    // The number of the line, from 1.
    number: u32,
    // How many bytes may yet be read.
    allowance: u32,
    // Bytes beyond the limit were read.
    over: bool,
    stage: Stage,
}

impl Model for LineReader {
    ghost use Rattle.std.specs.Prelude.{◌+◌, ◌*◌, ◌^◌, ◌≤◌, length};
    ghost use Rattle.record_lines.specs.Reader.{ReaderState};

    ghost Value = { ReaderState };

    ghost view = { λ r. record {
      pending = r.piece;
      line = r.line.items;
      number = r.number;
      allowance = r.allowance;
      over = r.over;
      stage = r.stage;
    } };

    // A line that was read has two bytes at least, so that lines are few.
    ghost invariant = { λ r. 2 * r.number + length r.line.items + length r.piece + r.allowance ≤ 2 ^ 32 + 1 };
}

impl LineReader {
    /// A reader of a record of at most `limit` bytes, of which nothing was read.
    pub fn new(limit: u32) -> LineReader
        ensures reads { Reads limit [] [] result }
        ensures room { room result ≡ limit }
        ensures settled { settled result ≡ None }
    {
        LineReader {
            piece: Piece::new(),
            line: ArrayVec::new(),
            number: 1,
            allowance: limit,
            over: false,
            stage: Stage::Lines,
        }
    }

    /// Whether the next call of `next` reads from its source: what the reader has decides no answer yet. It costs a look
    /// for the line feed in what is left of the piece, where that is no longer than a line.
    pub fn reads_next(&self) -> bool
        ensures { result ≡ reads_next self.now }
    {
        if self.over {
            return false;
        }
        match self.stage {
            Stage::Lines => self.lacks_line(),
            Stage::Closing => self.piece.bytes().is_empty(),
            Stage::Ended | Stage::Faulty(_) => false,
        }
    }

    // Whether the piece has no whole line, or the one that ends the record and no more. What is longer than any line costs
    // no look.
    #[tactic(auto, using(crate::proofs::Needs::lacks_long))]
    fn lacks_line(&self) -> bool
        ensures { result ≡ lacks_line (position (λ b. b == 10) self.now.pending) self.now }
    {
        let bytes = self.piece.bytes();
        if bytes.len() > LONGEST {
            return false;
        }
        match place_of(b'\n', bytes) {
            None => bytes.len() <= LONGEST - self.line.len(),
            Some(at) => bytes.len() == at + 1 && ends_record(self.line.as_slice(), &bytes[..at]),
        }
    }

    /// The next event of the record. `End` comes only once the record's last line was read and the source answered
    /// its end; it is answered again without reading, as is a fault of the record. After `Failed` all bytes taken
    /// so far are kept, and the next call reads again. It reads where `reads_next` says so and not else, asks for 4096
    /// bytes each time, and takes none behind the piece in which the record's fault stands.
    // (It stands in its caller, so that the event of a common line is handed on in registers.)
    #[inline(always)]
    pub fn next<S: Source>(&mut self, source: &mut S) -> Result<Event, LineError>
        // Some bytes were taken, which tell this, whatever bytes were taken and events answered before.
        ensures told { Takes (S.left source.old) (S.left source.new)
            (λ more. Tells self.old self.new more result) }
        ensures end { settled self.old ≡ None
            → MeetsEnd (S.left source.old) (S.left source.new) result }

        // What is answered again, and nothing is read.
        ensures again { IfSome (settled self.old)
            (λ a. (result ≡ a) × (self.new ≡ self.old) × (source.new ≡ source.old)) }
        ensures settled { settled self.new ≡ kept_answer result }

        // Each event costs two bytes of the limit at least.
        ensures fewer { room self.new + cost result ≤ room self.old }

        // What it has decides the answer, or it asks for pieces until they do.
        ensures spared { reads_next self.old ≡ false → source.new ≡ source.old }
        ensures asks { settled self.old ≡ None
            → Makes S.reads source.old source.new (Asks (reads_next self.old) result) }

        ensures event { IfOk result IsEvent }
        ensures quiet { result ≢ Err LineError.Failed → S.faults source.new ≡ S.faults source.old }
        ensures cause { result ≡ Err LineError.Failed
            → Rose (S.faults source.old) (S.faults source.new) }
        ensures faults { S.faults source.old ≤ S.faults source.new }
        ensures is_open { S.is_open source.new ≡ S.is_open source.old }
        ensures files { S.files source.new ≡ S.files source.old }
        ensures opens { S.opens source.new ≡ S.opens source.old }
    {
        if let Some(event) = self.common() {
            return Ok(event);
        }
        self.uncommon(source)
    }

    // The next event, where no line of the common forms lies whole in the piece. (It takes the answer apart, so that a
    // common line is handed on without it.)
    #[inline(always)]
    fn uncommon<S: Source>(&mut self, source: &mut S) -> Result<Event, LineError>
        ensures told { Takes (S.left source.old) (S.left source.new)
            (λ more. Tells self.old self.new more result) }
        ensures end { settled self.old ≡ None
            → MeetsEnd (S.left source.old) (S.left source.new) result }
        ensures again { IfSome (settled self.old)
            (λ a. (result ≡ a) × (self.new ≡ self.old) × (source.new ≡ source.old)) }
        ensures settled { settled self.new ≡ kept_answer result }
        ensures fewer { room self.new + cost result ≤ room self.old }
        ensures spared { reads_next self.old ≡ false → source.new ≡ source.old }
        ensures asks { settled self.old ≡ None
            → Makes S.reads source.old source.new (Asks (reads_next self.old) result) }
        ensures event { IfOk result IsEvent }
        ensures quiet { result ≢ Err LineError.Failed → S.faults source.new ≡ S.faults source.old }
        ensures cause { result ≡ Err LineError.Failed
            → Rose (S.faults source.old) (S.faults source.new) }
        ensures faults { S.faults source.old ≤ S.faults source.new }
        ensures is_open { S.is_open source.new ≡ S.is_open source.old }
        ensures files { S.files source.new ≡ S.files source.old }
        ensures opens { S.opens source.new ≡ S.opens source.old }
    {
        match self.next_other(source) {
            Ok(event) => Ok(event),
            Err(error) => Err(error),
        }
    }

    // The next event, where no line of the common forms lies whole in the piece. (It stands by itself, so that such a line
    // needs none of the room that other answers take.)
    #[inline(never)]
    fn next_other<S: Source>(&mut self, source: &mut S) -> Result<Event, LineError>
        ensures told { Takes (S.left source.old) (S.left source.new)
            (λ more. Tells self.old self.new more result) }
        ensures end { settled self.old ≡ None
            → MeetsEnd (S.left source.old) (S.left source.new) result }
        ensures again { IfSome (settled self.old)
            (λ a. (result ≡ a) × (self.new ≡ self.old) × (source.new ≡ source.old)) }
        ensures settled { settled self.new ≡ kept_answer result }
        ensures fewer { room self.new + cost result ≤ room self.old }
        ensures spared { reads_next self.old ≡ false → source.new ≡ source.old }
        ensures asks { settled self.old ≡ None
            → Makes S.reads source.old source.new (Asks (reads_next self.old) result) }
        ensures event { IfOk result IsEvent }
        ensures quiet { result ≢ Err LineError.Failed → S.faults source.new ≡ S.faults source.old }
        ensures cause { result ≡ Err LineError.Failed
            → Rose (S.faults source.old) (S.faults source.new) }
        ensures faults { S.faults source.old ≤ S.faults source.new }
        ensures is_open { S.is_open source.new ≡ S.is_open source.old }
        ensures files { S.files source.new ≡ S.files source.old }
        ensures opens { S.opens source.new ≡ S.opens source.old }
    {
        if let Some(answer) = self.settled() {
            return answer;
        }
        'pieces: loop {
            if let Some(answer) = self.found() {
                return answer;
            }
            match self.fill(source) {
                Ok(true) => {}
                Ok(false) => return self.finish(),
                Err(Failed) => return Err(LineError::Failed),
            }
        }
    }

    // What is answered again without reading.
    fn settled(&self) -> Option<Result<Event, LineError>>
        ensures { result ≡ settled self.now }
    {
        match self.stage {
            Stage::Lines | Stage::Closing => None,
            Stage::Ended => Some(Ok(Event::End)),
            Stage::Faulty(fault) => Some(Err(LineError::Record(fault))),
        }
    }

    // What is answered without reading; if there is nothing, the piece is gone through.
    #[inline(never)]
    fn found(&mut self) -> Option<Result<Event, LineError>>
        requires { settled self.old ≡ None }
        ensures given { IfSome result (Gives self.old self.new) }
        ensures from_bytes { IfSome result IsFromBytes }
        ensures whole { IfSome result (λ _. reads_next self.old ≡ false) }
        ensures none { IfNone result (Advances self.old self.new) }
        ensures empty { IfNone result (self.new.pending ≡ []) }
        ensures within { IfNone result (self.new.over ≡ false) }
        ensures nearer { IfNone result (2 * self.new.allowance < wait self.old) }
        ensures needs { IfNone result (reads_next self.old ≡ true) }
    {
        if let Some(answer) = self.next_line() {
            return Some(answer);
        }
        self.excess()
    }

    // The answer of the line that ends in the piece, before the end of the record.
    fn next_line(&mut self) -> Option<Result<Event, LineError>>
        requires { settled self.old ≡ None }
        ensures given { IfSome result (Gives self.old self.new) }
        ensures from_bytes { IfSome result IsFromBytes }
        ensures whole { IfSome result (λ _. reads_next self.old ≡ false) }
        ensures none { IfNone result (Advances self.old self.new) }
        ensures gone { IfNone result (self.new.stage ≡ Stage.Lines → self.new.pending ≡ []) }
    {
        match self.stage {
            Stage::Lines => self.read_line(),
            _ => None,
        }
    }

    // The event of a line of the common forms that lies whole in the piece, and goes past it; else nothing is changed. (The
    // two kinds of line end by other writes, so that their paths stay apart in the built program, and the caller needn't
    // ask which event it is.)
    #[inline(always)]
    fn common(&mut self) -> Option<Event>
        ensures lines { IfSome result (λ _. self.old.stage ≡ Stage.Lines) }
        ensures given { IfSome result (λ e. Gives self.old self.new (Ok e)) }
        ensures other { IfSome result (λ e. is_end_event e ≡ false) }
        ensures whole { IfSome result (λ _. reads_next self.old ≡ false) }
        ensures same { IfNone result (self.new ≡ self.old) }
    {
        let Stage::Lines = self.stage else {
            return None;
        };
        if !self.line.is_empty() {
            return None;
        }
        let bytes = self.piece.bytes();
        if let Some(event) = word_line(bytes) {
            self.number += 1;
            self.piece.skip(13);
            return Some(event);
        }
        if is_tick_line(bytes) {
            self.piece.skip(2);
            self.number += 1;
            return Some(Event::Tick);
        }
        None
    }

    // The answer to bytes after the record's end, or beyond the limit.
    fn excess(&mut self) -> Option<Result<Event, LineError>>
        requires unsettled { settled self.old ≡ None }
        requires closing { self.old.stage ≡ Stage.Lines → self.old.pending ≡ [] }
        ensures given { IfSome result (Gives self.old self.new) }
        ensures from_bytes { IfSome result IsFromBytes }
        ensures same { IfNone result (self.new ≡ self.old) }
        ensures empty { IfNone result (self.old.pending ≡ []) }
        ensures within { IfNone result (self.old.over ≡ false) }
        ensures needs { is_none result ≡ reads_next self.old }
    {
        if !self.piece.bytes().is_empty() {
            return Some(Err(self.fail(FaultKind::AfterEnd)));
        }
        if self.over {
            return Some(Err(self.fail(FaultKind::Limit)));
        }
        None
    }

    // Reads the line that ends in the piece, or keeps what the piece has of it.
    fn read_line(&mut self) -> Option<Result<Event, LineError>>
        requires { self.old.stage ≡ Stage.Lines }
        ensures given { IfSome result (Gives self.old self.new) }
        ensures from_bytes { IfSome result IsFromBytes }
        ensures whole { IfSome result (λ _. reads_next self.old ≡ false) }
        ensures none { IfNone result (Advances self.old self.new) }
        ensures gone { IfNone result (self.new.stage ≡ Stage.Lines → self.new.pending ≡ []) }
    {
        let begun = self.line.len();
        let bytes = self.piece.bytes();
        match place_of(b'\n', bytes) {
            Some(at) if begun + at <= LONGEST => self.end_line(at),
            None if begun + bytes.len() <= LONGEST => {
                self.carry();
                None
            }
            _ => Some(Err(self.fail(FaultKind::Long))),
        }
    }

    // Keeps what the piece has of a line.
    fn carry(&mut self)
        requires { length self.old.line + length self.old.pending ≤ LONGEST }
        ensures { self.new ≡ carried self.old }
    {
        let bytes = self.piece.bytes();
        let count = bytes.len();
        let _ = self.line.try_extend_from_slice(bytes);
        self.piece.skip(count);
    }

    // Reads the line whose line feed is the piece's first, at this place.
    fn end_line(&mut self, at: usize) -> Option<Result<Event, LineError>>
        requires lines { self.old.stage ≡ Stage.Lines }
        requires feed { position (λ b. b == 10) self.old.pending ≡ Some at }
        requires fits { length self.old.line + at ≤ LONGEST }
        ensures given { IfSome result (Gives self.old self.new) }
        ensures from_bytes { IfSome result IsFromBytes }
        ensures whole { IfSome result (λ _. reads_next self.old ≡ false) }
        ensures none { IfNone result (Advances self.old self.new) }
        ensures gone { IfNone result (self.new.stage ≡ Stage.Closing) }
    {
        let event = event_across(&mut self.line, &self.piece.bytes()[..at]);
        self.piece.skip(at + 1);
        let Some(event) = event else {
            return Some(Err(self.fail(FaultKind::Form)));
        };
        self.number += 1;
        if is_end(&event) {
            self.stage = Stage::Closing;
            return None;
        }
        Some(Ok(event))
    }

    // Reads the next piece, and keeps of it what the limit allows. False is the source's end.
    #[inline(never)]
    fn fill<S: Source>(&mut self, source: &mut S) -> Result<bool, Failed>
        requires empty { self.old.pending ≡ [] }
        requires within { self.old.over ≡ false }
        ensures moved { IfOk result (λ _. Takes (S.left source.old) (S.left source.new)
            (λ more. (self.new ≡ filled more self.old) × (length more ≤ 4096))) }
        ensures end { result ≡ Ok false → IsSpent (S.left source.old) (S.left source.new)
            × (self.new ≡ self.old) × Consumes (S.left source.old) (S.left source.new) [] }
        ensures nearer { result ≡ Ok true → wait self.new ≡ 2 * self.old.allowance }
        ensures same { OnErr result (self.new ≡ self.old) }
        ensures kept { OnErr result (S.left source.new ≡ S.left source.old) }
        ensures is_open { S.is_open source.new ≡ S.is_open source.old }
        ensures files { S.files source.new ≡ S.files source.old }
        ensures opens { S.opens source.new ≡ S.opens source.old }
        ensures gave { result ≡ Ok true → (n : ℕ) × (0 < n)
            × Appended S.reads source.old source.new (piece_call (Some n) ∷ []) }
        ensures spent { result ≡ Ok false → Appended S.reads source.old source.new
            (piece_call (Some 0) ∷ []) }
        ensures failed { OnErr result (Appended S.reads source.old source.new
            (piece_call None ∷ [])) }
        ensures faults { S.faults source.old ≤ S.faults source.new }
        ensures quiet { OnOk result (S.faults source.new ≡ S.faults source.old) }
        ensures cause { OnErr result (Rose (S.faults source.old) (S.faults source.new)) }
    {
        self.piece.read(source)?;
        let count = self.piece.bytes().len() as u32;
        if count > self.allowance {
            self.piece.cut(self.allowance as usize);
            self.allowance = 0;
            self.over = true;
            return Ok(true);
        }
        self.allowance -= count;
        Ok(count > 0)
    }

    // The answer at the source's end.
    #[inline(always)]
    fn finish(&mut self) -> Result<Event, LineError>
        requires unsettled { settled self.old ≡ None }
        requires empty { self.old.pending ≡ [] }
        requires within { self.old.over ≡ false }
        ensures given { Gives self.old self.new result }
        ensures answer { result ≢ Err LineError.Failed }
        ensures last { last_call result ≡ piece_call (Some 0) ∷ [] }
    {
        if !self.line.is_empty() {
            return Err(self.fail(FaultKind::Cut));
        }
        match self.stage {
            Stage::Closing => {
                self.stage = Stage::Ended;
                Ok(Event::End)
            }
            _ => Err(self.fail(FaultKind::NoEnd)),
        }
    }

    // The record has this fault in the line at hand.
    fn fail(&mut self, kind: FaultKind) -> LineError
        ensures answer { result ≡ LineError.Record (fault_in kind self.old) }
        ensures state { self.new ≡ record self.old {
          stage = Stage.Faulty (fault_in kind self.old);
        } }
    {
        let fault = RecordFault {
            kind,
            line: self.number,
        };
        self.stage = Stage::Faulty(fault);
        LineError::Record(fault)
    }
}

// Whether an event is the record's end.
fn is_end(event: &Event) -> bool
    ensures { result ≡ is_end_event event.now }
{
    matches!(event, Event::End)
}

// Whether the line that begins with these bytes and ends with the rest ends the record.
#[tactic(auto, using(crate::proofs::Needs::end_across))]
fn ends_record(line: &[u8], rest: &[u8]) -> bool
    ensures { result ≡ is_end (line.now ++ rest.now) }
{
    if line.is_empty() {
        return rest == b"E".as_slice();
    }
    line == b"E".as_slice() && rest.is_empty()
}

// The event of the line that begins with these bytes and ends with the rest; the line is empty afterwards.
fn event_across(line: &mut ArrayVec<u8, LONGEST>, rest: &[u8]) -> Option<Event>
    requires { array_vec_len line.old + length rest.now ≤ LONGEST }
    ensures event { result ≡ event_of (line.old.items ++ rest.now) }
    ensures empty { line.new.items ≡ [] }
{
    if line.is_empty() {
        return event_of(rest);
    }
    let _ = line.try_extend_from_slice(rest);
    let event = event_of(line.as_slice());
    line.clear();
    event
}
