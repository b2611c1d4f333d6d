// The block that a Tick writes: the rows that changed.
ghost use Rattle.std.specs.Prelude.{◌≡◌, ◌≤◌, ◌<◌, ◌+◌, ◌-◌, ◌^◌, ◌*◌, ◌++◌, [], ◌∷◌, length, decimal, get_or, slice_index_or, map, ℕ, Bool, true, false, List, if◌then◌else◌};
ghost use Rattle.std.specs.List.{list_any};
ghost use Rattle.std.specs.Borrow.{Bor};
ghost use Rattle.ecam_spec.specs.Picture as spec;
ghost use Rattle.ecam_spec.specs.Output as output;
ghost use Rattle.ecam_kinds.specs.Shown.{row_of, rows_of, picture_of};
ghost use Rattle.fwc_lane.specs.ChangedRows.{NoneChanged};
ghost use Rattle.replay_core.specs.Flagged.{flagged_lines, lines_from, NamesRows};

use arrayvec::ArrayVec;
use ecam_kinds::{Colour, Picture, ROWS, Row};
use itoa::Buffer;
use zone_rows::{DISPLAY, FLAGS, LAMPS, LEFT, RIGHT};

// A block's line of its number, and a line for each row of at most 47 bytes, take fewer bytes, as does the last line.
const BLOCK: usize = 2048;

pub(crate) type Block = ArrayVec<u8, BLOCK>;

// The names of the rows, in the picture's order.
const NAMES: [&str; ROWS] = [
    "L1", "L2", "L3", "L4", "L5", "L6", "L7", "R1", "R2", "R3", "R4", "R5", "R6", "R7", "FL",
    "S01", "S02", "S03", "S04", "S05", "S06", "S07", "S08", "S09", "S10", "S11", "S12", "S13",
    "S14", "S15", "S16", "S17", "S18", "MW", "MC", "AU",
];

fn letter_of(colour: Colour) -> &'static str
    ensures { result.now ≡ spec.colour_letter colour }
{
    match colour {
        Colour::Red => "R",
        Colour::Amber => "A",
        Colour::Green => "G",
        Colour::White => "W",
        Colour::Cyan => "C",
        Colour::Magenta => "M",
        Colour::Blank => "-",
    }
}

// Whether a flag is set. Its cost is a few looks at many flags at once.
fn has_any(flags: &[bool; ROWS]) -> bool
    ensures { result ≡ list_any (λ f. f) flags.now }
{
    flags.contains(&true)
}

// Appends bytes for which there is room.
pub(crate) fn put<const CAP: usize>(out: &mut ArrayVec<u8, CAP>, bytes: &[u8])
    requires { length out.old.items + length bytes.now ≤ CAP }
    ensures { out.new.items ≡ out.old.items ++ bytes.now }
{
    let _ = out.try_extend_from_slice(bytes);
}

// Appends a row's colour letter and its text.
fn put_text(out: &mut Block, row: &Row)
    requires { length out.old.items + 42 ≤ BLOCK }
    ensures text { out.new.items ≡ out.old.items
        ++ output.row_text row.now.colour row.now.text.items }
    ensures short { length out.new.items ≤ length out.old.items + 42 }
{
    let colour = row.colour;
    put(out, letter_of(colour).as_bytes());
    if let Colour::Blank = colour {
        return;
    }
    put(out, b" ");
    put(out, row.text.as_slice());
}

// Appends the line of a row.
fn put_row(out: &mut Block, name: &str, row: &Row)
    requires room { length out.old.items + 47 ≤ BLOCK }
    requires name { length name.now ≤ 3 }
    ensures line { out.new.items ≡ out.old.items ++ output.row_line name.now (row_of row.now) }
    ensures short { length out.new.items ≤ length out.old.items + 47 }
{
    put(out, name.as_bytes());
    put(out, b" ");
    put_text(out, row);
    put(out, b"\n");
}

// Appends the line of a row if it changed.
fn put_change(out: &mut Block, name: &str, changed: bool, row: &Row)
    requires room { length out.old.items + 47 ≤ BLOCK }
    requires name { length name.now ≤ 3 }
    ensures line { out.new.items ≡ out.old.items
        ++ (if changed then output.row_line name.now (row_of row.now) else []) }
    ensures short { length out.new.items ≤ length out.old.items + 47 }
{
    if changed {
        put_row(out, name, row);
    }
}

// The name of a row by its place in the picture.
fn name_in(names: &[&'static str], row: usize) -> &'static str
    requires names { map (λ (n : Bor (List ℕ)). n.now) names.now ≡ output.row_names }
    requires row { row < length names.now }
    ensures { result.now ≡ slice_index_or output.row_names row [] }
{
    names[row]
}

fn name_of(row: usize) -> &'static str
    requires { row < ROWS }
    ensures name { result.now ≡ slice_index_or output.row_names row [] }
    ensures short { length result.now ≤ 3 }
{
    name_in(&NAMES, row)
}

// Appends the line that begins the block of a Tick.
fn put_number(out: &mut Block, tick: u64)
    requires room { length out.old.items + 42 ≤ BLOCK }
    ensures line { out.new.items ≡ out.old.items ++ output.line (64 ∷ decimal tick) }
    ensures short { length out.new.items ≤ length out.old.items + 42 }
{
    let mut buffer = Buffer::new();
    put(out, b"@");
    put(out, buffer.format(tick).as_bytes());
    put(out, b"\n");
}

// Whether a flag of a zone is set. It looks at each, and doesn't end at the first that is set, so that it looks at many at
// once.
#[inline(always)]
fn has_any_in(flags: &[bool], from: usize, to: usize) -> bool
    requires { to ≤ length flags.now }
    ensures { result ≡ false → (i : ℕ) → from ≤ i → i < to → get_or flags.now i false ≡ false }
{
    let mut any = false;
    for i in from..to {
        any |= flags[i];
    }
    any
}

// Appends the lines of the rows of a zone whose flag is set.
#[inline(never)]
fn put_changes_in(out: &mut Block, changed: &[bool], rows: &[Row], from: usize, to: usize)
    requires order { from ≤ to }
    requires within { to ≤ ROWS }
    requires room { length out.old.items + 47 * (to - from) ≤ BLOCK }
    requires changed { length changed.now ≡ ROWS }
    requires rows { length rows.now ≡ ROWS }
    ensures lines { out.new.items ++ lines_from to changed.now rows.now
        ≡ out.old.items ++ lines_from from changed.now rows.now }
    ensures short { length out.new.items ≤ length out.old.items + 47 * (to - from) }
{
    for i in from..to {
        put_change(out, name_of(i), changed[i], &rows[i]);
    }
}

// The same, where no row of the zone is looked at if no flag of it is set.
#[inline(always)]
fn put_zone(out: &mut Block, changed: &[bool], rows: &[Row], from: usize, to: usize)
    requires order { from ≤ to }
    requires within { to ≤ ROWS }
    requires room { length out.old.items + 47 * (to - from) ≤ BLOCK }
    requires changed { length changed.now ≡ ROWS }
    requires rows { length rows.now ≡ ROWS }
    ensures lines { out.new.items ++ lines_from to changed.now rows.now
        ≡ out.old.items ++ lines_from from changed.now rows.now }
    ensures short { length out.new.items ≤ length out.old.items + 47 * (to - from) }
{
    if has_any_in(changed, from, to) {
        put_changes_in(out, changed, rows, from, to);
    }
}

// Appends the lines of the rows whose flag is set, zone by zone.
#[inline(never)]
fn put_changes(out: &mut Block, changed: &[bool], rows: &[Row])
    requires room { length out.old.items + 47 * ROWS ≤ BLOCK }
    requires changed { length changed.now ≡ ROWS }
    requires rows { length rows.now ≡ ROWS }
    ensures { out.new.items ≡ out.old.items
        ++ flagged_lines output.row_names changed.now (rows_of rows.now) }
{
    put_zone(out, changed, rows, LEFT, RIGHT);
    put_zone(out, changed, rows, RIGHT, FLAGS);
    put_zone(out, changed, rows, FLAGS, DISPLAY);
    put_zone(out, changed, rows, DISPLAY, LAMPS);
    put_zone(out, changed, rows, LAMPS, ROWS);
}

// Appends the block of a Tick that changed the rows whose flag is set.
#[inline(always)]
fn put_block(out: &mut Block, tick: u64, picture: &Picture, changed: &[bool; ROWS])
    requires room { length out.old.items + 42 + 47 * ROWS ≤ BLOCK }
    ensures { (old : spec.Picture) → NamesRows old (picture_of picture.now) changed.now
        → out.new.items ≡ out.old.items ++ output.block tick old (picture_of picture.now) }
{
    if !has_any(changed) {
        return;
    }
    put_number(out, tick);
    put_changes(out, changed, &picture.rows);
}

// Whether it is known that a Tick which changed the rows whose flag is set writes nothing. Where it is still no flag is set.
#[inline(always)]
pub(crate) fn writes_nothing(changed: &[bool; ROWS], still: bool) -> bool
    requires { still ≡ true → NoneChanged changed.now }
    ensures { result ≡ true → (tick : ℕ) (old new : spec.Picture) → NamesRows old new changed.now
        → output.block tick old new ≡ [] }
{
    let _ = changed;
    still
}

// Puts in place of what was there the block of Tick number `tick`, whose picture is this one and which changed the rows
// whose flag is set. Its cost is a few looks at many flags at once, and where any is set a look for each zone, one at each flag
// of a zone that has one, and a copy of each row that changed.
#[inline(always)]
pub(crate) fn renew(block: &mut Block, tick: u64, picture: &Picture, changed: &[bool; ROWS])
    ensures { (old : spec.Picture) → NamesRows old (picture_of picture.now) changed.now
        → block.new.items ≡ output.block tick old (picture_of picture.now) }
{
    block.clear();
    put_block(block, tick, picture, changed);
}

// The line that ends the output.
#[tactic(auto, unfolding(ecam_spec::specs::Output::end_line))]
pub(crate) fn end_line(ticks: u64) -> Block
    ensures { result.items ≡ output.end_line ticks }
{
    let mut line = Block::new();
    let mut buffer = Buffer::new();
    put(&mut line, b"END ");
    put(&mut line, buffer.format(ticks).as_bytes());
    put(&mut line, b"\n");
    line
}
