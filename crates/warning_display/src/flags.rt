// The flags between the zones.
ghost use Rattle.std.specs.Prelude.{◌≡◌, ◌+◌, ◌++◌, ◌≤◌, ◌<◌, ◌^◌, List, [], ◌∷◌, length, codes, decimal, nat_lt, if◌then◌else◌};
ghost use Rattle.ecam_spec.specs.Book.{Text};
ghost use Rattle.ecam_spec.specs.Picture as spec;
ghost use Rattle.ecam_spec.specs.StatusPage as status;
ghost use Rattle.zone_rows.specs.Tracked.{tracked, IsWhole};
ghost use Rattle.zone_rows.specs.Mended.{Mends};
ghost use Rattle.warning_display.specs.FlagText.{IsJoined};

use crate::left::LeftCount;
use arrayvec::ArrayVec;
use ecam_kinds::{Colour, Picture, ROW_TEXT, ROWS, Row};
use itoa::Buffer;
use zone_rows::{FLAGS, set_row};

fn put(text: &mut ArrayVec<u8, ROW_TEXT>, bytes: &[u8])
    requires { length text.old.items + length bytes.now ≤ ROW_TEXT }
    ensures { text.new.items ≡ text.old.items ++ bytes.now }
{
    let _ = text.try_extend_from_slice(bytes);
}

// Adds a flag, behind a blank where it isn't the first.
fn put_flag(text: &mut ArrayVec<u8, ROW_TEXT>, flag: &[u8])
    requires some { 0 < length flag.now }
    requires room { length text.old.items + 1 + length flag.now ≤ ROW_TEXT }
    ensures joined { (flags : List Text) → IsJoined flags text.old.items
        → IsJoined (flags ++ flag.now ∷ []) text.new.items }
    ensures long { length text.new.items ≤ length text.old.items + 1 + length flag.now }
{
    if text.is_empty() {
        put(text, flag);
        return;
    }
    put(text, b" ");
    put(text, flag);
}

// Adds a flag that applies.
fn put_if(text: &mut ArrayVec<u8, ROW_TEXT>, applies: bool, flag: &[u8])
    requires some { 0 < length flag.now }
    requires room { length text.old.items + 1 + length flag.now ≤ ROW_TEXT }
    ensures joined { (flags : List Text) → IsJoined flags text.old.items
        → IsJoined (flags ++ (if applies then flag.now ∷ [] else [])) text.new.items }
    ensures long { length text.new.items ≤ length text.old.items + 1 + length flag.now }
{
    if applies {
        put_flag(text, flag);
    }
}

// Adds a flag of four bytes with a number of at most ten digits, where the number isn't 0.
fn put_number(text: &mut ArrayVec<u8, ROW_TEXT>, name: &[u8], number: u32)
    requires name { length name.now ≡ 4 }
    requires room { length text.old.items + 15 ≤ ROW_TEXT }
    ensures joined { (flags : List Text) → IsJoined flags text.old.items
        → IsJoined (flags ++ (if nat_lt 0 number then (name.now ++ decimal number) ∷ [] else []))
        text.new.items }
    ensures long { length text.new.items ≤ length text.old.items + 15 }
{
    if number == 0 {
        return;
    }
    let mut buffer = Buffer::new();
    let digits = buffer.format(number).as_bytes();
    let mut flag: ArrayVec<u8, ROW_TEXT> = ArrayVec::new();
    put(&mut flag, name);
    put(&mut flag, digits);
    put_flag(text, flag.as_slice());
}

fn put_flags(text: &mut ArrayVec<u8, ROW_TEXT>, left: LeftCount, right: u32, status_rows: u32)
    requires { text.old.items ≡ [] }
    ensures { (rows : List spec.Row) → length rows ≡ status_rows
        → IsJoined (status.flags left.more left.beyond right rows) text.new.items }
{
    put_if(text, left.more, b"v");
    put_number(text, b"OVF ", left.beyond);
    put_number(text, b"RGT ", right);
    put_if(text, status_rows > 0, b"STS");
}

fn fill_row(rows: &mut [Row], changed: &mut [bool], text: &[u8])
    requires whole { IsWhole (tracked rows.old changed.old) }
    requires text { length text.now ≤ ROW_TEXT }
    ensures whole { IsWhole (tracked rows.new changed.new) }
    ensures row { (flags : List Text) → IsJoined flags text.now
        → Mends 14 (status.flags_row flags ∷ [])
        (tracked rows.old changed.old) (tracked rows.new changed.new) }
{
    if text.is_empty() {
        set_row(rows, changed, FLAGS, Colour::Blank, b"");
    } else {
        set_row(rows, changed, FLAGS, Colour::White, text);
    }
}

/// Fills FL with the flags that apply, with one blank between them: `v` where the left zone has more rows than
/// seven, `OVF n` for the titles beyond them, `RGT n` for the rows of the right zone beyond its seventh, and `STS`
/// where the status page has rows. Costs the writing of a text of at most 35 bytes, and its comparison.
pub fn fill_flags(
    left: LeftCount,
    right: u32,
    status_rows: u32,
    picture: &mut Picture,
    changed: &mut [bool; ROWS],
)
    ensures whole { IsWhole (tracked picture.new.rows changed.new) }
    ensures row { (rows : List spec.Row) → length rows ≡ status_rows
        → Mends 14 (status.flags_row (status.flags left.more left.beyond right rows) ∷ [])
        (tracked picture.old.rows changed.old) (tracked picture.new.rows changed.new) }
{
    let mut text: ArrayVec<u8, ROW_TEXT> = ArrayVec::new();
    put_flags(&mut text, left, right, status_rows);
    fill_row(&mut picture.rows, changed, text.as_slice());
}
