// The text of a row of a page, built in a buffer of fixed size.
ghost use Rattle.std.specs.Prelude.{◌≡◌, ◌<◌, ◌≤◌, ◌+◌, ◌++◌, ℕ, Option, None, length, replicate, option_map, IfSome};
ghost use Rattle.ecam_spec.specs.declared.kinds.Colour.{Colour};
ghost use Rattle.ecam_spec.specs.Picture as spec;
ghost use Rattle.ecam_spec.specs.KeepsLimits.{IsSoundRow};
ghost use Rattle.ecam_spec.specs.SystemDisplay.{Display, value_row, value_text, shown_value, page_row};
ghost use Rattle.book_model.specs.Sealed.{the_book};
ghost use Rattle.book_model.specs.View.{bytes_of, row_of};
ghost use Rattle.system_display.specs.Pages.{Displays, IsShort, AreShort, LeavesRoom};

use arrayvec::ArrayVec;
use book_model::{Book, Kind, PageRow};
use ecam_kinds::{Colour, ROW_TEXT};
use ecam_spec::limits;
use itoa::Buffer;

/// The text of one row.
pub type RowText = ArrayVec<u8, ROW_TEXT>;

/// In how many places a text stands in front of a value.
const TEXT_PLACES: usize = limits::VALUE_ROW_TEXT;

/// In how many places a value stands.
const VALUE_PLACES: usize = 8;

/// How many blanks stand between a text and a value at the most: as many as `put_blanks` has.
const BLANKS: usize = TEXT_PLACES + VALUE_PLACES;

/// Writes the text of a page's row, and answers its colour. Costs one look-up of a value, where the row shows one.
pub fn write_row(out: &mut RowText, book: &Book, row: &PageRow, values: &[Option<i64>]) -> Colour
    requires sound { IsSoundRow (length book.now.params.items) (row_of row.now) }
    requires values { length values.now ≡ length book.now.params.items }
    requires short { AreShort values.now }
    ensures { (d : Display) → Displays (the_book book.now) values.now d
        → spec.row result out.new.items ≡ page_row d (row_of row.now) row.now.show }
{
    match row.show {
        None => {
            out.clear();
            put(out, row.text.as_bytes());
            row.colour
        }
        Some(param) => {
            let param = param as usize;
            write_shown(out, row, book.params()[param].kind, values[param])
        }
    }
}

// Writes a row with a value of this kind, if it is there.
fn write_shown(out: &mut RowText, row: &PageRow, kind: Kind, value: Option<i64>) -> Colour
    requires room { LeavesRoom row.now }
    requires short { IfSome value IsShort }
    ensures { (d : Display) (p : ℕ) → d.kinds p ≡ kind
        → spec.row result out.new.items ≡ shown_value d (row_of row.now) p value }
{
    match value {
        None => {
            write_value(out, row, b"XX");
            Colour::Amber
        }
        Some(value) => {
            write_known(out, row, kind, value);
            Colour::Green
        }
    }
}

// Writes a row with this value: a discrete is ON or OFF, and a number is in decimal.
fn write_known(out: &mut RowText, row: &PageRow, kind: Kind, value: i64)
    requires room { LeavesRoom row.now }
    requires short { IsShort value }
    ensures { (c : Colour) → spec.row c out.new.items
        ≡ value_row row.now.text.bytes (option_map bytes_of row.now.unit) c
        (value_text kind value) }
{
    match kind {
        Kind::Disc => write_value(out, row, if value == 1 { b"ON" } else { b"OFF" }),
        Kind::Bnr | Kind::Bcd => {
            let mut buffer = Buffer::new();
            write_value(out, row, buffer.format(value).as_bytes());
        }
    }
}

// Writes a row with the text of a value: the row's text in 24 places, the value right in 8, and behind a blank the
// unit, if there is one.
fn write_value(out: &mut RowText, row: &PageRow, value: &[u8])
    requires room { LeavesRoom row.now }
    requires short { length value.now ≤ VALUE_PLACES }
    ensures { (c : Colour) → spec.row c out.new.items
        ≡ value_row row.now.text.bytes (option_map bytes_of row.now.unit) c value.now }
{
    // A new text in its place, so that the old one needn't be wiped.
    *out = RowText::new();
    put(out, row.text.as_bytes());
    let blanks = TEXT_PLACES - row.text.len() + (VALUE_PLACES - value.len());
    put_blanks(out, blanks);
    put(out, value);
    match &row.unit {
        None => {}
        Some(unit) => {
            put(out, b" ");
            put(out, unit.as_bytes());
        }
    }
}

fn put(out: &mut RowText, bytes: &[u8])
    requires { length out.old.items + length bytes.now ≤ ROW_TEXT }
    ensures { out.new.items ≡ out.old.items ++ bytes.now }
{
    let _ = out.try_extend_from_slice(bytes);
}

// Puts so many blanks, in one copy.
fn put_blanks(out: &mut RowText, count: usize)
    requires few { count ≤ BLANKS }
    requires room { length out.old.items + count ≤ ROW_TEXT }
    ensures { out.new.items ≡ out.old.items ++ replicate count 32 }
{
    let blanks = b"                                ".as_slice();
    put(out, &blanks[..count]);
}
