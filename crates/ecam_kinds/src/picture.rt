// The rows of the displays, and the picture that they make.
ghost use Rattle.std.specs.Prelude.{◌≡◌, ◌≤◌, ◌<◌, ◌↔◌, length, replicate, IsTrue, slice_set};
ghost use Rattle.ecam_spec.specs.Picture as spec;
ghost use Rattle.ecam_kinds.specs.Shown.{row_of, rows_of, picture_of};

use arrayvec::ArrayVec;
use ecam_spec::{Colour, limits};

/// How many rows a picture has: L1 to L7, R1 to R7, FL, S01 to S18, MW, MC, AU.
pub const ROWS: usize = limits::PICTURE_ROWS;

/// The longest text of a row, in bytes.
pub const ROW_TEXT: usize = 40;

/// A row of a display. In a picture that is shown its text is empty exactly where its colour is `Blank`.
#[derive(Drop)]
pub struct Row {
    pub colour: Colour,
    pub text: ArrayVec<u8, ROW_TEXT>,
}

/// The 36 rows of the two displays and of the attention getters, in the order L1 to L7, R1 to R7, FL, S01 to
/// S18, MW, MC, AU.
#[derive(Drop)]
pub struct Picture {
    pub rows: [Row; ROWS],
}

impl Row {
    /// A row without text.
    pub fn blank() -> Row
        ensures { row_of result ≡ spec.blank_row }
    {
        Row {
            colour: Colour::Blank,
            text: ArrayVec::new(),
        }
    }

    /// A row of this text, of at most 40 bytes.
    pub fn new(colour: Colour, text: &[u8]) -> Row
        requires { length text.now ≤ ROW_TEXT }
        ensures { row_of result ≡ spec.row colour text.now }
    {
        let mut row = Row::blank();
        row.set(colour, text);
        row
    }

    /// Gives the row this colour and this text, of at most 40 bytes.
    pub fn set(&mut self, colour: Colour, text: &[u8])
        requires { length text.now ≤ ROW_TEXT }
        ensures { row_of self.new ≡ spec.row colour text.now }
    {
        self.colour = colour;
        self.text.clear();
        let _ = self.text.try_extend_from_slice(text);
    }

    /// Whether the row has this colour and this text.
    pub fn is(&self, colour: Colour, text: &[u8]) -> bool
        ensures { result ≡ spec.same_row (row_of self.now) (spec.row colour text.now) }
    {
        self.colour == colour && self.text.as_slice() == text
    }
}

impl Default for Row {
    ghost use Rattle.std.specs.Prelude.{◌≡◌};
    ghost use Rattle.ecam_spec.specs.Picture as spec;
    ghost use Rattle.ecam_kinds.specs.Shown.{row_of};

    ghost is_default = { λ r. row_of r ≡ spec.blank_row };

    fn default() -> Row {
        Row::blank()
    }
}

impl Picture {
    /// The picture with no row.
    pub fn blank() -> Picture
        ensures { picture_of result ≡ spec.blank }
    {
        Picture {
            rows: Default::default(),
        }
    }

    /// The picture while no computer is up.
    pub fn dead() -> Picture
        ensures { picture_of result ≡ spec.dead }
    {
        let mut picture = Picture::blank();
        picture.rows[0] = Row::new(Colour::Amber, b"FWS FWC 1+2 FAULT");
        picture
    }

    /// Makes the picture the same as another, in place: no row is made on the way. Costs a copy of each text.
    pub fn copy_from(&mut self, other: &Picture)
        ensures { picture_of self.new ≡ picture_of other.now }
    {
        copy_rows(&mut self.rows, &other.rows);
    }
}

fn copy_rows(rows: &mut [Row], other: &[Row])
    requires { length rows.old ≡ length other.now }
    ensures { rows_of rows.new ≡ rows_of other.now }
{
    for i in 0..rows.len() {
        copy_row(&mut rows[i], &other[i]);
    }
}

fn copy_row(row: &mut Row, other: &Row)
    ensures { row_of row.new ≡ row_of other.now }
{
    row.set(other.colour, other.text.as_slice());
}
