// One row, written only where it differs.
ghost use Rattle.std.specs.Prelude.{◌≡◌, ◌<◌, ◌≤◌, [], ◌∷◌, length};
ghost use Rattle.ecam_spec.specs.Picture as spec;
ghost use Rattle.zone_rows.specs.Tracked.{tracked, IsWhole};
ghost use Rattle.zone_rows.specs.Mended.{Mends};

use ecam_kinds::{Colour, ROW_TEXT, ROWS, Row};

/// Gives the row at `place` (0 to 35) this colour and text, of at most 40 bytes, and tells whether it changed. A
/// row that stands so already is not written. Costs a comparison of the texts and, where they differ, a copy.
pub fn set_row(rows: &mut [Row], changed: &mut [bool], place: usize, colour: Colour, text: &[u8])
    requires whole { IsWhole (tracked rows.old changed.old) }
    requires place { place < ROWS }
    requires text { length text.now ≤ ROW_TEXT }
    ensures whole { IsWhole (tracked rows.new changed.new) }
    ensures row { Mends place (spec.row colour text.now ∷ [])
        (tracked rows.old changed.old) (tracked rows.new changed.new) }
{
    if rows[place].is(colour, text) {
        return;
    }
    // A new row in its place, so that the old text needn't be wiped.
    rows[place] = Row::new(colour, text);
    changed[place] = true;
}
