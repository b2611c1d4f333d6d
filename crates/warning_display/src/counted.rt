// One more row of the left or the right zone, where all rows are counted, also those beyond the seventh.
ghost use Rattle.std.specs.Prelude.{◌+◌, ◌≤◌, ◌<◌, ◌^◌, [], ◌∷◌, length};
ghost use Rattle.ecam_spec.specs.Picture as spec;
ghost use Rattle.zone_rows.specs.Tracked.{tracked, IsWhole};
ghost use Rattle.warning_display.specs.Counted.{Adds};

use ecam_kinds::{Colour, ROW_TEXT, ROWS, Row};
use ecam_spec::limits;
use zone_rows::put_next;

/// How many rows the left zone has, and the right.
pub(crate) const ZONE: usize = limits::ZONE_ROWS;

/// Puts a row into the zone that begins at `first`, behind so many, and answers how many they are then.
pub(crate) fn put_counted(
    rows: &mut [Row],
    changed: &mut [bool],
    first: usize,
    total: usize,
    colour: Colour,
    text: &[u8],
) -> usize
    requires whole { IsWhole (tracked rows.old changed.old) }
    requires zone { first + 7 ≤ ROWS }
    requires few { total < 2 ^ 63 }
    requires text { length text.now ≤ ROW_TEXT }
    ensures whole { IsWhole (tracked rows.new changed.new) }
    ensures row { Adds first (spec.row colour text.now ∷ []) total result
        (tracked rows.old changed.old) (tracked rows.new changed.new) }
{
    put_next(
        rows,
        changed,
        first,
        ZONE,
        total.min(ZONE + 1),
        colour,
        text,
    );
    total + 1
}
