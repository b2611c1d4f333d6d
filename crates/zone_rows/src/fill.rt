// A zone filled from its first row on.
ghost use Rattle.std.specs.Prelude.{◌≡◌, ◌+◌, ◌≤◌, ℕ, min, List, [], ◌∷◌, length};
ghost use Rattle.ecam_spec.specs.Picture as spec;
ghost use Rattle.zone_rows.specs.Tracked.{TrackedRows, tracked, IsWhole};
ghost use Rattle.zone_rows.specs.Mended.{Mends, IsFilled, Appends};

use crate::row::set_row;
use ecam_kinds::{Colour, ROW_TEXT, ROWS, Row};

/// Puts one more row into the zone of `room` rows that begins at `first`, where `count` rows were put into it so
/// far, and answers how many are put now. Beyond the room it writes nothing, and the count ends at one more than
/// the room. Costs what `set_row` costs.
pub fn put_next(
    rows: &mut [Row],
    changed: &mut [bool],
    first: usize,
    room: usize,
    count: usize,
    colour: Colour,
    text: &[u8],
) -> usize
    requires whole { IsWhole (tracked rows.old changed.old) }
    requires first { first ≤ ROWS }
    requires zone { first + room ≤ ROWS }
    requires text { length text.now ≤ ROW_TEXT }
    ensures whole { IsWhole (tracked rows.new changed.new) }
    ensures put { Appends first room (spec.row colour text.now ∷ []) count result
        (tracked rows.old changed.old) (tracked rows.new changed.new) }
    ensures count { result ≡ min (count + 1) (room + 1) }
{
    if count < room {
        set_row(rows, changed, first + count, colour, text);
        return count + 1;
    }
    room + 1
}

/// Ends the filling of a zone: those of its rows behind the `count` that were put become blank. Costs the
/// comparison of these rows.
pub fn blank_rest(rows: &mut [Row], changed: &mut [bool], first: usize, room: usize, count: usize)
    requires whole { IsWhole (tracked rows.old changed.old) }
    requires first { first ≤ ROWS }
    requires zone { first + room ≤ ROWS }
    ensures whole { IsWhole (tracked rows.new changed.new) }
    ensures zone { (put : List spec.Row) (start : TrackedRows)
        → IsFilled first room put count start (tracked rows.old changed.old)
        → Mends first (spec.zone room put) start (tracked rows.new changed.new) }
{
    for i in count..room {
        put_next(rows, changed, first, room, i, Colour::Blank, b"");
    }
}
