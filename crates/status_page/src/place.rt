// Where the next row of the status page goes: behind so many rows of earlier pages, and so many on this page.
ghost use Rattle.std.specs.Prelude.{◌≡◌, ◌≤◌, [], ◌∷◌, length};
ghost use Rattle.ecam_spec.specs.Picture as spec;
ghost use Rattle.zone_rows.specs.Tracked.{tracked, IsWhole};
ghost use Rattle.status_page.specs.Behind.{AppendsBehind};

use ecam_kinds::{Colour, ROW_TEXT, Row};
use ecam_spec::limits;
use zone_rows::{DISPLAY, put_next};

/// How many rows the system display has.
pub(crate) const ROOM: usize = limits::DISPLAY_ROWS;

/// How many rows of earlier pages are still to be passed over, and how many were put on this page, counted up to one
/// more than the room.
#[derive(Clone, Copy)]
pub(crate) struct Place {
    pub skip: usize,
    pub count: usize,
}

/// Passes over one row of an earlier page, or puts it on this page.
pub(crate) fn put_row(
    rows: &mut [Row],
    changed: &mut [bool],
    place: Place,
    colour: Colour,
    text: &[u8],
) -> Place
    requires whole { IsWhole (tracked rows.old changed.old) }
    requires text { length text.now ≤ ROW_TEXT }
    ensures whole { IsWhole (tracked rows.new changed.new) }
    ensures row { AppendsBehind (spec.row colour text.now ∷ []) place result
        (tracked rows.old changed.old) (tracked rows.new changed.new) }
{
    if place.skip > 0 {
        return Place {
            skip: place.skip - 1,
            count: place.count,
        };
    }
    Place {
        skip: 0,
        count: put_next(rows, changed, DISPLAY, ROOM, place.count, colour, text),
    }
}
