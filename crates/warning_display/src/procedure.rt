// An alert's rows in the left zone: its title, and the lines of its procedure that stand.
ghost use Rattle.std.specs.Prelude.{◌≡◌, ◌+◌, ◌≤◌, Bool, [], ◌∷◌, map, length, take, drop, if◌then◌else◌};
ghost use Rattle.ecam_spec.specs.Book as plain;
ghost use Rattle.ecam_spec.specs.LeftZone as zone;
ghost use Rattle.book_model.specs.View.{line_of};
ghost use Rattle.zone_rows.specs.Tracked.{tracked, IsWhole};
ghost use Rattle.zone_rows.specs.Mended.{Appends};
ghost use Rattle.book_model.specs.Told.{TellsOf};
ghost use Rattle.warning_display.specs.LeftRows.{line_row, line_rows, block};

use crate::counted::ZONE;
use book_model::{Alert, Line};
use ecam_kinds::{Colour, Level, Row};
use zone_rows::{LEFT, put_next};

fn title_colour(level: Level) -> Colour
    ensures { result ≡ zone.title_colour level }
{
    match level {
        Level::Three => Colour::Red,
        Level::Two => Colour::Amber,
        Level::One => Colour::Amber,
    }
}

fn put_line(
    rows: &mut [Row],
    changed: &mut [bool],
    count: usize,
    line: &Line,
    stands: bool,
) -> usize
    requires { IsWhole (tracked rows.old changed.old) }
    ensures whole { IsWhole (tracked rows.new changed.new) }
    ensures row { Appends 0 7 (if stands then line_row (line_of line.now) ∷ [] else []) count result
        (tracked rows.old changed.old) (tracked rows.new changed.new) }
{
    if !stands {
        return count;
    }
    put_next(
        rows,
        changed,
        LEFT,
        ZONE,
        count,
        line.colour,
        line.text.as_str().as_bytes(),
    )
}

fn put_lines(
    rows: &mut [Row],
    changed: &mut [bool],
    count: usize,
    lines: &[Line],
    stands: &[bool],
) -> usize
    requires whole { IsWhole (tracked rows.old changed.old) }
    requires told { length stands.now ≡ length lines.now }
    ensures whole { IsWhole (tracked rows.new changed.new) }
    ensures rows { (test : plain.Line → Bool) → TellsOf stands.now (map line_of lines.now) test
        → Appends 0 7 (line_rows test (map line_of lines.now)) count result
        (tracked rows.old changed.old) (tracked rows.new changed.new) }
{
    let mut count = count;
    for i in 0..lines.len() {
        count = put_line(rows, changed, count, &lines[i], stands[i]);
    }
    count
}

/// Puts an alert's title and then the lines of its procedure that stand behind the rows that were put into the
/// left zone so far, and answers their count then, as `put_next` does. Costs a look at each line.
pub(crate) fn put_alert(
    rows: &mut [Row],
    changed: &mut [bool],
    count: usize,
    alert: &Alert,
    stands: &[bool],
) -> usize
    requires whole { IsWhole (tracked rows.old changed.old) }
    requires told { length stands.now ≡ length alert.now.lines.items }
    ensures whole { IsWhole (tracked rows.new changed.new) }
    ensures rows { (test : plain.Line → Bool)
        → TellsOf stands.now (map line_of alert.now.lines.items) test
        → let lines = map line_of alert.now.lines.items in
        Appends 0 7 (block test alert.now.level alert.now.title.bytes lines) count result
        (tracked rows.old changed.old) (tracked rows.new changed.new) }
{
    let colour = title_colour(alert.level);
    let titled = put_next(
        rows,
        changed,
        LEFT,
        ZONE,
        count,
        colour,
        alert.title.as_str().as_bytes(),
    );
    put_lines(rows, changed, titled, alert.lines.as_slice(), stands)
}

/// So many flags, from a place on.
pub(crate) fn part(flags: &[bool], from: usize, count: usize) -> &[bool]
    requires { from + count ≤ length flags.now }
    ensures { result.now ≡ take count (drop from flags.now) }
{
    let behind = &flags[from..];
    &behind[..count]
}
