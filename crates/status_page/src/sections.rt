// The lines of one section of the status page.
ghost use Rattle.std.specs.Prelude.{◌≡◌, ◌<◌, ◌==◌, [], ◌∷◌, map, length, filter, All, if◌then◌else◌};
ghost use Rattle.ecam_spec.specs.Picture as spec;
ghost use Rattle.ecam_spec.specs.Book as plain;
ghost use Rattle.ecam_spec.specs.StatusPage as page;
ghost use Rattle.ecam_spec.specs.Situation.{alert_at};
ghost use Rattle.book_model.specs.View.{status_of};
ghost use Rattle.book_model.specs.Sealed.{the_book};
ghost use Rattle.zone_rows.specs.Tracked.{tracked, IsWhole};
ghost use Rattle.status_page.specs.Behind.{AppendsBehind};

use crate::place::{Place, put_row};
use book_model::{Book, StatusLine};
use ecam_kinds::{Colour, Row};

// Puts those of an alert's lines that stand in a section.
fn put_lines(
    rows: &mut [Row],
    changed: &mut [bool],
    place: Place,
    lines: &[StatusLine],
    section: u8,
    colour: Colour,
) -> Place
    requires whole { IsWhole (tracked rows.old changed.old) }
    ensures whole { IsWhole (tracked rows.new changed.new) }
    ensures rows { AppendsBehind (map (λ (l : plain.StatusLine). spec.row colour l.text)
        (filter (λ (l : plain.StatusLine). l.section == section) (map status_of lines.now))) place
        result
        (tracked rows.old changed.old) (tracked rows.new changed.new) }
{
    let mut place = place;
    for i in 0..lines.len() {
        place = put_line(rows, changed, place, &lines[i], section, colour);
    }
    place
}

// Puts a line, if it stands in the section.
fn put_line(
    rows: &mut [Row],
    changed: &mut [bool],
    place: Place,
    line: &StatusLine,
    section: u8,
    colour: Colour,
) -> Place
    requires whole { IsWhole (tracked rows.old changed.old) }
    ensures whole { IsWhole (tracked rows.new changed.new) }
    ensures row { AppendsBehind (if line.now.section == section
        then spec.row colour line.now.text.bytes ∷ [] else []) place result
        (tracked rows.old changed.old) (tracked rows.new changed.new) }
{
    if line.section != section {
        return place;
    }
    put_row(rows, changed, place, colour, line.text.as_str().as_bytes())
}

/// Puts the lines of a section, alert by alert at some places of the book. Costs a look at each status line of these
/// alerts.
pub(crate) fn put_section(
    rows: &mut [Row],
    changed: &mut [bool],
    place: Place,
    book: &Book,
    places: &[u16],
    section: u8,
    colour: Colour,
) -> Place
    requires whole { IsWhole (tracked rows.old changed.old) }
    requires within { All (λ a. a < length book.now.alerts.items) places.now }
    ensures whole { IsWhole (tracked rows.new changed.new) }
    ensures rows { let alerts = map (alert_at (the_book book.now)) places.now in
        AppendsBehind (page.section_rows alerts (section, colour)) place result
        (tracked rows.old changed.old) (tracked rows.new changed.new) }
{
    let alerts = book.alerts();
    let mut place = place;
    for i in 0..places.len() {
        let alert = places[i] as usize;
        let lines = alerts[alert].status.as_slice();
        place = put_lines(rows, changed, place, lines, section, colour);
    }
    place
}
