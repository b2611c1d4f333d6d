// The cancelled cautions on the status page.
ghost use Rattle.std.specs.Prelude.{◌≡◌, ◌<◌, ◌||◌, [], ◌∷◌, map, filter, length, codes, All, if◌then◌else◌};
ghost use Rattle.ecam_spec.specs.declared.kinds.Colour.TheVariants.{White, Amber};
ghost use Rattle.ecam_spec.specs.Picture as spec;
ghost use Rattle.ecam_spec.specs.StatusPage as page;
ghost use Rattle.ecam_spec.specs.Situation.{alert_at};
ghost use Rattle.book_model.specs.Sealed.{the_book};
ghost use Rattle.book_model.specs.Told.{flagged};
ghost use Rattle.zone_rows.specs.Tracked.{tracked, IsWhole};
ghost use Rattle.status_page.specs.Behind.{AppendsBehind};

use crate::place::{Place, put_row};
use book_model::{Book, Text};
use ecam_kinds::{Colour, Row};

/// Puts the titles of those alerts at some places that are cancelled, in the order of the places, under their
/// heading. Costs a look at each of these alerts.
pub(crate) fn put_cancelled(
    rows: &mut [Row],
    changed: &mut [bool],
    place: Place,
    book: &Book,
    places: &[u16],
    cancelled: &[bool],
) -> Place
    requires whole { IsWhole (tracked rows.old changed.old) }
    requires within { All (λ a. a < length book.now.alerts.items) places.now }
    requires cancelled { length cancelled.now ≡ length book.now.alerts.items }
    ensures whole { IsWhole (tracked rows.new changed.new) }
    ensures rows { let alerts = map (alert_at (the_book book.now))
        (filter (flagged cancelled.now) places.now) in
        AppendsBehind (page.cancelled_rows alerts) place result
        (tracked rows.old changed.old) (tracked rows.new changed.new) }
{
    let alerts = book.alerts();
    let mut place = place;
    let mut titled = false;
    for i in 0..places.len() {
        let alert = places[i] as usize;
        let listed = cancelled[alert];
        place = put_title(rows, changed, place, &alerts[alert].title, listed, titled);
        titled = is_either(titled, listed);
    }
    place
}

fn is_either(first: bool, second: bool) -> bool
    ensures { result ≡ (first || second) }
{
    first || second
}

// Puts a title, if its alert is listed, and the heading before the first one.
fn put_title(
    rows: &mut [Row],
    changed: &mut [bool],
    place: Place,
    title: &Text,
    listed: bool,
    titled: bool,
) -> Place
    requires whole { IsWhole (tracked rows.old changed.old) }
    ensures whole { IsWhole (tracked rows.new changed.new) }
    ensures rows { AppendsBehind (if listed then (if titled then spec.row Amber title.now.bytes ∷ []
        else spec.row White (codes "CANCELLED CAUTION") ∷ spec.row Amber title.now.bytes ∷ [])
        else []) place result
        (tracked rows.old changed.old) (tracked rows.new changed.new) }
{
    if !listed {
        return place;
    }
    let place = put_heading(rows, changed, place, titled);
    put_row(
        rows,
        changed,
        place,
        Colour::Amber,
        title.as_str().as_bytes(),
    )
}

fn put_heading(rows: &mut [Row], changed: &mut [bool], place: Place, titled: bool) -> Place
    requires whole { IsWhole (tracked rows.old changed.old) }
    ensures whole { IsWhole (tracked rows.new changed.new) }
    ensures row { AppendsBehind (if titled then []
        else spec.row White (codes "CANCELLED CAUTION") ∷ []) place result
        (tracked rows.old changed.old) (tracked rows.new changed.new) }
{
    if titled {
        return place;
    }
    put_row(rows, changed, place, Colour::White, b"CANCELLED CAUTION")
}
