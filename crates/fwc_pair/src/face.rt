// The picture of the last Tick, mended in place, and the rows that it changed.
ghost use Rattle.std.specs.Prelude.{◌≡◌, ◌||◌, ◌<◌, ◌≤◌, [], ◌∷◌, true, false, length, get_or, replicate, ℕ};
ghost use Rattle.ecam_spec.specs.Picture as spec;
ghost use Rattle.ecam_kinds.specs.Shown.{row_of, rows_of, picture_of};
ghost use Rattle.zone_rows.specs.Tracked.{tracked, IsWhole};
ghost use Rattle.zone_rows.specs.Mended.{Mends};
ghost use Rattle.zone_rows.specs.Zones.{IsMended};
ghost use Rattle.fwc_lane.specs.ChangedRows.{NoneChanged};
ghost use Rattle.fwc_pair.specs.Faces.{IsShown, OthersStand, MendsNext, NamesChanges};

use ecam_kinds::{Colour, Picture, ROWS, Row};
use fwc_lane::Lane;
use zone_rows::{DISPLAY, FLAGS, LAMPS, LEFT, RIGHT, blank_rest, put_next, set_row};

// Puts a row of a picture in its place, if it is named. A row that isn't has to stand there already.
fn mend_row(rows: &mut [Row], changed: &mut [bool], place: usize, row: &Row, named: bool)
    requires whole { IsWhole (tracked rows.old changed.old) }
    requires place { place < ROWS }
    ensures whole { IsWhole (tracked rows.new changed.new) }
    ensures row { (named ≡ false → get_or (rows_of rows.old) place spec.blank_row ≡ row_of row.now)
        → Mends place (row_of row.now ∷ []) (tracked rows.old changed.old)
        (tracked rows.new changed.new) }
{
    if named {
        set_row(rows, changed, place, row.colour, row.text.as_slice());
    }
}

// Whether any row is named, or all are meant. Its cost is a few looks at many flags at once.
fn has_any(named: &[bool; ROWS], all: bool) -> bool
    ensures all { result ≡ false → all ≡ false }
    ensures named { result ≡ false → NoneChanged named.now }
{
    all || named.contains(&true)
}

// Whether any row of a zone is named. It looks at each flag of the zone, and doesn't end at the first that is set, so that it
// looks at many at once.
#[inline(always)]
fn has_any_in(named: &[bool; ROWS], from: usize, to: usize) -> bool
    requires { to ≤ ROWS }
    ensures { result ≡ false → (i : ℕ) → from ≤ i → i < to → get_or named.now i false ≡ false }
{
    let mut any = false;
    for i in from..to {
        any |= named[i];
    }
    any
}

// Puts the named rows of a zone, or all of them, in their places.
#[inline(never)]
fn mend_rows_in(
    rows: &mut [Row],
    changed: &mut [bool],
    picture: &[Row],
    named: &[bool; ROWS],
    all: bool,
    from: usize,
    to: usize,
)
    requires whole { IsWhole (tracked rows.old changed.old) }
    requires picture { length picture.now ≡ ROWS }
    requires order { from ≤ to }
    requires within { to ≤ ROWS }
    ensures whole { IsWhole (tracked rows.new changed.new) }
    ensures mended { MendsNext from to all named.now (rows_of picture.now)
        (tracked rows.old changed.old) (tracked rows.new changed.new) }
{
    for i in from..to {
        mend_row(rows, changed, i, &picture[i], all | named[i]);
    }
}

// The same, where no row of the zone is looked at if none is named.
#[inline(always)]
fn mend_zone(
    rows: &mut [Row],
    changed: &mut [bool],
    picture: &[Row],
    named: &[bool; ROWS],
    all: bool,
    from: usize,
    to: usize,
)
    requires whole { IsWhole (tracked rows.old changed.old) }
    requires picture { length picture.now ≡ ROWS }
    requires order { from ≤ to }
    requires within { to ≤ ROWS }
    ensures whole { IsWhole (tracked rows.new changed.new) }
    ensures mended { MendsNext from to all named.now (rows_of picture.now)
        (tracked rows.old changed.old) (tracked rows.new changed.new) }
{
    let any = all | has_any_in(named, from, to);
    if any {
        mend_rows_in(rows, changed, picture, named, all, from, to);
    }
}

// Puts the named rows of a picture, or all of them, in their places, zone by zone.
#[inline(never)]
fn mend_rows(
    rows: &mut [Row],
    changed: &mut [bool],
    picture: &[Row],
    named: &[bool; ROWS],
    all: bool,
)
    requires whole { IsWhole (tracked rows.old changed.old) }
    requires picture { length picture.now ≡ ROWS }
    ensures whole { IsWhole (tracked rows.new changed.new) }
    ensures mended { (all ≡ false → OthersStand named.now (rows_of rows.old) (rows_of picture.now))
        → IsMended (rows_of picture.now) (tracked rows.old changed.old)
        (tracked rows.new changed.new) }
{
    mend_zone(rows, changed, picture, named, all, LEFT, RIGHT);
    mend_zone(rows, changed, picture, named, all, RIGHT, FLAGS);
    mend_zone(rows, changed, picture, named, all, FLAGS, DISPLAY);
    mend_zone(rows, changed, picture, named, all, DISPLAY, LAMPS);
    mend_zone(rows, changed, picture, named, all, LAMPS, ROWS);
}

// The same, where no row is looked at if none is named.
#[inline(always)]
fn mend(rows: &mut [Row], changed: &mut [bool], picture: &[Row], named: &[bool; ROWS], all: bool)
    requires whole { IsWhole (tracked rows.old changed.old) }
    requires picture { length picture.now ≡ ROWS }
    ensures whole { IsWhole (tracked rows.new changed.new) }
    ensures mended { (all ≡ false → OthersStand named.now (rows_of rows.old) (rows_of picture.now))
        → IsMended (rows_of picture.now) (tracked rows.old changed.old)
        (tracked rows.new changed.new) }
{
    if has_any(named, all) {
        mend_rows(rows, changed, picture, named, all);
    }
}

// Rows of which none is named stand mended as they are.
#[inline(always)]
fn keep(_rows: &[Row], _changed: &[bool], _picture: &[Row], _named: &[bool; ROWS])
    requires whole { IsWhole (tracked _rows.now _changed.now) }
    requires picture { length _picture.now ≡ ROWS }
    requires named { NoneChanged _named.now }
    ensures { OthersStand _named.now (rows_of _rows.now) (rows_of _picture.now)
        → IsMended (rows_of _picture.now) (tracked _rows.now _changed.now)
        (tracked _rows.now _changed.now) }
{}

// Mends the rows so that the picture stands that is shown while no computer is up.
fn mend_dead(rows: &mut [Row], changed: &mut [bool])
    requires whole { IsWhole (tracked rows.old changed.old) }
    ensures whole { IsWhole (tracked rows.new changed.new) }
    ensures mended { IsMended spec.dead (tracked rows.old changed.old)
        (tracked rows.new changed.new) }
{
    let count = put_next(
        rows,
        changed,
        0,
        ROWS,
        0,
        Colour::Amber,
        b"FWS FWC 1+2 FAULT",
    );
    blank_rest(rows, changed, 0, ROWS, count);
}

// Shows what a lane shows, and answers whether it is known that no row changed. Only the rows that the lane names as changed
// are compared, but for the first moment of an era: what stood before that is none of its pictures.
#[inline(always)]
fn show_lane(face: &mut Picture, changed: &mut [bool; ROWS], lane: &Lane) -> bool
    requires none { changed.old ≡ replicate ROWS false }
    requires calm { lane.now.calm ≡ true → NoneChanged lane.now.changed }
    ensures shown { NamesChanges lane.now (picture_of face.old)
        → IsShown (picture_of lane.now.picture) (picture_of face.old) (picture_of face.new)
        changed.new }
    ensures still { result ≡ true → NoneChanged changed.new }
{
    let begins = lane.moments < 2;
    if lane.calm && !begins {
        keep(&face.rows, changed, &lane.picture.rows, &lane.changed);
        return true;
    }
    mend(
        &mut face.rows,
        changed,
        &lane.picture.rows,
        &lane.changed,
        begins,
    );
    false
}

#[inline(never)]
fn show_dead(face: &mut Picture, changed: &mut [bool; ROWS])
    requires { changed.old ≡ replicate ROWS false }
    ensures { IsShown spec.dead (picture_of face.old) (picture_of face.new) changed.new }
{
    mend_dead(&mut face.rows, changed);
}

/// Shows what the first computer that is up shows, or that none is, and notes in `still` whether it is known that no row
/// changed. Costs at most the comparison of each row, and a copy of those that differ; after the first moment of an era no
/// row is looked at but those that the computer changed, and where it is calm none.
#[inline(always)]
pub(crate) fn show(
    face: &mut Picture,
    changed: &mut [bool; ROWS],
    still: &mut bool,
    one: &Lane,
    one_up: bool,
    two: &Lane,
    two_up: bool,
)
    requires one { one.now.calm ≡ true → NoneChanged one.now.changed }
    requires two { two.now.calm ≡ true → NoneChanged two.now.changed }
    ensures still { still.new ≡ true → NoneChanged changed.new }
    ensures one { one_up ≡ true → NamesChanges one.now (picture_of face.old)
        → IsShown (picture_of one.now.picture) (picture_of face.old) (picture_of face.new)
        changed.new }
    ensures two { one_up ≡ false → two_up ≡ true → NamesChanges two.now (picture_of face.old)
        → IsShown (picture_of two.now.picture) (picture_of face.old) (picture_of face.new)
        changed.new }
    ensures dead { (one_up || two_up) ≡ false
        → IsShown spec.dead (picture_of face.old) (picture_of face.new) changed.new }
{
    *changed = [false; ROWS];
    if one_up {
        *still = show_lane(face, changed, one);
    } else if two_up {
        *still = show_lane(face, changed, two);
    } else {
        show_dead(face, changed);
        *still = false;
    }
}
