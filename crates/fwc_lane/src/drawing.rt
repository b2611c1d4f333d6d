// The picture of a moment.
ghost use Rattle.std.specs.Prelude.{◌≡◌, ◌<◌, ℕ, suc, false, slice_index_or};
ghost use Rattle.ecam_spec.specs.History.{Moment};
ghost use Rattle.ecam_spec.specs.Screen.{picture_in};
ghost use Rattle.ecam_kinds.specs.Shown.{picture_of};
ghost use Rattle.book_model.specs.Sealed.{the_book};
ghost use Rattle.zone_rows.specs.Tracked.{tracked, IsWhole};
ghost use Rattle.fwc_lane.specs.ChangedRows.{TellsRows};
ghost use Rattle.fwc_lane.specs.Scenes.{SceneFits, SceneStands, AreTurned};
ghost use Rattle.fwc_lane.specs.Drawn.{IsDrawn};

use crate::counts::FlagCounts;
use crate::display::draw_display;
use crate::scene::{Scene, Turned};
use crate::zones::{draw_flags, draw_lamps, draw_left, draw_right, has_status};
use book_model::Book;
use ecam_kinds::{Picture, ROWS, Row};

// No row has changed yet.
fn forget(_rows: &[Row], changed: &mut [bool])
    requires { IsWhole (tracked _rows.now changed.old) }
    ensures whole { IsWhole (tracked _rows.now changed.new) }
    ensures none { (i : ℕ) → i < ROWS → slice_index_or changed.new i false ≡ false }
{
    changed.fill(false);
}

/// Mends the picture so that it shows the moment, tells in `changed` exactly the rows that differ from what they were, and
/// notes what FL tells of. A zone of which nothing turned costs nothing; no picture is made on the way, and of a status page
/// that isn't shown no row is made or counted.
pub fn draw(
    book: &Book,
    scene: &Scene<'_>,
    turned: Turned,
    counts: &mut FlagCounts,
    picture: &mut Picture,
    changed: &mut [bool; ROWS],
)
    requires { SceneFits (the_book book.now) scene.now }
    ensures drawn { (m : ℕ → Moment) (k : ℕ) → SceneStands (the_book book.now) m k scene.now
        → AreTurned (the_book book.now) m k turned
        → IsDrawn (the_book book.now) m k (picture_of picture.old) counts.old
        → IsDrawn (the_book book.now) m (suc k) (picture_of picture.new) counts.new }
    ensures changed { (m : ℕ → Moment) (k : ℕ) → SceneStands (the_book book.now) m k scene.now
        → AreTurned (the_book book.now) m k turned
        → IsDrawn (the_book book.now) m k (picture_of picture.old) counts.old
        → TellsRows (picture_in (the_book book.now) m) (suc k) changed.new }
{
    forget(&picture.rows, changed);
    let left = draw_left(book, scene, turned, counts.left, picture, changed);
    let right = draw_right(book, scene, turned, counts.right, picture, changed);
    let status = has_status(book, scene, turned, counts.status);
    draw_flags(turned.first, left, right, status, counts, picture, changed);
    draw_display(book, scene, turned, picture, changed);
    draw_lamps(scene, turned.first, picture, changed);
}
