// The zones of the picture, each filled only where something that it shows turned.
ghost use Rattle.std.specs.Prelude.{◌≡◌, ◌<◌, ◌==◌, ◌||◌, ℕ, suc, nat_lt, false, true, length};
ghost use Rattle.ecam_spec.specs.Book as plain;
ghost use Rattle.ecam_spec.specs.History.{Moment};
ghost use Rattle.ecam_spec.specs.Screen.{left_in, right_in, status_in};
ghost use Rattle.ecam_kinds.specs.Shown.{rows_of};
ghost use Rattle.book_model.specs.Sealed.{the_book};
ghost use Rattle.zone_rows.specs.Tracked.{tracked, IsWhole};
ghost use Rattle.zone_rows.specs.Mended.{Mends};
ghost use Rattle.zone_rows.specs.Zones.{StandAt};
ghost use Rattle.warning_display.specs.LeftRows.{FillsLeft};
ghost use Rattle.warning_display.specs.RightRows.{FillsRight};
ghost use Rattle.fwc_lane.specs.Scenes.{SceneFits, SceneStands, AreTurned};
ghost use Rattle.fwc_lane.specs.Drawn.{AreCounts, LeftStands, RightStands, FlagsStand, flag_rows_in, lamp_rows_in};

use crate::counts::FlagCounts;
use crate::scene::{Scene, Turned};
use book_model::Book;
use ecam_kinds::{Picture, ROWS};
use status_page::has_status_rows_among;
use warning_display::{LeftCount, fill_flags, fill_lamps, fill_left_ranked, fill_right};

// Whether anything that the left zone shows turned.
fn left_turned(turned: Turned) -> bool
    ensures { result ≡ (turned.first || (turned.marks
        || (turned.lines || (turned.memos || turned.normal)))) }
{
    turned.first || turned.marks || turned.lines || turned.memos || turned.normal
}

/// L1 to L7. Answers what stands beyond them.
pub fn draw_left(
    book: &Book,
    scene: &Scene<'_>,
    turned: Turned,
    was: LeftCount,
    picture: &mut Picture,
    changed: &mut [bool; ROWS],
) -> LeftCount
    requires fits { SceneFits (the_book book.now) scene.now }
    requires whole { IsWhole (tracked picture.old.rows changed.old) }
    ensures whole { IsWhole (tracked picture.new.rows changed.new) }
    ensures rows { (m : ℕ → Moment) (k : ℕ) → SceneStands (the_book book.now) m k scene.now
        → AreTurned (the_book book.now) m k turned
        → ((j : ℕ) → k ≡ suc j → LeftStands (the_book book.now) m j (rows_of picture.old.rows) was)
        → FillsLeft (left_in (the_book book.now) m k) result (tracked picture.old.rows changed.old)
        (tracked picture.new.rows changed.new) }
{
    if !left_turned(turned) {
        return was;
    }
    fill_left_ranked(
        book,
        scene.marks.shown(),
        scene.marks.ranked(),
        scene.lines,
        scene.memos,
        scene.marks.normal(),
        picture,
        changed,
    )
}

// Whether anything that the right zone shows turned.
fn right_turned(turned: Turned, stars: bool) -> bool
    ensures { result ≡ (turned.first || (stars || turned.memos)) }
{
    turned.first || stars || turned.memos
}

/// R1 to R7. Answers how many rows stand beyond them.
pub fn draw_right(
    book: &Book,
    scene: &Scene<'_>,
    turned: Turned,
    was: u32,
    picture: &mut Picture,
    changed: &mut [bool; ROWS],
) -> u32
    requires fits { SceneFits (the_book book.now) scene.now }
    requires whole { IsWhole (tracked picture.old.rows changed.old) }
    ensures whole { IsWhole (tracked picture.new.rows changed.new) }
    ensures rows { (m : ℕ → Moment) (k : ℕ) → SceneStands (the_book book.now) m k scene.now
        → AreTurned (the_book book.now) m k turned
        → ((j : ℕ) → k ≡ suc j → RightStands (the_book book.now) m j (rows_of picture.old.rows) was)
        → FillsRight (right_in (the_book book.now) m k) result
        (tracked picture.old.rows changed.old) (tracked picture.new.rows changed.new) }
{
    if !right_turned(turned, scene.truths.stars_turned()) {
        return was;
    }
    fill_right(book, scene.truths.starred(), scene.memos, picture, changed)
}

// Whether any row of the status page may have turned.
fn status_turned(turned: Turned, truths: bool) -> bool
    ensures { result ≡ (turned.first || (truths || turned.marks)) }
{
    turned.first || truths || turned.marks
}

/// Whether the status page has any row. Costs nothing where no alert and no mark turned, unless the moment is the first; else
/// a look for each 64 alerts and at each near one, up to the first that has rows there, and, where the book has no status
/// lines, before that a look at each flag of the cancelled: where none is set, there are no rows.
pub fn has_status(book: &Book, scene: &Scene<'_>, turned: Turned, was: bool) -> bool
    requires { SceneFits (the_book book.now) scene.now }
    ensures { (m : ℕ → Moment) (k : ℕ) → SceneStands (the_book book.now) m k scene.now
        → AreTurned (the_book book.now) m k turned
        → ((j : ℕ) → k ≡ suc j → was ≡ nat_lt 0 (length (status_in (the_book book.now) m j)))
        → result ≡ nat_lt 0 (length (status_in (the_book book.now) m k)) }
{
    if !status_turned(turned, scene.truths.changed()) {
        return was;
    }
    has_status_rows_among(
        book,
        scene.has_status_lines,
        scene.truths.near(),
        scene.truths.active(),
        scene.marks.cancelled(),
    )
}

fn is_kept(first: bool, left: LeftCount, right: u32, status: bool, counts: &FlagCounts) -> bool
    ensures { result ≡ true → (first ≡ false)
        × (counts.now ≡ record { left = left; right = right; status = status }) }
{
    !first && left == counts.left && right == counts.right && status == counts.status
}

/// FL. Notes what it tells of where that turned.
pub fn draw_flags(
    first: bool,
    left: LeftCount,
    right: u32,
    status: bool,
    counts: &mut FlagCounts,
    picture: &mut Picture,
    changed: &mut [bool; ROWS],
)
    requires { IsWhole (tracked picture.old.rows changed.old) }
    ensures whole { IsWhole (tracked picture.new.rows changed.new) }
    ensures counts { counts.new ≡ record { left = left; right = right; status = status } }
    ensures rows { (b : plain.Book) (m : ℕ → Moment) (k : ℕ) → first ≡ (k == 0)
        → AreCounts b m k (record { left = left; right = right; status = status })
        → ((j : ℕ) → k ≡ suc j → FlagsStand b m j (rows_of picture.old.rows) counts.old)
        → Mends 14 (flag_rows_in b m k) (tracked picture.old.rows changed.old)
        (tracked picture.new.rows changed.new) }
{
    if is_kept(first, left, right, status, counts) {
        return;
    }
    counts.left = left;
    counts.right = right;
    counts.status = status;
    fill_flags(left, right, u32::from(status), picture, changed);
}

fn is_dark(first: bool, turned: bool) -> bool
    ensures { result ≡ true → (first ≡ false) × (turned ≡ false) }
{
    !first && !turned
}

/// MW, MC and AU.
pub fn draw_lamps(scene: &Scene<'_>, first: bool, picture: &mut Picture, changed: &mut [bool; ROWS])
    requires { IsWhole (tracked picture.old.rows changed.old) }
    ensures whole { IsWhole (tracked picture.new.rows changed.new) }
    ensures rows { (b : plain.Book) (m : ℕ → Moment) (k : ℕ) → first ≡ (k == 0)
        → SceneStands b m k scene.now
        → ((j : ℕ) → k ≡ suc j → StandAt 33 (lamp_rows_in b m j) (rows_of picture.old.rows))
        → Mends 33 (lamp_rows_in b m k) (tracked picture.old.rows changed.old)
        (tracked picture.new.rows changed.new) }
{
    if is_dark(first, scene.attention.changed()) {
        return;
    }
    fill_lamps(
        scene.attention.warn(),
        scene.attention.caut(),
        scene.attention.sound(),
        picture,
        changed,
    );
}
