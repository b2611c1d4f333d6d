// S01 to S18: a page of the book, or a status page.
ghost use Rattle.std.specs.Prelude.{◌≡◌, ◌<◌, ◌≤◌, ◌||◌, ℕ, suc, true, length, map, slice_get, find, IfSome};
ghost use Rattle.std.specs.Option.{option_and_then};
ghost use Rattle.ecam_spec.specs.Book as plain;
ghost use Rattle.ecam_spec.specs.Term.{in_set};
ghost use Rattle.ecam_spec.specs.History.{Moment};
ghost use Rattle.ecam_spec.specs.Situation.{alert_at};
ghost use Rattle.ecam_spec.specs.SystemDisplay.{Display, called_page, page_rows};
ghost use Rattle.wakes.specs.Marks.{room};
ghost use Rattle.book_model.specs.View.{page_of};
ghost use Rattle.ecam_kinds.specs.Shown.{rows_of};
ghost use Rattle.book_model.specs.Sealed.{the_book};
ghost use Rattle.zone_rows.specs.Tracked.{tracked, IsWhole};
ghost use Rattle.zone_rows.specs.Mended.{Mends};
ghost use Rattle.zone_rows.specs.Zones.{StandAt};
ghost use Rattle.system_display.specs.Pages.{Displays, AreShort};
ghost use Rattle.fwc_lane.specs.Scenes.{SceneFits, SceneStands, AreTurned, shown_turned};
ghost use Rattle.fwc_lane.specs.PageKept.{KeepsPage, PageStands, HasStood};
ghost use Rattle.fwc_lane.specs.Drawn.{display_rows_in};

use crate::scene::{Scene, Turned};
use book_model::{Book, Page};
use ecam_kinds::{Phase, Picture, ROWS};
use status_page::fill_status_among;
use system_display::{Choice, fill_page, mend_page};
use wakes::Marked;

// The first page that is shown in a phase of itself.
fn page_of_phase(pages: &[Page], phase: Phase) -> Option<usize>
    requires first { 1 ≤ phase.number }
    requires last { phase.number ≤ 10 }
    ensures page { option_and_then (slice_get (map page_of pages.now)) result
        ≡ find (λ (p : plain.Page). in_set p.phases phase.number) (map page_of pages.now) }
    ensures within { IfSome result (λ i. i < length pages.now) }
{
    for i in 0..pages.len() {
        if pages[i].phases.has(phase) {
            return Some(i);
        }
    }
    None
}

// The page that the situation calls for: that of the first shown alert, else the first of the phase.
fn called_page(book: &Book, first: Option<u32>, phase: Phase) -> Option<usize>
    requires alert { IfSome first (λ a. a < length book.now.alerts.items) }
    requires first { 1 ≤ phase.number }
    requires last { phase.number ≤ 10 }
    ensures page { (d : Display) → d.pages ≡ (the_book book.now).pages → d.phase ≡ phase.number
        → d.alert_page ≡ option_and_then (λ a. (alert_at (the_book book.now) a).page) first
        → option_and_then (slice_get (the_book book.now).pages) result ≡ called_page d }
    ensures within { IfSome result (λ i. i < length book.now.pages.items) }
{
    match page_of_alert(book, first) {
        Some(page) => Some(page),
        None => page_of_phase(book.pages(), phase),
    }
}

fn page_of_alert(book: &Book, first: Option<u32>) -> Option<usize>
    requires { IfSome first (λ a. a < length book.now.alerts.items) }
    ensures page { result ≡ option_and_then (λ a. (alert_at (the_book book.now) a).page) first }
    ensures within { IfSome result (λ i. i < length book.now.pages.items) }
{
    match first {
        None => None,
        Some(alert) => own_page(book, alert as usize),
    }
}

fn own_page(book: &Book, alert: usize) -> Option<usize>
    requires { alert < length book.now.alerts.items }
    ensures page { result ≡ (alert_at (the_book book.now) alert).page }
    ensures within { IfSome result (λ i. i < length book.now.pages.items) }
{
    let page = book.alerts()[alert].page;
    match page {
        None => None,
        Some(page) => Some(page as usize),
    }
}

// Whether anything that a page shows turned, or the choice of it.
fn display_turned(turned: Turned, choice: Choice, chosen: bool, truths: bool) -> bool
    ensures { result ≡ (turned.first || (chosen || shown_turned turned choice truths)) }
{
    turned.first || chosen || shown_turned(turned, choice, truths)
}

fn shown_turned(turned: Turned, choice: Choice, truths: bool) -> bool
    ensures { result ≡ shown_turned turned choice truths }
{
    match choice {
        Choice::Auto => turned.values || turned.marks || turned.phase,
        Choice::Page(_) => turned.values,
        Choice::Status(_) => truths || turned.marks,
    }
}

// Whether the page that is shown is that of the moment before, by what turned and the choice.
fn keeps_page(turned: Turned, choice: Choice, chosen: bool) -> bool
    ensures { result ≡ true → KeepsPage turned choice chosen }
{
    if turned.first || chosen {
        return false;
    }
    match choice {
        Choice::Auto => !(turned.marks || turned.phase),
        Choice::Page(_) => true,
        Choice::Status(_) => false,
    }
}

/// S01 to S18. Where the page is that of the moment before, only its rows of values that may have turned are compared.
pub fn draw_display(
    book: &Book,
    scene: &Scene<'_>,
    turned: Turned,
    picture: &mut Picture,
    changed: &mut [bool; ROWS],
)
    requires fits { SceneFits (the_book book.now) scene.now }
    requires whole { IsWhole (tracked picture.old.rows changed.old) }
    ensures whole { IsWhole (tracked picture.new.rows changed.new) }
    ensures rows { (m : ℕ → Moment) (k : ℕ) → SceneStands (the_book book.now) m k scene.now
        → AreTurned (the_book book.now) m k turned
        → ((j : ℕ) → k ≡ suc j → StandAt 15 (display_rows_in (the_book book.now) m j)
        (rows_of picture.old.rows))
        → Mends 15 (display_rows_in (the_book book.now) m k) (tracked picture.old.rows changed.old)
        (tracked picture.new.rows changed.new) }
{
    let choice = scene.selector.choice();
    let chosen = scene.selector.changed();
    if !display_turned(turned, choice, chosen, scene.truths.changed()) {
        return;
    }
    let stays = keeps_page(turned, choice, chosen);
    fill_display(book, scene, stays, picture, changed);
}

fn fill_display(
    book: &Book,
    scene: &Scene<'_>,
    stays: bool,
    picture: &mut Picture,
    changed: &mut [bool; ROWS],
)
    requires fits { SceneFits (the_book book.now) scene.now }
    requires whole { IsWhole (tracked picture.old.rows changed.old) }
    ensures whole { IsWhole (tracked picture.new.rows changed.new) }
    ensures rows { (m : ℕ → Moment) (k : ℕ) → SceneStands (the_book book.now) m k scene.now
        → (stays ≡ true → PageStands (the_book book.now) m k (rows_of picture.old.rows))
        → Mends 15 (display_rows_in (the_book book.now) m k) (tracked picture.old.rows changed.old)
        (tracked picture.new.rows changed.new) }
{
    match scene.selector.choice() {
        Choice::Auto => {
            let page = called_page(book, scene.marks.first(), scene.phase);
            draw_page(
                book,
                page,
                scene.values,
                scene.turned,
                stays,
                picture,
                changed,
            );
        }
        Choice::Page(page) => draw_page(
            book,
            Some(page),
            scene.values,
            scene.turned,
            stays,
            picture,
            changed,
        ),
        Choice::Status(page) => fill_status_among(
            book,
            scene.has_status_lines,
            scene.truths.near(),
            scene.truths.active(),
            scene.marks.cancelled(),
            page,
            picture,
            changed,
        ),
    }
}

// A page with the values of the moment: where it stays it is mended, else filled. (It takes lists and no scene, which would
// have to stand in memory for it.)
fn draw_page(
    book: &Book,
    page: Option<usize>,
    values: &[Option<i64>],
    turned: &Marked,
    stays: bool,
    picture: &mut Picture,
    changed: &mut [bool; ROWS],
)
    requires page { IfSome page (λ i. i < length book.now.pages.items) }
    requires values { length values.now ≡ length book.now.params.items }
    requires turned { length book.now.params.items ≤ room turned.now }
    requires short { AreShort values.now }
    requires whole { IsWhole (tracked picture.old.rows changed.old) }
    ensures whole { IsWhole (tracked picture.new.rows changed.new) }
    ensures rows { (d : Display) → Displays (the_book book.now) values.now d
        → (stays ≡ true → HasStood (the_book book.now) turned.now d
        (option_and_then (slice_get (the_book book.now).pages) page) (rows_of picture.old.rows))
        → Mends 15 (page_rows d (option_and_then (slice_get (the_book book.now).pages) page))
        (tracked picture.old.rows changed.old) (tracked picture.new.rows changed.new) }
{
    if stays {
        mend_page(book, page, values, turned, picture, changed);
    } else {
        fill_page(book, page, values, picture, changed);
    }
}
