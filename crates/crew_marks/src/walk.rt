// One moment of the marks of all alerts.
ghost use Rattle.std.specs.Prelude.{◌≡◌, ◌↔◌, ◌<◌, false, length, find, slice_index_or};
ghost use Rattle.ecam_spec.specs.Levels.{is_caution_level};
ghost use Rattle.ecam_spec.specs.Screen.{order};
ghost use Rattle.book_model.specs.Sealed.{the_book};
ghost use Rattle.crew_marks.specs.MarkSets.{mark_at, set_mark, HasMark, AreMany};
ghost use Rattle.crew_marks.specs.MarkStep.{mark_after, sight_of};
ghost use Rattle.crew_marks.specs.Looked.{StepsLooked};

use crate::looked::step_looked;
use crate::mark::{Actions, Sight};
use crate::sets::Sets;
use book_model::Book;
use ecam_kinds::Level;
use wakes::Marked;

/// What a walk over the alerts found.
#[derive(Clone, Copy, Debug)]
pub struct Walked {
    /// The first alert, in order, that is shown.
    pub first: Option<u32>,
    /// A mark changed.
    pub changed: bool,
}

impl Walked {
    /// No mark changed, and this is still the first alert that is shown.
    pub fn unchanged(first: Option<u32>) -> Walked
        ensures first { result.first ≡ first }
        ensures changed { result.changed ≡ false }
    {
        Walked {
            first,
            changed: false,
        }
    }
}

/// Steps the marks of those that are looked at by one moment, where the target is the first alert that is shown before it.
/// The others keep theirs. Its cost is a look for each 64 alerts, a few looks at each of these, a few writes for each mark
/// that changes, and where one does, a look for each 64 alerts up to the first that is shown then.
pub fn walk(
    sets: &mut Sets,
    looked: &Marked,
    book: &Book,
    up: &[bool],
    waiting: &[bool],
    target: Option<u32>,
    actions: &Actions,
) -> Walked
    requires many { AreMany sets.old (length (the_book book.now).alerts) }
    requires order { sets.old.order ≡ order (the_book book.now) }
    requires up { length up.now ≡ length (the_book book.now).alerts }
    requires waiting { length waiting.now ≡ length (the_book book.now).alerts }
    requires target { target
        ≡ find (λ a. slice_index_or sets.old.shown a false) (order (the_book book.now)) }
    ensures many { AreMany sets.new (length (the_book book.now).alerts) }
    ensures steps { StepsLooked (the_book book.now) up.now waiting.now looked.now target actions.now
        sets.old sets.new }
    ensures first { result.first
        ≡ find (λ a. slice_index_or sets.new.shown a false) (order (the_book book.now)) }
    ensures changed { (result.changed ≡ false) ↔ (sets.new ≡ sets.old) }
{
    let changed = step_looked(sets, looked, book, up, waiting, target, actions);
    if !changed {
        return Walked::unchanged(target);
    }
    let first = sets.first();
    Walked { first, changed }
}

/// Steps the mark of one alert, and answers whether that changed it. Its cost is two looks where the crew does nothing and
/// the alert is shown exactly where it is up, untouched by the crew.
pub fn step_one(
    sets: &mut Sets,
    book: &Book,
    up: &[bool],
    waiting: &[bool],
    target: Option<u32>,
    place: u32,
    actions: &Actions,
) -> bool
    requires place { place < length (the_book book.now).alerts }
    requires has { HasMark sets.old place }
    requires up { length up.now ≡ length (the_book book.now).alerts }
    requires waiting { length waiting.now ≡ length (the_book book.now).alerts }
    ensures mark { sets.new ≡ set_mark sets.old place (mark_after (mark_at sets.old place)
        (sight_of (the_book book.now) up.now waiting.now target place) actions.now) }
    ensures changed { (result ≡ false) ↔ (sets.new ≡ sets.old) }
{
    let alert = place as usize;
    if !actions.act() && sets.is_settled(alert, up[alert]) {
        return false;
    }
    let sight = look(book, up, waiting, target, place);
    sets.step(alert, &sight, actions)
}

// How an alert stands in the moment.
fn look(book: &Book, up: &[bool], waiting: &[bool], target: Option<u32>, place: u32) -> Sight
    requires place { place < length (the_book book.now).alerts }
    requires up { length up.now ≡ length (the_book book.now).alerts }
    requires waiting { length waiting.now ≡ length (the_book book.now).alerts }
    ensures { result ≡ sight_of (the_book book.now) up.now waiting.now target place }
{
    let alert = place as usize;
    let level = book.alerts()[alert].level;
    Sight {
        up: up[alert],
        waiting: waiting[alert],
        is_caution: is_caution(level),
        is_target: Some(place) == target,
    }
}

fn is_caution(level: Level) -> bool
    ensures { result ≡ is_caution_level level }
{
    match level {
        Level::One | Level::Two => true,
        Level::Three => false,
    }
}
