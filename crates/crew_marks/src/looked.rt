// The alerts that are looked at in a moment.
ghost use Rattle.std.specs.Prelude.{◌≡◌, ◌↔◌, ℕ, Bool, true, false, List, length};
ghost use Rattle.wakes.specs.Marks.{is_marked, room};
ghost use Rattle.book_model.specs.Sealed.{the_book};
ghost use Rattle.crew_marks.specs.MarkSets.{room_for, AreMany};
ghost use Rattle.crew_marks.specs.Looked.{AreAmong, AreLooked, StepsLooked};

use crate::mark::Actions;
use crate::sets::Sets;
use crate::walk::step_one;
use book_model::Book;
use wakes::Marked;

/// Takes those that turned, and where the crew acts those that are near and those that are marked too. Its cost is a write
/// for each 64 alerts, and where the crew acts two more.
pub fn take(looked: &mut Marked, sets: &Sets, near: &Marked, turned: &Marked, acts: bool)
    requires room { room looked.old ≡ room_for (length sets.now.cleared) }
    requires near { room near.now ≡ room_for (length sets.now.cleared) }
    requires turned { room turned.now ≡ room_for (length sets.now.cleared) }
    ensures room { room looked.new ≡ room looked.old }
    ensures turned { (a : ℕ) → is_marked turned.now a ≡ true → is_marked looked.new a ≡ true }
    ensures quiet { acts ≡ false → looked.new ≡ turned.now }
    ensures acts { acts ≡ true → (ups waits : List Bool) → AreAmong ups near.now
        → AreAmong waits near.now → AreLooked sets.now ups waits looked.new }
{
    looked.copy_from(turned);
    if acts {
        looked.join(near);
        sets.join_to(looked);
    }
}

/// Takes those that are up, wait or are marked. Its cost is two looks at each alert, and a write for each 64.
pub fn take_all(looked: &mut Marked, sets: &Sets, up: &[bool], waiting: &[bool])
    requires room { room looked.old ≡ room_for (length sets.now.cleared) }
    requires up { length up.now ≡ length sets.now.cleared }
    requires waiting { length waiting.now ≡ length sets.now.cleared }
    ensures room { room looked.new ≡ room looked.old }
    ensures all { AreLooked sets.now up.now waiting.now looked.new }
{
    looked.clear();
    sets.join_to(looked);
    for alert in 0..up.len() {
        if up[alert] | waiting[alert] {
            looked.mark(alert);
        }
    }
}

/// Steps the marks of those that are looked at, and answers whether one changed. The others keep theirs.
pub fn step_looked(
    sets: &mut Sets,
    looked: &Marked,
    book: &Book,
    up: &[bool],
    waiting: &[bool],
    target: Option<u32>,
    actions: &Actions,
) -> bool
    requires many { AreMany sets.old (length (the_book book.now).alerts) }
    requires up { length up.now ≡ length (the_book book.now).alerts }
    requires waiting { length waiting.now ≡ length (the_book book.now).alerts }
    ensures many { AreMany sets.new (length (the_book book.now).alerts) }
    ensures steps { StepsLooked (the_book book.now) up.now waiting.now looked.now target actions.now
        sets.old sets.new }
    ensures changed { (result ≡ false) ↔ (sets.new ≡ sets.old) }
{
    book.sealed();
    let mut changed = false;
    let mut next = looked.next_or(0, up.len());
    while next < up.len() {
        let turned = step_one(sets, book, up, waiting, target, next as u32, actions);
        changed |= turned;
        next = looked.next_or(next + 1, up.len());
    }
    changed
}
