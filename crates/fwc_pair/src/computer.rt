// One computer of the pair, beside the other.
ghost use Rattle.std.specs.Prelude.{◌≡◌, ◌||◌, ◌+◌, true, false, length};
ghost use Rattle.ecam_spec.specs.declared.kinds.Event.TheVariants.{Word, Tick};
ghost use Rattle.ecam_spec.specs.Keys.{IsEvent};
ghost use Rattle.ecam_spec.specs.History.{Flags, Era, empty_era, era_with};
ghost use Rattle.ecam_spec.specs.Replay.{is_tick, moment_of};
ghost use Rattle.book_model.specs.Sealed.{the_book};
ghost use Rattle.fwc_lane.specs.LaneFits.{LaneFits, CanGoOn};
ghost use Rattle.fwc_lane.specs.LaneStands.{LaneStands, AreUp};
ghost use Rattle.fwc_lane.specs.Visits.{visits};
ghost use Rattle.fwc_pair.specs.PairVisits.{visited, Visits};

use book_model::Book;
use ecam_kinds::Event;
use fwc_lane::Lane;

/// Brings a computer up: one that was down takes over all that the other holds, or starts cold where that is down too.
/// Costs a write for each thing that a lane keeps, and nothing where it is up already.
pub(crate) fn wake(lane: &mut Lane, up: bool, other: &Lane, other_up: bool, book: &Book)
    requires lane { LaneFits (the_book book.now) lane.old }
    requires other { LaneFits (the_book book.now) other.now }
    ensures fits { LaneFits (the_book book.now) lane.new }
    ensures goes_on { (e : Era) → (up ≡ true → LaneStands (the_book book.now) e lane.old)
        → (other_up ≡ true → LaneStands (the_book book.now) e other.now) → (up || other_up) ≡ true
        → LaneStands (the_book book.now) e lane.new }
    ensures begins { (f : Flags) → (up || other_up) ≡ false
        → LaneStands (the_book book.now) (empty_era f) lane.new }
    ensures together { (up ≡ true → lane.old.moments ≡ other.now.moments) → other_up ≡ true
        → lane.new.moments ≡ other.now.moments }
    ensures unvisited { visited lane.new ≡ visited lane.old }
{
    if up {
        return;
    }
    if other_up {
        lane.copy_from(other);
    } else {
        lane.cold(book);
    }
}

/// An event that is no Tick comes to a computer, if it is up. Of one that is down nothing changes.
pub(crate) fn step(
    lane: &mut Lane,
    up: bool,
    book: &Book,
    event: &Event,
    one_up: bool,
    two_up: bool,
)
    requires fits { LaneFits (the_book book.now) lane.old }
    requires event { IsEvent event.now }
    requires quiet { is_tick event.now ≡ false }
    ensures fits { LaneFits (the_book book.now) lane.new }
    ensures stands { (e : Era) → AreUp (era_with e event.now) one_up two_up
        → (up ≡ true → LaneStands (the_book book.now) e lane.old) → up ≡ true
        → LaneStands (the_book book.now) (era_with e event.now) lane.new }
    ensures moments { lane.new.moments ≡ lane.old.moments }
    ensures unvisited { visited lane.new ≡ visited lane.old }
{
    if up {
        lane.event(book, event, one_up, two_up);
    }
}

/// The same, of a word.
#[inline(always)]
pub(crate) fn hear(lane: &mut Lane, up: bool, book: &Book, bus: u8, bits: u32)
    requires { LaneFits (the_book book.now) lane.old }
    ensures fits { LaneFits (the_book book.now) lane.new }
    ensures stands { (e : Era) → (up ≡ true → LaneStands (the_book book.now) e lane.old)
        → up ≡ true → LaneStands (the_book book.now) (era_with e (Word bus bits)) lane.new }
    ensures moments { lane.new.moments ≡ lane.old.moments }
    ensures unvisited { visited lane.new ≡ visited lane.old }
{
    if up {
        lane.word(book, bus, bits);
    }
}

/// A Tick comes to a computer, if it is up. Of one that is down nothing changes.
#[inline(always)]
pub(crate) fn tick(lane: &mut Lane, up: bool, book: &Book, one_up: bool, two_up: bool)
    requires fits { LaneFits (the_book book.now) lane.old }
    requires goes_on { up ≡ true → CanGoOn lane.old }
    ensures fits { LaneFits (the_book book.now) lane.new }
    ensures stands { (e : Era) → AreUp (era_with e Tick) one_up two_up
        → (up ≡ true → LaneStands (the_book book.now) e lane.old) → up ≡ true
        → LaneStands (the_book book.now) (era_with e Tick) lane.new }
    ensures moments { up ≡ true → lane.new.moments ≡ lane.old.moments + 1 }
    ensures visits { (e : Era) → AreUp (era_with e Tick) one_up two_up
        → (up ≡ true → LaneStands (the_book book.now) e lane.old)
        → Visits up (visits (the_book book.now) (moment_of (era_with e Tick)) (length e.moments))
        lane.old lane.new }
{
    if up {
        lane.tick(book, one_up, two_up);
    }
}
