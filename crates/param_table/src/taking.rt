// A word comes to the mailboxes of the sources that take it.
ghost use Rattle.std.specs.Prelude.{◌≡◌, ℕ, ◌*◌, ◌/◌, ◌<◌, Some, false, length, IsTrue, All, if◌then◌else◌};
ghost use Rattle.ecam_spec.specs.Word.{is_odd, label};
ghost use Rattle.ecam_spec.specs.KeepsLimits.{IsSoundParameter};
ghost use Rattle.book_model.specs.Sealed.{the_book};
ghost use Rattle.book_model.specs.SourcePlaces.{listens, last_below, parameter_with};
ghost use Rattle.wakes.specs.Marks.{is_marked};
ghost use Rattle.param_table.specs.Taking.{takes_at};
ghost use Rattle.param_table.specs.Asked.{is_asked_at};
ghost use Rattle.param_table.specs.HeldValues.{received_at, renewed};
ghost use Rattle.param_table.specs.HeldState.{CameTo, Renews};
ghost use Rattle.param_table.specs.Routes.{AreRouted};
ghost use Rattle.param_table.specs.TableState.{HeldFits};

use crate::held::Held;
use crate::routing::Routing;
use crate::rules::SLOTS;
use arinc_words::Word;
use book_model::Book;

/// A word of odd parity comes, with the last place of a source that listens to its bus and label: each source that listens to
/// them, and names its SDI or none, takes it.
#[inline(always)]
pub fn receive(
    held: &mut Held,
    routing: &Routing,
    _book: &Book,
    clock: u32,
    _bus: u8,
    bits: u32,
    last: u16,
)
    requires last { Some last ≡ last_below
        (listens (the_book _book.now).parameters _bus (label bits))
        (3 * length (the_book _book.now).parameters) }
    requires odd { IsTrue (is_odd bits) }
    requires sound { All IsSoundParameter (the_book _book.now).parameters }
    requires routed { AreRouted (the_book _book.now) routing.now
        held.old.mailboxes.items.items }
    requires fits { HeldFits (the_book _book.now).parameters clock held.old }
    ensures routed { AreRouted (the_book _book.now) routing.now
        held.new.mailboxes.items.items }
    ensures fits { HeldFits (the_book _book.now).parameters clock held.new }
    ensures received { (q : ℕ)
        → received_at routing.now.rules.items.items held.new.mailboxes.items.items q
        ≡ (if takes_at (the_book _book.now).parameters (record { bus = _bus; bits = bits }) q
        then renewed clock (parameter_with (the_book _book.now).parameters q).stale bits
        else received_at routing.now.rules.items.items held.old.mailboxes.items.items q) }
    ensures renews { Renews (is_asked_at (the_book _book.now)) (the_book _book.now).parameters
        routing.now.rules.items.items clock held.old held.new }
    ensures others { (p : ℕ) → ((q : ℕ) → q / 3 ≡ p → takes_at (the_book _book.now).parameters
        (record { bus = _bus; bits = bits }) q ≡ false)
        → is_marked held.new.changed p ≡ is_marked held.old.changed p }
{
    let slots = SLOTS * usize::from(last);
    let any = usize::from(routing.routes[slots]);
    let named = usize::from(routing.routes[slots + 1 + usize::from(Word::new(bits).sdi())]);
    bring(held, routing, _book, clock, any, bits);
    bring(held, routing, _book, clock, named, bits);
}

// A word comes to the sources of a mailbox. The first mailbox is of none, so that nothing is written there.
#[inline(always)]
fn bring(held: &mut Held, routing: &Routing, _book: &Book, clock: u32, mailbox: usize, bits: u32)
    requires mailbox { mailbox < length held.old.mailboxes.items.items }
    requires sound { All IsSoundParameter (the_book _book.now).parameters }
    requires routed { AreRouted (the_book _book.now) routing.now
        held.old.mailboxes.items.items }
    requires fits { HeldFits (the_book _book.now).parameters clock held.old }
    ensures routed { AreRouted (the_book _book.now) routing.now
        held.new.mailboxes.items.items }
    ensures fits { HeldFits (the_book _book.now).parameters clock held.new }
    ensures came { CameTo routing.now.rules.items.items clock mailbox bits held.old held.new }
    ensures renews { Renews (is_asked_at (the_book _book.now)) (the_book _book.now).parameters
        routing.now.rules.items.items clock held.old held.new }
{
    if mailbox != 0 {
        held.deliver(&routing.listeners, clock, mailbox, bits);
    }
}
