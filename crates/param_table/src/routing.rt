// Which mailboxes a word comes to, and who listens to them.
ghost use Rattle.std.specs.Prelude.{◌≡◌, ◌*◌, ◌+◌, ◌<◌, ◌≤◌, ◌++◌, [], ◌∷◌, ℕ, false, length, slice_index_or, vec_len, All, IfOk};
ghost use Rattle.std.specs.Box.{boxed_slice_items};
ghost use Rattle.book_model.specs.Sealed.{the_book};
ghost use Rattle.param_table.specs.Asked.{is_asked_at, is_asked_for};
ghost use Rattle.param_table.specs.HeldValues.{empty, unused};
ghost use Rattle.param_table.specs.Words.{IsReadable};
ghost use Rattle.param_table.specs.Rules.{AreNumbered};
ghost use Rattle.param_table.specs.Routes.{AreListeners, AreRouted, listener_of};

use crate::mailbox::{Hearers, Listener, Mailbox, empty};
use crate::rules::{Numbered, Rule, number_places};
use crate::words::{mask_of, modes_of};
use book_model::Book;
use std::alloc::{AllocError, Global};
use std::boxed::BoxedSlice;
use std::marker::Model;
use std::rc::Rc;

/// The routing of a book, which its owners share. Nothing of it ever changes.
#[derive(Drop)]
pub struct SharedRouting {
    table: Rc<Routing>,
}

impl Model for SharedRouting {
    ghost use Rattle.param_table.specs.declared.routing.Routing.{Routing};

    ghost Value = { Routing };

    ghost view = { λ r. r.table.value };
}

impl SharedRouting {
    /// The routing, for one owner so far. An error is want of memory.
    pub fn new(alloc: Global, routing: Routing) -> Result<SharedRouting, AllocError>
        ensures { IfOk result (λ r. r ≡ routing) }
    {
        Ok(SharedRouting {
            table: Rc::new(alloc, routing)?,
        })
    }

    /// The same routing, for one owner more. It takes no memory, and costs a look and a write. An error is want of memory:
    /// there are as many owners as can be counted.
    pub fn share(&self) -> Result<SharedRouting, AllocError>
        ensures { IfOk result (λ r. r ≡ self.now) }
    {
        Ok(SharedRouting {
            table: self.table.clone()?,
        })
    }

    /// The routing, to look at. It costs one read.
    #[inline(always)]
    pub fn table(&self) -> &Routing
        ensures { result.now ≡ self.now }
    {
        &self.table
    }
}

/// How each source of a book gets its words and reads them.
#[derive(Drop)]
pub struct Routing {
    /// How the words of each source are read, by place.
    pub rules: BoxedSlice<Option<Rule>>,
    /// By place, five for each: the mailboxes that the sources of its bus and label have up to it, by what they name as SDI.
    pub routes: BoxedSlice<u16>,
    /// Those of a mailbox one behind another: its sources whose parameters the book asks for.
    pub listeners: BoxedSlice<Listener>,
}

/// A book's routing, and its mailboxes before any word, by the parameters that are asked for. Its cost is a few looks and
/// writes a source, and for each mailbox a look at the sources of its bus and label. An error is want of memory.
pub fn routing_of(
    alloc: Global,
    book: &Book,
    asked: &[bool],
) -> Result<(Routing, BoxedSlice<Mailbox>), AllocError>
    requires count { length asked.now ≡ length (the_book book.now).parameters }
    requires asked { (p : ℕ) → p < length (the_book book.now).parameters
        → slice_index_or asked.now p false ≡ is_asked_for (the_book book.now) p }
    ensures routed { IfOk result (λ r. AreRouted (the_book book.now) r.0
        (boxed_slice_items r.1)) }
    ensures none { IfOk result (λ r. (m : ℕ)
        → (slice_index_or (boxed_slice_items r.1) m unused).after ≡ 0) }
{
    let numbered = number_places(alloc, book)?;
    let mut mailboxes = Vec::new(alloc);
    let mut listeners = Vec::new(alloc);
    for mailbox in 0..numbered.latest.len() {
        let hearers = listeners_of(alloc, book, &numbered, asked, mailbox)?;
        add_mailbox(&mut mailboxes, &mut listeners, &hearers)?;
    }
    let routing = Routing {
        rules: numbered.rules.into_boxed_slice(),
        routes: numbered.routes.into_boxed_slice(),
        listeners: listeners.into_boxed_slice(),
    };
    Ok((routing, mailboxes.into_boxed_slice()))
}

// One more mailbox, with those who listen to it.
fn add_mailbox(
    mailboxes: &mut Vec<Mailbox>,
    listeners: &mut Vec<Listener>,
    hearers: &[Listener],
) -> Result<(), AllocError>
    ensures listeners { IfOk result (λ _. listeners.new.items
        ≡ listeners.old.items ++ hearers.now) }
    ensures mailboxes { IfOk result (λ _. (soonest : ℕ) × All (λ l. soonest ≤ l.stale) hearers.now
        × (mailboxes.new.items ≡ mailboxes.old.items ++ empty (record {
          soonest = soonest;
          first = length listeners.old.items;
          end = length listeners.old.items + length hearers.now;
        }) ∷ [])) }
{
    let first = listeners.len();
    listeners.extend_from_slice(hearers)?;
    let end = listeners.len();
    let soonest = soonest(hearers);
    Ok(mailboxes.push(empty(Hearers {
        soonest,
        first,
        end,
    }))?)
}

// The listeners of a mailbox, of parameters that are asked for: it is looked for them from the last down among those that
// listen to its bus and label.
fn listeners_of(
    alloc: Global,
    book: &Book,
    numbered: &Numbered,
    asked: &[bool],
    mailbox: usize,
) -> Result<Vec<Listener>, AllocError>
    requires numbered { AreNumbered (the_book book.now).parameters
        (3 * length (the_book book.now).parameters) numbered.now }
    requires count { length asked.now ≡ length (the_book book.now).parameters }
    requires asked { (p : ℕ) → p < length (the_book book.now).parameters
        → slice_index_or asked.now p false ≡ is_asked_for (the_book book.now) p }
    requires mailbox { mailbox < vec_len numbered.now.latest }
    ensures { IfOk result (λ v. AreListeners (is_asked_at (the_book book.now))
        numbered.now.rules.items mailbox v.items) }
{
    let mut listeners = Vec::new(alloc);
    let mut next = numbered.latest[mailbox];
    while let Some(place) = next {
        next = book.listener_before(usize::from(place));
        if let Some(rule) = numbered.rules[usize::from(place)] {
            let is_asked = asked[usize::from(place) / 3];
            if is_asked & (usize::from(rule.mailbox) == mailbox) {
                listeners.push(listener_of(place, &rule))?;
            }
        }
    }
    Ok(listeners)
}

// The source at a place, as a listener.
fn listener_of(place: u16, rule: &Rule) -> Listener
    requires { IsReadable rule.now.kind rule.now.low rule.now.range }
    ensures { result ≡ listener_of place rule.now }
{
    Listener {
        mask: mask_of(rule.kind, rule.low),
        stale: rule.stale,
        place,
        param: place / 3,
        modes: modes_of(rule.kind),
    }
}

// For how many moments a word is fresh for each of these at least.
fn soonest(listeners: &[Listener]) -> u32
    ensures { All (λ l. result ≤ l.stale) listeners.now }
{
    let mut soonest = u32::MAX;
    for i in 0..listeners.len() {
        soonest = soonest.min(listeners[i].stale);
    }
    soonest
}
