// How the words of each source are read, by its place, and in which mailbox they stand.
ghost use Rattle.std.specs.Prelude.{◌≡◌, ◌+◌, ◌*◌, ◌<◌, ◌≤◌, ◌^◌, ◌++◌, length, map, vec_len, slice_set, IfOk, IfSome, MatchOption, ⊤};
ghost use Rattle.book_model.specs.View.{parameter_of};
ghost use Rattle.book_model.specs.Sealed.{the_book};
ghost use Rattle.param_table.specs.Rules.{AreNumbered, IsRule, earlier_in, mailbox_in, route_of, slot_of, with_mailbox};

use crate::words::low_of;
use book_model::{Book, Kind, Param, source_at};
use std::alloc::{AllocError, Global};

/// How many mailboxes there are for a bus and a label: for the sources that name no SDI, and for those of each of the four.
pub const SLOTS: usize = 5;

/// How the words of a source are read, in twelve bytes: by its parameter's kind, from the lowest bit of its data on and by its
/// range; in which mailbox they stand, and for how many moments one stays fresh.
#[derive(Clone, Copy)]
pub struct Rule {
    pub range: u32,
    pub stale: u32,
    pub mailbox: u16,
    /// The bit that a discrete is, or the lowest of a number's data, which is 11 for BCD. (Bits count from 1.)
    pub low: u8,
    pub kind: Kind,
}

/// The mailboxes of some places.
#[derive(Drop)]
pub struct Numbered {
    /// By place.
    pub rules: Vec<Option<Rule>>,
    /// By place, five for each: the mailboxes that the sources of its bus and label have up to it, by what they name as SDI.
    pub routes: Vec<u16>,
    /// By mailbox: the last place whose source has it. Mailbox 0 is of none.
    pub latest: Vec<Option<u16>>,
}

/// Gives each place of a source its mailbox: that of an earlier one of the same bus, label and SDI, or a new one. Its cost is
/// a few looks and writes a place. An error is want of memory.
pub fn number_places(alloc: Global, book: &Book) -> Result<Numbered, AllocError>
    ensures { IfOk result (AreNumbered (the_book book.now).parameters
        (3 * length (the_book book.now).parameters)) }
{
    let mut numbered = Numbered {
        rules: Vec::new(alloc),
        routes: Vec::new(alloc),
        latest: vec![in alloc; None]?,
    };
    for place in 0..3 * book.params().len() {
        add_place(&mut numbered, book, place)?;
    }
    Ok(numbered)
}

// One more place.
fn add_place(numbered: &mut Numbered, book: &Book, place: usize) -> Result<(), AllocError>
    requires place { place < 3 * length (the_book book.now).parameters }
    requires numbered { AreNumbered (the_book book.now).parameters place numbered.old }
    ensures { IfOk result (λ _. AreNumbered (the_book book.now).parameters (place + 1)
        numbered.new) }
{
    let Some(source) = source_at(book.params(), place) else {
        add_route(&mut numbered.routes, None)?;
        return Ok(numbered.rules.push(None)?);
    };
    add_route(&mut numbered.routes, book.listener_before(place))?;
    let route = SLOTS * place + slot_of(source.sdi);
    let mailbox = mailbox_of(numbered, route)?;
    numbered.latest[usize::from(mailbox)] = Some(place as u16);
    let rule = rule_at(book.params(), place, mailbox);
    Ok(numbered.rules.push(rule)?)
}

// One more route, which begins with the mailboxes of an earlier place.
fn add_route(routes: &mut Vec<u16>, before: Option<u16>) -> Result<(), AllocError>
    requires { MatchOption before ⊤ (λ b. 5 * b + 5 ≤ vec_len routes.old) }
    ensures { IfOk result (λ _. routes.new.items
        ≡ routes.old.items ++ route_of routes.old.items before) }
{
    let route = [
        earlier_in(routes, before, 0),
        earlier_in(routes, before, 1),
        earlier_in(routes, before, 2),
        earlier_in(routes, before, 3),
        earlier_in(routes, before, 4),
    ];
    Ok(routes.extend_from_slice(&route)?)
}

// The mailbox of an earlier place's route.
fn earlier_in(routes: &[u16], before: Option<u16>, slot: usize) -> u16
    requires few { slot < 5 }
    requires before { MatchOption before ⊤ (λ b. 5 * b + 5 ≤ length routes.now) }
    ensures { result ≡ earlier_in routes.now before slot }
{
    match before {
        None => 0,
        Some(place) => routes[SLOTS * usize::from(place) + slot],
    }
}

// The mailbox of a route, which is a new one where it has none.
fn mailbox_of(numbered: &mut Numbered, route: usize) -> Result<u16, AllocError>
    requires route { route < vec_len numbered.old.routes }
    requires few { vec_len numbered.old.latest < 2 ^ 16 }
    ensures rules { IfOk result (λ _. numbered.new.rules ≡ numbered.old.rules) }
    ensures mailbox { IfOk result (λ m. m ≡ mailbox_in numbered.old.routes.items route
        (length numbered.old.latest.items)) }
    ensures routes { IfOk result (λ m. numbered.new.routes.items
        ≡ slice_set numbered.old.routes.items route m) }
    ensures latest { IfOk result (λ m. numbered.new.latest.items
        ≡ with_mailbox numbered.old.routes.items route numbered.old.latest.items) }
{
    if numbered.routes[route] == 0 {
        numbered.routes[route] = numbered.latest.len() as u16;
        numbered.latest.push(None)?;
    }
    Ok(numbered.routes[route])
}

/// Which of the mailboxes of a bus and a label it is for sources that name this.
pub fn slot_of(sdi: Option<u8>) -> usize
    requires { MatchOption sdi ⊤ (λ n. n < 4) }
    ensures is { result ≡ slot_of sdi }
    ensures few { result < 5 }
{
    match sdi {
        None => 0,
        Some(sdi) => 1 + usize::from(sdi),
    }
}

// The rule of a place.
fn rule_at(params: &[Param], place: usize, mailbox: u16) -> Option<Rule>
    ensures rule { IsRule (map parameter_of params.now) place result }
    ensures mailbox { IfSome result (λ r. r.mailbox ≡ mailbox) }
{
    let source = source_at(params, place)?;
    let param = params.get(place / 3)?;
    Some(Rule {
        range: source.range,
        stale: param.stale,
        mailbox,
        low: low_of(param.kind, &source),
        kind: param.kind,
    })
}
