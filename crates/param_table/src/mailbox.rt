// The mailboxes of words, and who listens to them.
ghost use Rattle.std.specs.Prelude.{◌≡◌, ◌≤◌, ◌+◌, ◌^◌, ◌==◌, nat_lt, if◌then◌else◌};
ghost use Rattle.param_table.specs.Words.{may_say};
ghost use Rattle.param_table.specs.HeldValues.{all_fresh, at_start, empty, held_for, says_same, set_back};

use crate::received::{HALF, Received};
use arinc_words::Word;

/// Keeps the last word of a bus, a label and an SDI, or of any SDI, for all sources that take it.
#[derive(Clone, Copy)]
pub struct Mailbox {
    /// The time by the clock after that at which the word came, and 0 where none came.
    pub after: u64,
    /// The same of the last word before the moment that hasn't ended, where a word came in that moment; else it says nothing,
    /// nor do that word's bits.
    pub earlier_after: u64,
    pub bits: u32,
    pub earlier_bits: u32,
    pub hearers: Hearers,
}

/// Those who listen to a mailbox, in the list of all listeners: from `first` on and below `end`, each of which takes a word
/// as fresh for `soonest` moments at least.
#[derive(Clone, Copy)]
pub struct Hearers {
    pub soonest: u32,
    pub first: usize,
    pub end: usize,
}

/// A source of a parameter that the book asks for, as a listener of its mailbox. Nothing of it ever changes: the bits that
/// decide what a word says to it, in which of the four modes a word says something (bit m for an SSM of m), for how many
/// moments a word stays fresh, and its place and its parameter.
#[derive(Clone, Copy)]
pub struct Listener {
    pub mask: u32,
    pub stale: u32,
    pub place: u16,
    pub param: u16,
    pub modes: u8,
}

/// A mailbox before any word.
pub fn empty(hearers: Hearers) -> Mailbox
    ensures { result ≡ empty hearers }
{
    Mailbox {
        after: 0,
        earlier_after: 0,
        bits: 0,
        earlier_bits: 0,
        hearers,
    }
}

/// The first time by the clock at which a word is no longer fresh that is so for so many moments, by the time after that at
/// which it came; 0 where none came.
#[inline(always)]
pub fn end_for(after: u64, stale: u32) -> u64
    requires { after ≤ 2 ^ 32 }
    ensures { result ≡ (if after == 0 then 0 else after + stale) }
{
    if after == 0 {
        0
    } else {
        after + u64::from(stale)
    }
}

/// What a source that takes words as fresh for so many moments holds by a mailbox.
#[inline(always)]
pub fn held_for(mailbox: Mailbox, stale: u32) -> Received
    requires { mailbox.after ≤ 2 ^ 32 }
    ensures { result ≡ held_for mailbox stale }
{
    Received {
        bits: mailbox.bits,
        end: end_for(mailbox.after, stale),
    }
}

/// What a mailbox held when the moment began that hasn't ended.
pub fn at_start(mailbox: Mailbox, clock: u32) -> Mailbox
    ensures { result ≡ at_start clock mailbox }
{
    if mailbox.after == u64::from(clock) + 1 {
        Mailbox {
            after: mailbox.earlier_after,
            bits: mailbox.earlier_bits,
            ..mailbox
        }
    } else {
        mailbox
    }
}

/// Whether the last word is fresh for a source that takes words as fresh for so many moments.
// (The time of an earlier word may be any number, since it isn't set back, so the sum ends at what it can show.)
pub fn is_fresh_for(mailbox: Mailbox, clock: u32, stale: u32) -> bool
    ensures { result ≡ nat_lt clock (held_for mailbox stale).end }
{
    mailbox.after != 0 && u64::from(clock) < mailbox.after.saturating_add(u64::from(stale))
}

/// Whether the last word is fresh for each listener.
#[inline(always)]
pub fn all_fresh(mailbox: Mailbox, clock: u32) -> bool
    requires { mailbox.after ≤ 2 ^ 32 }
    ensures { result ≡ all_fresh clock mailbox }
{
    u64::from(clock) < held_for(mailbox, mailbox.hearers.soonest).end
}

/// Whether two words say the same to a listener: they differ in no bit that decides it, or neither says anything.
#[inline(always)]
pub fn says_same(listener: Listener, old: u32, new: u32) -> bool
    ensures { result ≡ says_same listener old new }
{
    ((old ^ new) & listener.mask == 0) | !(may_say(listener, old) | may_say(listener, new))
}

// Whether a word may say something, by its mode.
#[inline(always)]
fn may_say(listener: Listener, bits: u32) -> bool
    ensures { result ≡ may_say listener.modes bits }
{
    (listener.modes >> Word::new(bits).ssm()) % 2 == 1
}

/// The same mailbox, where the clock is set back.
pub fn set_back(mailbox: Mailbox) -> Mailbox
    ensures { result ≡ set_back mailbox }
{
    Mailbox {
        after: mailbox.after.saturating_sub(u64::from(HALF)),
        ..mailbox
    }
}
