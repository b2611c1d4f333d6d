// What the sources of a book hold: the last word of each, and for how long it is fresh.
ghost use Rattle.std.specs.Prelude.{◌≡◌, nat_lt};
ghost use Rattle.param_table.specs.HeldValues.{is_ending, next_look};

/// How far the clock is set back at its end.
pub const HALF: u32 = 0x8000_0000;

/// The time of what is never looked at.
pub const NEVER: u64 = u64::MAX;

/// The last word that a source took, and the first time by the clock at which it is no longer fresh, which is 0 where no
/// word came.
#[derive(Clone, Copy)]
pub struct Received {
    pub bits: u32,
    pub end: u64,
}

/// Whether the last word is fresh.
#[inline(always)]
pub fn is_fresh(received: Received, clock: u32) -> bool
    ensures { result ≡ nat_lt clock received.end }
{
    u64::from(clock) < received.end
}

/// Whether the word was fresh in the moment before, and isn't now.
pub fn is_ending(received: Received, clock: u32) -> bool
    ensures { result ≡ is_ending clock received }
{
    received.end == u64::from(clock)
}

/// When a word is looked at next: when it is no longer fresh, else never.
pub fn next_look(received: Received, clock: u32) -> u64
    ensures { result ≡ next_look clock received }
{
    if is_fresh(received, clock) {
        received.end
    } else {
        NEVER
    }
}
