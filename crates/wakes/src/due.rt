// The moments in which numbers are due, soonest first.
ghost use Rattle.std.specs.Prelude.{◌≡◌, ℕ, ◌<◌, ◌≤◌, ◌^◌, List, length, slice_set, replicate, MatchOption, IfOk};
ghost use Rattle.wakes.specs.Due.{never, FirstDue};
ghost use Rattle.wakes.specs.Turning.{Turns, keys_of};

use crate::wheel::Wheel;
use std::alloc::{AllocError, Global};
use std::marker::Model;

/// A key for each of some numbers, with the first that is due. A number with a key waits for the moment in which that comes,
/// or, where it is far, for one of the next 64, in which it is put on to a later one. So who asks moment by moment looks at
/// those alone that wait for the moment. The next moment is the one after that which `take` or `pass` ended last, at first
/// moment 0. It can't grow after it was made.
#[derive(Drop)]
pub struct Wakes {
    wheel: Wheel,
}

impl Model for Wakes {
    ghost Value = { List ℕ };

    ghost view = { λ w. keys_of w.wheel };

    ghost invariant = { λ w. Turns w.wheel };
}

impl Wakes {
    /// Keys for `count` numbers, of which none is ever due. An error is want of memory.
    pub fn new(alloc: Global, count: usize) -> Result<Wakes, AllocError>
        requires { count ≤ 2 ^ 32 }
        ensures { IfOk result (λ w. w ≡ replicate count never) }
    {
        let wheel = Wheel::new(alloc, count)?;
        Ok(Wakes { wheel })
    }

    /// From now on none is due, and the next moment is moment 0. Its cost is about two writes a number, and 128 more.
    pub fn clear(&mut self)
        ensures { self.new ≡ replicate (length self.old) never }
    {
        self.wheel.clear();
    }

    /// Takes over the keys of others, of which there are as many, and their next moment. Its cost is about two writes a
    /// number, and 128 more.
    pub fn copy_from(&mut self, other: &Wakes)
        requires { length self.old ≡ length other.now }
        ensures { self.new ≡ other.now }
    {
        self.wheel.copy_from(&other.wheel);
    }

    /// Gives a number a key. Its cost is one comparison where it has that key, else four writes at most. It still waits for
    /// the moment for which it waited before, in which it is looked at too.
    #[inline(always)]
    pub fn set(&mut self, item: usize, key: u64)
        requires { item < length self.old }
        ensures { self.new ≡ slice_set self.old item key }
    {
        self.wheel.set(item, key);
    }

    /// The first number whose key has come by now. Its cost in the next moment is one look where none waits for it, else a
    /// few at each that waits for it, up to that one, and from 4096 numbers on some more at the first group of them and at
    /// each in which one waits or waited; in another moment a look at each number up to it.
    #[inline(always)]
    pub fn first(&self, now: u64) -> Option<usize>
        requires { now < never }
        ensures { FirstDue self.now now result }
    {
        self.wheel.first(now)
    }

    /// Takes out the first number whose key has come by now. Where there is none, the moment ends. Its cost in the next
    /// moment is that of `first`, and a few writes for each number at which it looks, since it puts those on whose keys are
    /// to come. Asked again in that moment, it goes over the first group, and from 4096 numbers on over those too that the
    /// last call emptied, with a write for each. In another moment it first makes that the next, by a look and a few writes at
    /// each number.
    #[inline(always)]
    pub fn take(&mut self, now: u64) -> Option<usize>
        requires { now < never }
        ensures first { FirstDue self.old now result }
        ensures keys { MatchOption result (self.new ≡ self.old)
            (λ i. self.new ≡ slice_set self.old i never) }
    {
        self.wheel.take(now)
    }

    /// The moment ends, where it is the next and no key has come by now. Its cost in the next moment is that of `first`, and
    /// a few writes for each number at which it looks; in another moment it is one look.
    #[inline(always)]
    pub fn pass(&mut self, now: u64)
        requires { now < never }
        ensures { self.new ≡ self.old }
    {
        self.wheel.pass(now);
    }
}
