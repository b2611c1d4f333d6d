// Keys of numbers, each of which waits for the moment in which it is looked at.
ghost use Rattle.std.specs.Prelude.{◌≡◌, ◌≢◌, ℕ, ◌%◌, ◌<◌, ◌≤◌, ◌^◌, ◌==◌, ◌||◌, ◌&&◌, false, length, slice_index, slice_set, replicate, MatchOption, IfOk};
ghost use Rattle.wakes.specs.Due.{never, FirstDue};
ghost use Rattle.wakes.specs.Turning.{IsRows, Turns, keys_of, look_at, waits_in};

use crate::rows::Rows;
use std::alloc::{AllocError, Global};
use std::boxed::BoxedSlice;

const NEVER: u64 = u64::MAX;

/// A key for each of some numbers. One with a key waits in the row of a moment no later than its key, within 64 moments.
#[derive(Drop)]
pub struct Wheel {
    pub keys: BoxedSlice<u64>,
    pub rows: Rows,
    /// The moment whose row is gone through next.
    pub time: u64,
}

impl Wheel {
    /// Keys for `count` numbers, of which none is ever due. An error is want of memory.
    pub fn new(alloc: Global, count: usize) -> Result<Wheel, AllocError>
        requires { count ≤ 2 ^ 32 }
        ensures turns { IfOk result Turns }
        ensures keys { IfOk result (λ w. keys_of w ≡ replicate count never) }
    {
        Ok(Wheel {
            keys: vec![in alloc; NEVER; count]?.into_boxed_slice(),
            rows: Rows::new(alloc, count)?,
            time: 0,
        })
    }

    /// From now on none is due.
    pub fn clear(&mut self)
        requires { Turns self.old }
        ensures turns { Turns self.new }
        ensures keys { keys_of self.new ≡ replicate (length (keys_of self.old)) never }
    {
        self.keys.as_mut_slice().fill(NEVER);
        self.rows.clear();
        self.time = 0;
    }

    /// Takes over the keys of others, of which there are as many, and where they wait.
    pub fn copy_from(&mut self, other: &Wheel)
        requires turns { Turns self.old }
        requires other { Turns other.now }
        requires count { length (keys_of self.old) ≡ length (keys_of other.now) }
        ensures turns { Turns self.new }
        ensures keys { keys_of self.new ≡ keys_of other.now }
    {
        self.keys.copy_from_slice(&other.keys);
        self.rows.copy_from(&other.rows);
        self.time = other.time;
    }

    /// Gives a number a key.
    #[inline(always)]
    pub fn set(&mut self, item: usize, key: u64)
        requires turns { Turns self.old }
        requires item { item < length (keys_of self.old) }
        ensures turns { Turns self.new }
        ensures keys { keys_of self.new ≡ slice_set (keys_of self.old) item key }
    {
        if self.keys[item] == key {
            return;
        }
        self.keys[item] = key;
        wait(&mut self.rows, self.time, item, key);
    }

    /// The first number whose key has come by now.
    #[inline(always)]
    pub fn first(&self, now: u64) -> Option<usize>
        requires turns { Turns self.now }
        requires now { now < never }
        ensures { FirstDue (keys_of self.now) now result }
    {
        if self.time != now {
            return first_of_all(&self.keys, now);
        }
        if !self.rows.is_busy(now) {
            return None;
        }
        self.first_in_row()
    }

    /// Takes out the first number whose key has come by now.
    #[inline(always)]
    pub fn take(&mut self, now: u64) -> Option<usize>
        requires turns { Turns self.old }
        requires now { now < never }
        ensures turns { Turns self.new }
        ensures first { FirstDue (keys_of self.old) now result }
        ensures keys { MatchOption result (keys_of self.new ≡ keys_of self.old)
            (λ i. keys_of self.new ≡ slice_set (keys_of self.old) i never) }
    {
        self.turn_to(now);
        if !self.rows.is_busy(now) {
            self.go_on();
            return None;
        }
        self.take_from_row()
    }

    /// The moment is over.
    #[inline(always)]
    pub fn pass(&mut self, now: u64)
        requires turns { Turns self.old }
        requires now { now < never }
        ensures turns { Turns self.new }
        ensures keys { keys_of self.new ≡ keys_of self.old }
    {
        if self.time != now {
            return;
        }
        if !self.rows.is_busy(now) {
            self.go_on();
            return;
        }
        self.put_on();
    }

    // The first number that is due in the moment of the row.
    #[inline(never)]
    fn first_in_row(&self) -> Option<usize>
        requires turns { Turns self.now }
        requires time { self.now.time < never }
        ensures { FirstDue (keys_of self.now) self.now.time result }
    {
        let now = self.time;
        let mut item = self.rows.next(now, 0);
        while item < self.keys.len() {
            if self.keys[item] <= now {
                return Some(item);
            }
            item = self.rows.next(now, item + 1);
        }
        None
    }

    // Takes out the first number that is due in the moment of the row.
    #[inline(never)]
    fn take_from_row(&mut self) -> Option<usize>
        requires turns { Turns self.old }
        requires time { self.old.time < never }
        ensures turns { Turns self.new }
        ensures first { FirstDue (keys_of self.old) self.old.time result }
        ensures keys { MatchOption result (keys_of self.new ≡ keys_of self.old)
            (λ i. keys_of self.new ≡ slice_set (keys_of self.old) i never) }
    {
        let next = self.put_on()?;
        self.rows.take_out(self.time, next);
        self.keys[next] = NEVER;
        Some(next)
    }

    // Puts on those of the row that aren't due in its moment, up to the first that is. Where none is, goes on to the next.
    #[inline(never)]
    fn put_on(&mut self) -> Option<usize>
        requires turns { Turns self.old }
        requires time { self.old.time < never }
        ensures turns { Turns self.new }
        ensures keys { keys_of self.new ≡ keys_of self.old }
        ensures first { FirstDue (keys_of self.old) self.old.time result }
    {
        let now = self.time;
        let mut item = self.rows.first(now);
        while item < self.keys.len() {
            let key = self.keys[item];
            if key <= now {
                return Some(item);
            }
            self.rows.take_out(now, item);
            wait(&mut self.rows, now, item, key);
            item = self.rows.next(now, item + 1);
        }
        self.rows.rest(now);
        self.go_on();
        None
    }

    // Goes on to the next row, where no number waits in this one.
    #[inline(always)]
    fn go_on(&mut self)
        requires turns { Turns self.old }
        requires time { self.old.time < never }
        requires none { (i : ℕ) → i < self.old.rows.count
            → waits_in self.old.rows (self.old.time % 64) i ≡ false }
        ensures turns { Turns self.new }
        ensures keys { keys_of self.new ≡ keys_of self.old }
        ensures later { (i : ℕ) → i < length (keys_of self.old)
            → self.old.time < slice_index (keys_of self.old) i }
    {
        self.time += 1;
    }

    // Goes on, or back, to the row of a moment, where that isn't the next.
    #[inline(always)]
    fn turn_to(&mut self, now: u64)
        requires { Turns self.old }
        ensures turns { Turns self.new }
        ensures keys { keys_of self.new ≡ keys_of self.old }
        ensures time { self.new.time ≡ now }
    {
        if self.time != now {
            self.settle_at(now);
        }
    }

    // Goes on, or back, to the row of another moment. Its cost is a few looks and writes at each number.
    #[inline(never)]
    fn settle_at(&mut self, now: u64)
        requires { Turns self.old }
        ensures turns { Turns self.new }
        ensures keys { keys_of self.new ≡ keys_of self.old }
        ensures time { self.new.time ≡ now }
    {
        self.rows.clear();
        self.time = now;
        for item in 0..self.keys.len() {
            wait(&mut self.rows, now, item, self.keys[item]);
        }
    }
}

// A number that has a key waits for the moment in which that is looked at, from a moment on.
#[inline(always)]
fn wait(rows: &mut Rows, time: u64, item: usize, key: u64)
    requires rows { IsRows rows.old }
    requires item { item < rows.old.count }
    ensures rows { IsRows rows.new }
    ensures count { rows.new.count ≡ rows.old.count }
    ensures never { key ≡ never → rows.new ≡ rows.old }
    ensures waits { key ≢ never → (r i : ℕ) → r < 64 → i < rows.old.count → waits_in rows.new r i
        ≡ ((r == look_at time key % 64 && i == item) || waits_in rows.old r i) }
{
    if key != NEVER {
        rows.put(key.min(time.saturating_add(63)).max(time), item);
    }
}

// The first number whose key has come by now. Its cost is one look at each number up to it.
#[inline(never)]
fn first_of_all(keys: &[u64], now: u64) -> Option<usize>
    ensures { FirstDue keys.now now result }
{
    for item in 0..keys.len() {
        if keys[item] <= now {
            return Some(item);
        }
    }
    None
}
