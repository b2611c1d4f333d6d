// The rows in which numbers wait for a moment.
ghost use Rattle.std.specs.Prelude.{◌≡◌, ◌≢◌, ℕ, ◌+◌, ◌*◌, ◌/◌, ◌%◌, ◌<◌, ◌≤◌, ◌^◌, ◌==◌, ◌||◌, ◌&&◌, not, true, false, length, slice_index, IfOk};
ghost use Rattle.wakes.specs.Turning.{IsRows, FindsGroup, is_busy, waits_in};
ghost use Rattle.std.specs.Box.{boxed_slice_items};

use crate::marked::{bits_from, lowest};
use std::alloc::{AllocError, Global};
use std::boxed::BoxedSlice;

/// 64 rows, in each of which any of some numbers may wait. A moment's row is that of its number modulo 64.
#[derive(Drop)]
pub struct Rows {
    // Row r has number i at bit i % 64 of word i / 64 * 64 + r, so the rows of near moments lie side by side.
    words: BoxedSlice<u64>,
    /// How many numbers may wait.
    pub count: usize,
    // The numbers of a row are in at most 64 groups of 2 ^ shift, each of whole words.
    shift: u32,
    // Bit g of word r is set where a number of group g waits in row r, and may be where none does.
    busy: [u64; 64],
}

impl Rows {
    /// Rows for `count` numbers, of which none waits. An error is want of memory.
    pub fn new(alloc: Global, count: usize) -> Result<Rows, AllocError>
        requires { count ≤ 2 ^ 32 }
        ensures rows { IfOk result IsRows }
        ensures count { IfOk result (λ rows. rows.count ≡ count) }
        ensures none { IfOk result (λ rows. (r i : ℕ) → waits_in rows r i ≡ false) }
    {
        let shift = count.max(2048).ilog2() - 5;
        Ok(Rows {
            words: vec![in alloc; 0u64; ((count >> shift) + 1) << shift]?.into_boxed_slice(),
            count,
            shift,
            busy: [0; 64],
        })
    }

    /// No number waits. Its cost is about one write for each number, and 128 more.
    pub fn clear(&mut self)
        requires { IsRows self.old }
        ensures rows { IsRows self.new }
        ensures count { self.new.count ≡ self.old.count }
        ensures none { (r i : ℕ) → waits_in self.new r i ≡ false }
    {
        self.words.as_mut_slice().fill(0);
        self.busy = [0; 64];
    }

    /// The numbers wait that wait in other rows. Its cost is about one write for each number, and 128 more.
    pub fn copy_from(&mut self, other: &Rows)
        requires rows { IsRows self.old }
        requires other { IsRows other.now }
        requires count { self.old.count ≡ other.now.count }
        ensures rows { IsRows self.new }
        ensures count { self.new.count ≡ other.now.count }
        ensures waits { boxed_slice_items self.new.words ≡ boxed_slice_items other.now.words }
        ensures busy { self.new.busy ≡ other.now.busy }
    {
        self.words.copy_from_slice(&other.words);
        self.busy = other.busy;
    }

    /// Whether a number may wait in a moment's row. Its cost is one look.
    #[inline(always)]
    pub fn is_busy(&self, moment: u64) -> bool
        requires { IsRows self.now }
        ensures { result ≡ false → (i : ℕ) → i < self.now.count
            → waits_in self.now (moment % 64) i ≡ false }
    {
        self.busy[(moment % 64) as usize] != 0
    }

    /// A number waits in a moment's row. Its cost is two writes.
    #[inline(always)]
    pub fn put(&mut self, moment: u64, item: usize)
        requires rows { IsRows self.old }
        requires item { item < self.old.count }
        ensures rows { IsRows self.new }
        ensures count { self.new.count ≡ self.old.count }
        ensures waits { (r i : ℕ) → r < 64 → i < self.old.count → waits_in self.new r i
            ≡ ((r == moment % 64 && i == item) || waits_in self.old r i) }
    {
        self.words[place(moment, item)] |= 1 << (item % 64);
        self.busy[(moment % 64) as usize] |= 1 << (item >> self.shift);
    }

    /// A number waits in a moment's row no more. Its cost is two writes. Where there are less than 4096 numbers, a group in
    /// which none waits any more is busy no more, and but for the first no later look goes over it.
    #[inline(always)]
    pub fn take_out(&mut self, moment: u64, item: usize)
        requires rows { IsRows self.old }
        requires item { item < self.old.count }
        ensures rows { IsRows self.new }
        ensures count { self.new.count ≡ self.old.count }
        ensures waits { (r i : ℕ) → r < 64 → i < self.old.count → waits_in self.new r i
            ≡ (not (r == moment % 64 && i == item) && waits_in self.old r i) }
        ensures rests { self.old.shift ≡ 6
            → ((i : ℕ) → i < self.old.count → i / 64 ≡ item / 64
            → waits_in self.new (moment % 64) i ≡ false)
            → is_busy self.new.busy (moment % 64) (item / 64) ≡ false }
    {
        let at = place(moment, item);
        let word = self.words[at] & !(1 << (item % 64));
        self.words[at] = word;
        self.rest_word((moment % 64) as usize, item, word);
    }

    // A number's group is busy in a row no more where it is of one word and that is 0. It takes no branch, since which way
    // that went couldn't be foreseen.
    #[inline(always)]
    fn rest_word(&mut self, row: usize, item: usize, word: u64)
        requires rows { IsRows self.old }
        requires row { row < 64 }
        requires item { item < self.old.count }
        requires word { slice_index (boxed_slice_items self.old.words) (item / 64 * 64 + row)
            ≡ word }
        ensures rows { IsRows self.new }
        ensures count { self.new.count ≡ self.old.count }
        ensures words { self.new.words ≡ self.old.words }
        ensures rests { self.old.shift ≡ 6 → word ≡ 0
            → is_busy self.new.busy row (item / 64) ≡ false }
    {
        let is_last = (word == 0) & (self.shift == 6);
        let group = if is_last {
            1 << (item >> self.shift)
        } else {
            0
        };
        self.busy[row] &= !group;
    }

    /// The first number that waits in a moment's row, or how many there are. It goes over the first group and those that are
    /// busy, up to the number's; one in which it finds none that waits is busy no more. Its cost is one look where the number
    /// is one of the first 64, else two more for each of these groups, a write for each in which it finds none, and a look for
    /// each 64 numbers of a group, which has no more than that where there are less than 4096.
    #[inline(always)]
    pub fn first(&mut self, moment: u64) -> usize
        requires { IsRows self.old }
        ensures rows { IsRows self.new }
        ensures count { self.new.count ≡ self.old.count }
        ensures waits { (r i : ℕ) → waits_in self.new r i ≡ waits_in self.old r i }
        ensures end { result ≤ self.old.count }
        ensures none { (i : ℕ) → i < result → waits_in self.old (moment % 64) i ≡ false }
    {
        let word = self.words[place(moment, 0)];
        if word != 0 {
            return lowest(word);
        }
        self.first_later(moment)
    }

    // The first number that waits in a moment's row, or how many there are, where none of the first 64 does.
    #[inline(always)]
    fn first_later(&mut self, moment: u64) -> usize
        requires rows { IsRows self.old }
        requires none { (i : ℕ) → i < 64 → waits_in self.old (moment % 64) i ≡ false }
        ensures rows { IsRows self.new }
        ensures count { self.new.count ≡ self.old.count }
        ensures waits { (r i : ℕ) → waits_in self.new r i ≡ waits_in self.old r i }
        ensures end { result ≤ self.old.count }
        ensures none { (i : ℕ) → i < result → waits_in self.old (moment % 64) i ≡ false }
    {
        let row = (moment % 64) as usize;
        let mut group = 0;
        let mut start = 64;
        loop {
            let end = (group + 1) << self.shift;
            start = next_word(&self.words, row, start, end);
            if start < end {
                return start + lowest(self.words[start + row]);
            }
            self.rest_group(row, group);
            if self.busy[row] == 0 {
                return self.count;
            }
            group = lowest(self.busy[row]);
            start = group << self.shift;
        }
    }

    // A group of which no number waits in a row is busy there no more.
    #[inline(always)]
    fn rest_group(&mut self, row: usize, group: usize)
        requires rows { IsRows self.old }
        requires row { row < 64 }
        requires group { group < 64 }
        requires none { (i : ℕ) → i < self.old.count → i / 2 ^ self.old.shift ≡ group
            → waits_in self.old row i ≡ false }
        ensures rows { IsRows self.new }
        ensures count { self.new.count ≡ self.old.count }
        ensures waits { (r i : ℕ) → waits_in self.new r i ≡ waits_in self.old r i }
        ensures busy { (g : ℕ) → is_busy self.new.busy row g ≡ true
            → (g ≢ group) × (is_busy self.old.busy row g ≡ true) }
    {
        self.busy[row] &= !(1 << group);
    }

    /// The first number from one on that waits in a moment's row, or how many there are. Its cost is one look where it waits
    /// in the same 64 numbers, else two more for each group that it goes over though none waits in it any more, and one for
    /// each 64 numbers of a group, which has no more than that where there are less than 4096.
    #[inline(always)]
    pub fn next(&self, moment: u64, from: usize) -> usize
        requires rows { IsRows self.now }
        requires from { from ≤ self.now.count }
        ensures from { from ≤ result }
        ensures end { result ≤ self.now.count }
        ensures none { (i : ℕ) → from ≤ i → i < result
            → waits_in self.now (moment % 64) i ≡ false }
    {
        let rest = bits_from(self.words[place(moment, from)], from % 64);
        if rest != 0 {
            return from + lowest(rest);
        }
        self.next_later(moment, from)
    }

    // The first number behind the 64 of one that waits in a moment's row, or how many there are.
    #[inline(always)]
    fn next_later(&self, moment: u64, from: usize) -> usize
        requires rows { IsRows self.now }
        requires from { from ≤ self.now.count }
        ensures from { from ≤ result }
        ensures end { result ≤ self.now.count }
        ensures none { (i : ℕ) → from / 64 * 64 + 64 ≤ i → i < result
            → waits_in self.now (moment % 64) i ≡ false }
    {
        let row = (moment % 64) as usize;
        let mut group = from >> self.shift;
        let mut start = from / 64 * 64 + 64;
        loop {
            let end = (group + 1) << self.shift;
            start = next_word(&self.words, row, start, end);
            if start < end {
                return start + lowest(self.words[start + row]);
            }
            let Some(next) = next_group(self.busy[row], group) else {
                return self.count;
            };
            group = next;
            start = group << self.shift;
        }
    }

    /// A moment's row, in which no number waits, is busy no more. Its cost is one write.
    #[inline(always)]
    pub fn rest(&mut self, moment: u64)
        requires rows { IsRows self.old }
        requires none { (i : ℕ) → i < self.old.count
            → waits_in self.old (moment % 64) i ≡ false }
        ensures rows { IsRows self.new }
        ensures count { self.new.count ≡ self.old.count }
        ensures waits { (r i : ℕ) → waits_in self.new r i ≡ waits_in self.old r i }
    {
        self.busy[(moment % 64) as usize] = 0;
    }
}

// The word in which a moment's row has a number.
#[inline(always)]
fn place(moment: u64, item: usize) -> usize
    ensures { result ≡ item / 64 * 64 + moment % 64 }
{
    item / 64 * 64 + (moment % 64) as usize
}

// The first number from one on, or the end, whose word isn't 0 in a row, of those that begin a word.
#[inline(always)]
fn next_word(words: &[u64], row: usize, start: usize, end: usize) -> usize
    requires row { row < 64 }
    requires start { start % 64 ≡ 0 }
    requires end { end % 64 ≡ 0 }
    requires order { start ≤ end }
    requires room { end ≤ length words.now }
    ensures from { start ≤ result }
    ensures end { result ≤ end }
    ensures begins { result % 64 ≡ 0 }
    ensures some { result < end → 0 < slice_index words.now (result + row) }
    ensures none { (i : ℕ) → start ≤ i → i < result
        → slice_index words.now (i / 64 * 64 + row) ≡ 0 }
{
    let mut next = start;
    while next < end && words[next + row] == 0 {
        next += 64;
    }
    next
}

// The first group behind one whose bit is set.
#[inline(always)]
fn next_group(busy: u64, group: usize) -> Option<usize>
    requires { group < 64 }
    ensures { FindsGroup busy group result }
{
    let later = bits_from(bits_from(busy, group), 1);
    if later == 0 {
        None
    } else {
        Some(group + 1 + lowest(later))
    }
}
