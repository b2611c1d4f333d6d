// A set of numbers that is gone through in their order.
ghost use Rattle.std.specs.Prelude.{◌≡◌, ℕ, ◌+◌, ◌*◌, ◌/◌, ◌%◌, ◌<◌, ◌≤◌, ◌^◌, ◌==◌, ◌||◌, ◌&&◌, min, not, true, false, List, length, slice_index, count_ones, IfOk};
ghost use Rattle.std.specs.Int.{bit_at};
ghost use Rattle.std.specs.Box.{boxed_slice_items};
ghost use Rattle.wakes.specs.Marks.{is_marked, marked_below, room, Finds};
ghost use Rattle.wakes.specs.MarkedEnd.{EndsAt};
ghost use Rattle.wakes.specs.Lending.{LendsWords};
ghost use Rattle.std.specs.Borrow.{sem};

use std::alloc::{AllocError, Global};
use std::boxed::BoxedSlice;
use std::marker::Model;

/// A set of numbers below a size, of one bit each. It can't grow after it was made.
#[derive(Drop)]
pub struct Marked {
    words: BoxedSlice<u64>,
    // No number from this one on is in the set.
    end: usize,
}

// A number is in the set where its bit is set.
impl Model for Marked {
    ghost use Rattle.std.specs.Prelude.{ℕ, List};

    ghost Value = { List ℕ };

    ghost use Rattle.std.specs.Box.{boxed_slice_items};
    ghost use Rattle.wakes.specs.MarkedEnd.{EndsAt};

    ghost view = { λ s. boxed_slice_items s.words };

    ghost invariant = { λ s. EndsAt (boxed_slice_items s.words) s.end };
}

impl Marked {
    /// The empty set of numbers below `count`. An error is want of memory.
    pub fn new(alloc: Global, count: usize) -> Result<Marked, AllocError>
        requires { count < 2 ^ 32 }
        ensures room { IfOk result (λ s. count ≤ room s) }
        ensures size { IfOk result (λ s. room s ≡ 64 * (count / 64 + 1)) }
        ensures none { IfOk result (λ s. (i : ℕ) → is_marked s i ≡ false) }
    {
        Marked::of_words(alloc, count / 64 + 1)
    }

    /// The empty set with room for 64 numbers a word. An error is want of memory.
    pub fn of_words(alloc: Global, words: usize) -> Result<Marked, AllocError>
        requires { words ≤ 2 ^ 33 }
        ensures room { IfOk result (λ s. room s ≡ 64 * words) }
        ensures none { IfOk result (λ s. (i : ℕ) → is_marked s i ≡ false) }
    {
        Ok(Marked {
            words: vec![in alloc; 0u64; words]?.into_boxed_slice(),
            end: 0,
        })
    }

    /// Takes all numbers out. Its cost is one look where none was put in since the last time, else one write for each 64
    /// numbers.
    pub fn clear(&mut self)
        ensures room { room self.new ≡ room self.old }
        ensures none { (i : ℕ) → is_marked self.new i ≡ false }
    {
        if self.end > 0 {
            self.words.as_mut_slice().fill(0);
            self.end = 0;
        }
    }

    /// Takes over the numbers of another set of the same room. Its cost is one write for each 64 numbers.
    pub fn copy_from(&mut self, other: &Marked)
        requires { room self.old ≡ room other.now }
        ensures { self.new ≡ other.now }
    {
        self.words.copy_from_slice(&other.words);
        self.end = other.end;
    }

    /// Puts a number in. Its cost is one write.
    pub fn mark(&mut self, i: usize)
        requires { i < room self.old }
        ensures room { room self.new ≡ room self.old }
        ensures marks { (j : ℕ) → is_marked self.new j ≡ (j == i || is_marked self.old j) }
    {
        self.words[i / 64] |= 1 << (i % 64);
        self.end = self.end.max(i + 1);
    }

    /// The words, of 64 numbers each from 0 on, to put many numbers in. Until the set is cleared a search goes over all of
    /// them, as if each number had been put in. Its cost is one write.
    #[inline(always)]
    pub fn words_mut(&mut self) -> &mut [u64]
        ensures* writes_back { sem 𝓛 (LendsWords self.entry result) }
        ensures value { result.now ≡ self.old }
    {
        self.end = 64 * self.words.len();
        self.words.as_mut_slice()
    }

    /// Puts in all numbers of another set of the same room. Its cost is one write for each 64 numbers.
    pub fn join(&mut self, other: &Marked)
        requires { room self.old ≡ room other.now }
        ensures room { room self.new ≡ room self.old }
        ensures marks { (j : ℕ) → is_marked self.new j
            ≡ (is_marked self.old j || is_marked other.now j) }
    {
        join_words(&mut self.words, &other.words);
        self.end = self.end.max(other.end);
    }

    /// Takes a number out. Its cost is one write.
    pub fn unmark(&mut self, i: usize)
        requires { i < room self.old }
        ensures room { room self.new ≡ room self.old }
        ensures marks { (j : ℕ) → is_marked self.new j ≡ (not (j == i) && is_marked self.old j) }
    {
        self.words[i / 64] &= !(1 << (i % 64));
    }

    /// Whether a number is in. Its cost is one look.
    pub fn has(&self, i: usize) -> bool
        requires { i < room self.now }
        ensures { result ≡ is_marked self.now i }
    {
        bits_from(self.words[i / 64], i % 64) % 2 == 1
    }

    /// The 64 numbers from 64 · `place` on, one bit each. Its cost is one look.
    #[inline(always)]
    pub fn word(&self, place: usize) -> u64
        requires { place < length self.now }
        ensures bits { result ≡ slice_index self.now place }
        ensures fits { result < 2 ^ 64 }
    {
        self.words[place]
    }

    /// The first number of the set from `from` on. Its cost is one look for each 64 numbers that it goes over; one alone
    /// where `from` lies behind each number that was put in since it was cleared, here or in a set that was joined or taken
    /// over.
    pub fn first_from(&self, from: usize) -> Option<usize>
        ensures { Finds self.now from result }
    {
        if from >= self.end {
            return None;
        }
        let next = self.next_or(from, self.end);
        if next < self.end { Some(next) } else { None }
    }

    /// The first number of the set from `from` on that is less than `end`, or `end`. Its cost is one look for each 64 numbers
    /// that it goes over.
    #[inline(always)]
    pub fn next_or(&self, from: usize, end: usize) -> usize
        requires { from ≤ end }
        ensures from { from ≤ result }
        ensures end { result ≤ end }
        ensures marked { result < end → is_marked self.now result ≡ true }
        ensures none { (i : ℕ) → from ≤ i → i < result → is_marked self.now i ≡ false }
    {
        if from >= self.end.min(end) {
            return end;
        }
        let place = from / 64;
        let rest = bits_from(self.words[place], from % 64);
        if rest != 0 {
            return end.min(from + lowest(rest));
        }
        next_in(&self.words, place + 1, end)
    }

    /// How many numbers of the set stand from `from` on below `end`. Its cost is one look for each 64 numbers between them,
    /// and none behind each number that was put in.
    pub fn count_from(&self, from: usize, end: usize) -> usize
        requires { from ≤ end }
        ensures { marked_below self.now from + result ≡ marked_below self.now end }
    {
        let last = self.end.min(end);
        if from >= last {
            return 0;
        }
        count_in(&self.words, from, last)
    }
}

/// Puts a number in where `on` is set, in the words of a set. Its cost is one write, without a branch.
#[inline(always)]
pub fn mark_in(words: &mut [u64], i: usize, on: bool)
    requires { i < room words.old }
    ensures room { room words.new ≡ room words.old }
    ensures marks { (j : ℕ) → is_marked words.new j ≡ ((j == i && on) || is_marked words.old j) }
{
    words[i / 64] |= u64::from(on) << (i % 64);
}

// Puts the bits of other words in.
fn join_words(words: &mut [u64], others: &[u64])
    requires { room words.old ≡ room others.now }
    ensures room { room words.new ≡ room words.old }
    ensures marks { (j : ℕ) → is_marked words.new j
        ≡ (is_marked words.old j || is_marked others.now j) }
{
    for i in 0..others.len() {
        words[i] |= others[i];
    }
}

// The first number with a bit, from a word on, that is less than `end`, or `end`.
fn next_in(words: &[u64], start: usize, end: usize) -> usize
    requires few { length words.now ≤ 2 ^ 33 }
    ensures from { min (64 * start) end ≤ result }
    ensures end { result ≤ end }
    ensures marked { result < end → is_marked words.now result ≡ true }
    ensures none { (i : ℕ) → 64 * start ≤ i → i < result → is_marked words.now i ≡ false }
{
    for i in start..words.len().min(end.div_ceil(64)) {
        let word = words[i];
        if word != 0 {
            return end.min(64 * i + lowest(word));
        }
    }
    end
}

// How many numbers from one on below an end have a bit.
fn count_in(words: &[u64], from: usize, end: usize) -> usize
    requires from { from ≤ end }
    requires end { end ≤ room words.now }
    ensures { marked_below words.now from + result ≡ marked_below words.now end }
{
    let mut count = 0;
    let mut next = from;
    while next < end {
        let part = (64 - next % 64).min(end - next);
        count += ones_of(bits_from(words[next / 64], next % 64), part);
        next += part;
    }
    count
}

// How many of a word's lowest bits are set, of so many.
fn ones_of(word: u64, many: usize) -> usize
    requires some { 0 < many }
    requires most { many ≤ 64 }
    ensures { result ≡ count_ones (word % 2 ^ many) }
{
    (word << (64 - many)).count_ones() as usize
}

/// The bits of a word from one on.
#[inline(always)]
pub fn bits_from(word: u64, bit: usize) -> u64
    requires { bit < 64 }
    ensures bits { result ≡ word / 2 ^ bit }
    ensures fits { word < 2 ^ 64 }
{
    word >> bit
}

/// The place of the lowest bit.
#[inline(always)]
pub fn lowest(word: u64) -> usize
    requires { 0 < word }
    ensures within { result < 64 }
    ensures set { bit_at word result ≡ 1 }
    ensures lowest { (i : ℕ) → i < result → bit_at word i ≡ 0 }
{
    word.trailing_zeros() as usize
}
