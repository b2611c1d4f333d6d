// A set of numbers that isn't gone through.
ghost use Rattle.std.specs.Prelude.{◌≡◌, ℕ, ◌<◌, ◌≤◌, ◌^◌, ◌==◌, ◌||◌, not, false, List, IfOk};
ghost use Rattle.std.specs.Box.{boxed_slice_items};
ghost use Rattle.wakes.specs.Marks.{is_marked, room};

use crate::marked::bits_from;
use std::alloc::{AllocError, Global};
use std::boxed::BoxedSlice;
use std::marker::Model;

/// A set of numbers below a size, of one bit each. It keeps no account of how far it reaches, so that it costs less than
/// `Marked` to put a number in, and more to empty. It can't grow after it was made.
#[derive(Drop)]
pub struct BitSet {
    words: BoxedSlice<u64>,
}

// A number is in the set where its bit is set.
impl Model for BitSet {
    ghost Value = { List ℕ };

    ghost view = { λ s. boxed_slice_items s.words };
}

impl BitSet {
    /// The empty set of numbers below `count`. An error is want of memory.
    pub fn new(alloc: Global, count: usize) -> Result<BitSet, AllocError>
        requires { count < 2 ^ 32 }
        ensures room { IfOk result (λ s. count ≤ room s) }
        ensures none { IfOk result (λ s. (i : ℕ) → is_marked s i ≡ false) }
    {
        Ok(BitSet {
            words: vec![in alloc; 0u64; count / 64 + 1]?.into_boxed_slice(),
        })
    }

    /// Takes all numbers out. Its cost is one write for each 64 numbers.
    pub fn clear(&mut self)
        ensures room { room self.new ≡ room self.old }
        ensures none { (i : ℕ) → is_marked self.new i ≡ false }
    {
        self.words.as_mut_slice().fill(0);
    }

    /// Puts a number in, and answers whether it wasn't in before. Its cost is one look and one write.
    #[inline(always)]
    pub fn put(&mut self, i: usize) -> bool
        requires { i < room self.old }
        ensures new { result ≡ not (is_marked self.old i) }
        ensures room { room self.new ≡ room self.old }
        ensures marks { (j : ℕ) → is_marked self.new j ≡ (j == i || is_marked self.old j) }
    {
        let word = self.words[i / 64];
        self.words[i / 64] = word | 1 << (i % 64);
        bits_from(word, i % 64) % 2 == 0
    }
}
