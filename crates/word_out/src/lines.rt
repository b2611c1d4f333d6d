// The lines of a Tick.
ghost use Rattle.std.specs.Prelude.{◌≡◌, ◌≢◌, ℕ, ◌≤◌, ◌<◌, ◌+◌, ◌*◌, ◌++◌, [], length, get_or, flat_map};
ghost use Rattle.ecam_spec.specs.Places.{below};
ghost use Rattle.view_spec.specs.OutputWords as spec;
ghost use Rattle.word_out.specs.Told.{pair_word, written_line};

use crate::data::word;
use arrayvec::ArrayVec;
use fwc_pair::Pair;

// How many bytes the lines of a Tick are at most: 129 of 14 bytes, and the one that ends the moment.
const TICK: usize = 2048;

// The lines of a Tick.
pub(crate) type Lines = ArrayVec<u8, TICK>;

// Appends bytes for which there is room.
pub(crate) fn put(lines: &mut Lines, bytes: &[u8])
    requires { length lines.old.items + length bytes.now ≤ TICK }
    ensures { lines.new.items ≡ lines.old.items ++ bytes.now }
{
    let _ = lines.try_extend_from_slice(bytes);
}

// A word's eight digits.
fn word_digits(word: u32) -> [u8; 8]
    ensures { result ≡ spec.word_digits word }
{
    let mut digits = [0; 8];
    let _ = hex::encode_to_slice(word.to_be_bytes(), &mut digits);
    digits
}

// Appends the line of a word where all are written, or where it isn't the one that was.
#[tactic(auto, unfolding(view_spec::specs::OutputWords::word_line))]
fn put_written(lines: &mut Lines, all: bool, old: u32, new: u32)
    requires { length lines.old.items + 14 ≤ TICK }
    ensures line { lines.new.items ≡ lines.old.items ++ written_line all old new }
    ensures count { length lines.new.items ≤ length lines.old.items + 14 }
{
    if all || new != old {
        put(lines, b"W 15 ");
        put(lines, &word_digits(new));
        put(lines, b"\n");
    }
}

/// Appends the lines of the words that are written, and keeps the words that the pair tells in place of those that it told
/// before.
pub(crate) fn put_words(lines: &mut Lines, all: bool, words: &mut [u32], pair: &Pair)
    requires count { length words.old ≤ 129 }
    requires empty { lines.old.items ≡ [] }
    ensures lines { lines.new.items
        ≡ flat_map (λ n. written_line all (get_or words.old n 0) (pair_word pair.now n))
        (below (length words.old)) }
    ensures short { length lines.new.items ≤ 14 * length words.old }
    ensures words { (n : ℕ) → n < length words.old → get_or words.new n 0 ≡ pair_word pair.now n }
    ensures count { length words.new ≡ length words.old }
{
    for number in 0..words.len() {
        let new = word(pair, number);
        put_written(lines, all, words[number], new);
        words[number] = new;
    }
}
