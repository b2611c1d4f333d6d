// The lines of a moment.
ghost use Rattle.std.specs.Prelude.{◌≡◌, ◌<◌, ◌≤◌, ◌+◌, ◌++◌, [], length, map, ℕ, List};
ghost use Rattle.std.specs.Borrow.{Bor};
ghost use Rattle.ecam_spec.specs.Output.{line};
ghost use Rattle.ecam_spec.specs.RecordLine.{key_words};
ghost use Rattle.record_maker.specs.Draws.{draw};
ghost use Rattle.record_maker.specs.Lines.{word_digits, word_line, key_word, key_lines, computer_lines, moment_lines};
ghost use Rattle.record_maker.specs.Record.{text_of};

use crate::draws::draw_after;
use crate::words::{drawn_word, flags_word};
use arrayvec::ArrayVec;

// How many bytes a moment has at most: two words, a key, a computer and its end.
pub(crate) const MOMENT: usize = 40;

// The lines of a moment.
pub(crate) type Lines = ArrayVec<u8, MOMENT>;

// The words of the keys.
const KEYS: [&str; 24] = [
    "CLR", "RCL", "STS", "ALL", "EMER", "TOCFG", "MW", "MC", "PG1", "PG2", "PG3", "PG4", "PG5",
    "PG6", "PG7", "PG8", "PG9", "PG10", "PG11", "PG12", "PG13", "PG14", "PG15", "PG16",
];

// Appends bytes for which there is room.
pub(crate) fn put(lines: &mut Lines, bytes: &[u8])
    requires { length lines.old.items + length bytes.now ≤ MOMENT }
    ensures { lines.new.items ≡ lines.old.items ++ bytes.now }
{
    let _ = lines.try_extend_from_slice(bytes);
}

// A word's eight digits.
fn word_digits(word: u32) -> [u8; 8]
    ensures { result ≡ word_digits word }
{
    let mut digits = [0; 8];
    let _ = hex::encode_to_slice(word.to_be_bytes(), &mut digits);
    digits
}

// Appends the line of a word on a bus of one digit.
fn put_word(lines: &mut Lines, bus: u8, word: u32)
    requires bus { bus < 10 }
    requires room { length lines.old.items + 13 ≤ MOMENT }
    ensures line { lines.new.items ≡ lines.old.items ++ line (word_line bus word) }
    ensures count { length lines.new.items ≡ length lines.old.items + 13 }
{
    put(lines, &[b'W', b' ', b'0' + bus, b' ']);
    put(lines, &word_digits(word));
    put(lines, b"\n");
}

// The word of a key by its number.
fn key_in(keys: &[&'static str], number: usize) -> &'static str
    requires keys { map (λ (k : Bor (List ℕ)). k.now) keys.now ≡ map (λ k. k.0) key_words }
    requires number { number < length keys.now }
    requires few { number < 24 }
    ensures { result.now ≡ key_word number }
{
    keys[number]
}

// The word of the key with this number, from 0.
fn key_word(number: usize) -> &'static str
    requires { number < 24 }
    ensures word { result.now ≡ key_word number }
    ensures short { length result.now ≤ 5 }
{
    key_in(&KEYS, number)
}

// Appends the line of a key where the draw makes one.
fn put_key(lines: &mut Lines, r: u64)
    requires { length lines.old.items + 8 ≤ MOMENT }
    ensures lines { lines.new.items ≡ lines.old.items ++ text_of (key_lines r) }
    ensures count { length lines.new.items ≤ length lines.old.items + 8 }
{
    if r % 50 == 0 {
        let letter = if (r >> 32) % 2 == 0 { b'P' } else { b'R' };
        put(lines, &[letter, b' ']);
        put(lines, key_word((r / 50 % 24) as usize).as_bytes());
        put(lines, b"\n");
    }
}

// Appends the line of a computer that fails or comes up where the draw makes one.
fn put_computer(lines: &mut Lines, r: u64)
    requires { length lines.old.items + 4 ≤ MOMENT }
    ensures lines { lines.new.items ≡ lines.old.items ++ text_of (computer_lines r) }
    ensures count { length lines.new.items ≤ length lines.old.items + 4 }
{
    let place = r % 400;
    let number = b'1' + (r / 400 % 2) as u8;
    if place == 0 {
        put(lines, &[b'F', b' ', number, b'\n']);
    } else if place <= 8 {
        put(lines, &[b'U', b' ', number, b'\n']);
    }
}

// Appends the lines of the moment with this number, by the three draws after this one, and answers the last of them.
pub(crate) fn put_moment(lines: &mut Lines, moment: u32, s: u64) -> u64
    requires { lines.old.items ≡ [] }
    ensures lines { lines.new.items ≡ text_of (moment_lines moment s) }
    ensures draw { result ≡ draw s 3 }
{
    let one = draw_after(s);
    let two = draw_after(one);
    let three = draw_after(two);
    put_word(lines, 0, flags_word(moment));
    put_word(lines, 1 + (one % 3) as u8, drawn_word(one));
    put_key(lines, two);
    put_computer(lines, three);
    put(lines, b"T\n");
    three
}
