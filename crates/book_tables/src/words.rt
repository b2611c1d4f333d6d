// What the words of the closed lists stand for.
ghost use Rattle.std.specs.Prelude.{◌≡◌};
ghost use Rattle.term_text.specs.Words.{found_in};
ghost use Rattle.book_spec.specs.Schema.{meaning, kind_words, sound_words, section_words, zone_words, colour_words};

use ecam_kinds::{Colour, Sound};
use ecam_spec::Kind;
use term_text::is_same;

/// How the words of a parameter are read: the kind that a word of the list names.
#[tactic(auto, unfolding(book_spec::specs::Schema::kind_words))]
pub fn kind_of(word: &str) -> Option<Kind>
    ensures { result ≡ meaning kind_words word.now }
{
    find(
        &[("disc", Kind::Disc), ("bnr", Kind::Bnr), ("bcd", Kind::Bcd)],
        word,
    )
}

/// The sound of an alert that a word of the list names.
#[tactic(auto, unfolding(book_spec::specs::Schema::sound_words))]
pub fn sound_of(word: &str) -> Option<Sound>
    ensures { result ≡ meaning sound_words word.now }
{
    find(
        &[
            ("none", Sound::Quiet),
            ("sc", Sound::Chime),
            ("crc", Sound::Repetitive),
            ("cav", Sound::Cavalry),
            ("cri", Sound::Cricket),
        ],
        word,
    )
}

/// The section of the status page that a word of the list names, by its number from 0, in the order in which they
/// stand there.
#[tactic(auto, unfolding(book_spec::specs::Schema::section_words))]
pub fn section_of(word: &str) -> Option<u8>
    ensures { result ≡ meaning section_words word.now }
{
    find(
        &[
            ("limitations", 0),
            ("approach", 1),
            ("procedure", 2),
            ("information", 3),
            ("inop", 4),
        ],
        word,
    )
}

/// The zone of memos that a word of the list names: whether it is the left one.
#[tactic(auto, unfolding(book_spec::specs::Schema::zone_words))]
pub fn zone_of(word: &str) -> Option<bool>
    ensures { result ≡ meaning zone_words word.now }
{
    find(&[("left", true), ("right", false)], word)
}

/// The colour of a text that a word of the list names.
#[tactic(auto, unfolding(book_spec::specs::Schema::colour_words))]
pub fn colour_of(word: &str) -> Option<Colour>
    ensures { result ≡ meaning colour_words word.now }
{
    find(
        &[
            ("R", Colour::Red),
            ("A", Colour::Amber),
            ("G", Colour::Green),
            ("W", Colour::White),
            ("C", Colour::Cyan),
            ("M", Colour::Magenta),
        ],
        word,
    )
}

// What stands beside a word in a table.
fn find<T: Copy>(table: &[(&str, T)], word: &str) -> Option<T>
    ensures { result ≡ found_in table.now word.now }
{
    for (name, value) in table {
        if is_same(word.as_bytes(), name.as_bytes()) {
            return Some(*value);
        }
    }
    None
}
