// The words of conditions.
ghost use Rattle.std.specs.Prelude.{◌≡◌};
ghost use Rattle.std.specs.List.{list_any};
ghost use Rattle.ecam_spec.specs.Bytes.{same_text};
ghost use Rattle.ecam_spec.specs.BookText.{reserved};
ghost use Rattle.ecam_spec.specs.Token.{reserved_of};
ghost use Rattle.ecam_spec.specs.RecordLine.{key_of};
ghost use Rattle.term_text.specs.Words.{found_in};

use crate::same::is_same;
use ecam_kinds::Key;
use ecam_spec::Reserved;

/// The reserved word that a word is.
#[tactic(auto, unfolding(ecam_spec::specs::Token::reserved_of, ecam_spec::specs::Token::reserved_words))]
pub(crate) fn reserved_of(word: &[u8]) -> Option<Reserved>
    ensures { result ≡ reserved_of word.now }
{
    find(
        &[
            ("true", Reserved::True),
            ("false", Reserved::False),
            ("valid", Reserved::Valid),
            ("phase", Reserved::Phase),
            ("alert", Reserved::Alert),
            ("press", Reserved::Press),
            ("fwc", Reserved::Fwc),
            ("not", Reserved::Not),
            ("rise", Reserved::Rise),
            ("all", Reserved::All),
            ("any", Reserved::Any),
            ("atleast", Reserved::AtLeast),
            ("conf", Reserved::Conf),
            ("hold", Reserved::Hold),
            ("latch", Reserved::Latch),
        ],
        word,
    )
}

/// Whether a word is reserved for conditions, and so no name.
#[tactic(auto, using(crate::proofs::ReservedWords::is_reserved_word))]
pub fn is_reserved(word: &[u8]) -> bool
    ensures { result ≡ list_any (same_text word.now) reserved }
{
    reserved_of(word).is_some()
}

/// The key that a word is.
pub(crate) fn key_of(word: &[u8]) -> Option<Key>
    ensures { result ≡ key_of word.now }
{
    find(
        &[
            ("CLR", Key::Clr),
            ("RCL", Key::Rcl),
            ("STS", Key::Sts),
            ("ALL", Key::All),
            ("EMER", Key::Emer),
            ("TOCFG", Key::ToCfg),
            ("MW", Key::Mw),
            ("MC", Key::Mc),
            ("PG1", Key::Page(1)),
            ("PG2", Key::Page(2)),
            ("PG3", Key::Page(3)),
            ("PG4", Key::Page(4)),
            ("PG5", Key::Page(5)),
            ("PG6", Key::Page(6)),
            ("PG7", Key::Page(7)),
            ("PG8", Key::Page(8)),
            ("PG9", Key::Page(9)),
            ("PG10", Key::Page(10)),
            ("PG11", Key::Page(11)),
            ("PG12", Key::Page(12)),
            ("PG13", Key::Page(13)),
            ("PG14", Key::Page(14)),
            ("PG15", Key::Page(15)),
            ("PG16", Key::Page(16)),
        ],
        word,
    )
}

// What stands beside a word in a table.
fn find<T: Copy>(table: &[(&str, T)], word: &[u8]) -> Option<T>
    ensures { result ≡ found_in table.now word.now }
{
    for (name, value) in table {
        if is_same(word, name.as_bytes()) {
            return Some(*value);
        }
    }
    None
}
