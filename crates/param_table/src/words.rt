// What words say to sources, and which of their bits decide it.
ghost use Rattle.std.specs.Prelude.{◌≡◌, ◌≤◌, IfSome};
ghost use Rattle.book_model.specs.View.{source_of};
ghost use Rattle.param_table.specs.Words.{IsReadable, highest_low, low_of, mask_of, modes_of, reads};
ghost use Rattle.param_table.specs.TableState.{IsValueOf};

use arinc_words::Word;
use book_model::{Kind, WordSource};

/// The lowest bit of a source's data: the one that a discrete is, or a number's lowest, which is bit 11 for BCD.
pub fn low_of(kind: Kind, source: &WordSource) -> u8
    ensures { result ≡ low_of kind (source_of source.now) }
{
    match kind {
        Kind::Disc => source.bit,
        Kind::Bnr => source.low,
        Kind::Bcd => 11,
    }
}

/// What a word says to a source of a parameter of this kind, by the lowest bit and the range of its data.
#[inline(always)]
pub fn reading(kind: Kind, low: u8, range: u32, word: &Word) -> Option<i64>
    requires { IsReadable kind low range }
    ensures value { result ≡ reads kind low range word.now }
    ensures bound { IfSome result (IsValueOf kind) }
{
    match kind {
        Kind::Disc => word.disc(low),
        Kind::Bnr => word.bnr(low, range),
        Kind::Bcd => word.bcd(),
    }
}

/// The bits that decide what a word says to a source of a parameter of this kind: the SSM, bits 30 and 31, and the data, which
/// is one bit, those from the lowest up to bit 29, or bits 11 to 29.
pub fn mask_of(kind: Kind, low: u8) -> u32
    requires least { 11 ≤ low }
    requires most { low ≤ highest_low kind }
    ensures { result ≡ mask_of kind low }
{
    match kind {
        Kind::Disc => (1 << (low - 1)) + (3 << 29),
        Kind::Bnr => (1 << 31) - (1 << (low - 1)),
        Kind::Bcd => (1 << 31) - (1 << 10),
    }
}

/// In which modes a word says something to a parameter of this kind: bit m is set where it may with an SSM of m.
pub fn modes_of(kind: Kind) -> u8
    ensures { result ≡ modes_of kind }
{
    match kind {
        Kind::Disc => 1,
        Kind::Bnr => 8,
        Kind::Bcd => 9,
    }
}
