// What the keys of a table hold, or what stands in its place where a key is missing or holds something else.
ghost use Rattle.std.specs.Prelude.{◌≡◌, ◌≤◌, codes, bit_or, option_map, unwrap_or, true, IfSome};
ghost use Rattle.toml.specs.View.{view, table_view};
ghost use Rattle.ecam_spec.specs.declared.limits.TheConstants.{TEXT};
ghost use Rattle.ecam_spec.specs.TermNumber.{one_phase};
ghost use Rattle.book_spec.specs.Fields.{label_at};
ghost use Rattle.book_spec.specs.Schema.{colour_words, sound_words, section_words, zone_words, kind_at};
ghost use Rattle.ecam_spec.specs.declared.kinds.Kind.TheVariants.{Disc};
ghost use Rattle.book_spec.specs.Defaults as defaults;
ghost use Rattle.book_tables.specs.Reading.{views};
ghost use Rattle.book_reader.specs.Drafting.{set_of};

use bitflags::Flags;
use book_model::Text;
use book_tables::fields::{label_at, list_in, number_at, number_from, string_at, text_at};
use book_tables::words::{colour_of, kind_of, section_of, sound_of, zone_of};
use ecam_kinds::{Colour, Phase, PhaseSet, Sound};
use ecam_spec::Kind;
use toml::{Table, Value};

/// The text of at most `most` bytes at a key, or the empty one.
pub(crate) fn text_or_none(table: &Table, most: usize, key: &str) -> Text
    requires { most ≤ TEXT }
    ensures { result.bytes ≡ defaults.text_or_none most key.now (table_view table.now) }
{
    match text_at(table, most, key) {
        Some(text) => text,
        None => Text::new(),
    }
}

/// The whole number from `low` to `high` at a key, or `low`.
pub fn number_or_least(table: &Table, low: u32, high: u32, key: &str) -> u32
    requires { low ≤ high }
    ensures value { result ≡ defaults.number_or_least low high key.now (table_view table.now) }
    ensures within { result ≤ high }
{
    match number_at(table, low, high, key) {
        Some(number) => number,
        None => low,
    }
}

/// The label at the key `label`, or 0.
pub(crate) fn label_or_none(table: &Table) -> u8
    ensures { result ≡ unwrap_or (label_at (codes "label") (table_view table.now)) 0 }
{
    label_at(table, "label").unwrap_or(0)
}

/// The kind at the key `kind`, or that of a discrete.
#[tactic(auto, unfolding(book_spec::specs::Schema::kind_at))]
pub(crate) fn kind_or_discrete(table: &Table) -> Kind
    ensures { result ≡ unwrap_or (kind_at (table_view table.now)) Disc }
{
    match string_at(table, "kind") {
        Some(word) => kind_of(word).unwrap_or(Kind::Disc),
        None => Kind::Disc,
    }
}

/// The colour at the key `colour`, or this one.
pub(crate) fn colour_or(table: &Table, default: Colour) -> Colour
    ensures { result ≡ defaults.word_or default colour_words (codes "colour")
        (table_view table.now) }
{
    match string_at(table, "colour") {
        Some(word) => colour_of(word).unwrap_or(default),
        None => default,
    }
}

/// The sound at the key `sound`, or this one.
pub(crate) fn sound_or(table: &Table, default: Sound) -> Sound
    ensures { result ≡ defaults.word_or default sound_words (codes "sound") (table_view table.now) }
{
    match string_at(table, "sound") {
        Some(word) => sound_of(word).unwrap_or(default),
        None => default,
    }
}

/// The section of the status page at the key `section`, or the first.
pub(crate) fn section_or_first(table: &Table) -> u8
    ensures { result ≡ defaults.word_or 0 section_words (codes "section") (table_view table.now) }
{
    match string_at(table, "section") {
        Some(word) => section_of(word).unwrap_or(0),
        None => 0,
    }
}

/// Whether the zone at the key `zone` is the left one, as it is where there is none.
pub(crate) fn is_left(table: &Table) -> bool
    ensures { result ≡ defaults.word_or true zone_words (codes "zone") (table_view table.now) }
{
    match string_at(table, "zone") {
        Some(word) => zone_of(word).unwrap_or(true),
        None => true,
    }
}

// The flight phase that a value is, 1 to 10.
fn phase_from(value: &Value) -> Option<Phase>
    ensures value { option_map (λ p. p.number) result ≡ defaults.phase_from (view value.now) }
    ensures first { IfSome result (λ p. 1 ≤ p.number) }
    ensures last { IfSome result (λ p. p.number ≤ 10) }
{
    let number = number_from(value.as_integer()?, 1, 10)?;
    Some(Phase {
        number: number as u8,
    })
}

fn with_phase(set: PhaseSet, phase: Phase) -> PhaseSet
    requires first { 1 ≤ phase.number }
    requires last { phase.number ≤ 10 }
    ensures { result.0 ≡ bit_or set.0 (one_phase phase.number) }
{
    let mut more = set;
    more.insert(PhaseSet::only(phase));
    more
}

fn set_of(values: &[Value]) -> PhaseSet
    ensures { result.0 ≡ set_of (views values.now) }
{
    let mut set = PhaseSet::empty();
    for value in values {
        if let Some(phase) = phase_from(value) {
            set = with_phase(set, phase);
        }
    }
    set
}

/// The set of the flight phases in the list at a key. What is no phase doesn't count.
#[tactic(auto, unfolding(book_spec::specs::Defaults::phases_at))]
pub fn phases_at(table: &Table, key: &str) -> PhaseSet
    ensures { result.0 ≡ defaults.phases_at key.now (table_view table.now) }
{
    set_of(list_in(table, key))
}
