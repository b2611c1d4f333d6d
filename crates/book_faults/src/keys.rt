// The keys of a book's tables: their names, whether they have to be there, and what they may hold.
ghost use Rattle.std.specs.Prelude.{◌≡◌, true, false, Some, None};
ghost use Rattle.ecam_spec.specs.declared.kinds.Kind.TheVariants.{Disc, Bnr, Bcd};
ghost use Rattle.toml.specs.View.{table_view};
ghost use Rattle.book_spec.specs.Schema as spec;
ghost use Rattle.book_faults.specs.Keys.{keys_of};

use book_spec::{Inner, Leaf, Shape, Words};
use book_tables::fields::string_at;
use book_tables::words::kind_of;
use ecam_spec::{Kind, limits};
use toml::Table;

/// A key, whether it has to be there, and what it may hold.
#[derive(Clone, Copy)]
pub(crate) struct Key<S> {
    pub(crate) name: &'static str,
    pub(crate) needed: bool,
    pub(crate) holds: S,
}

fn needs<S>(name: &'static str, holds: S) -> Key<S>
    ensures key { result ≡ record { name = name.entry; needed = true; holds = holds } }
{
    Key {
        name,
        needed: true,
        holds,
    }
}

fn may_have<S>(name: &'static str, holds: S) -> Key<S>
    ensures key { result ≡ record { name = name.entry; needed = false; holds = holds } }
{
    Key {
        name,
        needed: false,
        holds,
    }
}

/// The keys of a row that shows a value.
#[tactic(auto, unfolding(book_spec::specs::Schema::row_keys))]
pub(crate) fn value_row_keys() -> [Key<Leaf>; 3]
    ensures { keys_of result ≡ spec.row_keys true }
{
    [
        needs("text", Leaf::Text(limits::VALUE_ROW_TEXT)),
        may_have("show", Leaf::Parameter),
        may_have("unit", Leaf::Text(limits::UNIT)),
    ]
}

/// The keys of a row that shows none.
#[tactic(auto, unfolding(book_spec::specs::Schema::row_keys))]
pub(crate) fn text_row_keys() -> [Key<Leaf>; 2]
    ensures { keys_of result ≡ spec.row_keys false }
{
    [
        needs("text", Leaf::Text(limits::TEXT)),
        may_have("colour", Leaf::Word(Words::Colour)),
    ]
}

/// The keys of a discrete's source.
#[tactic(auto, unfolding(book_spec::specs::Schema::source_keys, book_spec::specs::Schema::reading_keys))]
pub(crate) fn disc_keys() -> [Key<Leaf>; 4]
    ensures { keys_of result ≡ spec.source_keys (Some Disc) }
{
    [
        needs("bus", Leaf::Number(0, 15)),
        needs("label", Leaf::Label),
        may_have("sdi", Leaf::Number(0, 3)),
        needs("bit", Leaf::Number(11, 29)),
    ]
}

/// The keys of a binary number's source.
#[tactic(auto, unfolding(book_spec::specs::Schema::source_keys, book_spec::specs::Schema::reading_keys))]
pub(crate) fn bnr_keys() -> [Key<Leaf>; 5]
    ensures { keys_of result ≡ spec.source_keys (Some Bnr) }
{
    [
        needs("bus", Leaf::Number(0, 15)),
        needs("label", Leaf::Label),
        may_have("sdi", Leaf::Number(0, 3)),
        needs("low", Leaf::Number(11, 28)),
        needs("range", Leaf::Number(1, limits::NUMBER)),
    ]
}

/// The keys of a decimal number's source.
#[tactic(auto, unfolding(book_spec::specs::Schema::source_keys, book_spec::specs::Schema::reading_keys))]
pub(crate) fn bcd_keys() -> [Key<Leaf>; 3]
    ensures { keys_of result ≡ spec.source_keys (Some Bcd) }
{
    [
        needs("bus", Leaf::Number(0, 15)),
        needs("label", Leaf::Label),
        may_have("sdi", Leaf::Number(0, 3)),
    ]
}

/// The keys that a source of a parameter without a kind may have.
#[tactic(auto, unfolding(book_spec::specs::Schema::source_keys, book_spec::specs::Schema::reading_keys))]
pub(crate) fn any_source_keys() -> [Key<Leaf>; 6]
    ensures { keys_of result ≡ spec.source_keys None }
{
    [
        needs("bus", Leaf::Number(0, 15)),
        needs("label", Leaf::Label),
        may_have("sdi", Leaf::Number(0, 3)),
        may_have("bit", Leaf::Number(11, 29)),
        may_have("low", Leaf::Number(11, 28)),
        may_have("range", Leaf::Number(1, limits::NUMBER)),
    ]
}

/// The keys of a line of a procedure.
#[tactic(auto, unfolding(book_spec::specs::Schema::line_keys))]
pub(crate) fn line_keys() -> [Key<Leaf>; 4]
    ensures { keys_of result ≡ spec.line_keys }
{
    [
        needs("text", Leaf::Text(limits::TEXT)),
        may_have("colour", Leaf::Word(Words::Colour)),
        may_have("when", Leaf::Term),
        may_have("done", Leaf::Term),
    ]
}

/// The keys of a line of the status page.
#[tactic(auto, unfolding(book_spec::specs::Schema::status_keys))]
pub(crate) fn status_keys() -> [Key<Leaf>; 2]
    ensures { keys_of result ≡ spec.status_keys }
{
    [
        needs("section", Leaf::Word(Words::Section)),
        needs("text", Leaf::Text(limits::TEXT)),
    ]
}

/// The keys of a page.
#[tactic(auto, unfolding(book_spec::specs::Schema::page_keys))]
pub(crate) fn page_keys() -> [Key<Shape>; 4]
    ensures { keys_of result ≡ spec.page_keys }
{
    [
        needs("name", Shape::Leaf(Leaf::Name)),
        needs("title", Shape::Leaf(Leaf::Text(limits::TEXT))),
        may_have("phases", Shape::Leaf(Leaf::Phases)),
        may_have("row", Shape::Tables(Inner::Row, 0, limits::PAGE_ROWS)),
    ]
}

/// The keys of a parameter of this kind, if it has one.
#[tactic(auto, unfolding(book_spec::specs::Schema::param_keys))]
pub(crate) fn param_keys(kind: Option<Kind>) -> [Key<Shape>; 4]
    ensures { keys_of result ≡ spec.param_keys kind }
{
    [
        needs("name", Shape::Leaf(Leaf::Name)),
        needs("kind", Shape::Leaf(Leaf::Word(Words::Kind))),
        needs("stale", Shape::Leaf(Leaf::Number(1, limits::STALE))),
        needs(
            "source",
            Shape::Tables(Inner::Source(kind), 1, limits::SOURCES),
        ),
    ]
}

/// The keys of a named condition.
#[tactic(auto, unfolding(book_spec::specs::Schema::named_keys))]
pub(crate) fn named_keys() -> [Key<Shape>; 2]
    ensures { keys_of result ≡ spec.named_keys }
{
    [
        needs("name", Shape::Leaf(Leaf::Name)),
        needs("when", Shape::Leaf(Leaf::Term)),
    ]
}

/// The keys of the table of the flight phase.
#[tactic(auto, unfolding(book_spec::specs::Schema::phase_keys))]
pub(crate) fn phase_keys() -> [Key<Shape>; 6]
    ensures { keys_of result ≡ spec.phase_keys }
{
    [
        may_have("gnd", Shape::Leaf(Leaf::Term)),
        may_have("run", Shape::Leaf(Leaf::Term)),
        may_have("tp", Shape::Leaf(Leaf::Term)),
        may_have("fast", Shape::Leaf(Leaf::Term)),
        may_have("high", Shape::Leaf(Leaf::Term)),
        may_have("low", Shape::Leaf(Leaf::Term)),
    ]
}

/// The keys of an alert.
#[tactic(auto, unfolding(book_spec::specs::Schema::alert_keys))]
pub(crate) fn alert_keys() -> [Key<Shape>; 12]
    ensures { keys_of result ≡ spec.alert_keys }
{
    [
        needs("name", Shape::Leaf(Leaf::Name)),
        needs("title", Shape::Leaf(Leaf::Text(limits::TEXT))),
        needs("system", Shape::Leaf(Leaf::System)),
        needs("level", Shape::Leaf(Leaf::Number(1, 3))),
        needs("when", Shape::Leaf(Leaf::Term)),
        may_have("page", Shape::Leaf(Leaf::Page)),
        may_have("confirm", Shape::Leaf(Leaf::Number(0, limits::WAIT))),
        may_have("sound", Shape::Leaf(Leaf::Word(Words::Sound))),
        may_have("inhibit", Shape::Leaf(Leaf::Phases)),
        may_have("secondary", Shape::Leaf(Leaf::Alerts)),
        may_have("line", Shape::Tables(Inner::Line, 0, limits::LINES)),
        may_have(
            "status",
            Shape::Tables(Inner::Status, 0, limits::STATUS_LINES),
        ),
    ]
}

/// The keys of a memo.
#[tactic(auto, unfolding(book_spec::specs::Schema::memo_keys))]
pub(crate) fn memo_keys() -> [Key<Shape>; 5]
    ensures { keys_of result ≡ spec.memo_keys }
{
    [
        needs("name", Shape::Leaf(Leaf::Name)),
        needs("text", Shape::Leaf(Leaf::Text(limits::TEXT))),
        needs("zone", Shape::Leaf(Leaf::Word(Words::Zone))),
        needs("when", Shape::Leaf(Leaf::Term)),
        may_have("colour", Shape::Leaf(Leaf::Word(Words::Colour))),
    ]
}

/// The kind that a parameter's table tells, if it is one of the three.
#[tactic(auto, unfolding(book_spec::specs::Schema::kind_at))]
pub(crate) fn kind_at(table: &Table) -> Option<Kind>
    ensures { result ≡ spec.kind_at (table_view table.now) }
{
    kind_of(string_at(table, "kind")?)
}
