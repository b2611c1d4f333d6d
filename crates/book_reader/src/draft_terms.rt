// The conditions of a book's tables.
ghost use Rattle.std.specs.Prelude.{◌≡◌, false, IfOk};
ghost use Rattle.toml.specs.View.{view, table_view};
ghost use Rattle.ecam_spec.specs.Book.{constant};
ghost use Rattle.term_tree.specs.View.{tree_of};
ghost use Rattle.book_model.specs.View.{tree_in};
ghost use Rattle.book_spec.specs.Rules.{outcome_in, term_fails};
ghost use Rattle.book_spec.specs.declared.schema.Leaf.TheVariants as leaves;
ghost use Rattle.book_spec.specs.Defaults as defaults;
ghost use Rattle.book_tables.specs.Catalogue.{names_in};
ghost use Rattle.book_faults.specs.Refused.{refuses};
ghost use Rattle.book_faults.specs.Readable.{refused_at};
ghost use Rattle.book_reader.specs.Unplaced.{IsUnplacedTerm};

use book_model::Term;
use book_tables::Scope;
use book_tables::conditions::read_condition;
use book_tables::fields::{find, term_text_in};
use std::alloc::Global;
use term_text::TermError;
use term_tree::Cond;
use toml::{Table, Value};

// The condition that a value's text means, or the constant where it has no such text.
#[tactic(auto, unfolding(book_spec::specs::Rules::outcome_in))]
fn meaning_or(
    alloc: Global,
    names: &Scope<'_, '_>,
    value: &Value,
    default: bool,
) -> Result<Cond, TermError>
    ensures value { IfOk result (λ c. tree_of c ≡ defaults.tree_or (constant default)
        (outcome_in (names_in names.now) (view value.now))) }
    ensures read { IfOk result (λ _. term_fails (names_in names.now) refuses leaves.Term
        (view value.now) ≡ false) }
{
    match term_text_in(value) {
        Some(text) => read_condition(alloc, text, names),
        None => Ok(Cond::Const(default)),
    }
}

/// The condition at a key, or this constant where there is none. An error is what its text is refused for, or want of
/// memory.
#[tactic(auto, unfolding(book_spec::specs::Defaults::term_or))]
pub(crate) fn term_or(
    alloc: Global,
    names: &Scope<'_, '_>,
    table: &Table,
    key: &str,
    default: bool,
) -> Result<Term, TermError>
    ensures value { IfOk result (λ t. tree_in t
        ≡ defaults.term_or default (names_in names.now) key.now (table_view table.now)) }
    ensures read { IfOk result (λ _. refused_at (names_in names.now) key.now (table_view table.now)
        ≡ false) }
    ensures unplaced { IfOk result IsUnplacedTerm }
{
    let cond = match find(table, key) {
        Some(value) => meaning_or(alloc, names, value, default)?,
        None => Cond::Const(default),
    };
    Ok(Term { cond, at: 0 })
}
