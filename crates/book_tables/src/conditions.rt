// The conditions of a document.
ghost use Rattle.std.specs.Prelude.{◌≡◌, ◌≤◌, Some, length, true, is_some, unwrap_or, option_copied, option_map, IfSome, IfOk};
ghost use Rattle.std.specs.Option.{option_and_then};
ghost use Rattle.toml.specs.Data.{get_member};
ghost use Rattle.toml.specs.View.{view, table_view};
ghost use Rattle.ecam_spec.specs.Book.{constant};
ghost use Rattle.term_tree.specs.View.{tree_of, named_term};
ghost use Rattle.term_text.specs.Answer.{Tells};
ghost use Rattle.book_spec.specs.Fields.{term_text_in};
ghost use Rattle.book_spec.specs.Rules.{outcome_in};
ghost use Rattle.book_spec.specs.Verdict.{verdict};
ghost use Rattle.book_spec.specs.Defaults as defaults;
ghost use Rattle.book_tables.specs.Catalogue.{names_in, term_names_in};
ghost use Rattle.book_tables.specs.Meant.{meant, meant_in};

use crate::fields::{find, name_or_none, table_or, term_text_in};
use crate::names::Scope;
use ecam_spec::limits::TERM_TEXT;
use std::alloc::{AllocError, Global};
use term_text::{TermError, read_term_by};
use term_tree::{Cond, NamedTerm};
use toml::{Table, Value};

/// The condition that a text means with a document's names, or what it is refused for. An error is that, or want of
/// memory.
pub fn read_condition(alloc: Global, text: &str, names: &Scope<'_, '_>) -> Result<Cond, TermError>
    requires { length text.now ≤ TERM_TEXT }
    ensures { Tells (verdict (term_names_in names.now) text.now) result }
{
    read_term_by(alloc, text, names)
}

fn term_text_at<'a>(table: &'a Table, key: &str) -> Option<&'a str>
    ensures value { option_copied result ≡ option_and_then term_text_in
        (get_member key.now (table_view table.now)) }
    ensures short { IfSome result (λ t. length t.now ≤ TERM_TEXT) }
{
    term_text_in(find(table, key)?)
}

// The condition that a text means, if it means one.
fn meaning_of(alloc: Global, names: &Scope<'_, '_>, text: &str) -> Result<Option<Cond>, AllocError>
    requires { length text.now ≤ TERM_TEXT }
    ensures { IfOk result (λ c. option_map tree_of c
        ≡ meant (Some (verdict (term_names_in names.now) text.now))) }
{
    match read_condition(alloc, text, names) {
        Ok(cond) => Ok(Some(cond)),
        Err(TermError::Memory) => Err(AllocError),
        Err(_) => Ok(None),
    }
}

// The condition at a key, if there is one and its text means it.
#[tactic(auto, unfolding(book_spec::specs::Rules::outcome_in))]
fn meaning_at(
    alloc: Global,
    names: &Scope<'_, '_>,
    table: &Table,
    key: &str,
) -> Result<Option<Cond>, AllocError>
    ensures { IfOk result (λ c. option_map tree_of c ≡ meant (option_and_then
        (outcome_in (names_in names.now)) (get_member key.now (table_view table.now)))) }
{
    match term_text_at(table, key) {
        Some(text) => meaning_of(alloc, names, text),
        None => Ok(None),
    }
}

// The condition that a text means, or `true` where it means none.
fn meaning_or_true(meaning: Option<Cond>) -> Cond
    ensures { tree_of result ≡ unwrap_or (option_map tree_of meaning) (constant true) }
{
    match meaning {
        Some(cond) => cond,
        None => Cond::Const(true),
    }
}

/// The condition that an item names, which is `true` where its text means none, and whether it means one.
#[tactic(auto, using(crate::proofs::MeantTerms::named_meant))]
pub(crate) fn named_in(
    alloc: Global,
    names: &Scope<'_, '_>,
    value: &Value,
) -> Result<(NamedTerm, bool), AllocError>
    ensures value { IfOk result (λ t. named_term t.0
        ≡ defaults.named_in (names_in names.now) (view value.now)) }
    ensures meant { IfOk result (λ t. t.1
        ≡ is_some (meant_in (names_in names.now) (view value.now))) }
{
    let empty = Table::new(alloc);
    let table = table_or(value, &empty);
    let meaning = meaning_at(alloc, names, table, "when")?;
    let is_meant = meaning.is_some();
    let term = NamedTerm {
        name: name_or_none(table),
        cond: meaning_or_true(meaning),
    };
    Ok((term, is_meant))
}
