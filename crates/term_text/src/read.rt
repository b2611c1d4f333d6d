// Reading a condition's text.
ghost use Rattle.std.specs.Prelude.{◌≡◌, ◌≤◌, ◌<◌, ◌^◌, length};
ghost use Rattle.term_text.specs.Answer.{TellsVerdict};
ghost use Rattle.term_text.specs.Known.{known_names};

use crate::build::condition_of;
use crate::error::TermError;
use crate::names::{Dictionary, Names};
use crate::steps::steps_of;
use std::alloc::Global;
use term_tree::Cond;

/// Reads a condition's text, whose names are looked up one after the other. A name by itself that is no parameter's
/// may be a named condition's, whose tree is copied to its place; a tree that is too deep or too large isn't.
pub fn read_term(alloc: Global, text: &str, names: &Names<'_>) -> Result<Cond, TermError>
    requires short { length text.now ≤ 4096 }
    requires few_parameters { length names.now.params.now < 2 ^ 32 }
    requires few_alerts { length names.now.alerts.now < 2 ^ 32 }
    ensures { TellsVerdict (known_names names.now) text.now result }
{
    read_term_by(alloc, text, names)
}

/// Reads a condition's text, whose names a dictionary finds. Beside them it costs as much as the text is long, and for
/// each name by itself as much as the named condition is large.
pub fn read_term_by<D: Dictionary>(alloc: Global, text: &str, names: &D) -> Result<Cond, TermError>
    requires short { length text.now ≤ 4096 }
    requires few_parameters { length (D.known names.now).parameters < 2 ^ 32 }
    requires few_alerts { length (D.known names.now).alerts < 2 ^ 32 }
    ensures { TellsVerdict (D.known names.now) text.now result }
{
    let bytes = text.as_bytes();
    let steps = steps_of(alloc, bytes)?;
    condition_of(alloc, bytes, names, &steps)
}
