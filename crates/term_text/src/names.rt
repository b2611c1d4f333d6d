// The names that a condition's text may use.
ghost use Rattle.std.specs.Prelude.{◌≡◌, ◌<◌, ◌^◌, length, option_map};
ghost use Rattle.ecam_spec.specs.Bytes.{place_of};
ghost use Rattle.ecam_spec.specs.TermText.{name_place, tree_named};
ghost use Rattle.term_tree.specs.View.{tree_of, named_terms};
ghost use Rattle.term_text.specs.Known.{first_named, texts_of};

use arrayvec::ArrayString;
use ecam_spec::limits::NAME;
use term_tree::{Cond, NamedTerm};

/// Finds the parameters, the alerts and the named conditions of a book by name.
pub trait Dictionary {
    ghost use Rattle.std.specs.Prelude.{option_map};
    ghost use Rattle.ecam_spec.specs.TermText.{TermNames, tree_named};
    ghost use Rattle.term_tree.specs.View.{tree_of};

    /// The names of the parameters and of the alerts, and the named conditions, in order.
    ghost known: { Self → TermNames };

    /// The place of the first parameter of this name, from 0. A name of more than 24 bytes is unknown.
    fn param(&self, name: &[u8]) -> Option<u32>
        requires { length (known self.now).parameters < 2 ^ 32 }
        ensures { result ≡ name_place (known self.now).parameters name.now };

    /// The place of the first alert of this name, from 0. A name of more than 24 bytes is unknown.
    fn alert(&self, name: &[u8]) -> Option<u32>
        requires { length (known self.now).alerts < 2 ^ 32 }
        ensures { result ≡ name_place (known self.now).alerts name.now };

    /// The first condition of this name. A name of more than 24 bytes is unknown.
    fn term(&self, name: &[u8]) -> Option<&Cond>
        ensures { option_map (λ c. tree_of c.now) result
            ≡ tree_named (known self.now).terms name.now };
}

/// The names of the parameters and of the alerts, and the conditions that have a name, in order. Each look-up
/// compares with one after the other.
#[derive(Clone, Copy)]
pub struct Names<'a> {
    pub params: &'a [ArrayString<NAME>],
    pub alerts: &'a [ArrayString<NAME>],
    pub terms: &'a [NamedTerm],
}

impl Dictionary for Names<'_> {
    ghost use Rattle.term_text.specs.Known.{known_names};

    ghost known = { known_names };

    fn param(&self, name: &[u8]) -> Option<u32> {
        place_of(self.params, name)
    }

    fn alert(&self, name: &[u8]) -> Option<u32> {
        place_of(self.alerts, name)
    }

    fn term(&self, name: &[u8]) -> Option<&Cond> {
        term_of(self.terms, name)
    }
}

// The place of the first of this name, which is unknown where it is longer than a name may be.
#[tactic(auto, unfolding(ecam_spec::specs::TermText::name_place))]
fn place_of(names: &[ArrayString<NAME>], name: &[u8]) -> Option<u32>
    requires { length names.now < 2 ^ 32 }
    ensures { result ≡ name_place (texts_of names.now) name.now }
{
    if name.len() > NAME {
        return None;
    }
    position_of(names, name)
}

// The first condition of this name, which is unknown where it is longer than a name may be.
fn term_of<'a>(terms: &'a [NamedTerm], name: &[u8]) -> Option<&'a Cond>
    ensures { option_map (λ c. tree_of c.now) result ≡ tree_named (named_terms terms.now) name.now }
{
    if name.len() > NAME {
        return None;
    }
    first_of(terms, name)
}

fn first_of<'a>(terms: &'a [NamedTerm], name: &[u8]) -> Option<&'a Cond>
    ensures { option_map (λ c. c.now) result ≡ first_named terms.now name.now }
{
    for term in terms {
        if name == term.name.as_str().as_bytes() {
            return Some(&term.cond);
        }
    }
    None
}

fn position_of(names: &[ArrayString<NAME>], name: &[u8]) -> Option<u32>
    requires { length names.now < 2 ^ 32 }
    ensures { result ≡ place_of (texts_of names.now) name.now }
{
    for (i, known) in names.iter().enumerate() {
        if name == known.as_str().as_bytes() {
            return Some(i as u32);
        }
    }
    None
}
