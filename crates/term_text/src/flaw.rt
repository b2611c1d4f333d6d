// What is wrong with the names and the numbers of a condition's text.
ghost use Rattle.std.specs.Prelude.{◌≡◌};
ghost use Rattle.ecam_spec.specs.TermText.{flaw_place};
ghost use Rattle.term_text.specs.Flaws.{flaw_of, flaw_in, earlier_of};

/// What is wrong with a name or a number, and where that begins.
#[derive(Clone, Copy, Debug)]
pub(crate) enum Flaw {
    UnknownName(usize),
    OutOfRange(usize),
}

impl Flaw {
    fn place(self) -> usize
        ensures { result ≡ flaw_place (flaw_of self) }
    {
        match self {
            Flaw::UnknownName(at) => at,
            Flaw::OutOfRange(at) => at,
        }
    }
}

/// Of what is wrong with two parts of a text, what stands first.
#[tactic(auto, unfolding(ecam_spec::specs::TermText::earlier))]
pub(crate) fn earlier_of(one: Option<Flaw>, other: Option<Flaw>) -> Option<Flaw>
    ensures { flaw_in result ≡ earlier_of (flaw_in one) (flaw_in other) }
{
    match (one, other) {
        (Some(a), Some(b)) => {
            if a.place() <= b.place() {
                Some(a)
            } else {
                Some(b)
            }
        }
        (Some(a), None) => Some(a),
        (None, b) => b,
    }
}
