//! The language of conditions: its grammar is unambiguous, and each text has one verdict.
ghost use Rattle.std.specs.Prelude.{◌≡◌, ℕ, List};
ghost use Rattle.ecam_spec.specs.Grammar.{Form, spelling};
ghost use Rattle.ecam_spec.specs.TermText.{TermNames, Outcome};
ghost use Rattle.ecam_spec.specs.TermVerdict.{IsVerdict};

/// The grammar of conditions gives a list of tokens at most one condition.
#[tactic(auto, using(crate::proofs::TermVerdict::one_form))]
pub fn one_condition()
    ensures { (f g : Form) → spelling f ≡ spelling g → f ≡ g }
{}

/// Each text of a condition has a verdict, and no other.
#[tactic(auto, using(crate::proofs::TermVerdict::some_verdict, crate::proofs::TermVerdict::one_verdict))]
pub fn one_verdict()
    ensures some { (names : TermNames) (text : List ℕ)
        → (outcome : Outcome) × IsVerdict names text outcome }
    ensures one { (names : TermNames) (text : List ℕ) (o p : Outcome) → IsVerdict names text o
        → IsVerdict names text p → o ≡ p }
{}
