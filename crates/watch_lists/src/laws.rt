// What the numbers and the operands come to: theorems, each the contract of a function that does nothing.
ghost use Rattle.std.specs.Prelude.{◌≡◌, Bool};
ghost use Rattle.std.specs.List.{list_any};
ghost use Rattle.ecam_spec.specs.Book.{Tree};
ghost use Rattle.ecam_spec.specs.TermNames.{IsWithin};
ghost use Rattle.term_eval.specs.Woken.{Operand, operands};
ghost use Rattle.watch_lists.specs.declared.number.Sizes.{Sizes};
ghost use Rattle.watch_lists.specs.Naming.{operand_number, IsOperand};

/// No two operands that a book may name have the same number.
#[tactic(auto, using(crate::proofs::Numbers::number_tells))]
pub fn operands_have_numbers_of_their_own()
    ensures { (n : Sizes) (x y : Operand) → IsOperand n x → IsOperand n y
        → operand_number n x ≡ operand_number n y → x ≡ y }
{}

/// A condition that asks for what the book has names operands of the book alone: two tests that agree on these agree on
/// whether one of the condition's operands passes.
#[tactic(auto, using(crate::proofs::Scope::any_same))]
pub fn a_condition_names_operands_of_its_book()
    ensures { (n : Sizes) (f g : Operand → Bool) → ((x : Operand) → IsOperand n x → f x ≡ g x)
        → (c : Tree)
        → IsWithin n.params n.alerts c → list_any f (operands c) ≡ list_any g (operands c) }
{}
