//! What the definition of the callouts says, as theorems: each is the contract of a function that does nothing.
ghost use Rattle.std.specs.Prelude.{◌≡◌, ℕ, ◌<◌, ◌+◌, true, false, ℤ, Option, None};
ghost use Rattle.view_spec.specs.Callouts.{margin, is_above, crossed, call};

/// A height that was called isn't called again before the value was above it by more than the margin.
#[tactic(auto, using(crate::proofs::CalloutLaws::not_again))]
pub fn a_height_is_called_again_only_from_above()
    ensures { (values : ℕ → Option ℤ) (h j k : ℕ) → crossed values h j ≡ true → j < k
        → ((i : ℕ) → j < i → i < k → is_above (h + margin) (values i) ≡ false)
        → crossed values h k ≡ false }
{}

/// The first moment calls nothing, and neither does one without a value.
#[tactic(auto, using(crate::proofs::CalloutLaws::call_first, crate::proofs::CalloutLaws::call_none))]
pub fn only_a_value_that_comes_down_is_called()
    ensures first { (values : ℕ → Option ℤ) → call values 0 ≡ None }
    ensures valueless { (values : ℕ → Option ℤ) (k : ℕ) → values k ≡ None → call values k ≡ None }
{}
