// What the definitions of the slots come to: theorems, each the contract of a function that does nothing.
ghost use Rattle.std.specs.Prelude.{ℕ, ◌+◌, All, AllPairs};
ghost use Rattle.ecam_spec.specs.Book.{Tree};
ghost use Rattle.ecam_spec.specs.TermSize.{slots, own_slots, placed_children, EndsBefore, LiesIn};

/// The slots of a node's children are ranges behind the node's own slot and within the node's range, and
/// no two of them overlap: the children's come in order.
pub fn children_have_slots_of_their_own()
    ensures within { (at : ℕ) (c : Tree) → All (LiesIn (at + own_slots c) (at + slots c))
        (placed_children at c) }
    ensures disjoint { (at : ℕ) (c : Tree) → AllPairs EndsBefore (placed_children at c) }
{}
