// What the truth of a condition rests on, and what wakes it: theorems, each the contract of a function that does nothing.
ghost use Rattle.std.specs.Prelude.{◌≡◌, ℕ, suc, ◌+◌, ◌≤◌, ◌<◌, ◌^◌, Bool, false, ◌||◌, ◌==◌, List, map, slice_index};
ghost use Rattle.std.specs.List.{list_any};
ghost use Rattle.ecam_spec.specs.Book.{Tree};
ghost use Rattle.ecam_spec.specs.Term.{World, holds};
ghost use Rattle.ecam_spec.specs.TermNames.{AgreeOn};
ghost use Rattle.term_eval.specs.declared.memory.Cell.{Cell};
ghost use Rattle.term_eval.specs.CellState.{Stand};
ghost use Rattle.ecam_spec.specs.TermSize.{nodes, slots};
ghost use Rattle.term_eval.specs.Code.{code, IsShort};
ghost use Rattle.term_eval.specs.declared.code.Step.{Step};
ghost use Rattle.term_eval.specs.Memory.{NodeMemory};
ghost use Rattle.term_eval.specs.NodeState.{state_at, NodesWait, NodesStand, first_wake};
ghost use Rattle.term_eval.specs.Asked.{asked, node_asks, heard};
ghost use Rattle.term_eval.specs.Woken.{moved, operands, woken};
ghost use Rattle.term_eval.specs.Due.{staying, IsDue};

/// Two worlds that agree, in each moment up to now, on the operands that a condition names give it equal truth:
/// nothing that it doesn't name has a bearing on it, and nothing that comes later.
pub fn what_is_named_decides()
    ensures { (v w : World) (c : Tree) (k : ℕ) → ((i : ℕ) → i ≤ k → AgreeOn v w i c)
        → holds v c k ≡ holds w c k }
{}

/// A condition that nothing wakes in a moment holds where it held in the moment before, its cells stand for one moment more
/// as they are, and it is due when it was.
pub fn a_condition_at_rest_keeps_its_truth()
    ensures truth { (w : World) (c : Tree) (k : ℕ) → woken w c (suc k) ≡ false
        → holds w c (suc k) ≡ holds w c k }
    ensures stands { (w : World) (c : Tree) (k at : ℕ) (cells : List Cell)
        → woken w c (suc k) ≡ false
        → Stand w (suc k) c at cells → Stand w (suc (suc k)) c at cells }
    ensures due { (w : World) (c : Tree) (k due : ℕ) → suc k < 2 ^ 63 → woken w c (suc k) ≡ false
        → IsDue (staying w k) c k due → IsDue (staying w (suc k)) c (suc k) due }
{}

/// What wakes a condition is an operand that moves, or its due moment.
#[tactic(auto, using(crate::proofs::Later::woken_is))]
pub fn operands_and_the_due_moment_wake()
    ensures { (w : World) (c : Tree) (k due : ℕ) → suc k < 2 ^ 63 → IsDue (staying w k) c k due
        → woken w c (suc k) ≡ (list_any (moved w (suc k)) (operands c) || due == suc k) }
{}

/// The code of a condition asks for what the condition asks for, step by step.
pub fn code_asks_for_what_the_condition_asks_for()
    ensures { (c : Tree) (at up : ℕ)
        → map (λ (s : Step). node_asks s.node) (code at up c) ≡ asked c }
{}

/// Where no temporal node of a condition is to be looked at in a moment, once each atom was updated whose operand moves, all
/// stands for one moment more as it is: its first node tells its truth, and it is due when the first of its temporal nodes
/// is.
pub fn a_condition_that_is_not_stirred_stands()
    ensures truth { (w : World) (h : ℕ) (c : Tree) (at first : ℕ) (n : NodeMemory)
        → suc h < 2 ^ 63 → IsShort c → NodesWait w h (heard (moved w (suc h)) c) c at first n
        → suc h < first_wake n.wakes at (slots c)
        → holds w c (suc h) ≡ (state_at n.states first).told }
    ensures nodes { (w : World) (h : ℕ) (c : Tree) (at first : ℕ) (n : NodeMemory)
        → suc h < 2 ^ 63 → IsShort c → NodesWait w h (heard (moved w (suc h)) c) c at first n
        → suc h < first_wake n.wakes at (slots c)
        → NodesStand w (suc h) c at first n }
    ensures cells { (w : World) (h : ℕ) (c : Tree) (at first : ℕ) (n : NodeMemory)
        (cells : List Cell)
        → suc h < 2 ^ 63 → IsShort c → NodesWait w h (heard (moved w (suc h)) c) c at first n
        → suc h < first_wake n.wakes at (slots c)
        → Stand w (suc h) c at cells → Stand w (suc (suc h)) c at cells }
    ensures due { (w : World) (h : ℕ) (c : Tree) (at first : ℕ) (n : NodeMemory)
        → suc h < 2 ^ 63 → IsShort c → NodesWait w h (heard (moved w (suc h)) c) c at first n
        → suc h < first_wake n.wakes at (slots c)
        → IsDue (staying w (suc h)) c (suc h) (first_wake n.wakes at (slots c)) }
{}

/// What is kept of the nodes of a condition rests on their own states and slots alone.
pub fn nodes_wait_by_their_own_states()
    ensures { (w : World) (h : ℕ) (updated : ℕ → Bool) (c : Tree) (at first : ℕ)
        (old new : NodeMemory)
        → ((i : ℕ) → first ≤ i → i < first + nodes c
        → state_at new.states i ≡ state_at old.states i)
        → ((s : ℕ) → at ≤ s → s < at + slots c
        → slice_index new.wakes s ≡ slice_index old.wakes s)
        → NodesWait w h updated c at first old → NodesWait w h updated c at first new }
{}

/// Of which nodes have been updated, it rests on the condition's own alone.
pub fn nodes_wait_by_whom_was_asked()
    ensures { (w : World) (h : ℕ) (old new : ℕ → Bool) (c : Tree) (at first : ℕ) (n : NodeMemory)
        → ((i : ℕ) → i < nodes c → new i ≡ old i)
        → NodesWait w h old c at first n → NodesWait w h new c at first n }
{}
