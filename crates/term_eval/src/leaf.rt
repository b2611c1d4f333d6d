// Conditions that have no others in them.
ghost use Rattle.std.specs.Prelude.{◌≡◌, ◌≤◌, ℕ, List, length, IfSome};
ghost use Rattle.ecam_spec.specs.TermSize.{slots, nodes};
ghost use Rattle.ecam_spec.specs.TermNames.{IsWithin};
ghost use Rattle.term_tree.specs.View.{tree_of};
ghost use Rattle.term_eval.specs.declared.memory.Cell.{Cell};
ghost use Rattle.term_eval.specs.CellWords.{never};
ghost use Rattle.term_eval.specs.Steps.{Steps};

use crate::env::Env;
use term_tree::Cond;

/// Whether an atom holds in the moment; `None` of a condition that has others in it. An atom keeps no slot, and its cost is
/// one look.
#[tactic(auto, unfolding(ecam_spec::specs::TermSize::slots, ecam_spec::specs::TermSize::nodes, ecam_spec::specs::TermNames::IsWithin))]
pub fn atom(cond: &Cond, env: &Env<'_>) -> Option<bool>
    requires names { IsWithin (length env.now.values.now) (length env.now.active.now)
        (tree_of cond.now) }
    requires first { 1 ≤ env.now.phase.number }
    requires last { env.now.phase.number ≤ 10 }
    ensures slots { IfSome result (λ holds. slots (tree_of cond.now) ≡ 0) }
    ensures nodes { IfSome result (λ holds. nodes (tree_of cond.now) ≡ 1) }
    ensures steps { IfSome result (λ holds. (now at : ℕ) (cells : List Cell)
        → Steps env.now now (tree_of cond.now) at cells cells holds never) }
{
    match cond {
        Cond::Const(truth) => Some(*truth),
        Cond::Disc(param) => Some(env.is_one(*param)),
        Cond::Valid(param) => Some(env.has_value(*param)),
        Cond::Cmp(param, op, number) => Some(env.compares(*param, *op, *number)),
        Cond::InPhase(phases) => Some(phases.has(env.phase)),
        Cond::Alert(alert) => Some(env.is_active(*alert)),
        Cond::Press(key) => Some(env.keys.pressed(*key)),
        Cond::Fwc(computer) => Some(env.is_up(*computer)),
        Cond::Not(_)
        | Cond::All(_)
        | Cond::Any(_)
        | Cond::AtLeast(_, _)
        | Cond::Conf(_, _)
        | Cond::Hold(_, _)
        | Cond::Rise(_)
        | Cond::Latch(_, _) => None,
    }
}
