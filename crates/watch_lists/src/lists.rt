// A condition is put into the lists of the operands that it names.
ghost use Rattle.std.specs.Prelude.{◌≡◌, ℕ, ◌+◌, ◌<◌, ◌≤◌, ◌^◌, ◌==◌, ◌&&◌, ◌||◌, length, map, OnOk};
ghost use Rattle.ecam_spec.specs.TermNames.{IsWithin, AreWithin};
ghost use Rattle.term_tree.specs.View.{tree_of, trees_of};
ghost use Rattle.watch_lists.specs.Naming.{operand_count, names, some_name};
ghost use Rattle.watch_lists.specs.Listed.{is_listed, items_of, Adds};

use crate::number::{Sizes, key_place};
use std::alloc::AllocError;
use term_tree::Cond;

/// Puts a condition into the list of one operand.
fn add_one(lists: &mut Vec<Vec<usize>>, operand: usize, term: usize) -> Result<(), AllocError>
    requires { operand < length lists.old.items }
    ensures len { OnOk result (length lists.new.items ≡ length lists.old.items) }
    ensures listed { OnOk result (Adds term (λ o. operand == o) (items_of lists.old.items)
        (items_of lists.new.items)) }
{
    lists[operand].push(term)?;
    Ok(())
}

/// Puts a condition into the lists of all operands that it names. Its cost is one visit of each node.
#[cycle(adding)]
#[tactic(auto, unfolding(term_eval::specs::Woken::operands, ecam_spec::specs::TermNames::IsWithin))]
pub fn add_operands(
    lists: &mut Vec<Vec<usize>>,
    cond: &Cond,
    term: usize,
    sizes: Sizes,
) -> Result<(), AllocError>
    requires few { sizes.params + sizes.alerts < 2 ^ 32 }
    requires lists { length lists.old.items ≡ operand_count sizes }
    requires within { IsWithin sizes.params sizes.alerts (tree_of cond.now) }
    ensures len { OnOk result (length lists.new.items ≡ length lists.old.items) }
    ensures listed { OnOk result (Adds term (names sizes (tree_of cond.now))
        (items_of lists.old.items) (items_of lists.new.items)) }
{
    match cond {
        Cond::Const(_) => Ok(()),
        Cond::Disc(param) => add_one(lists, *param as usize, term),
        Cond::Valid(param) => add_one(lists, *param as usize, term),
        Cond::Cmp(param, _, _) => add_one(lists, *param as usize, term),
        Cond::InPhase(_) => add_one(lists, sizes.params + sizes.alerts, term),
        Cond::Alert(alert) => add_one(lists, sizes.params + *alert as usize, term),
        Cond::Press(key) => {
            add_one(
                lists,
                sizes.params + sizes.alerts + 1 + key_place(*key),
                term,
            )
        }
        Cond::Fwc(computer) => {
            add_one(
                lists,
                sizes.params + sizes.alerts + 25 + usize::from(*computer),
                term,
            )
        }
        Cond::Not(of) => add_operands(lists, of, term, sizes),
        Cond::All(members) => add_each(lists, members, term, sizes),
        Cond::Any(members) => add_each(lists, members, term, sizes),
        Cond::AtLeast(_, members) => add_each(lists, members, term, sizes),
        Cond::Conf(of, _) => add_operands(lists, of, term, sizes),
        Cond::Hold(of, _) => add_operands(lists, of, term, sizes),
        Cond::Rise(of) => add_operands(lists, of, term, sizes),
        Cond::Latch(set, reset) => {
            add_operands(lists, set, term, sizes)?;
            add_operands(lists, reset, term, sizes)
        }
    }
}

#[cycle(adding)]
fn add_each(
    lists: &mut Vec<Vec<usize>>,
    members: &[Cond],
    term: usize,
    sizes: Sizes,
) -> Result<(), AllocError>
    requires few { sizes.params + sizes.alerts < 2 ^ 32 }
    requires lists { length lists.old.items ≡ operand_count sizes }
    requires within { AreWithin sizes.params sizes.alerts (trees_of members.now) }
    ensures len { OnOk result (length lists.new.items ≡ length lists.old.items) }
    ensures listed { OnOk result (Adds term (some_name sizes (trees_of members.now))
        (items_of lists.old.items) (items_of lists.new.items)) }
{
    for member in members {
        add_operands(lists, member, term, sizes)?;
    }
    Ok(())
}
