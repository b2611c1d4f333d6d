// The walk through a condition's tree: each node in preorder, and each temporal node's slot with it.
ghost use Rattle.std.specs.Prelude.{◌≡◌, ◌+◌, ◌-◌, ◌^◌, ◌<◌, ◌≤◌, min, length};
ghost use Rattle.ecam_spec.specs.TermSize.{slots, slots_of, nodes, nodes_of};
ghost use Rattle.ecam_spec.specs.TermNames.{IsWithin, AreWithin};
ghost use Rattle.term_tree.specs.View.{tree_of, trees_of};
ghost use Rattle.term_eval.specs.CellWords.{never};
ghost use Rattle.term_eval.specs.Slots.{wakes_of, cells_of, owners_of};
ghost use Rattle.term_eval.specs.Steps.{Steps, StepsAll};

use crate::env::Env;
use crate::leaf::atom;
use crate::memory::{confirm, hold, latch, rise};
use crate::slot::Slot;
use crate::turn::{NEVER, Turn, lasting, sooner};
use term_tree::Cond;

/// Steps each node of a condition by the moment of this number, counts each as visited, and tells whether the
/// condition holds in it and when it turns by itself. `next` is the condition's first slot, and afterwards the first slot
/// behind it.
#[cycle(walk)]
#[tactic(auto, unfolding(ecam_spec::specs::TermSize::slots, ecam_spec::specs::TermSize::nodes, ecam_spec::specs::TermNames::IsWithin))]
pub fn step(
    cond: &Cond,
    kept: &mut [Slot],
    next: &mut usize,
    visits: &mut u64,
    env: &Env,
    now: u64,
) -> Turn
    requires range { next.old + slots (tree_of cond.now) ≤ length kept.old }
    requires names { IsWithin (length env.now.values.now) (length env.now.active.now)
        (tree_of cond.now) }
    requires first { 1 ≤ env.now.phase.number }
    requires last { env.now.phase.number ≤ 10 }
    requires now { now < 2 ^ 63 }
    ensures next { next.new ≡ next.old + slots (tree_of cond.now) }
    ensures visits { visits.new ≡ min (visits.old + nodes (tree_of cond.now)) (2 ^ 64 - 1) }
    ensures steps { Steps env.now now (tree_of cond.now) next.old (cells_of kept.old)
        (cells_of kept.new) result.holds result.due }
    ensures wakes { wakes_of kept.new ≡ wakes_of kept.old }
    ensures owners { owners_of kept.new ≡ owners_of kept.old }
{
    *visits = visits.saturating_add(1);
    match cond {
        Cond::Const(truth) => lasting(*truth),
        Cond::Disc(param) => lasting(env.is_one(*param)),
        Cond::Valid(param) => lasting(env.has_value(*param)),
        Cond::Cmp(param, op, number) => lasting(env.compares(*param, *op, *number)),
        Cond::InPhase(phases) => lasting(phases.has(env.phase)),
        Cond::Alert(alert) => lasting(env.is_active(*alert)),
        Cond::Press(key) => lasting(env.keys.pressed(*key)),
        Cond::Fwc(computer) => lasting(env.is_up(*computer)),
        Cond::Not(of) => {
            let inner = step(of, kept, next, visits, env, now);
            Turn {
                holds: !inner.holds,
                due: inner.due,
            }
        }
        Cond::All(members) => {
            let tally = step_each(members, kept, next, visits, env, now);
            Turn {
                holds: tally.count == members.len(),
                due: tally.due,
            }
        }
        Cond::Any(members) => {
            let tally = step_each(members, kept, next, visits, env, now);
            Turn {
                holds: tally.count > 0,
                due: tally.due,
            }
        }
        Cond::AtLeast(least, members) => {
            let tally = step_each(members, kept, next, visits, env, now);
            Turn {
                holds: tally.count >= *least as usize,
                due: tally.due,
            }
        }
        Cond::Conf(of, moments) => {
            let own = take_slot(next);
            let inner = step(of, kept, next, visits, env, now);
            sooner(
                confirm(&mut kept[own].cell, inner.holds, *moments, now),
                inner.due,
            )
        }
        Cond::Hold(of, moments) => {
            let own = take_slot(next);
            let inner = step(of, kept, next, visits, env, now);
            sooner(
                hold(&mut kept[own].cell, inner.holds, *moments, now),
                inner.due,
            )
        }
        Cond::Rise(of) => {
            let own = take_slot(next);
            let inner = step(of, kept, next, visits, env, now);
            sooner(rise(&mut kept[own].cell, inner.holds, now), inner.due)
        }
        Cond::Latch(set, reset) => {
            let own = take_slot(next);
            let set = step(set, kept, next, visits, env, now);
            let reset = step(reset, kept, next, visits, env, now);
            let holds = latch(&mut kept[own].cell, set.holds, reset.holds);
            Turn {
                holds,
                due: set.due.min(reset.due),
            }
        }
    }
}

// A temporal node's own slot comes before its children's.
fn take_slot(next: &mut usize) -> usize
    requires { next.old < 2 ^ 63 }
    ensures own { result ≡ next.old }
    ensures next { next.new ≡ next.old + 1 }
{
    let own = *next;
    *next += 1;
    own
}

/// How many of some conditions hold, and the first due moment of them.
#[derive(Clone, Copy)]
struct Tally {
    count: usize,
    due: u64,
}

// One node more is visited.
fn count_visit(visits: &mut u64)
    ensures { visits.new ≡ min (visits.old + 1) (2 ^ 64 - 1) }
{
    *visits = u64::saturating_add(*visits, 1);
}

// Counts an atom as visited. It takes no walk of its own.
fn visit(visits: &mut u64, holds: bool) -> Turn
    ensures visits { visits.new ≡ min (visits.old + 1) (2 ^ 64 - 1) }
    ensures holds { result.holds ≡ holds }
    ensures due { result.due ≡ never }
{
    *visits = u64::saturating_add(*visits, 1);
    lasting(holds)
}

// Steps a condition that stands in another, as `step` does. One that has several others in it is walked here, which saves
// a call where such conditions stand in one another.
#[cycle(walk)]
#[tactic(auto, unfolding(ecam_spec::specs::TermSize::slots, ecam_spec::specs::TermSize::nodes, ecam_spec::specs::TermNames::IsWithin))]
fn step_inner(
    cond: &Cond,
    kept: &mut [Slot],
    next: &mut usize,
    visits: &mut u64,
    env: &Env,
    now: u64,
) -> Turn
    requires range { next.old + slots (tree_of cond.now) ≤ length kept.old }
    requires names { IsWithin (length env.now.values.now) (length env.now.active.now)
        (tree_of cond.now) }
    requires first { 1 ≤ env.now.phase.number }
    requires last { env.now.phase.number ≤ 10 }
    requires now { now < 2 ^ 63 }
    ensures next { next.new ≡ next.old + slots (tree_of cond.now) }
    ensures visits { visits.new ≡ min (visits.old + nodes (tree_of cond.now)) (2 ^ 64 - 1) }
    ensures steps { Steps env.now now (tree_of cond.now) next.old (cells_of kept.old)
        (cells_of kept.new) result.holds result.due }
    ensures wakes { wakes_of kept.new ≡ wakes_of kept.old }
    ensures owners { owners_of kept.new ≡ owners_of kept.old }
{
    match cond {
        Cond::All(members) => {
            count_visit(visits);
            let tally = step_each(members, kept, next, visits, env, now);
            Turn {
                holds: tally.count == members.len(),
                due: tally.due,
            }
        }
        Cond::Any(members) => {
            count_visit(visits);
            let tally = step_each(members, kept, next, visits, env, now);
            Turn {
                holds: tally.count > 0,
                due: tally.due,
            }
        }
        Cond::AtLeast(least, members) => {
            count_visit(visits);
            let tally = step_each(members, kept, next, visits, env, now);
            Turn {
                holds: *least as usize <= tally.count,
                due: tally.due,
            }
        }
        Cond::Const(_)
        | Cond::Disc(_)
        | Cond::Valid(_)
        | Cond::Cmp(_, _, _)
        | Cond::InPhase(_)
        | Cond::Alert(_)
        | Cond::Press(_)
        | Cond::Fwc(_)
        | Cond::Not(_)
        | Cond::Conf(_, _)
        | Cond::Hold(_, _)
        | Cond::Rise(_)
        | Cond::Latch(_, _) => step(cond, kept, next, visits, env, now),
    }
}

/// Steps each of some conditions, whatever the others answer.
#[cycle(walk)]
fn step_each(
    members: &[Cond],
    kept: &mut [Slot],
    next: &mut usize,
    visits: &mut u64,
    env: &Env,
    now: u64,
) -> Tally
    requires range { next.old + slots_of (trees_of members.now) ≤ length kept.old }
    requires names { AreWithin (length env.now.values.now) (length env.now.active.now)
        (trees_of members.now) }
    requires first { 1 ≤ env.now.phase.number }
    requires last { env.now.phase.number ≤ 10 }
    requires now { now < 2 ^ 63 }
    requires visits { visits.old ≤ 2 ^ 64 - 1 }
    ensures next { next.new ≡ next.old + slots_of (trees_of members.now) }
    ensures visits { visits.new ≡ min (visits.old + nodes_of (trees_of members.now)) (2 ^ 64 - 1) }
    ensures steps { StepsAll env.now now (trees_of members.now) next.old (cells_of kept.old)
        (cells_of kept.new) result.count result.due }
    ensures wakes { wakes_of kept.new ≡ wakes_of kept.old }
    ensures owners { owners_of kept.new ≡ owners_of kept.old }
{
    let mut count = 0usize;
    let mut due = NEVER;
    for member in members {
        let turn = match atom(member, env) {
            Some(holds) => visit(visits, holds),
            None => step_inner(member, kept, next, visits, env, now),
        };
        if turn.holds {
            count += 1;
        }
        due = due.min(turn.due);
    }
    Tally { count, due }
}
