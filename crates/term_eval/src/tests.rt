// Worked histories of five moments, over a that holds in one of them, b in another, and d in each.
#![tactic(auto, unfolding(ecam_spec::specs::TermSize::slots, ecam_spec::specs::TermSize::nodes, ecam_spec::specs::TermNames::IsWithin))]

ghost use Rattle.std.specs.Prelude.{◌≡◌, ◌≤◌, length, IfOk};
ghost use Rattle.ecam_spec.specs.Book.{Tree};
ghost use Rattle.ecam_spec.specs.TermSize.{slots, nodes};
ghost use Rattle.ecam_spec.specs.TermNames.{IsWithin};
ghost use Rattle.ecam_spec.specs.declared.limits.TheConstants.{TERM_NODES};
ghost use Rattle.term_tree.specs.View.{tree_of};
ghost use Rattle.term_eval.specs.Code.{IsCode, IsHeld};
ghost use Rattle.term_eval.specs.Links.{links_from};

use crate::{
    Cells, Env, Link, Node, Reading, Step, add_code, add_links, add_owners, says, test_of,
};
use ecam_kinds::{Keys, Phase};
use std::alloc::{AllocError, Global};
use std::test::Fail;
use term_tree::Cond;

// The places of a, b and d.
const A: u32 = 0;

const B: u32 = 1;

const D: u32 = 2;

fn truth(holds: bool) -> Option<i64> {
    Some(i64::from(holds))
}

// What a condition answers in five moments, with a in the first of these moments alone and b in the second.
fn answers(alloc: Global, cond: &Cond, a: usize, b: usize) -> Result<[bool; 5], AllocError>
    requires few { slots (tree_of cond.now) ≤ 2 }
    requires names { IsWithin 3 0 (tree_of cond.now) }
{
    let mut cells = Cells::new(alloc, 2)?;
    let keys = Keys::new();
    let mut found = [false; 5];
    for moment in 0..5usize {
        let values = [truth(moment == a), truth(moment == b), truth(true)];
        let env = Env {
            values: &values,
            phase: Phase { number: 6 },
            active: &[],
            keys: &keys,
            one_up: true,
            two_up: true,
        };
        found[moment] = cells.refresh(cond, 0, &env, moment as u64).holds;
    }
    Ok(found)
}

// The code of a condition, whose slots start at 0.
fn code_of(alloc: Global, cond: &Cond) -> Result<Vec<Step>, AllocError>
    requires few { slots (tree_of cond.now) ≤ 2 }
    requires small { nodes (tree_of cond.now) ≤ TERM_NODES }
    ensures { IfOk result (λ steps. IsCode (tree_of cond.now) 0 steps.items) }
{
    let mut steps = Vec::new(alloc);
    add_code(&mut steps, cond, 0)?;
    Ok(steps)
}

// The values of a, b and d in a moment, with a in this one moment alone and b in that one.
fn values_in(moment: usize, a: usize, b: usize) -> [Option<i64>; 3]
    ensures { length result ≡ 3 }
{
    [truth(moment == a), truth(moment == b), truth(true)]
}

fn value_at(values: &[Option<i64>], param: u32) -> Option<i64> {
    match values.get(param as usize) {
        Some(value) => *value,
        None => None,
    }
}

// Tells each discrete that reads otherwise than it did.
fn hear(
    cells: &mut Cells,
    steps: &[Step],
    links: &[Link],
    was: &[Option<i64>],
    values: &[Option<i64>],
)
    requires held { (c : Tree) × IsHeld steps.now cells.old.nodes c 0 0 }
    requires links { links.now ≡ links_from steps.now }
    ensures states { length cells.new.nodes.states ≡ length cells.old.nodes.states }
    ensures wakes { length cells.new.nodes.wakes ≡ length cells.old.nodes.wakes }
    ensures slots { cells.new.slots ≡ cells.old.slots }
    ensures owners { cells.new.owners ≡ cells.old.owners }
{
    for (node, step) in steps.iter().enumerate() {
        if let Node::Disc(param) = step.node {
            let value = value_at(values, param);
            if value != value_at(was, param) {
                let test = test_of(&step.node);
                let holds = says(test, &step.node, Reading::Value(value));
                cells.turn(links[node], links, 0, node, holds);
            }
        }
    }
}

// The same answers, by the condition's code, and when it is due. What reads otherwise is told in the moments that are heard.
fn answers_by_code(
    alloc: Global,
    cond: &Cond,
    a: usize,
    b: usize,
    heard: [bool; 5],
) -> Result<([bool; 5], [u64; 5]), AllocError>
    requires few { slots (tree_of cond.now) ≤ 2 }
    requires small { nodes (tree_of cond.now) ≤ TERM_NODES }
    requires names { IsWithin 3 0 (tree_of cond.now) }
{
    let steps = code_of(alloc, cond)?;
    let mut links = Vec::new(alloc);
    add_links(&mut links, &steps)?;
    let mut owners = Vec::new(alloc);
    add_owners(&mut owners, &steps)?;
    let mut cells = Cells::with_nodes(alloc, steps.len(), 2)?;
    cells.own(0, &owners);
    let keys = Keys::new();
    let mut values = values_in(0, a, b);
    let env = Env {
        values: &values,
        phase: Phase { number: 6 },
        active: &[],
        keys: &keys,
        one_up: true,
        two_up: true,
    };
    let first = cells.begin(&steps, 0, &env);
    let mut found = [first.holds; 5];
    let mut dues = [first.due; 5];
    for moment in 1..5usize {
        let next = if heard[moment] {
            values_in(moment, a, b)
        } else {
            values
        };
        hear(&mut cells, &steps, &links, &values, &next);
        values = next;
        let turn = cells.run(&links, 0, owners.len(), 0, moment as u64);
        found[moment] = turn.holds;
        dues[moment] = turn.due;
    }
    Ok((found, dues))
}

const ALWAYS: [bool; 5] = [true, true, true, true, true];

const FIRST: [bool; 5] = [true, false, false, false, false];

#[test]
fn code_tells_what_the_tree_tells(rt: HostRuntime) -> Result<(), Fail> {
    let alloc = rt.alloc();
    let lately = Cond::Hold(Box::new(alloc, Cond::Disc(A))?, 1);
    let reset = Cond::All(vec![in alloc; Cond::Disc(B), Cond::Disc(D)]?);
    let cond = Cond::Latch(Box::new(alloc, lately)?, Box::new(alloc, reset)?);
    assert_eq!(rt;
        answers_by_code(alloc, &cond, 0, 3, ALWAYS)?.0,
        [true, true, true, false, false]
    );
    Ok(())
}

// A node that isn't told is left alone: a that holds in moment 1 alone is never seen where only the first moment is heard,
// and is seen to go where moment 3 is heard.
#[test]
fn leaves_what_is_not_told(rt: HostRuntime) -> Result<(), Fail> {
    let alloc = rt.alloc();
    let cond = Cond::Not(Box::new(alloc, Cond::Disc(A))?);
    assert_eq!(rt;
        answers_by_code(alloc, &cond, 1, 4, FIRST)?.0,
        [true, true, true, true, true]
    );
    assert_eq!(rt;
        answers_by_code(alloc, &cond, 0, 4, FIRST)?.0,
        [false, false, false, false, false]
    );
    assert_eq!(rt;
        answers_by_code(alloc, &cond, 1, 4, [true, true, false, true, false])?.0,
        [true, false, false, true, true]
    );
    Ok(())
}

// Each kind of temporal node turns by itself in its due moment, where no moment but the first two is heard.
#[test]
fn is_due_where_nothing_is_told(rt: HostRuntime) -> Result<(), Fail> {
    let alloc = rt.alloc();
    let heard = [true, true, false, false, false];
    let confirmed = Cond::Conf(Box::new(alloc, Cond::Disc(D))?, 2);
    assert_eq!(rt;
        answers_by_code(alloc, &confirmed, 4, 4, heard)?,
        (
            [false, false, true, true, true],
            [2, 2, u64::MAX, u64::MAX, u64::MAX]
        )
    );
    let lately = Cond::Hold(Box::new(alloc, Cond::Disc(A))?, 2);
    assert_eq!(rt;
        answers_by_code(alloc, &lately, 0, 4, heard)?,
        (
            [true, true, true, false, false],
            [u64::MAX, 3, 3, u64::MAX, u64::MAX]
        )
    );
    let risen = Cond::Rise(Box::new(alloc, Cond::Disc(D))?);
    assert_eq!(rt;
        answers_by_code(alloc, &risen, 4, 4, heard)?,
        (
            [true, false, false, false, false],
            [1, u64::MAX, u64::MAX, u64::MAX, u64::MAX]
        )
    );
    let lately = Cond::Hold(Box::new(alloc, Cond::Disc(A))?, 1);
    let reset = Cond::Not(Box::new(alloc, lately)?);
    let cond = Cond::Latch(Box::new(alloc, Cond::Disc(A))?, Box::new(alloc, reset)?);
    assert_eq!(rt;
        answers_by_code(alloc, &cond, 0, 4, heard)?,
        (
            [true, true, false, false, false],
            [u64::MAX, 2, u64::MAX, u64::MAX, u64::MAX]
        )
    );
    Ok(())
}

#[test]
fn steps_every_member(rt: HostRuntime) -> Result<(), Fail> {
    let alloc = rt.alloc();
    let confirmed = Cond::Conf(Box::new(alloc, Cond::Disc(D))?, 2);
    let cond = Cond::All(vec![in alloc; Cond::Disc(A), confirmed]?);
    assert_eq!(rt;
        answers(alloc, &cond, 4, 4)?,
        [false, false, false, false, true]
    );
    Ok(())
}

#[test]
fn latches(rt: HostRuntime) -> Result<(), Fail> {
    let alloc = rt.alloc();
    let lately = Cond::Hold(Box::new(alloc, Cond::Disc(A))?, 1);
    let cond = Cond::Latch(Box::new(alloc, lately)?, Box::new(alloc, Cond::Disc(B))?);
    assert_eq!(rt;
        answers(alloc, &cond, 0, 3)?,
        [true, true, true, false, false]
    );
    Ok(())
}

#[test]
fn rises(rt: HostRuntime) -> Result<(), Fail> {
    let alloc = rt.alloc();
    let cond = Cond::Rise(Box::new(alloc, Cond::Disc(A))?);
    assert_eq!(rt;
        answers(alloc, &cond, 0, 3)?,
        [true, false, false, false, false]
    );
    Ok(())
}

// When a condition is due by itself, seen from the moment of its last operand's change: a `conf` of two moments, a `hold` of
// three after its operand ended, a `rise`, and the sooner of two.
#[test]
fn tells_when_it_is_due(rt: HostRuntime) -> Result<(), Fail> {
    let alloc = rt.alloc();
    let confirmed = Cond::Conf(Box::new(alloc, Cond::Disc(A))?, 2);
    assert_eq!(rt; dues(alloc, &confirmed)?, [u64::MAX, 3, 3, u64::MAX]);
    let lately = Cond::Hold(Box::new(alloc, Cond::Disc(B))?, 3);
    assert_eq!(rt; dues(alloc, &lately)?, [u64::MAX, 4, 4, 4]);
    let risen = Cond::Rise(Box::new(alloc, Cond::Disc(A))?);
    assert_eq!(rt; dues(alloc, &risen)?, [u64::MAX, 2, u64::MAX, u64::MAX]);
    let confirmed = Cond::Conf(Box::new(alloc, Cond::Disc(A))?, 2);
    let risen = Cond::Rise(Box::new(alloc, Cond::Disc(A))?);
    let both = Cond::Any(vec![in alloc; confirmed, risen]?);
    assert_eq!(rt; dues(alloc, &both)?, [u64::MAX, 2, 3, u64::MAX]);
    Ok(())
}

// The due moments that a condition tells in four moments, with a from moment 1 on and b in moment 0 alone.
fn dues(alloc: Global, cond: &Cond) -> Result<[u64; 4], AllocError>
    requires few { slots (tree_of cond.now) ≤ 2 }
    requires names { IsWithin 3 0 (tree_of cond.now) }
{
    let mut cells = Cells::new(alloc, 2)?;
    let keys = Keys::new();
    let mut found = [0; 4];
    for moment in 0..4usize {
        let values = [truth(moment > 0), truth(moment == 0), truth(true)];
        let env = Env {
            values: &values,
            phase: Phase { number: 6 },
            active: &[],
            keys: &keys,
            one_up: true,
            two_up: true,
        };
        found[moment] = cells.refresh(cond, 0, &env, moment as u64).due;
    }
    Ok(found)
}

#[test]
fn counts_members(rt: HostRuntime) -> Result<(), Fail> {
    let alloc = rt.alloc();
    let cond = Cond::AtLeast(
        2,
        vec![in alloc; Cond::Disc(A), Cond::Disc(B), Cond::Const(true)]?,
    );
    assert_eq!(rt;
        answers(alloc, &cond, 0, 3)?,
        [true, false, false, true, false]
    );
    Ok(())
}

#[test]
fn forgets_and_takes_over(rt: HostRuntime) -> Result<(), Fail> {
    let alloc = rt.alloc();
    let keys = Keys::new();
    let env = Env {
        values: &[],
        phase: Phase { number: 6 },
        active: &[],
        keys: &keys,
        one_up: true,
        two_up: false,
    };
    let cond = Cond::Rise(Box::new(alloc, Cond::Fwc(1))?);
    let mut cells = Cells::new(alloc, 1)?;
    let mut others = Cells::new(alloc, 1)?;
    assert!(rt; cells.refresh(&cond, 0, &env, 0).holds);
    others.copy_from(&cells);
    assert!(rt; !others.refresh(&cond, 0, &env, 1).holds);
    assert_eq!(rt; others.visits(), 2);
    cells.clear();
    assert!(rt; cells.refresh(&cond, 0, &env, 0).holds);
    assert_eq!(rt; cells.visits(), 4);
    Ok(())
}
