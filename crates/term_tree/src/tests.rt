// The measures of one tree, counted by hand, and copies of trees.
use crate::{Cond, Op};
use ecam_kinds::{Key, PhaseSet};
use std::alloc::Global;
use std::test::Fail;

#[test]
fn measures_a_tree(rt: HostRuntime) -> Result<(), Fail> {
    let alloc = rt.alloc();
    assert_eq!(rt; Cond::Disc(0).size(), 1);
    assert_eq!(rt; Cond::Disc(0).depth(), 1);
    assert_eq!(rt; Cond::Disc(0).slots(), 0);
    let confirmed = Cond::Conf(Box::new(alloc, Cond::Disc(2))?, 2);
    let both = Cond::All(vec![in alloc; Cond::Disc(1), confirmed]?);
    let lately = Cond::Hold(Box::new(alloc, Cond::Disc(0))?, 1);
    let latch = Cond::Latch(Box::new(alloc, lately)?, Box::new(alloc, both)?);
    assert_eq!(rt; latch.size(), 7);
    assert_eq!(rt; latch.depth(), 4);
    assert_eq!(rt; latch.slots(), 3);
    Ok(())
}

fn is_copied(alloc: Global, cond: Cond) -> Result<bool, Fail> {
    Ok(cond.copy(alloc)? == cond)
}

#[test]
fn copies_trees(rt: HostRuntime) -> Result<(), Fail> {
    let alloc = rt.alloc();
    let phases = PhaseSet::ONE;
    for atom in [
        Cond::Const(true),
        Cond::Disc(1),
        Cond::Valid(2),
        Cond::Cmp(3, Op::Less, -4),
        Cond::InPhase(phases),
        Cond::Alert(5),
        Cond::Press(Key::Page(6)),
        Cond::Fwc(2),
    ] {
        assert!(rt; is_copied(alloc, atom)?);
    }
    let lately = Cond::Hold(Box::new(alloc, Cond::Disc(0))?, 1);
    let begun = Cond::Rise(Box::new(alloc, Cond::Alert(3))?);
    let some = Cond::Any(vec![in alloc; begun, Cond::Disc(1)]?);
    let both = Cond::All(vec![in alloc; some, lately, Cond::Fwc(1)]?);
    let confirmed = Cond::Conf(Box::new(alloc, both)?, 2);
    let off = Cond::Not(Box::new(alloc, Cond::Valid(4))?);
    let least = Cond::AtLeast(1, vec![in alloc; off, Cond::Const(false)]?);
    let latch = Cond::Latch(Box::new(alloc, confirmed)?, Box::new(alloc, least)?);
    assert!(rt; is_copied(alloc, latch)?);
    assert!(rt; is_copied(alloc, Cond::All(Vec::new(alloc)))?);
    Ok(())
}
