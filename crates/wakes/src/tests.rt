// A few numbers that are marked, and a few that are due.
use crate::{BitSet, Marked, Wakes};
use std::test::Fail;

#[test]
fn goes_through_in_order(rt: HostRuntime) -> Result<(), Fail> {
    let mut marked = Marked::new(rt.alloc(), 200)?;
    marked.mark(130);
    marked.mark(3);
    marked.mark(64);
    assert_eq!(rt; marked.word(0), 8);
    assert_eq!(rt; marked.word(1), 1);
    assert_eq!(rt; marked.word(2), 4);
    assert_eq!(rt; marked.first_from(0), Some(3));
    assert_eq!(rt; marked.first_from(4), Some(64));
    assert_eq!(rt; marked.has(64), true);
    marked.unmark(64);
    assert_eq!(rt; marked.has(64), false);
    assert_eq!(rt; marked.first_from(4), Some(130));
    assert_eq!(rt; marked.first_from(131), None);
    marked.mark(7);
    assert_eq!(rt; marked.first_from(4), Some(7));
    let mut others = Marked::new(rt.alloc(), 200)?;
    others.mark(199);
    others.join(&marked);
    assert_eq!(rt; others.first_from(8), Some(130));
    assert_eq!(rt; others.first_from(131), Some(199));
    assert_eq!(rt; others.count_from(3, 131), 3);
    assert_eq!(rt; others.count_from(4, 199), 2);
    assert_eq!(rt; others.count_from(130, 300), 2);
    assert_eq!(rt; others.count_from(200, 300), 0);
    marked.clear();
    assert_eq!(rt; marked.first_from(0), None);
    Ok(())
}

#[test]
fn tells_which_are_new(rt: HostRuntime) -> Result<(), Fail> {
    let mut set = BitSet::new(rt.alloc(), 200)?;
    assert_eq!(rt; set.put(130), true);
    assert_eq!(rt; set.put(130), false);
    assert_eq!(rt; set.put(66), true);
    set.clear();
    assert_eq!(rt; set.put(130), true);
    Ok(())
}

#[test]
fn finds_the_first_that_is_due(rt: HostRuntime) -> Result<(), Fail> {
    let mut wakes = Wakes::new(rt.alloc(), 5)?;
    wakes.set(4, 10);
    wakes.set(2, 7);
    assert_eq!(rt; wakes.first(6), None);
    assert_eq!(rt; wakes.first(9), Some(2));
    assert_eq!(rt; wakes.first(10), Some(2));
    wakes.set(2, u64::MAX);
    assert_eq!(rt; wakes.first(10), Some(4));
    let mut others = Wakes::new(rt.alloc(), 5)?;
    others.copy_from(&wakes);
    assert_eq!(rt; others.first(10), Some(4));
    wakes.clear();
    assert_eq!(rt; wakes.first(10), None);
    Ok(())
}

#[test]
fn takes_in_order_beyond_one_word(rt: HostRuntime) -> Result<(), Fail> {
    let mut wakes = Wakes::new(rt.alloc(), 1400)?;
    wakes.set(1399, 1);
    wakes.set(64, 1);
    wakes.set(640, 1);
    wakes.set(63, 1);
    wakes.set(65, 2);
    wakes.pass(0);
    assert_eq!(rt; wakes.take(1), Some(63));
    assert_eq!(rt; wakes.take(1), Some(64));
    assert_eq!(rt; wakes.take(1), Some(640));
    wakes.set(70, 1);
    assert_eq!(rt; wakes.take(1), Some(70));
    assert_eq!(rt; wakes.take(1), Some(1399));
    assert_eq!(rt; wakes.take(1), None);
    assert_eq!(rt; wakes.take(2), Some(65));
    Ok(())
}

// A group has 256 of so many.
#[test]
fn takes_in_order_beyond_4096(rt: HostRuntime) -> Result<(), Fail> {
    let mut wakes = Wakes::new(rt.alloc(), 9000)?;
    wakes.set(8999, 1);
    wakes.set(300, 1);
    wakes.set(4096, 1);
    wakes.set(255, 1);
    wakes.set(1, 1);
    wakes.set(8191, 2);
    wakes.pass(0);
    assert_eq!(rt; wakes.take(1), Some(1));
    assert_eq!(rt; wakes.take(1), Some(255));
    assert_eq!(rt; wakes.take(1), Some(300));
    assert_eq!(rt; wakes.take(1), Some(4096));
    assert_eq!(rt; wakes.take(1), Some(8999));
    assert_eq!(rt; wakes.take(1), None);
    assert_eq!(rt; wakes.take(2), Some(8191));
    Ok(())
}

// The first that is due in a plain list.
fn first_in_list(keys: &[u64], now: u64) -> Option<usize> {
    for item in 0..keys.len() {
        if keys[item] <= now {
            return Some(item);
        }
    }
    None
}

#[test]
fn takes_as_from_a_plain_list(rt: HostRuntime) -> Result<(), Fail> {
    let mut wakes = Wakes::new(rt.alloc(), 150)?;
    let mut keys = [u64::MAX; 150];
    for step in 0..500u64 {
        // Now and then some moments aren't asked of.
        let now = step + step / 50 * 30;
        for turn in 0..3u64 {
            let item = ((step * 37 + turn * 59) % 150) as usize;
            let key = now + (step * 31 + turn * 83) % 190;
            wakes.set(item, key);
            keys[item] = key;
        }
        assert_eq!(rt; wakes.first(now), first_in_list(&keys, now));
        for _ in 0..6 {
            let taken = wakes.take(now);
            assert_eq!(rt; taken, first_in_list(&keys, now));
            if let Some(item) = taken {
                keys[item] = u64::MAX;
            }
        }
        wakes.pass(now);
        assert_eq!(rt; wakes.first(now), first_in_list(&keys, now));
        assert_eq!(rt; wakes.first(now + 40), first_in_list(&keys, now + 40));
    }
    Ok(())
}
