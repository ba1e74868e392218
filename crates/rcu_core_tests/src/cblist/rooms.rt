//! The room that a list keeps, and how it frees room.

use super::{Step, call, make, queue};
use crate::made::compare;
use rcu_cblist::SegList;
use std::alloc::Global;
use std::process::Abort;

/// How many callbacks a list has once it is long.
const MANY: u64 = 100;

/// A list of many callbacks.
fn long(rt: &impl Abort, alloc: Global) -> SegList<u64> {
    let mut list = SegList::new(alloc);
    for value in 0..MANY {
        queue(rt, value as usize, &mut list, call(value + 1, 0, value));
    }
    assert!(rt; list.room() >= MANY);
    list
}

/// Makes these steps, none of which takes room away.
fn keeps_room(rt: &impl Abort, alloc: Global, list: &mut SegList<u64>, steps: &[Step]) {
    let mut other = SegList::new(alloc);
    for (row, step) in steps.iter().enumerate() {
        let before = list.room();
        make(rt, row, list, &mut other, step);
        assert!(rt;
            before <= list.room(),
            "row {row}: {before} and {}",
            list.room()
        );
    }
}

/// Gives all room back that is not needed: the second call what the first was refused. No run of a
/// test refuses two growths.
fn shrink(rt: &impl Abort, list: &mut SegList<u64>, items: u64) {
    list.shrink();
    list.shrink();
    compare(
        rt,
        "room and count",
        (list.room(), list.count()),
        (items, items),
    );
}

#[test]
fn a_list_keeps_its_room(rt: HostRuntime) {
    let mut list = long(&rt, rt.alloc());
    let most = list.room();
    keeps_room(
        &rt,
        rt.alloc(),
        &mut list,
        &[
            Step::Accelerate(4),
            Step::Renumber,
            Step::Accelerate(4),
            Step::Advance(4),
            Step::Take(1, &[0], 0),
            Step::Entrain(true),
            Step::Queue(101, 0, 100),
            Step::Counts(MANY - 1, 1, None),
        ],
    );
    compare(&rt, "room", list.room(), most);
}

#[test]
fn a_long_list_gives_its_room_back(rt: HostRuntime) {
    let mut list = long(&rt, rt.alloc());
    list.advance(4);
    shrink(&rt, &mut list, MANY);
    keeps_room(
        &rt,
        rt.alloc(),
        &mut list,
        &[Step::Accelerate(4), Step::Advance(4), Step::Migrate],
    );
    assert!(rt; list.room() >= MANY);
    list.shrink();
    compare(&rt, "room", list.room(), 0);
    queue(&rt, 0, &mut list, call(1, 0, 7));
    assert!(rt; list.room() >= 1);
}
