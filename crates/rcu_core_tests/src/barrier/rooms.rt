//! The room that the lists of two processors keep, and how one frees room.

use super::{Step, lists, make_each};
use crate::made::compare;
use rcu_barrier::Lists;
use std::process::Abort;

/// How many callbacks a list has once it is long.
const MANY: u64 = 50;

/// For how many items a processor's list has room.
fn room(rt: &impl Abort, lists: &Lists<u64>, cpu: u32) -> u64 {
    assert!(rt; cpu < lists.cpus());
    lists.room(cpu)
}

/// Gives all room of a processor's list back that it does not need: the second call what the first
/// was refused. No run of a test refuses two growths.
fn shrink(rt: &impl Abort, lists: &mut Lists<u64>, cpu: u32) {
    assert!(rt; cpu < lists.cpus());
    lists.shrink(cpu);
    lists.shrink(cpu);
}

#[test]
fn each_list_keeps_its_room(rt: HostRuntime) {
    let mut lists = lists(&rt, rt.alloc());
    for count in 1..=MANY {
        make_each(&rt, &mut lists, &[Step::Queue(1, 7, count)]);
    }
    let most = room(&rt, &lists, 1);
    assert!(rt; most >= MANY);
    make_each(
        &rt,
        &mut lists,
        &[
            Step::Tend(1, 0, 0, MANY),
            Step::Tend(1, 4, MANY, 0),
            Step::Renumber,
            Step::Begin(Ok(())),
        ],
    );
    compare(&rt, "room", room(&rt, &lists, 1), most);
    make_each(&rt, &mut lists, &[Step::Run(1, 2, &[7, 7])]);
    compare(&rt, "room after a run", room(&rt, &lists, 1), most);
}

#[test]
fn one_list_gives_its_room_back(rt: HostRuntime) {
    let mut lists = lists(&rt, rt.alloc());
    make_each(&rt, &mut lists, &[Step::Queue(0, 6, 1)]);
    for count in 1..=MANY {
        make_each(&rt, &mut lists, &[Step::Queue(1, 7, count + 1)]);
    }
    shrink(&rt, &mut lists, 1);
    let (before, second) = (room(&rt, &lists, 0), room(&rt, &lists, 1));
    compare(&rt, "room of the second", second, MANY);
    make_each(&rt, &mut lists, &[Step::Migrate(MANY)]);
    let first = room(&rt, &lists, 0);
    assert!(rt; first > before.max(MANY), "{first}, and {before} before");
    compare(
        &rt,
        "room of the second after its callbacks left",
        room(&rt, &lists, 1),
        second,
    );
    shrink(&rt, &mut lists, 1);
    compare(
        &rt,
        "rooms after the second shrank",
        (room(&rt, &lists, 0), room(&rt, &lists, 1)),
        (first, 0),
    );
    shrink(&rt, &mut lists, 0);
    compare(
        &rt,
        "rooms after both shrank",
        (room(&rt, &lists, 0), room(&rt, &lists, 1)),
        (MANY + 1, 0),
    );
}
