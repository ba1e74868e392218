//! Each public call once, the values of three marks in a list, the state after a refused growth,
//! and calls drawn at random.

mod plain;
mod random;
mod rooms;

use crate::made::compare;
use rcu_cblist::{Queued, SegList, Taken};
use rcu_seq::{Fault, Tag};
use std::alloc::Global;
use std::mem::swap;
use std::process::Abort;

/// All that can be asked of a list.
#[derive(Clone, Copy, Debug, PartialEq)]
struct Asked {
    count: u64,
    done: u64,
    waiting: u64,
    greatest: Option<u64>,
    segments: [u64; 4],
}

/// Asks all of a list.
fn ask(list: &SegList<u64>) -> Asked {
    Asked {
        count: list.count(),
        done: list.done_count(),
        waiting: list.waiting_count(),
        greatest: list.greatest_waiting(),
        segments: list.segments(),
    }
}

/// Compares the fault of a row's call whose growth was refused, and what it left of a list with
/// what was there.
fn refused(rt: &impl Abort, row: usize, fault: Fault, now: Asked, before: Asked) {
    compare(rt, row, (fault, now), (Fault::NoMemory, before));
}

/// The callback of this order number, number of epoch 0 at queueing, and value.
fn call(ord: u64, number: u64, value: u64) -> Queued<u64> {
    Queued {
        ord,
        at: Tag::of_first_epoch(number),
        value,
    }
}

/// Queues a row's callback, by a second call if the first is refused memory, and compares the value
/// that is handed back.
fn queue(rt: &impl Abort, row: usize, list: &mut SegList<u64>, call: Queued<u64>) {
    let before = ask(list);
    let (ord, at, value) = (call.ord, call.at, call.value);
    if let Err(back) = list.queue(call) {
        refused(rt, row, back.fault, ask(list), before);
        let item = back.value;
        compare(rt, row, (item.ord, item.at, item.value), (ord, at, value));
        compare(rt, row, list.queue(item).map_err(|back| back.fault), Ok(()));
    }
}

/// Gives a number to the unmarked callbacks, once no callback carries a number above it.
#[tactic(auto, using(rcu_cblist::proofs::Numbers::at_most_none))]
fn accelerate(rt: &impl Abort, list: &mut SegList<u64>, snap: u64) {
    match list.greatest_waiting() {
        None => list.accelerate(snap),
        Some(most) => {
            assert!(rt; most <= snap, "{most} is above {snap}");
            list.accelerate(snap);
        }
    }
}

/// Compares the values of the callbacks that a row took, and how many markers were passed.
fn compare_taken(rt: &impl Abort, row: usize, taken: &Taken<u64>, wanted: &[u64], markers: u64) {
    let count = taken.calls.len();
    compare(rt, row, (taken.markers, count), (markers, wanted.len()));
    for (place, (call, wanted)) in taken.calls.iter().zip(wanted).enumerate() {
        compare(rt, (row, place), call.value, *wanted);
    }
}

/// Takes a row's callbacks, by a second call if the first is refused memory, and compares them.
fn take(
    rt: &impl Abort,
    row: usize,
    list: &mut SegList<u64>,
    max: u64,
    wanted: &[u64],
    markers: u64,
) {
    let before = ask(list);
    let taken = match list.take_done(max) {
        Ok(taken) => taken,
        Err(fault) => {
            refused(rt, row, fault, ask(list), before);
            list.take_done(max).expect(rt, "the second call has memory")
        }
    };
    compare_taken(rt, row, &taken, wanted, markers);
}

/// Moves a row's list, by a second call if the first is refused memory.
fn migrate(rt: &impl Abort, row: usize, list: &mut SegList<u64>, target: &mut SegList<u64>) {
    let (before, there) = (ask(list), ask(target));
    if let Err(fault) = list.migrate_into(target) {
        refused(rt, row, fault, ask(list), before);
        refused(rt, row, fault, ask(target), there);
        compare(rt, row, list.migrate_into(target), Ok(()));
    }
}

/// Moves a row's list with a marker behind it, by a second call if the first is refused memory.
fn migrate_marked(rt: &impl Abort, row: usize, list: &mut SegList<u64>, target: &mut SegList<u64>) {
    let (before, there) = (ask(list), ask(target));
    if let Err(fault) = list.move_into(target, true) {
        refused(rt, row, fault, ask(list), before);
        refused(rt, row, fault, ask(target), there);
        compare(rt, row, list.move_into(target, true), Ok(()));
    }
}

/// Puts a marker behind a row's list, by a second call if the first is refused memory, and compares
/// whether it did.
fn entrain(rt: &impl Abort, row: usize, list: &mut SegList<u64>, wanted: bool) {
    let before = ask(list);
    let mut marked = list.entrain();
    if let Err(Fault::NoMemory) = marked {
        refused(rt, row, Fault::NoMemory, ask(list), before);
        marked = list.entrain();
    }
    compare(rt, row, marked, Ok(wanted));
}

/// Compares how many callbacks are done and how many wait, how many there are, and the greatest
/// number that one carries.
fn counts(
    rt: &impl Abort,
    row: usize,
    list: &SegList<u64>,
    done: u64,
    waiting: u64,
    greatest: Option<u64>,
) {
    let found = (
        list.done_count(),
        list.waiting_count(),
        list.greatest_waiting(),
    );
    compare(rt, row, found, (done, waiting, greatest));
    compare(rt, row, list.count().checked_sub(done), Some(waiting));
}

/// A call on a list, with its expected answer, or a query of the list.
enum Step<'a> {
    /// Queues a callback of this order number, number of epoch 0 at queueing, and value.
    Queue(u64, u64, u64),
    /// Gives this number to the unmarked callbacks.
    Accelerate(u64),
    /// Advances to this number.
    Advance(u64),
    /// Takes the numbers from what waits.
    Renumber,
    /// Takes at most this many: the values, and how many markers were dropped.
    Take(u64, &'a [u64], u64),
    /// Puts a marker behind: whether it did.
    Entrain(bool),
    /// Moves the list to the other one.
    Migrate,
    /// Moves the list to the other one, with a marker behind it.
    MigrateMarked,
    /// Goes on with the other list.
    Swap,
    /// How many callbacks are done and how many wait, and the greatest number that one carries.
    Counts(u64, u64, Option<u64>),
    /// The sizes of the segments.
    Segments([u64; 4]),
    /// True if the list is empty.
    IsEmpty(bool),
}

/// Makes a row's call on the list, or looks at it, and compares.
fn make(
    rt: &impl Abort,
    row: usize,
    list: &mut SegList<u64>,
    other: &mut SegList<u64>,
    step: &Step,
) {
    match step {
        Step::Queue(ord, number, value) => queue(rt, row, list, call(*ord, *number, *value)),
        Step::Accelerate(snap) => accelerate(rt, list, *snap),
        Step::Advance(number) => list.advance(*number),
        Step::Renumber => list.renumber(),
        Step::Take(max, wanted, markers) => take(rt, row, list, *max, wanted, *markers),
        Step::Entrain(wanted) => entrain(rt, row, list, *wanted),
        Step::Migrate => migrate(rt, row, list, other),
        Step::MigrateMarked => migrate_marked(rt, row, list, other),
        Step::Swap => swap(list, other),
        Step::Counts(done, waiting, greatest) => counts(rt, row, list, *done, *waiting, *greatest),
        Step::Segments(wanted) => compare(rt, row, list.segments(), *wanted),
        Step::IsEmpty(wanted) => compare(rt, row, list.is_empty(), *wanted),
    }
}

/// Makes the steps in turn.
fn make_each(rt: &impl Abort, list: &mut SegList<u64>, other: &mut SegList<u64>, steps: &[Step]) {
    for (row, step) in steps.iter().enumerate() {
        make(rt, row, list, other, step);
    }
}

/// Makes the steps in turn, on two lists that are empty at first.
fn make_all(rt: &impl Abort, alloc: Global, steps: &[Step]) {
    make_each(
        rt,
        &mut SegList::new(alloc),
        &mut SegList::new(alloc),
        steps,
    );
}

#[test]
fn three_marks_in_a_list(rt: HostRuntime) {
    make_all(
        &rt,
        rt.alloc(),
        &[
            Step::Queue(1, 0, 10),
            Step::Accelerate(4),
            Step::Queue(2, 1, 11),
            Step::Accelerate(8),
            Step::Queue(3, 5, 12),
            Step::Accelerate(12),
            Step::Counts(0, 3, Some(8)),
            Step::Advance(4),
            Step::Counts(1, 2, Some(8)),
            Step::Accelerate(12),
            Step::Counts(1, 2, Some(12)),
            Step::Take(9, &[10], 0),
            Step::Counts(0, 2, Some(12)),
            Step::Advance(12),
            Step::Counts(2, 0, None),
            Step::Take(0, &[], 0),
            Step::Take(1, &[11], 0),
            Step::Take(1, &[12], 0),
            Step::Take(1, &[], 0),
        ],
    );
}

#[test]
fn segment_sizes(rt: HostRuntime) {
    make_all(
        &rt,
        rt.alloc(),
        &[
            Step::Queue(1, 0, 10),
            Step::Accelerate(4),
            Step::Segments([0, 1, 0, 0]),
            Step::Queue(2, 1, 11),
            Step::Accelerate(8),
            Step::Segments([0, 1, 1, 0]),
            Step::Queue(3, 5, 12),
            Step::Accelerate(12),
            Step::Segments([0, 1, 1, 1]),
            Step::Advance(4),
            Step::Segments([1, 1, 0, 1]),
            Step::Accelerate(12),
            Step::Segments([1, 1, 1, 0]),
            Step::Take(1, &[10], 0),
            Step::Segments([0, 1, 1, 0]),
            Step::Entrain(true),
            Step::Segments([0, 1, 2, 0]),
            Step::Advance(12),
            Step::Segments([3, 0, 0, 0]),
            Step::Take(1, &[11], 0),
            Step::Take(1, &[12], 1),
            Step::Entrain(false),
        ],
    );
}

#[test]
fn migration_around_a_target(rt: HostRuntime) {
    make_all(
        &rt,
        rt.alloc(),
        &[
            Step::Queue(1, 0, 20),
            Step::Accelerate(4),
            Step::Advance(4),
            Step::Queue(2, 5, 21),
            Step::Accelerate(12),
            Step::Swap,
            Step::Queue(3, 0, 10),
            Step::Accelerate(4),
            Step::Queue(4, 9, 11),
            Step::Accelerate(16),
            Step::Advance(4),
            Step::Queue(5, 9, 12),
            Step::Counts(1, 2, Some(16)),
            Step::Migrate,
            Step::Counts(0, 0, None),
            Step::Swap,
            Step::Counts(2, 3, Some(12)),
            Step::Swap,
            Step::Migrate,
            Step::Swap,
            Step::Counts(2, 3, Some(12)),
            Step::Advance(16),
            Step::Counts(3, 2, None),
            Step::Accelerate(20),
            Step::Take(9, &[10, 20, 21], 0),
            Step::Advance(20),
            Step::Take(9, &[11, 12], 0),
        ],
    );
}

#[test]
fn markers_in_a_list(rt: HostRuntime) {
    make_all(
        &rt,
        rt.alloc(),
        &[
            Step::IsEmpty(true),
            Step::Entrain(false),
            Step::IsEmpty(true),
            Step::Queue(1, 0, 10),
            Step::Accelerate(4),
            Step::Entrain(true),
            Step::Queue(2, 1, 11),
            Step::Entrain(true),
            Step::Counts(0, 2, Some(4)),
            Step::Take(9, &[], 0),
            Step::Advance(4),
            Step::Take(9, &[10], 1),
            Step::Accelerate(8),
            Step::Advance(8),
            Step::Take(0, &[], 0),
            Step::Take(1, &[11], 1),
            Step::IsEmpty(true),
            Step::Entrain(false),
        ],
    );
}

#[test]
fn migration_with_a_marker(rt: HostRuntime) {
    make_all(
        &rt,
        rt.alloc(),
        &[
            Step::Queue(1, 0, 20),
            Step::Swap,
            Step::MigrateMarked,
            Step::Swap,
            Step::Counts(0, 1, None),
            Step::Swap,
            Step::Queue(2, 0, 10),
            Step::Accelerate(4),
            Step::Advance(4),
            Step::Queue(3, 4, 11),
            Step::MigrateMarked,
            Step::IsEmpty(true),
            Step::Swap,
            Step::Counts(1, 2, None),
            Step::Accelerate(8),
            Step::Advance(8),
            Step::Take(2, &[10, 20], 0),
            Step::Take(1, &[11], 1),
            Step::IsEmpty(true),
            Step::Swap,
            Step::Queue(4, 8, 12),
            Step::Accelerate(12),
            Step::Advance(12),
            Step::MigrateMarked,
            Step::Swap,
            Step::Take(9, &[12], 1),
        ],
    );
}

/// Waiting callbacks lose their numbers, in the same order; done ones and markers stay.
#[test]
fn renumbering_a_list(rt: HostRuntime) {
    make_all(
        &rt,
        rt.alloc(),
        &[
            Step::Renumber,
            Step::IsEmpty(true),
            Step::Queue(1, 0, 10),
            Step::Accelerate(4),
            Step::Advance(4),
            Step::Queue(2, 1, 11),
            Step::Accelerate(8),
            Step::Entrain(true),
            Step::Queue(3, 5, 12),
            Step::Accelerate(12),
            Step::Queue(4, 9, 13),
            Step::Segments([1, 2, 1, 1]),
            Step::Renumber,
            Step::Segments([1, 0, 0, 4]),
            Step::Counts(1, 3, None),
            Step::Advance(12),
            Step::Counts(1, 3, None),
            Step::Take(9, &[10], 0),
            Step::Accelerate(4),
            Step::Segments([0, 4, 0, 0]),
            Step::Counts(0, 3, Some(4)),
            Step::Advance(4),
            Step::Renumber,
            Step::Segments([4, 0, 0, 0]),
            Step::Take(1, &[11], 1),
            Step::Take(9, &[12, 13], 0),
            Step::IsEmpty(true),
        ],
    );
}

/// How many markers a take passes, or its fault.
fn markers_passed(list: &mut SegList<u64>, max: u64) -> Result<u64, Fault> {
    let taken = list.take_done(max)?;
    Ok(taken.markers)
}

/// The calls that ask for no memory: none of them is refused a growth.
fn call_without_memory(rt: &impl Abort, list: &mut SegList<u64>, empty: &mut SegList<u64>) {
    compare(rt, "entrain", empty.entrain(), Ok(false));
    compare(rt, "migrate_into", empty.migrate_into(list), Ok(()));
    compare(rt, "move_into", empty.move_into(list, true), Ok(()));
    accelerate(rt, list, 4);
    list.advance(0);
    list.renumber();
    accelerate(rt, list, 4);
    compare(rt, "markers passed at 9", markers_passed(list, 9), Ok(0));
    list.advance(4);
    compare(rt, "markers passed at 0", markers_passed(list, 0), Ok(0));
    make_each(
        rt,
        list,
        empty,
        &[
            Step::Counts(2, 0, None),
            Step::Segments([2, 0, 0, 0]),
            Step::Swap,
            Step::Counts(0, 0, None),
            Step::Segments([0, 0, 0, 0]),
        ],
    );
}

#[test]
fn calls_without_memory(rt: HostRuntime) {
    let mut list = SegList::new(rt.alloc());
    queue(&rt, 0, &mut list, call(1, 0, 10));
    queue(&rt, 1, &mut list, call(2, 0, 11));
    let mut empty = SegList::new(rt.alloc());
    call_without_memory(&rt, &mut list, &mut empty);
}
