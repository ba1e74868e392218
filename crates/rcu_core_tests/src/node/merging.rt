//! Merging of flat sets and trees, of each kind into each other kind.
use super::{awaits, begin, begin_at, insert, report};
use crate::made::{compare, empty_set, everyone, flat, tree};
use rcu_node::merging::merge;
use rcu_node::{Answer, Awaited, CpuSet};
use rcu_seq::{Fault, Tag};
use std::alloc::Global;
use std::process::Abort;

/// Merges the second into the first.
fn merges<A: Awaited, B: Awaited>(
    rt: &impl Abort,
    first: &mut A,
    second: &B,
    wanted: Result<(), Fault>,
) {
    compare(rt, "merge", merge(first, second), wanted);
}

/// Of five processors whether each was in the start set, and whether it is awaited after a merge.
static LEFT: [(u32, bool, bool); 5] = [
    (0, true, false),
    (1, true, true),
    (2, true, false),
    (3, true, true),
    (4, true, false),
];

/// Each hears some of five processors; merged, they await those that neither heard.
fn merge_two_replicas<A: Awaited, B: Awaited>(
    rt: &impl Abort,
    alloc: Global,
    mut first: A,
    mut second: B,
) {
    let set = everyone(rt, alloc, 5);
    begin(rt, &mut first, 1, &set);
    begin(rt, &mut second, 1, &set);
    hear_and_merge(rt, &mut first, &mut second);
}

/// The reports to the first one.
static FIRST_HEARD: [(u32, u64, Answer); 2] = [(0, 1, Answer::Taken), (2, 1, Answer::Taken)];

/// The reports to the second one.
static SECOND_HEARD: [(u32, u64, Answer); 2] = [(4, 1, Answer::Taken), (2, 1, Answer::Taken)];

/// They hear these, and are merged.
fn hear_and_merge<A: Awaited, B: Awaited>(rt: &impl Abort, first: &mut A, second: &mut B) {
    report(rt, first, &FIRST_HEARD);
    report(rt, second, &SECOND_HEARD);
    merges(rt, first, second, Ok(()));
    compare(
        rt,
        "first before",
        (first.count(), first.tag()),
        (2, Tag::of_first_epoch(1)),
    );
    compare(rt, "second before", second.count(), 3);
    merges(rt, second, first, Ok(()));
    compare(
        rt,
        "second after",
        (second.count(), second.tag()),
        (2, Tag::of_first_epoch(1)),
    );
    awaits(rt, first, LEFT.as_slice());
    awaits(rt, second, LEFT.as_slice());
    merges(rt, first, second, Ok(()));
    compare(rt, "first after", first.count(), 2);
}

/// Nothing changes if the tag, the start set or the number of processors differ.
fn merge_unlike<A: Awaited, B: Awaited>(
    rt: &impl Abort,
    alloc: Global,
    mut first: A,
    mut second: B,
) {
    let wider = flat(rt, alloc, 4);
    let mut set = empty_set(rt, alloc, 3);
    merges(rt, &mut first, &second, Ok(()));
    merges(rt, &mut first, &wider, Err(Fault::NotAlike));
    merge_unlike_tags(rt, &mut first, &mut second, &mut set);
    merge_unlike_sets(rt, &mut first, &mut second, &mut set);
}

/// Nothing changes if only one has begun, or both with different tags.
fn merge_unlike_tags<A: Awaited, B: Awaited>(
    rt: &impl Abort,
    first: &mut A,
    second: &mut B,
    set: &mut CpuSet,
) {
    insert(rt, set, &[(0, true), (1, true)]);
    begin(rt, first, 1, set);
    merges(rt, first, second, Err(Fault::NotAlike));

    begin(rt, second, 5, set);
    report(rt, second, &[(0, 5, Answer::Taken)]);
    merges(rt, first, second, Err(Fault::NotAlike));

    let next = Tag {
        epoch: 1,
        number: 1,
    };
    begin_at(rt, second, next, set);
    merges(rt, first, second, Err(Fault::NotAlike));
}

/// Nothing changes if both have begun with different sets.
fn merge_unlike_sets<A: Awaited, B: Awaited>(
    rt: &impl Abort,
    first: &mut A,
    second: &mut B,
    set: &mut CpuSet,
) {
    set.clear();
    insert(rt, set, &[(0, true), (2, true)]);
    begin(rt, second, 1, set);
    report(rt, second, &[(0, 1, Answer::Taken)]);
    merges(rt, first, second, Err(Fault::NotAlike));
    merges(rt, second, first, Err(Fault::NotAlike));
    awaits(rt, first, &FIRST_LEFT);
    awaits(rt, second, &SECOND_LEFT);
    compare(rt, "counts", (first.count(), second.count()), (2, 1));
}

/// Of three processors whether each was in the first's start set, and whether it is awaited.
static FIRST_LEFT: [(u32, bool, bool); 3] = [(0, true, true), (1, true, true), (2, false, false)];

/// The same of the second one.
static SECOND_LEFT: [(u32, bool, bool); 3] = [(0, true, false), (1, false, false), (2, true, true)];

/// Reports each processor whose bit is not set.
fn hear<A: Awaited>(rt: &impl Abort, awaited: &mut A, left: u32) {
    for cpu in 0..5 {
        assert!(rt; cpu < awaited.cpus());
        if (left >> cpu) & 1 == 0 {
            awaited.report(cpu, Tag::of_first_epoch(1));
        }
    }
}

/// Which of five processors are awaited, by their bits.
fn bits_awaited<A: Awaited>(rt: &impl Abort, awaited: &A) -> u32 {
    let mut bits = 0;
    for cpu in 0..5u32 {
        assert!(rt; cpu < awaited.cpus());
        if awaited.awaits(cpu) {
            bits |= 1 << cpu;
        }
    }
    bits
}

/// Of every two sets of five processors left to await, those in both are left.
fn merge_every_two<A: Awaited, B: Awaited>(
    rt: &impl Abort,
    alloc: Global,
    mut first: A,
    mut second: B,
) {
    let set = everyone(rt, alloc, 5);
    for left in 0..32u32 {
        for other in 0..32u32 {
            begin(rt, &mut first, 1, &set);
            begin(rt, &mut second, 1, &set);
            merge_left(rt, &mut first, &mut second, left, other);
        }
    }
}

/// Each hears all but those that are left, and those in both are left.
fn merge_left<A: Awaited, B: Awaited>(
    rt: &impl Abort,
    first: &mut A,
    second: &mut B,
    left: u32,
    other: u32,
) {
    hear(rt, first, left);
    hear(rt, second, other);
    merges(rt, first, second, Ok(()));
    compare(rt, (left, other), bits_awaited(rt, first), left & other);
}

/// Two trees of five processors.
fn merge_two_trees<const LEAF: u32, const FAN: u32, const LEAF_2: u32, const FAN_2: u32>(
    rt: &impl Abort,
    alloc: Global,
) {
    let first = tree::<LEAF, FAN>(rt, alloc, 5);
    let second = tree::<LEAF_2, FAN_2>(rt, alloc, 5);
    merge_two_replicas(rt, alloc, first, second);
}

#[test]
fn merging_two_replicas(rt: HostRuntime) {
    let alloc = rt.alloc();
    merge_two_replicas(&rt, alloc, flat(&rt, alloc, 5), flat(&rt, alloc, 5));
    merge_two_replicas(&rt, alloc, flat(&rt, alloc, 5), tree::<2, 3>(&rt, alloc, 5));
    merge_two_trees::<2, 2, 4, 4>(&rt, alloc);
    merge_two_trees::<64, 64, 16, 64>(&rt, alloc);
    merge_two_replicas(
        &rt,
        alloc,
        tree::<16, 64>(&rt, alloc, 5),
        flat(&rt, alloc, 5),
    );
}

#[test]
fn merge_of_unlike_sets(rt: HostRuntime) {
    let alloc = rt.alloc();
    merge_unlike(&rt, alloc, flat(&rt, alloc, 3), tree::<2, 2>(&rt, alloc, 3));
    merge_unlike(
        &rt,
        alloc,
        tree::<2, 3>(&rt, alloc, 3),
        tree::<64, 64>(&rt, alloc, 3),
    );
}

#[test]
fn merging_leaves_those_in_both(rt: HostRuntime) {
    let alloc = rt.alloc();
    merge_every_two(&rt, alloc, flat(&rt, alloc, 5), tree::<2, 2>(&rt, alloc, 5));
    merge_every_two(
        &rt,
        alloc,
        tree::<2, 3>(&rt, alloc, 5),
        tree::<4, 4>(&rt, alloc, 5),
    );
}
