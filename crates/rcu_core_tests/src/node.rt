//! Each public call once, three grace periods of each kind of awaited processors, and their
//! merging.

mod masks;
mod merging;

use crate::made::{compare, empty_set, everyone, flat, tree};
use rcu_node::{Answer, Awaited, CpuSet, Flat, Tree};
use rcu_report::Report;
use rcu_seq::{Fault, Tag};
use std::alloc::Global;
use std::process::Abort;

/// Puts processors in, and compares whether each is new.
fn insert(rt: &impl Abort, set: &mut CpuSet, cpus: &[(u32, bool)]) {
    for (cpu, wanted) in cpus {
        assert!(rt; *cpu < set.cpus());
        compare(rt, *cpu, set.insert(*cpu), *wanted);
    }
}

/// Compares whether each processor is in the set.
fn contains(rt: &impl Abort, set: &CpuSet, cpus: &[(u32, bool)]) {
    for (cpu, wanted) in cpus {
        assert!(rt; *cpu < set.cpus());
        compare(rt, *cpu, set.contains(*cpu), *wanted);
    }
}

/// Makes the report of a row, and compares the answer.
fn report_of<A: Awaited>(
    rt: &impl Abort,
    row: usize,
    awaited: &mut A,
    report: Report,
    wanted: Answer,
) {
    assert!(rt; report.cpu < awaited.cpus());
    compare(
        rt,
        (row, report),
        awaited.report(report.cpu, report.tag),
        wanted,
    );
}

/// Makes reports, each of a processor and a number of epoch 0, and compares the answers.
fn report<A: Awaited>(rt: &impl Abort, awaited: &mut A, reports: &[(u32, u64, Answer)]) {
    for (row, (cpu, number, wanted)) in reports.iter().enumerate() {
        let report = Report {
            cpu: *cpu,
            tag: Tag::of_first_epoch(*number),
        };
        report_of(rt, row, awaited, report, *wanted);
    }
}

/// Compares whether each processor was in the start set, and whether it is awaited.
fn awaits<A: Awaited>(rt: &impl Abort, awaited: &A, cpus: &[(u32, bool, bool)]) {
    for (cpu, at_start, now) in cpus {
        assert!(rt; *cpu < awaited.cpus());
        let found = (awaited.starts(*cpu), awaited.awaits(*cpu));
        compare(rt, *cpu, found, (*at_start, *now));
    }
}

/// Begins a grace period of epoch 0, and compares the counts.
fn begin<A: Awaited>(rt: &impl Abort, awaited: &mut A, number: u64, set: &CpuSet) {
    begin_at(rt, awaited, Tag::of_first_epoch(number), set);
}

/// Begins a grace period, and compares the counts.
fn begin_at<A: Awaited>(rt: &impl Abort, awaited: &mut A, now: Tag, set: &CpuSet) {
    assert_eq!(rt; set.cpus(), awaited.cpus());
    assert_eq!(rt; now.number % 4, 1);
    awaited.begin(now, set);
    let found = (awaited.tag(), awaited.count(), awaited.is_empty());
    assert_eq!(rt; found, (now, set.count(), false));
}

/// A grace period of processors 0, 2 and 4.
fn first_grace_period<A: Awaited>(rt: &impl Abort, awaited: &mut A, set: &mut CpuSet) {
    insert(rt, set, &[(0, true), (2, true), (4, true)]);
    begin(rt, awaited, 1, set);
    report(
        rt,
        awaited,
        &[
            (1, 1, Answer::Repeat),
            (0, 5, Answer::Stale),
            (0, 1, Answer::Taken),
            (0, 1, Answer::Repeat),
        ],
    );
    awaits(
        rt,
        awaited,
        &[
            (0, true, false),
            (1, false, false),
            (2, true, true),
            (4, true, true),
        ],
    );
    assert_eq!(rt; awaited.count(), 2);
    report(rt, awaited, &[(4, 1, Answer::Taken), (2, 1, Answer::Last)]);
    assert!(rt; awaited.is_empty());
}

/// A grace period of processor 3.
fn second_grace_period<A: Awaited>(rt: &impl Abort, awaited: &mut A, set: &mut CpuSet) {
    set.clear();
    insert(rt, set, &[(3, true)]);
    begin(rt, awaited, 5, set);
    awaits(
        rt,
        awaited,
        &[(0, false, false), (3, true, true), (4, false, false)],
    );
    report(
        rt,
        awaited,
        &[
            (3, 1, Answer::Stale),
            (0, 5, Answer::Repeat),
            (3, 5, Answer::Last),
        ],
    );
    assert!(rt; awaited.is_empty());
}

/// Reports of a grace period of epoch 1: each of a processor, a number and an epoch.
static IN_EPOCHS: [(u32, u64, u64, Answer); 8] = [
    (0, 1, 0, Answer::Stale),
    (0, 5, 1, Answer::Stale),
    (0, 1, 2, Answer::Stale),
    (0, 1, 1, Answer::Taken),
    (0, 1, 0, Answer::Stale),
    (0, 1, 1, Answer::Repeat),
    (3, 5, 0, Answer::Stale),
    (3, 1, 1, Answer::Last),
];

/// A grace period of processors 0 and 3 in epoch 1, for which reports of other epochs are stale.
fn grace_period_of_next_epoch<A: Awaited>(rt: &impl Abort, awaited: &mut A, set: &mut CpuSet) {
    insert(rt, set, &[(0, true)]);
    let now = Tag {
        epoch: 1,
        number: 1,
    };
    begin_at(rt, awaited, now, set);
    for (row, (cpu, number, epoch, wanted)) in IN_EPOCHS.iter().enumerate() {
        let tag = Tag {
            epoch: *epoch,
            number: *number,
        };
        report_of(rt, row, awaited, Report { cpu: *cpu, tag }, *wanted);
    }
    assert!(rt; awaited.is_empty());
}

/// Two grace periods of five processors, and one of the next epoch.
fn grace_periods<A: Awaited>(rt: &impl Abort, alloc: Global, mut awaited: A) {
    assert_eq!(rt; awaited.tag(), Tag::of_first_epoch(0));
    assert!(rt; awaited.is_empty());
    let mut set = empty_set(rt, alloc, 5);
    first_grace_period(rt, &mut awaited, &mut set);
    second_grace_period(rt, &mut awaited, &mut set);
    grace_period_of_next_epoch(rt, &mut awaited, &mut set);
}

#[test]
fn flat_awaits_three_grace_periods(rt: HostRuntime) {
    grace_periods(&rt, rt.alloc(), flat(&rt, rt.alloc(), 5));
}

#[test]
fn trees_await_three_grace_periods(rt: HostRuntime) {
    tree_awaits::<2, 2>(&rt, rt.alloc());
    tree_awaits::<2, 3>(&rt, rt.alloc());
    tree_awaits::<4, 4>(&rt, rt.alloc());
    tree_awaits::<16, 64>(&rt, rt.alloc());
    tree_awaits::<64, 64>(&rt, rt.alloc());
}

/// Grace periods of a tree of five processors.
fn tree_awaits<const LEAF: u32, const FAN: u32>(rt: &impl Abort, alloc: Global) {
    grace_periods(rt, alloc, tree::<LEAF, FAN>(rt, alloc, 5));
}

#[test]
fn tree_of_27_leaves(rt: HostRuntime) {
    let mut tree = tree::<2, 3>(&rt, rt.alloc(), 54);
    let all = everyone(&rt, rt.alloc(), 54);
    begin(&rt, &mut tree, 1, &all);
    report_54(&rt, &mut tree);
}

/// Reports 54 processors, in order.
fn report_54<A: Awaited>(rt: &impl Abort, awaited: &mut A) {
    for cpu in 0..53 {
        report(rt, awaited, &[(cpu, 1, Answer::Taken)]);
        assert_eq!(rt; awaited.count(), 53 - cpu);
    }
    report(rt, awaited, &[(53, 1, Answer::Last)]);
}

/// Takes a processor out, and compares whether it was there.
fn remove(rt: &impl Abort, set: &mut CpuSet, cpu: u32, wanted: bool) {
    assert!(rt; cpu < set.cpus());
    compare(rt, cpu, set.remove(cpu), wanted);
}

/// Compares flags as words, each of a first processor and a number of processors.
fn has_bits(rt: &impl Abort, set: &CpuSet, words: &[(u32, u32, u64)]) {
    for (from, width, wanted) in words {
        assert!(rt; *from < set.cpus() && *width <= 64);
        compare(rt, *from, set.bits_from(*from, *width), *wanted);
    }
}

/// Processors in the order in which they are put in, and whether each is new.
static PUT: [(u32, bool); 5] = [(0, true), (63, true), (64, true), (129, true), (64, false)];

/// The processors of the set after one was removed, and those not in it.
static LEFT: [(u32, bool); 5] = [(0, true), (63, false), (64, true), (65, false), (129, true)];

/// The same for an earlier copy of it.
static COPIED: [(u32, bool); 5] = [(0, true), (63, true), (64, true), (65, false), (129, true)];

/// The flags then, as words of a first processor and a number of processors.
static WORDS: [(u32, u32, u64); 4] = [(0, 1, 1), (60, 8, 0b10000), (64, 64, 1), (128, 64, 2)];

/// Fills a set of three words, copies it, takes a processor out, and clears it.
fn fill_and_copy(rt: &impl Abort, set: &mut CpuSet, copy: &mut CpuSet) {
    insert(rt, set, &PUT);
    assert_eq!(rt; copy.cpus(), set.cpus());
    copy.copy_from(set);

    remove(rt, set, 63, true);
    remove(rt, set, 63, false);
    contains(rt, set, &LEFT);
    assert_eq!(rt; set.count(), 3);
    has_bits(rt, set, &WORDS);

    set.clear();
    assert_eq!(rt; set.count(), 0);
    contains(rt, copy, &COPIED);
    assert_eq!(rt; copy.count(), 4);
}

#[test]
fn set_of_three_words(rt: HostRuntime) {
    let mut set = empty_set(&rt, rt.alloc(), 130);
    let mut copy = empty_set(&rt, rt.alloc(), 130);
    fill_and_copy(&rt, &mut set, &mut copy);
}

/// The processors of a union, and those not in it.
static UNION: [(u32, bool); 6] = [
    (0, true),
    (1, false),
    (63, true),
    (64, true),
    (128, true),
    (129, true),
];

/// Fills two sets of three words, and puts the second's processors into the first.
fn unite(rt: &impl Abort, set: &mut CpuSet, other: &mut CpuSet) {
    insert(rt, set, &[(0, true), (63, true), (129, true)]);
    insert(rt, other, &[(0, true), (64, true), (128, true)]);
    assert_eq!(rt; set.cpus(), other.cpus());
    set.insert_all(other);
    contains(rt, set, &UNION);
    assert_eq!(rt; (set.count(), other.count()), (5, 3));
}

#[test]
fn union_of_three_words(rt: HostRuntime) {
    let mut set = empty_set(&rt, rt.alloc(), 130);
    let mut other = empty_set(&rt, rt.alloc(), 130);
    unite(&rt, &mut set, &mut other);
}

/// No set of this many processors is made.
fn no_set(rt: &impl Abort, alloc: Global, cpus: u32) {
    let found = (CpuSet::new(alloc, cpus).err(), Flat::new(alloc, cpus).err());
    let wanted = (Some(Fault::TooManyCpus), Some(Fault::TooManyCpus));
    compare(rt, cpus, found, wanted);
}

/// No tree of this many processors is made.
fn no_tree<const LEAF: u32, const FAN: u32>(
    rt: &impl Abort,
    alloc: Global,
    cpus: u32,
    wanted: Fault,
) {
    let found = Tree::<LEAF, FAN>::new(alloc, cpus).err();
    compare(rt, (LEAF, FAN, cpus), found, Some(wanted));
}

/// Neither a set nor a tree of this many processors is made.
fn makes_none(rt: &impl Abort, alloc: Global, cpus: u32) {
    no_set(rt, alloc, cpus);
    no_tree::<64, 64>(rt, alloc, cpus, Fault::TooManyCpus);
    no_tree::<1, 64>(rt, alloc, cpus, Fault::BadFanout);
    no_tree::<64, 65>(rt, alloc, cpus, Fault::BadFanout);
}

/// Sets of this many processors are made.
fn makes(rt: &impl Abort, alloc: Global, cpus: u32) {
    assert_eq!(rt; empty_set(rt, alloc, cpus).cpus(), cpus);
    assert_eq!(rt; flat(rt, alloc, cpus).cpus(), cpus);
    assert_eq!(rt; tree::<16, 64>(rt, alloc, cpus).cpus(), cpus);
}

#[test]
fn sizes(rt: HostRuntime) {
    makes_none(&rt, rt.alloc(), 0);
    makes_none(&rt, rt.alloc(), 4097);
    no_tree::<2, 2>(&rt, rt.alloc(), 17, Fault::TooManyCpus);
    makes(&rt, rt.alloc(), 1);
    makes(&rt, rt.alloc(), 4096);
}
