//! Each public call over each kind of awaited set.
use crate::made::{compare, flat, refused, tree};
use rcu_hotplug::Hotplug;
use rcu_node::{Answer, Awaited, Flat, Tree};
use rcu_report::Report;
use rcu_seq::{Fault, Tag};
use std::alloc::Global;
use std::process::Abort;

/// This many processors over a flat set, made by a second call if the first is refused memory.
fn over_flat(rt: &impl Abort, alloc: Global, cpus: u32) -> Hotplug<Flat> {
    match Hotplug::new(alloc, flat(rt, alloc, cpus)) {
        Ok(hotplug) => hotplug,
        Err(fault) => {
            refused(rt, fault);
            Hotplug::new(alloc, flat(rt, alloc, cpus)).expect(rt, "the second call has memory")
        }
    }
}

/// The processors over a tree, made by a second call if the first is refused memory.
fn over_tree(rt: &impl Abort, alloc: Global) -> Hotplug<Tree<2, 2>> {
    match Hotplug::new(alloc, tree(rt, alloc, 5)) {
        Ok(hotplug) => hotplug,
        Err(fault) => {
            refused(rt, fault);
            Hotplug::new(alloc, tree(rt, alloc, 5)).expect(rt, "the second call has memory")
        }
    }
}

/// Compares which processors are awaited, ascending, and that each of them is online.
fn awaits<A: Awaited>(rt: &impl Abort, hotplug: &Hotplug<A>, wanted: &[u32]) {
    let awaited = hotplug.awaited();
    for cpu in 0..awaited.cpus() {
        let awaits = awaited.awaits(cpu);
        compare(rt, cpu, awaits, wanted.contains(&cpu));
        compare(rt, cpu, !awaits || hotplug.online(cpu), true);
    }
    compare(rt, "awaited", awaited.count() as usize, wanted.len());
}

/// Begins a grace period of epoch 0, and compares which processors it awaits.
fn begin<A: Awaited>(rt: &impl Abort, hotplug: &mut Hotplug<A>, number: u64, wanted: &[u32]) {
    assert_eq!(rt; number % 4, 1);
    let now = Tag::of_first_epoch(number);
    hotplug.begin(now);
    compare(rt, "tag", hotplug.awaited().tag(), now);
    awaits(rt, hotplug, wanted);
}

/// Makes reports, each of a processor and a number of epoch 0, and compares the answers.
fn report<A: Awaited>(rt: &impl Abort, hotplug: &mut Hotplug<A>, reports: &[(u32, u64, Answer)]) {
    for (row, (cpu, number, wanted)) in reports.iter().enumerate() {
        assert!(rt; *cpu < hotplug.awaited().cpus());
        let report = Report {
            cpu: *cpu,
            tag: Tag::of_first_epoch(*number),
        };
        compare(
            rt,
            (row, report),
            hotplug.report(report.cpu, report.tag),
            *wanted,
        );
    }
}

/// Takes a processor online.
fn arrives<A: Awaited>(rt: &impl Abort, hotplug: &mut Hotplug<A>, cpu: u32) {
    compare(rt, cpu, hotplug.arrive(cpu), Ok(()));
}

/// Takes a processor offline.
fn departs<A: Awaited>(rt: &impl Abort, hotplug: &mut Hotplug<A>, cpu: u32) {
    compare(rt, cpu, hotplug.depart(cpu), Ok(()));
}

/// A processor that arrives while a grace period runs is awaited by the next one.
fn late_arrival<A: Awaited>(rt: &impl Abort, hotplug: &mut Hotplug<A>) {
    begin(rt, hotplug, 1, &[0]);
    arrives(rt, hotplug, 1);
    awaits(rt, hotplug, &[0]);
    report(
        rt,
        hotplug,
        &[
            (1, 1, Answer::Repeat),
            (0, 5, Answer::Stale),
            (0, 1, Answer::Last),
        ],
    );
    begin(rt, hotplug, 5, &[0, 1]);
}

/// A processor that departs is no longer awaited; one that came back is awaited by the next grace
/// period.
fn departed_and_back<A: Awaited>(rt: &impl Abort, hotplug: &mut Hotplug<A>) {
    arrives(rt, hotplug, 4);
    begin(rt, hotplug, 9, &[0, 1, 4]);
    departs(rt, hotplug, 4);
    awaits(rt, hotplug, &[0, 1]);
    arrives(rt, hotplug, 4);
    awaits(rt, hotplug, &[0, 1]);
    report(
        rt,
        hotplug,
        &[
            (4, 9, Answer::Repeat),
            (1, 9, Answer::Taken),
            (1, 9, Answer::Repeat),
        ],
    );
    departs(rt, hotplug, 1);
    awaits(rt, hotplug, &[0]);
    begin(rt, hotplug, 13, &[0, 4]);
}

/// Compares why each of these processors does not arrive.
fn refuses_arrival<A: Awaited>(rt: &impl Abort, hotplug: &mut Hotplug<A>, rows: &[(u32, Fault)]) {
    for (row, (cpu, wanted)) in rows.iter().enumerate() {
        compare(rt, row, hotplug.arrive(*cpu), Err(*wanted));
    }
}

/// Compares why each of these processors does not depart.
fn refuses_departure<A: Awaited>(rt: &impl Abort, hotplug: &mut Hotplug<A>, rows: &[(u32, Fault)]) {
    for (row, (cpu, wanted)) in rows.iter().enumerate() {
        compare(rt, row, hotplug.depart(*cpu), Err(*wanted));
    }
}

/// Each fault, the first cause first; a refused call changes nothing.
fn faults<A: Awaited>(rt: &impl Abort, hotplug: &mut Hotplug<A>) {
    refuses_arrival(
        rt,
        hotplug,
        &[
            (5, Fault::BadCpu),
            (0, Fault::AlreadyOnline),
            (4, Fault::AlreadyOnline),
        ],
    );
    refuses_departure(
        rt,
        hotplug,
        &[
            (5, Fault::BadCpu),
            (0, Fault::BootStays),
            (3, Fault::Offline),
        ],
    );
    awaits(rt, hotplug, &[0, 4]);
}

/// Four grace periods of five processors.
fn come_and_go<A: Awaited>(rt: &impl Abort, mut hotplug: Hotplug<A>) {
    compare(rt, "tag", hotplug.awaited().tag(), Tag::of_first_epoch(0));
    awaits(rt, &hotplug, &[]);
    late_arrival(rt, &mut hotplug);
    departed_and_back(rt, &mut hotplug);
    faults(rt, &mut hotplug);
}

#[test]
fn come_and_go_over_flat(rt: HostRuntime) {
    come_and_go(&rt, over_flat(&rt, rt.alloc(), 5));
}

#[test]
fn come_and_go_over_tree(rt: HostRuntime) {
    come_and_go(&rt, over_tree(&rt, rt.alloc()));
}

/// This many processors are made, and no more.
fn has_size(rt: &impl Abort, alloc: Global, cpus: u32) {
    let mut hotplug = over_flat(rt, alloc, cpus);
    compare(rt, "cpus", hotplug.awaited().cpus(), cpus);
    refuses_arrival(rt, &mut hotplug, &[(cpus, Fault::BadCpu)]);
}

#[test]
fn sizes(rt: HostRuntime) {
    has_size(&rt, rt.alloc(), 1);
    has_size(&rt, rt.alloc(), 4096);
}
