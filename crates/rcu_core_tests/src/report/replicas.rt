//! Replicas over trees and flat sets, and their merging.
ghost use Rattle.std.specs.Prelude.{◌≡◌, false, replicate, length};
ghost use Rattle.rcu_seq.specs.Tags.{first_tag};

use crate::made::{compare, everyone, flat, set_of, tree};
use rcu_node::{Answer, Awaited, CpuSet, Flat, Tree};
use rcu_report::Replica;
use rcu_seq::Fault;
use std::alloc::Global;
use std::process::Abort;

/// A replica whose last number is 8.
fn replica<A: Awaited>(rt: &impl Abort, inner: A) -> Replica<A>
    requires tag { A.tag inner ≡ first_tag }
    requires empty { A.start_set inner ≡ replicate (length (A.awaited inner)) false }
{
    Replica::new(inner, 8).expect(rt, "8 is a last number")
}

/// A replica over a flat set.
fn over_flat(rt: &impl Abort, alloc: Global, cpus: u32) -> Replica<Flat> {
    replica(rt, flat(rt, alloc, cpus))
}

/// A replica over a tree.
fn over_tree<const LEAF: u32, const FAN: u32>(
    rt: &impl Abort,
    alloc: Global,
    cpus: u32,
) -> Replica<Tree<LEAF, FAN>> {
    replica(rt, tree::<LEAF, FAN>(rt, alloc, cpus))
}

/// Begins, and compares the result.
fn begin<A: Awaited>(
    rt: &impl Abort,
    replica: &mut Replica<A>,
    set: &CpuSet,
    wanted: Result<u64, Fault>,
) {
    assert_eq!(rt; set.cpus(), replica.awaited().cpus());
    let result = replica.begin(set);
    compare(rt, "begin", result, wanted);
}

/// Makes reports, each of a processor and a number, and compares the answers.
fn report<A: Awaited>(
    rt: &impl Abort,
    replica: &mut Replica<A>,
    reports: &[(u32, u64, Result<Answer, Fault>)],
) {
    for (row, (cpu, tag, wanted)) in reports.iter().enumerate() {
        compare(rt, row, replica.report(*cpu, *tag), *wanted);
    }
}

/// Takes a processor offline, and compares the result.
fn depart<A: Awaited>(
    rt: &impl Abort,
    replica: &mut Replica<A>,
    cpu: u32,
    wanted: Result<(), Fault>,
) {
    compare(rt, cpu, replica.depart(cpu), wanted);
}

/// Ends, and compares the result.
fn end<A: Awaited>(rt: &impl Abort, replica: &mut Replica<A>, wanted: Result<u64, Fault>) {
    compare(rt, "end", replica.end(), wanted);
}

/// Compares the number, and whether a grace period runs.
fn is_at<A: Awaited>(rt: &impl Abort, replica: &Replica<A>, value: u64, running: bool) {
    compare(
        rt,
        "number, and whether one runs",
        (replica.value(), replica.is_running()),
        (value, running),
    );
}

/// Takes in what the second has heard, and compares the result.
fn merge<A: Awaited, B: Awaited>(
    rt: &impl Abort,
    first: &mut Replica<A>,
    second: &Replica<B>,
    wanted: Result<(), Fault>,
) {
    compare(rt, "merge_from", first.merge_from(second), wanted);
}

/// Compares which processors are awaited.
fn awaits<A: Awaited>(rt: &impl Abort, replica: &Replica<A>, wanted: &[u32]) {
    let awaited = replica.awaited();
    for cpu in 0..awaited.cpus() {
        compare(rt, cpu, awaited.awaits(cpu), wanted.contains(&cpu));
    }
    compare(rt, "awaited", awaited.count() as usize, wanted.len());
}

/// Two replicas of five processors that heard different ones, and merge each other.
fn merge_two<A: Awaited, B: Awaited>(
    rt: &impl Abort,
    mut a: Replica<A>,
    mut b: Replica<B>,
    all: &CpuSet,
) {
    begin(rt, &mut a, all, Ok(1));
    begin(rt, &mut b, all, Ok(1));
    report(rt, &mut a, &FIRST_HEARD);
    report(rt, &mut b, &SECOND_HEARD);
    merge_begun(rt, &mut a, &mut b);
}

/// The reports to the first one.
static FIRST_HEARD: [(u32, u64, Result<Answer, Fault>); 2] = [
    (0, 1, Ok(Answer::Taken)),
    (2, 1, Ok(Answer::Taken)),
];

/// The reports to the second one.
static SECOND_HEARD: [(u32, u64, Result<Answer, Fault>); 2] = [
    (4, 1, Ok(Answer::Taken)),
    (2, 1, Ok(Answer::Taken)),
];

/// They merge each other.
fn merge_begun<A: Awaited, B: Awaited>(rt: &impl Abort, a: &mut Replica<A>, b: &mut Replica<B>) {
    awaits(rt, a, &[1, 3, 4]);
    awaits(rt, b, &[0, 1, 3]);
    merge(rt, a, b, Ok(()));
    awaits(rt, a, &[1, 3]);
    merge(rt, b, a, Ok(()));
    awaits(rt, b, &[1, 3]);
    merge(rt, a, b, Ok(()));
    awaits(rt, a, &[1, 3]);
}

#[test]
fn merging_two_replicas(rt: HostRuntime) {
    let all = everyone(&rt, rt.alloc(), 5);
    let a = over_tree::<2, 2>(&rt, rt.alloc(), 5);
    let b = over_tree::<4, 4>(&rt, rt.alloc(), 5);
    merge_two(&rt, a, b, &all);
    let a = over_flat(&rt, rt.alloc(), 5);
    let b = over_tree::<64, 64>(&rt, rt.alloc(), 5);
    merge_two(&rt, a, b, &all);
}

/// Begins grace period 1 of these of five processors.
fn begin_with<A: Awaited>(rt: &impl Abort, alloc: Global, replica: &mut Replica<A>, cpus: &[u32]) {
    begin(rt, replica, &set_of(rt, alloc, 5, cpus), Ok(1));
}

/// Two replicas of five processors that begin with different sets, and do not merge each other. The
/// first does not merge the third one either, which has more processors.
fn merge_unlike<A: Awaited, B: Awaited, C: Awaited>(
    rt: &impl Abort,
    alloc: Global,
    a: &mut Replica<A>,
    b: &mut Replica<B>,
    c: &Replica<C>,
) {
    merge(rt, a, b, Ok(()));
    begin_with(rt, alloc, a, &[0, 1]);
    merge(rt, a, b, Err(Fault::NotAlike));
    begin_with(rt, alloc, b, &[0, 2]);
    merge(rt, a, b, Err(Fault::NotAlike));
    awaits(rt, a, &[0, 1]);
    merge(rt, a, c, Err(Fault::NotAlike));
}

#[test]
fn merge_of_unlike_sets(rt: HostRuntime) {
    let mut a = over_tree::<2, 2>(&rt, rt.alloc(), 5);
    let mut b = over_tree::<4, 4>(&rt, rt.alloc(), 5);
    let c = over_flat(&rt, rt.alloc(), 6);
    merge_unlike(&rt, rt.alloc(), &mut a, &mut b, &c);
}

/// Two replicas of three processors, up to the end of a grace period in both.
fn depart_and_end<A: Awaited, B: Awaited>(
    rt: &impl Abort,
    a: &mut Replica<A>,
    b: &mut Replica<B>,
    all: &CpuSet,
) {
    depart_in_both(rt, a, b, all);
    end_in_both(rt, a, b);
}

/// Two replicas of three processors, until both await only processor 0.
fn depart_in_both<A: Awaited, B: Awaited>(
    rt: &impl Abort,
    a: &mut Replica<A>,
    b: &mut Replica<B>,
    all: &CpuSet,
) {
    begin(rt, a, all, Ok(1));
    begin(rt, b, all, Ok(1));
    report(
        rt,
        a,
        &[
            (1, 1, Ok(Answer::Taken)),
            (1, 1, Ok(Answer::Repeat)),
            (2, 5, Ok(Answer::Stale)),
        ],
    );
    depart(rt, a, 2, Ok(()));
    depart(rt, b, 2, Ok(()));
    report(
        rt,
        b,
        &[(1, 1, Ok(Answer::Taken)), (2, 1, Ok(Answer::Repeat))],
    );
    awaits(rt, a, &[0]);
    awaits(rt, b, &[0]);
}

/// The first ends its grace period, and the second does after it took in what the first has heard.
fn end_in_both<A: Awaited, B: Awaited>(rt: &impl Abort, a: &mut Replica<A>, b: &mut Replica<B>) {
    report(rt, a, &[(0, 1, Ok(Answer::Last))]);
    end(rt, a, Ok(4));
    is_at(rt, a, 4, false);
    is_at(rt, b, 1, true);
    merge(rt, b, a, Ok(()));
    awaits(rt, b, &[]);
    end(rt, b, Ok(4));
    report(rt, a, &[(0, 1, Ok(Answer::Stale))]);
}

#[test]
fn replicas_with_departures(rt: HostRuntime) {
    let mut a = over_tree::<2, 3>(&rt, rt.alloc(), 3);
    let mut b = over_tree::<64, 64>(&rt, rt.alloc(), 3);
    let all = everyone(&rt, rt.alloc(), 3);
    depart_and_end(&rt, &mut a, &mut b, &all);
}

/// Each fault of a running replica of two processors, the first cause first; a refused call changes
/// nothing.
fn faults_while_running<A: Awaited>(rt: &impl Abort, replica: &mut Replica<A>, all: &CpuSet) {
    begin(rt, replica, all, Err(Fault::Running));
    end(rt, replica, Err(Fault::Waiting));
    report(rt, replica, &[(2, 1, Err(Fault::BadCpu))]);
    depart(rt, replica, 2, Err(Fault::BadCpu));
    depart(rt, replica, 0, Err(Fault::BootStays));
    awaits(rt, replica, &[0, 1]);
}

/// A grace period that its two reports end.
fn grace_period<A: Awaited>(rt: &impl Abort, replica: &mut Replica<A>, tag: u64) {
    report(
        rt,
        replica,
        &[(1, tag, Ok(Answer::Taken)), (0, tag, Ok(Answer::Last))],
    );
    end(rt, replica, Ok(tag.saturating_add(3)));
}

/// A replica of two processors, until no further grace period can begin.
fn up_to_the_last_number<A: Awaited>(rt: &impl Abort, replica: &mut Replica<A>, all: &CpuSet) {
    end(rt, replica, Err(Fault::Idle));
    report(rt, replica, &[(0, 0, Ok(Answer::Stale))]);
    depart(rt, replica, 1, Ok(()));
    begin(rt, replica, all, Ok(1));
    faults_while_running(rt, replica, all);
    grace_period(rt, replica, 1);
    begin(rt, replica, all, Ok(5));
    grace_period(rt, replica, 5);
    is_at(rt, replica, 8, false);
    begin(rt, replica, all, Err(Fault::Exhausted));
}

#[test]
fn faults_up_to_the_last_number(rt: HostRuntime) {
    let mut one = over_flat(&rt, rt.alloc(), 2);
    let all = everyone(&rt, rt.alloc(), 2);
    up_to_the_last_number(&rt, &mut one, &all);
    refuses(&rt, rt.alloc(), 6);
}

/// A replica opens with this last number, and begins.
fn opens(rt: &impl Abort, alloc: Global, all: &CpuSet, last: u64) {
    let opened = Replica::new(flat(rt, alloc, 2), last);
    let mut one = opened.expect(rt, "it is a last number");
    begin(rt, &mut one, all, Ok(1));
}

/// No replica opens, since this is no last number.
fn refuses(rt: &impl Abort, alloc: Global, last: u64) {
    let opened = Replica::new(flat(rt, alloc, 2), last);
    compare(rt, last, opened.err(), Some(Fault::BadLast));
}

/// Replicas open with the least and the greatest last number, and with none beyond.
#[test]
fn last_numbers(rt: HostRuntime) {
    let all = everyone(&rt, rt.alloc(), 2);
    opens(&rt, rt.alloc(), &all, 4);
    opens(&rt, rt.alloc(), &all, 1 << 62);
    refuses(&rt, rt.alloc(), 0);
    refuses(&rt, rt.alloc(), 6);
    refuses(&rt, rt.alloc(), (1 << 62) + 4);
}

/// A grace period of the last of this many processors, which it ends.
fn awaits_last<A: Awaited>(rt: &impl Abort, replica: &mut Replica<A>, last: &CpuSet, cpus: u32) {
    begin(rt, replica, last, Ok(1));
    report(
        rt,
        replica,
        &[
            (cpus, 1, Err(Fault::BadCpu)),
            (cpus.saturating_sub(1), 1, Ok(Answer::Last)),
        ],
    );
}

/// A replica of this many processors awaits the last of them.
fn has_size(rt: &impl Abort, alloc: Global, cpus: u32) {
    let mut one = over_flat(rt, alloc, cpus);
    let all = set_of(rt, alloc, cpus, &[cpus.saturating_sub(1)]);
    awaits_last(rt, &mut one, &all, cpus);
}

#[test]
fn sizes_of_replicas(rt: HostRuntime) {
    has_size(&rt, rt.alloc(), 1);
    has_size(&rt, rt.alloc(), 4096);
}
