//! Batches of reports over a tree.

mod replicas;

use crate::made::{compare, everyone, refused, tree};
use rcu_node::{Awaited, Tree};
use rcu_report::{Batch, Report};
use rcu_seq::{Fault, Tag};
use std::alloc::Global;
use std::process::Abort;

/// Number 1 of epoch 0.
const FIRST: Tag = Tag {
    epoch: 0,
    number: 1,
};

/// Number 5 of epoch 0.
const FIFTH: Tag = Tag {
    epoch: 0,
    number: 5,
};

/// Number 1 of epoch 1.
const IN_NEXT: Tag = Tag {
    epoch: 1,
    number: 1,
};

/// An empty batch, made by a second call if the first is refused memory.
fn batch(rt: &impl Abort, alloc: Global, cpus: u32, tag: Tag) -> Batch {
    match Batch::new(alloc, cpus, tag) {
        Ok(batch) => batch,
        Err(fault) => {
            refused(rt, fault);
            Batch::new(alloc, cpus, tag).expect(rt, "the second call has memory")
        }
    }
}

/// Adds a report, and compares the result.
fn add(rt: &impl Abort, batch: &mut Batch, cpu: u32, tag: Tag, wanted: Result<(), Fault>) {
    assert!(rt; cpu < batch.cpus());
    let report = Report { cpu, tag };
    compare(rt, report, batch.add(report), wanted);
}

/// Compares which processors are in a batch.
fn contains(rt: &impl Abort, batch: &Batch, wanted: &[u32]) {
    for cpu in 0..batch.cpus() {
        compare(rt, cpu, batch.contains(cpu), wanted.contains(&cpu));
    }
}

/// Applies a batch, and compares how many processors it cleared.
fn apply<A: Awaited>(rt: &impl Abort, batch: &Batch, to: &mut A, wanted: u32) {
    assert_eq!(rt; to.cpus(), batch.cpus());
    let cleared = batch.apply(to);
    compare(rt, "apply", cleared, wanted);
}

/// Compares which processors are awaited.
fn awaits<A: Awaited>(rt: &impl Abort, awaited: &A, wanted: &[u32]) {
    for cpu in 0..awaited.cpus() {
        compare(rt, cpu, awaited.awaits(cpu), wanted.contains(&cpu));
    }
}

/// Puts the second's processors into the first, and compares the result.
fn join(rt: &impl Abort, first: &mut Batch, second: &Batch, wanted: Result<(), Fault>) {
    compare(rt, "join", first.join(second), wanted);
}

/// A batch of five processors with reports of these, all of this number.
fn batch_of(rt: &impl Abort, alloc: Global, tag: Tag, cpus: &[u32]) -> Batch {
    let mut made = batch(rt, alloc, 5, tag);
    for cpu in cpus {
        add(rt, &mut made, *cpu, tag, Ok(()));
    }
    made
}

/// Five processors of a tree, all awaited since the grace period of this tag began.
fn all_awaited(rt: &impl Abort, alloc: Global, now: Tag) -> Tree<2, 2> {
    let mut awaited = tree::<2, 2>(rt, alloc, 5);
    let all = everyone(rt, alloc, 5);
    assert_eq!(rt; awaited.cpus(), all.cpus());
    assert_eq!(rt; now.number % 4, 1);
    awaited.begin(now, &all);
    awaited
}

/// A batch of processors 0 and 2 gets those of another one.
fn join_second(rt: &impl Abort, alloc: Global, first: &mut Batch) {
    add(rt, first, 0, FIFTH, Err(Fault::NotAlike));
    contains(rt, first, &[0, 2]);
    let second = batch_of(rt, alloc, FIRST, &[2, 4]);
    join(rt, first, &second, Ok(()));
    contains(rt, first, &[0, 2, 4]);
}

/// Applies a batch of three processors twice, and one of another number, which clears none.
fn apply_both<A: Awaited>(rt: &impl Abort, first: &Batch, other: &Batch, awaited: &mut A) {
    apply(rt, first, awaited, 3);
    awaits(rt, awaited, &[1, 3]);
    apply(rt, first, awaited, 0);
    awaits(rt, awaited, &[1, 3]);
    apply(rt, other, awaited, 0);
    awaits(rt, awaited, &[1, 3]);
}

#[test]
fn joined_batch(rt: HostRuntime) {
    let mut first = batch_of(&rt, rt.alloc(), FIRST, &[0, 2]);
    join_second(&rt, rt.alloc(), &mut first);
    let other = batch_of(&rt, rt.alloc(), FIFTH, &[1]);
    let mut awaited = all_awaited(&rt, rt.alloc(), FIRST);
    apply_both(&rt, &first, &other, &mut awaited);
}

/// Applies a batch of another epoch, which clears none, and one of the epoch.
fn apply_epochs<A: Awaited>(rt: &impl Abort, old: &Batch, next: &Batch, awaited: &mut A) {
    apply(rt, old, awaited, 0);
    awaits(rt, awaited, &[0, 1, 2, 3, 4]);
    apply(rt, next, awaited, 2);
    awaits(rt, awaited, &[1, 3, 4]);
}

#[test]
fn batches_of_two_epochs(rt: HostRuntime) {
    let old = batch_of(&rt, rt.alloc(), FIRST, &[0, 2]);
    let next = batch_of(&rt, rt.alloc(), IN_NEXT, &[0, 2]);
    let mut awaited = all_awaited(&rt, rt.alloc(), IN_NEXT);
    apply_epochs(&rt, &old, &next, &mut awaited);
}

/// An empty batch of this many processors and this number is not joined.
fn joins_no(rt: &impl Abort, alloc: Global, first: &mut Batch, cpus: u32, tag: Tag) {
    let second = batch(rt, alloc, cpus, tag);
    join(rt, first, &second, Err(Fault::NotAlike));
}

/// A batch of number 1 joins neither one of another number or epoch nor one of more processors.
fn joins_none(rt: &impl Abort, alloc: Global, first: &mut Batch) {
    compare(rt, "tag", first.tag(), FIRST);
    joins_no(rt, alloc, first, 5, FIFTH);
    joins_no(rt, alloc, first, 5, IN_NEXT);
    joins_no(rt, alloc, first, 6, FIRST);
    add(rt, first, 0, IN_NEXT, Err(Fault::NotAlike));
    contains(rt, first, &[]);
}

#[test]
fn unlike_batches(rt: HostRuntime) {
    let mut first = batch(&rt, rt.alloc(), 5, FIRST);
    joins_none(&rt, rt.alloc(), &mut first);
}

/// No batch of this many processors is made.
fn no_batch(rt: &impl Abort, alloc: Global, cpus: u32) {
    let found = Batch::new(alloc, cpus, FIRST).err();
    compare(rt, cpus, found, Some(Fault::TooManyCpus));
}

/// A batch of this many processors is made.
fn has_size(rt: &impl Abort, alloc: Global, cpus: u32) {
    compare(rt, "cpus", batch(rt, alloc, cpus, FIRST).cpus(), cpus);
}

#[test]
fn sizes(rt: HostRuntime) {
    no_batch(&rt, rt.alloc(), 0);
    no_batch(&rt, rt.alloc(), 4097);
    has_size(&rt, rt.alloc(), 1);
    has_size(&rt, rt.alloc(), 4096);
}
