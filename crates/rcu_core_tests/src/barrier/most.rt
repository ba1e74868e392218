//! The limit of queued callbacks, if an opening sets one.
ghost use Rattle.std.specs.Prelude.{◌≤◌, ◌^◌};

use super::{Step, make_each, queue_again};
use crate::made::compare;
use rcu_barrier::Lists;
use rcu_seq::{Fault, Tag};
use std::alloc::Global;
use std::process::Abort;

/// Lists for two processors in which this many callbacks may be queued, made by a second call if
/// the first is refused memory.
fn lists_with_most(rt: &impl Abort, alloc: Global, most: u64) -> Lists<u64>
    requires some { 1 ≤ most }
    requires few { most ≤ 2 ^ 62 }
{
    match Lists::with_most(alloc, 2, most) {
        Ok(lists) => lists,
        Err(fault) => {
            assert_eq!(rt; fault, Fault::NoMemory);
            Lists::with_most(alloc, 2, most).expect(rt, "the second call has memory")
        }
    }
}

/// No more callback is queued on either processor.
pub(super) fn is_full(rt: &impl Abort, row: usize, lists: &mut Lists<u64>) {
    compare(rt, row, lists.queued(), lists.most());
    for cpu in 0..2 {
        assert!(rt; cpu < lists.cpus());
        let refusal = lists.queue(cpu, Tag::of_first_epoch(0), 8);
        let found = refusal.map_err(|back| (back.fault, back.value));
        compare(rt, (row, cpu), found, Err((Fault::CallbacksFull, 8)));
    }
}

/// Queues a million callbacks on processor 0.
pub(super) fn fill(rt: &impl Abort, lists: &mut Lists<u64>) {
    for count in 0..1_000_000u64 {
        assert!(rt; 0 < lists.cpus());
        if let Err(back) = lists.queue(0, Tag::of_first_epoch(0), 7) {
            compare(rt, count, back.fault, Fault::NoMemory);
            queue_again(rt, count as usize, lists, 0, back.value, count + 1);
        }
    }
    compare(rt, "queued", lists.queued(), 1_000_000);
}

/// The one callback fills the lists, and no place comes back once it ran.
#[test]
fn one_callback_fills_the_lists(rt: HostRuntime) {
    let mut lists = lists_with_most(&rt, rt.alloc(), 1);
    compare(&rt, "most", lists.most(), 1);
    make_each(
        &rt,
        &mut lists,
        &[
            Step::Queue(1, 5, 1),
            Step::Full,
            Step::Tend(1, 0, 0, 1),
            Step::Tend(1, 4, 1, 0),
            Step::Run(1, 9, &[5]),
            Step::Full,
        ],
    );
}

#[test]
fn three_callbacks_fill_the_lists(rt: HostRuntime) {
    let mut lists = lists_with_most(&rt, rt.alloc(), 3);
    compare(&rt, "most", lists.most(), 3);
    make_each(
        &rt,
        &mut lists,
        &[
            Step::Queue(0, 5, 1),
            Step::Queue(1, 6, 2),
            Step::Tend(0, 0, 0, 1),
            Step::Tend(0, 4, 1, 0),
            Step::Run(0, 9, &[5]),
            Step::Queue(0, 7, 3),
            Step::Full,
        ],
    );
}

#[test]
fn an_opening_that_does_not_say_takes_a_million(rt: HostRuntime) {
    let lists = super::lists(&rt, rt.alloc());
    compare(&rt, "most", lists.most(), 1_000_000);
}

#[test]
fn as_many_as_can_be_said(rt: HostRuntime) {
    let mut lists = lists_with_most(&rt, rt.alloc(), 1 << 62);
    compare(&rt, "most", lists.most(), 1 << 62);
    make_each(&rt, &mut lists, &[Step::Queue(0, 5, 1)]);
}
