//! Runs of calls on the lists of three processors, drawn at random. The outcome shows how often
//! each callback was handed out, and at the end how often it still is in the lists.

use super::{lists_of, take, tended, visit_once};
use crate::draw::Draw;
use crate::made::compare;
use rcu_barrier::{BarrierState, Lists};
use rcu_cblist::Queued;
use rcu_seq::Tag;
use std::process::Abort;

/// How many processors the lists are of.
const CPUS: u32 = 3;
/// How many callbacks a run queues at most.
const MOST: usize = 40;
/// How many calls the longest run has.
const CALLS: usize = 120;
/// A number at which each callback is done.
const LAST: u64 = 1 << 62;

/// The outcome of a run.
#[derive(Drop)]
struct Told {
    /// How often the callback of each place did.
    times: [u64; MOST],
    /// How many callbacks were queued.
    queued: u64,
    /// How many of them before the latest barrier began.
    before: u64,
    /// The number of the next tend.
    number: u64,
}

impl Told {
    /// Counts what a call handed out.
    fn count(&mut self, rt: &impl Abort, row: usize, calls: &[Queued<u64>]) {
        for call in calls {
            assert!(rt;
                0 < call.ord && call.ord <= self.queued,
                "row {row}: {}",
                call.ord
            );
            compare(rt, row, call.value, call.ord.wrapping_mul(7));
            let place = (call.ord as usize).wrapping_sub(1);
            assert!(rt; place < MOST);
            self.times[place] = self.times[place].saturating_add(1);
        }
    }

    /// Returns whether each of the first callbacks was handed out just once, and each other one at
    /// most once.
    fn is_once(&self, first: u64) -> bool {
        let mut is_once = true;
        for (place, times) in self.times.iter().enumerate() {
            is_once &= *times <= 1 && (place as u64 >= first || *times == 1);
        }
        is_once
    }
}

/// Queues a callback, whose value is its place.
fn queue(rt: &impl Abort, lists: &mut Lists<u64>, told: &mut Told, cpu: u32) {
    assert!(rt; cpu < lists.cpus());
    let place = told.queued.saturating_add(1);
    if place <= MOST as u64
        && lists
            .queue(cpu, Tag::of_first_epoch(told.number), place.wrapping_mul(7))
            .is_ok()
    {
        told.queued = place;
    }
}

/// Tends a list at the number of this many grace periods later.
fn tend_later(
    rt: &impl Abort,
    row: usize,
    lists: &mut Lists<u64>,
    told: &mut Told,
    cpu: u32,
    periods: u64,
) {
    let number = told.number.saturating_add(periods.saturating_mul(4));
    assert!(rt; number % 4 <= 1 && number <= LAST);
    told.number = number;
    tended(rt, row, lists, cpu, number);
}

/// Moves a list to processor 0's, but not its own.
fn migrate(rt: &impl Abort, lists: &mut Lists<u64>, cpu: u32) {
    assert!(rt; cpu < lists.cpus());
    if cpu > 0 {
        let _ = lists.migrate(cpu);
    }
}

/// Tests the barrier: if it is done, the callbacks queued before it were handed out.
fn test(rt: &impl Abort, row: usize, lists: &mut Lists<u64>, told: &Told) {
    if lists.barrier_test() == Ok(BarrierState::Done) {
        assert!(rt; told.is_once(told.before), "row {row}");
    }
}

/// Makes a call that is drawn.
fn make(rt: &impl Abort, row: usize, lists: &mut Lists<u64>, told: &mut Told, draw: &mut Draw) {
    let cpu = draw.below(u64::from(CPUS)) as u32;
    let few = draw.below(4);
    match draw.below(16) {
        0..=4 => queue(rt, lists, told, cpu),
        5..=8 => tend_later(rt, row, lists, told, cpu, few / 2),
        9 | 10 => told.count(rt, row, take(rt, row, lists, cpu, few).as_slice()),
        11 => migrate(rt, lists, cpu),
        12 => {
            if lists.barrier_begin().is_ok() {
                told.before = told.queued;
            }
        }
        13 => {
            let _ = visit_once(rt, row, lists, cpu);
        }
        14 => test(rt, row, lists, told),
        _ => {
            lists.renumber();
            told.number = 0;
        }
    }
    assert!(rt; told.is_once(0), "row {row}");
}

/// Takes out all that lies in the lists: each callback that was queued has come once then.
fn drain(rt: &impl Abort, lists: &mut Lists<u64>, told: &mut Told) {
    for cpu in 0..CPUS {
        tend_later(rt, CALLS, lists, told, cpu, 0);
    }
    for cpu in 0..CPUS {
        assert!(rt; LAST % 4 <= 1);
        tended(rt, CALLS, lists, cpu, LAST);
        told.count(
            rt,
            CALLS,
            take(rt, CALLS, lists, cpu, MOST as u64).as_slice(),
        );
    }
    assert!(rt; told.is_once(told.queued), "of {} queued", told.queued);
}

#[test]
fn each_callback_comes_once_or_lies_in_one_list(rt: HostRuntime) {
    let mut draw = Draw(0x2545_F491_4F6C_DD1D);
    for calls in 0..CALLS {
        let mut lists = lists_of(&rt, rt.alloc(), CPUS);
        let mut told = Told {
            times: [0; MOST],
            queued: 0,
            before: 0,
            number: 0,
        };
        for row in 0..calls {
            make(&rt, row, &mut lists, &mut told, &mut draw);
        }
        drain(&rt, &mut lists, &mut told);
    }
}
