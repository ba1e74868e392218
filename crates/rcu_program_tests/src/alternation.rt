//! Torture runs of two workers that take turns, a round each: what each hands out itself follows
//! then from the words that it draws by the seed, whatever the schedule.

use crate::runs::{MOST_LOOKS_IN_STEP, reaches_in_time};
use rcu_stress::{Gate, Point, torture};
use std::alloc::Global;
use std::process::Abort;
use std::rt::Clock;
use std::sync::Wait;
use std::sync::atomic::{AtomicU64, Ordering};
use std::thread::Threads;

/// How many rounds each worker does.
const ROUNDS: u32 = 6;

/// By this seed worker 1 goes offline in none of its rounds.
const STAYS: u64 = 39;

/// By this one it goes offline in each, after it was to hand out.
const LEAVES: u64 = 240_583;

/// Worker 0 leaves its section once both are in one of this round, and worker 1 once the other one
/// has come to its next. So a worker is in its section while the other one queues, drives and hands
/// out. Both are stopped behind their last rounds.
#[derive(Drop)]
struct Alternation<'a, R: Clock + Sync> {
    clock: &'a R,
    first: AtomicU64,
    second: AtomicU64,
}

impl<'a, R: Clock + Sync> Alternation<'a, R> {
    fn new(clock: &'a R) -> Alternation<'a, R> {
        Alternation {
            clock,
            first: AtomicU64::new(0),
            second: AtomicU64::new(0),
        }
    }
}

impl<R: Clock + Sync> Gate for Alternation<'_, R> {
    fn pass(&self, worker: u32, point: Point) -> bool {
        let (own, other) = match worker {
            0 => (&self.first, &self.second),
            _ => (&self.second, &self.first),
        };
        match point {
            Point::Entered => own.fetch_add(1, Ordering::SeqCst) < u64::from(ROUNDS),
            Point::Polled => {
                let wanted = own.load(Ordering::SeqCst).wrapping_add(u64::from(worker));
                reaches_in_time(self.clock, other, wanted, MOST_LOOKS_IN_STEP)
            }
        }
    }
}

/// Returns whether worker 1 handed out callbacks of its own, and of worker 0.
#[derive(Clone, Copy, Debug, PartialEq, Eq)]
struct SecondShare {
    own: bool,
    others: bool,
}

/// Returns what worker 1 handed out in a run with this seed, none if a growth was refused to the
/// run or to a thread of it.
fn second_share<R: Threads + Wait + Clock + Sync>(
    rt: &R,
    alloc: Global,
    seed: u64,
) -> Option<SecondShare> {
    let ledger = torture(alloc, rt, 2, ROUNDS + 1, seed, &Alternation::new(rt)).ok()?;
    let share = ledger.shares().get(1)?;
    if ledger.queued() != 2 * u64::from(ROUNDS) {
        return None;
    }
    // The callbacks of worker 0 have the ids up to this one, and those of worker 1 the others.
    let last_of_first = u64::from(ROUNDS);
    let ids = share.ids();
    Some(SecondShare {
        own: ids.iter().any(|id| *id > last_of_first),
        others: ids.iter().any(|id| *id <= last_of_first),
    })
}

/// Compares what worker 1 handed out in a run by this seed, or in a second one.
fn hands_out<R: Threads + Wait + Clock + Sync + Abort>(
    rt: &R,
    alloc: Global,
    seed: u64,
    wanted: SecondShare,
) {
    let found = second_share(rt, alloc, seed).or_else(|| second_share(rt, alloc, seed));
    assert_eq!(rt; found, Some(wanted));
}

/// A worker runs its own processor's list, and draws its words by the seed: if it goes offline in
/// each round, its callbacks are left to worker 0.
#[test]
fn a_worker_hands_out_as_its_seed_says(rt: HostRuntime) {
    let own = SecondShare {
        own: true,
        others: false,
    };
    hands_out(&rt, rt.alloc(), STAYS, own);
    let none = SecondShare {
        own: false,
        others: false,
    };
    hands_out(&rt, rt.alloc(), LEAVES, none);
}
