//! Runs of workers: two that wait for one another at a gate, one that a gate ends early, and
//! ledgers.
ghost use Rattle.std.specs.Prelude.{◌≤◌};
ghost use Rattle.rcu_stress.specs.Ledger.{most_rounds, most_workers};

use rcu_seq::Fault;
use rcu_stress::{Gate, LedgerShare, Open, Point, torture};
use std::alloc::Global;
use std::io::Print;
use std::process::Abort;
use std::rt::Clock;
use std::sync::Wait;
use std::sync::atomic::{AtomicBool, AtomicU64, Ordering};
use std::thread;
use std::thread::Threads;
use std::time::Duration;

/// How often a worker looks for another one before the test fails.
const MOST_LOOKS: u32 = 200_000;

/// The totals: callbacks queued, handed out, early and twice.
#[derive(Clone, Copy, Debug, PartialEq, Eq)]
struct Totals {
    queued: u64,
    ran: u64,
    early: u64,
    twice: u64,
}

/// Returns the totals if each of this many queued callbacks was handed out, and none came early or
/// twice.
fn whole(queued: u64) -> Totals {
    Totals {
        queued,
        ran: queued,
        early: 0,
        twice: 0,
    }
}

/// Compares the totals of a run, of which there are none if it was refused a growth.
fn is_whole(rt: &impl Abort, found: Option<Totals>, queued: u64) {
    assert_eq!(rt; found, Some(whole(queued)));
}

/// The totals of a run, or none if it was refused a growth.
fn try_totals<R: Threads + Wait + Sync + Abort + Print, G: Gate>(
    rt: &R,
    alloc: Global,
    workers: u32,
    rounds: u32,
    seed: u64,
    gate: &G,
) -> Option<Totals>
    requires workers { (1 ≤ workers) × (workers ≤ most_workers) }
    requires rounds { (1 ≤ rounds) × (rounds ≤ most_rounds) }
{
    match torture(alloc, rt, workers, rounds, seed, gate) {
        Ok(ledger) => Some(Totals {
            queued: ledger.queued(),
            ran: ledger.ran(),
            early: ledger.early(),
            twice: ledger.twice(),
        }),
        Err(fault) => {
            assert_eq!(rt; fault, Fault::NoMemory);
            let _ = println!(rt; "a growth was refused");
            None
        }
    }
}

/// Compares the totals of a run with no gate: each worker queues one callback a round, and each is
/// handed out. If the run was refused a growth, those of a second one.
fn all_are_handed_out<R: Threads + Wait + Sync + Abort + Print>(
    rt: &R,
    alloc: Global,
    workers: u32,
    rounds: u32,
    seed: u64,
)
    requires workers { (1 ≤ workers) × (workers ≤ most_workers) }
    requires rounds { (1 ≤ rounds) × (rounds ≤ most_rounds) }
{
    let found = match try_totals(rt, alloc, workers, rounds, seed, &Open) {
        None => try_totals(rt, alloc, workers, rounds, seed, &Open),
        first => first,
    };
    is_whole(rt, found, u64::from(workers) * u64::from(rounds));
}

/// Worker 0 stays in its section until worker 1 has polled, and worker 1 polls no sooner than
/// worker 0 has entered: a run of one worker after another ends at neither.
#[derive(Drop)]
struct Overlap<'a, R: Clock + Sync> {
    clock: &'a R,
    entered: AtomicU64,
    polled: AtomicU64,
}

impl<'a, R: Clock + Sync> Overlap<'a, R> {
    fn new(clock: &'a R) -> Overlap<'a, R> {
        Overlap {
            clock,
            entered: AtomicU64::new(0),
            polled: AtomicU64::new(0),
        }
    }
}

/// Returns whether the count reaches this many within this many looks, with a microsecond's sleep
/// between two.
pub(crate) fn reaches_in_time(
    clock: &impl Clock,
    count: &AtomicU64,
    wanted: u64,
    most_looks: u32,
) -> bool {
    for _ in 0..most_looks {
        if count.load(Ordering::SeqCst) >= wanted {
            return true;
        }
        thread::sleep(clock, Duration::from_micros(1));
    }
    false
}

impl<R: Clock + Sync> Gate for Overlap<'_, R> {
    fn pass(&self, worker: u32, point: Point) -> bool {
        match (worker, point) {
            (0, Point::Entered) => {
                self.entered.store(1, Ordering::SeqCst);
                reaches_in_time(self.clock, &self.polled, 1, MOST_LOOKS)
            }
            (1, Point::Entered) => reaches_in_time(self.clock, &self.entered, 1, MOST_LOOKS),
            (1, Point::Polled) => {
                self.polled.store(1, Ordering::SeqCst);
                true
            }
            _ => true,
        }
    }
}

#[test]
fn workers_overlap_at_the_gate(rt: HostRuntime) {
    let alloc = rt.alloc();
    // If the growth was refused to the thread there was none: worker 1 ran after worker 0, which
    // waited for it in vain, and queued the one callback.
    let found = match try_totals(&rt, alloc, 2, 1, 1, &Overlap::new(&rt)) {
        None
        | Some(
            Totals {
                queued: 1,
                ran: 1,
                early: 0,
                twice: 0,
            },
        ) => try_totals(&rt, alloc, 2, 1, 1, &Overlap::new(&rt)),
        first => first,
    };
    is_whole(&rt, found, 2);
}

/// Does not let worker 0 pass at its third entering.
#[derive(Drop)]
struct ThirdTime {
    entered: AtomicU64,
}

impl ThirdTime {
    fn new() -> ThirdTime {
        ThirdTime {
            entered: AtomicU64::new(0),
        }
    }
}

impl Gate for ThirdTime {
    fn pass(&self, worker: u32, point: Point) -> bool {
        worker != 0 || point != Point::Entered || self.entered.fetch_add(1, Ordering::SeqCst) != 2
    }
}

#[test]
fn closing_gate_shortens_the_ledger(rt: HostRuntime) {
    let alloc = rt.alloc();
    let first = try_totals(&rt, alloc, 2, 5, 1, &ThirdTime::new());
    let found = first.or_else(|| try_totals(&rt, alloc, 2, 5, 1, &ThirdTime::new()));
    is_whole(&rt, found, 7);
}

#[test]
fn torture_ledger(rt: HostRuntime) {
    for seed in 1..4 {
        all_are_handed_out(&rt, rt.alloc(), 4, 100, seed);
    }
}

/// How often a worker in lock step looks for the others: fewer times, since it waits in vain
/// wherever a growth was refused to one of them.
pub(crate) const MOST_LOOKS_IN_STEP: u32 = 20_000;

/// Lets no worker into a round before each of them has entered it, so that none runs ahead of the
/// others. Once one of them waited in vain, it lets none pass.
#[derive(Drop)]
struct LockStep<'a, R: Clock + Sync> {
    clock: &'a R,
    workers: u64,
    entered: AtomicU64,
    in_vain: AtomicBool,
}

impl<'a, R: Clock + Sync> LockStep<'a, R> {
    fn new(clock: &'a R, workers: u32) -> LockStep<'a, R> {
        LockStep {
            clock,
            workers: u64::from(workers),
            entered: AtomicU64::new(0),
            in_vain: AtomicBool::new(false),
        }
    }
}

impl<R: Clock + Sync> Gate for LockStep<'_, R> {
    fn pass(&self, _worker: u32, point: Point) -> bool {
        if point != Point::Entered {
            return true;
        }
        if self.in_vain.load(Ordering::SeqCst) {
            return false;
        }
        let before = self.entered.fetch_add(1, Ordering::SeqCst);
        let others = before.checked_rem(self.workers).unwrap_or(0);
        let whole = before.wrapping_sub(others).wrapping_add(self.workers);
        let are_there = reaches_in_time(self.clock, &self.entered, whole, MOST_LOOKS_IN_STEP);
        if !are_there {
            self.in_vain.store(true, Ordering::SeqCst);
        }
        are_there
    }
}

/// Returns whether other workers than the first handed out callbacks in a run in lock step, so that
/// not all were left to the program in the end. A run that was refused a growth shows nothing.
fn workers_hand_out<R: Threads + Wait + Clock + Sync>(
    rt: &R,
    alloc: Global,
    workers: u32,
    rounds: u32,
    seed: u64,
) -> bool
    requires workers { (1 ≤ workers) × (workers ≤ most_workers) }
    requires rounds { (1 ≤ rounds) × (rounds ≤ most_rounds) }
{
    let Ok(ledger) = torture(
        alloc,
        rt,
        workers,
        rounds,
        seed,
        &LockStep::new(rt, workers),
    ) else {
        return false;
    };
    let others = ledger.shares().iter().skip(1);
    ledger.own().ran() < ledger.ran() && others.map(LedgerShare::ran).any(|ran| ran > 0)
}

/// Grace periods end beside the readers. If the growth was refused to the run or to a thread of it,
/// a second run is looked at.
#[test]
fn workers_hand_out_callbacks(rt: HostRuntime) {
    let found = workers_hand_out(&rt, rt.alloc(), 4, 64, 1)
        || workers_hand_out(&rt, rt.alloc(), 4, 64, 1);
    assert!(rt; found);
}

/// By this seed worker 1 goes offline in none of the 16 rounds, and sleeps in none. So it hands out
/// callbacks only if it tends its own list, and if another worker collects from its processor.
#[test]
fn a_worker_that_stays_hands_out_its_own(rt: HostRuntime) {
    let found = workers_hand_out(&rt, rt.alloc(), 2, 16, 39)
        || workers_hand_out(&rt, rt.alloc(), 2, 16, 39);
    assert!(rt; found);
}

#[test]
fn ledger_of_many_workers(rt: HostRuntime) {
    all_are_handed_out(&rt, rt.alloc(), 64, 10, 1);
}

#[test]
fn ledger_of_many_rounds(rt: HostRuntime) {
    all_are_handed_out(&rt, rt.alloc(), 2, 10_000, 1);
}

#[test]
fn ledger_of_few_rounds(rt: HostRuntime) {
    all_are_handed_out(&rt, rt.alloc(), 2, 2, 1);
    all_are_handed_out(&rt, rt.alloc(), 1, 1, 1);
    // Here a grace period runs at the end, and the second callback waits for the one after it.
    all_are_handed_out(&rt, rt.alloc(), 1, 2, 1);
}

/// Whichever growth is refused, the answer is fault 16 or the whole ledger: no share is lost.
#[test]
fn run_is_refused_or_whole(rt: HostRuntime) {
    let found = try_totals(&rt, rt.alloc(), 2, 2, 1, &Open);
    if found.is_some() {
        is_whole(&rt, found, 4);
    }
}
