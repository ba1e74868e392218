//! The barrier over empty lists and during a departure, migrated callbacks, the state after a
//! refused growth, and a million callbacks.
ghost use Rattle.std.specs.Prelude.{◌≤◌, ◌%◌, ◌^◌};

mod most;
mod rooms;
mod runs;
mod tends;

use crate::barrier::most::{fill, is_full};
use crate::made::compare;
use rcu_barrier::{BarrierState, Lists, Visit};
use rcu_cblist::Queued;
use rcu_cblist::laws::greatest_bounds_each;
use rcu_seq::{Fault, Tag};
use std::alloc::Global;
use std::process::Abort;

/// All that can be asked of a processor's list.
#[derive(Clone, Copy, Debug, PartialEq)]
struct AskedOf {
    visited: bool,
    empty: bool,
    greatest: Option<u64>,
}

/// All that can be asked of the lists of two processors.
#[derive(Clone, Copy, Debug, PartialEq)]
struct Asked {
    cpus: u32,
    queued: u64,
    running: bool,
    first: AskedOf,
    second: AskedOf,
}

/// Asks all of a processor.
fn ask_of(rt: &impl Abort, lists: &Lists<u64>, cpu: u32) -> AskedOf {
    assert!(rt; cpu < lists.cpus());
    AskedOf {
        visited: lists.is_visited(cpu),
        empty: lists.is_empty(cpu),
        greatest: lists.greatest_waiting(cpu),
    }
}

/// Asks all of the lists of two processors.
fn ask(rt: &impl Abort, lists: &Lists<u64>) -> Asked {
    Asked {
        cpus: lists.cpus(),
        queued: lists.queued(),
        running: lists.is_running(),
        first: ask_of(rt, lists, 0),
        second: ask_of(rt, lists, 1),
    }
}

/// Compares the fault of a row's call whose growth was refused, and what it left with what was
/// there.
fn refused(rt: &impl Abort, row: usize, fault: Fault, lists: &Lists<u64>, before: Asked) {
    compare(rt, row, (fault, ask(rt, lists)), (Fault::NoMemory, before));
}

/// Lists for this many processors, made by a second call if the first is refused memory.
fn lists_of(rt: &impl Abort, alloc: Global, cpus: u32) -> Lists<u64>
    requires some { 1 ≤ cpus }
    requires few { cpus ≤ 4096 }
{
    match Lists::new(alloc, cpus) {
        Ok(lists) => lists,
        Err(fault) => {
            assert_eq!(rt; fault, Fault::NoMemory);
            Lists::new(alloc, cpus).expect(rt, "the second call has memory")
        }
    }
}

/// Lists for two processors.
fn lists(rt: &impl Abort, alloc: Global) -> Lists<u64> {
    lists_of(rt, alloc, 2)
}

/// Queues a row's callback that was handed back, and compares how many were queued.
fn queue_again(
    rt: &impl Abort,
    row: usize,
    lists: &mut Lists<u64>,
    cpu: u32,
    value: u64,
    wanted: u64,
) {
    assert!(rt; cpu < lists.cpus());
    let queued = lists.queue(cpu, Tag::of_first_epoch(0), value);
    compare(rt, row, queued.map_err(|back| back.fault), Ok(wanted));
}

/// Queues a row's callback, by a second call if the first is refused memory, and compares how many
/// were queued.
fn queue(rt: &impl Abort, row: usize, lists: &mut Lists<u64>, cpu: u32, value: u64, wanted: u64) {
    let before = ask(rt, lists);
    assert!(rt; cpu < lists.cpus());
    match lists.queue(cpu, Tag::of_first_epoch(0), value) {
        Ok(count) => compare(rt, row, count, wanted),
        Err(back) => {
            refused(rt, row, back.fault, lists, before);
            compare(rt, row, back.value, value);
            queue_again(rt, row, lists, cpu, back.value, wanted);
        }
    }
    compare(rt, row, lists.queued(), wanted);
}

/// Tends a row's list: how many callbacks are done and how many wait.
fn tended(rt: &impl Abort, row: usize, lists: &mut Lists<u64>, cpu: u32, number: u64) -> (u64, u64)
    requires state { number % 4 ≤ 1 }
    requires bounded { number ≤ 2 ^ 62 }
{
    assert!(rt; cpu < lists.cpus());
    greatest_bounds_each();
    match lists.greatest_waiting(cpu) {
        None => lists.tend(cpu, number),
        Some(most) => {
            assert!(rt;
                most <= (number + 3) / 4 * 4 + 4,
                "row {row}: {most} at {number}"
            );
            lists.tend(cpu, number)
        }
    }
}

/// Tends a row's list, and compares how many callbacks are done and how many wait.
fn tend(
    rt: &impl Abort,
    row: usize,
    lists: &mut Lists<u64>,
    cpu: u32,
    number: u64,
    wanted: (u64, u64),
)
    requires state { number % 4 ≤ 1 }
    requires bounded { number ≤ 2 ^ 62 }
{
    compare(rt, row, tended(rt, row, lists, cpu, number), wanted);
}

/// Takes a row's callbacks, by a second call if the first is refused memory, and compares their
/// values.
fn run(rt: &impl Abort, row: usize, lists: &mut Lists<u64>, cpu: u32, max: u64, wanted: &[u64]) {
    have_values(rt, row, &take(rt, row, lists, cpu, max), wanted);
}

/// Compares the values of a row's callbacks.
fn have_values(rt: &impl Abort, row: usize, calls: &[Queued<u64>], wanted: &[u64]) {
    compare(rt, row, calls.len(), wanted.len());
    for (place, (call, wanted)) in calls.iter().zip(wanted).enumerate() {
        compare(rt, (row, place), call.value, *wanted);
    }
}

/// Takes a row's callbacks, by a second call if the first is refused memory.
fn take(
    rt: &impl Abort,
    row: usize,
    lists: &mut Lists<u64>,
    cpu: u32,
    max: u64,
) -> Vec<Queued<u64>> {
    let before = ask(rt, lists);
    assert!(rt; cpu < lists.cpus());
    match lists.run(cpu, max) {
        Ok(calls) => calls,
        Err(fault) => {
            refused(rt, row, fault, lists, before);
            assert!(rt; cpu < lists.cpus());
            lists.run(cpu, max).expect(rt, "the second call has memory")
        }
    }
}

/// Moves processor 1's list, by a second call if the first is refused memory, and compares how many
/// moved.
fn migrate(rt: &impl Abort, row: usize, lists: &mut Lists<u64>, wanted: u64) {
    let before = ask(rt, lists);
    let mut moved = migrate_once(rt, row, lists);
    if let Err(Fault::NoMemory) = moved {
        refused(rt, row, Fault::NoMemory, lists, before);
        moved = migrate_once(rt, row, lists);
    }
    compare(rt, row, moved, Ok(wanted));
}

/// Moves processor 1's list, which is empty then, unless that is refused: how many moved.
fn migrate_once(rt: &impl Abort, row: usize, lists: &mut Lists<u64>) -> Result<u64, Fault> {
    assert!(rt; 1 < lists.cpus());
    let moved = lists.migrate(1)?;
    assert!(rt; 1 < lists.cpus());
    assert!(rt; lists.is_empty(1), "row {row}");
    Ok(moved)
}

/// Visits a processor, by a second call if the first is refused memory, and compares the result.
fn visit(rt: &impl Abort, row: usize, lists: &mut Lists<u64>, cpu: u32, wanted: Visit) {
    let before = ask(rt, lists);
    let mut visit = visit_once(rt, row, lists, cpu);
    if let Err(Fault::NoMemory) = visit {
        refused(rt, row, Fault::NoMemory, lists, before);
        visit = visit_once(rt, row, lists, cpu);
    }
    compare(rt, row, visit, Ok(wanted));
}

/// Visits a processor, which is then visited unless that is refused, and returns the result.
fn visit_once(
    rt: &impl Abort,
    row: usize,
    lists: &mut Lists<u64>,
    cpu: u32,
) -> Result<Visit, Fault> {
    assert!(rt; cpu < lists.cpus());
    let visit = lists.visit(cpu)?;
    assert!(rt; cpu < lists.cpus());
    assert!(rt; lists.is_visited(cpu), "row {row}");
    Ok(visit)
}

/// A visit of processor 0 while no barrier runs.
fn no_visit(rt: &impl Abort, row: usize, lists: &mut Lists<u64>) {
    assert!(rt; 0 < lists.cpus());
    compare(rt, row, lists.visit(0), Err(Fault::NoBarrier));
}

/// Compares the greatest number that a callback of a processor carries.
fn carries(rt: &impl Abort, row: usize, lists: &Lists<u64>, cpu: u32, wanted: Option<u64>) {
    assert!(rt; cpu < lists.cpus());
    compare(rt, row, lists.greatest_waiting(cpu), wanted);
}

/// A call on the lists of two processors, with its expected answer, or a query.
#[derive(Drop)]
enum Step<'a> {
    /// Queues a callback on a processor: its value, and how many were queued then.
    Queue(u32, u64, u64),
    /// Tends a processor's list at a number: how many callbacks are done, and how many wait.
    Tend(u32, u64, u64, u64),
    /// Takes the numbers from what waits, on both.
    Renumber,
    /// The greatest number that a callback of a processor carries.
    Greatest(u32, Option<u64>),
    /// Takes at most this many callbacks of a processor: their values.
    Run(u32, u64, &'a [u64]),
    /// Moves processor 1's list: how many moved.
    Migrate(u64),
    /// Begins a barrier.
    Begin(Result<(), Fault>),
    /// Visits a processor.
    Visit(u32, Visit),
    /// A visit of processor 0 while no barrier runs.
    NoVisit,
    /// Tests the barrier.
    Test(Result<BarrierState, Fault>),
    /// True if a barrier runs.
    IsRunning(bool),
    /// No more callback is queued on either processor.
    Full,
}

/// Makes a row's call on the lists, or looks at them, and compares.
fn make(rt: &impl Abort, row: usize, lists: &mut Lists<u64>, step: &Step) {
    match step {
        Step::Queue(cpu, value, wanted) => queue(rt, row, lists, *cpu, *value, *wanted),
        Step::Tend(cpu, number, done, waiting) => {
            assert!(rt; *number % 4 <= 1 && *number <= 1 << 62);
            tend(rt, row, lists, *cpu, *number, (*done, *waiting));
        }
        Step::Renumber => lists.renumber(),
        Step::Greatest(cpu, wanted) => carries(rt, row, lists, *cpu, *wanted),
        Step::Run(cpu, max, wanted) => run(rt, row, lists, *cpu, *max, wanted),
        Step::Migrate(wanted) => migrate(rt, row, lists, *wanted),
        Step::Begin(wanted) => compare(rt, row, lists.barrier_begin(), *wanted),
        Step::Visit(cpu, wanted) => visit(rt, row, lists, *cpu, *wanted),
        Step::NoVisit => no_visit(rt, row, lists),
        Step::Test(wanted) => compare(rt, row, lists.barrier_test(), *wanted),
        Step::IsRunning(wanted) => compare(rt, row, lists.is_running(), *wanted),
        Step::Full => is_full(rt, row, lists),
    }
}

/// Makes the steps in turn.
fn make_each(rt: &impl Abort, lists: &mut Lists<u64>, steps: &[Step]) {
    for (row, step) in steps.iter().enumerate() {
        make(rt, row, lists, step);
    }
}

/// Makes the steps in turn, on lists that are empty at first.
fn make_all(rt: &impl Abort, alloc: Global, steps: &[Step]) {
    make_each(rt, &mut lists(rt, alloc), steps);
}

#[test]
fn barrier_over_empty_lists(rt: HostRuntime) {
    make_all(
        &rt,
        rt.alloc(),
        &[
            Step::IsRunning(false),
            Step::Begin(Ok(())),
            Step::Begin(Err(Fault::BarrierBusy)),
            Step::IsRunning(true),
            Step::Test(Ok(BarrierState::Waits(2))),
            Step::Visit(0, Visit::Empty),
            Step::Visit(0, Visit::Already),
            Step::Visit(1, Visit::Empty),
            Step::Test(Ok(BarrierState::Done)),
            Step::NoVisit,
        ],
    );
}

#[test]
fn departure_during_barrier(rt: HostRuntime) {
    make_all(
        &rt,
        rt.alloc(),
        &[
            Step::Queue(1, 5, 1),
            Step::Begin(Ok(())),
            Step::Visit(0, Visit::Empty),
            Step::Migrate(1),
            Step::Test(Ok(BarrierState::Waits(1))),
            Step::Visit(1, Visit::Already),
            Step::Tend(0, 0, 0, 1),
            Step::Tend(0, 4, 1, 0),
            Step::Run(0, 1, &[5]),
            Step::Test(Ok(BarrierState::Done)),
            Step::Test(Err(Fault::NoBarrier)),
        ],
    );
}

#[test]
fn migrated_callbacks_run(rt: HostRuntime) {
    make_all(
        &rt,
        rt.alloc(),
        &[
            Step::Queue(0, 1, 1),
            Step::Queue(1, 5, 2),
            Step::Tend(1, 0, 0, 1),
            Step::Migrate(1),
            Step::Tend(0, 0, 0, 2),
            Step::Run(0, 9, &[]),
            Step::Tend(0, 4, 2, 0),
            Step::Run(0, 9, &[1, 5]),
        ],
    );
}

#[test]
fn barrier_behind_callbacks(rt: HostRuntime) {
    make_all(
        &rt,
        rt.alloc(),
        &[
            Step::Queue(0, 6, 1),
            Step::Queue(1, 7, 2),
            Step::Begin(Ok(())),
            Step::Visit(0, Visit::Marked),
            Step::Visit(0, Visit::Already),
            Step::Visit(1, Visit::Marked),
            Step::Queue(0, 8, 3),
            Step::Test(Ok(BarrierState::Waits(2))),
            Step::Tend(0, 0, 0, 2),
            Step::Tend(1, 1, 0, 1),
            Step::Tend(1, 5, 0, 1),
            Step::Tend(1, 8, 1, 0),
            Step::Run(1, 9, &[7]),
            Step::Test(Ok(BarrierState::Waits(1))),
            Step::Tend(0, 4, 2, 0),
            Step::Run(0, 1, &[6]),
            Step::Test(Ok(BarrierState::Done)),
            Step::Run(0, 1, &[8]),
        ],
    );
}

/// Waiting callbacks lose their numbers on both processors; done ones stay, and so do the counts. A
/// barrier goes on.
#[test]
fn renumbering_during_a_barrier(rt: HostRuntime) {
    make_all(
        &rt,
        rt.alloc(),
        &[
            Step::Queue(0, 5, 1),
            Step::Tend(0, 0, 0, 1),
            Step::Tend(0, 4, 1, 0),
            Step::Queue(0, 6, 2),
            Step::Queue(1, 7, 3),
            Step::Begin(Ok(())),
            Step::Visit(0, Visit::Marked),
            Step::Tend(0, 4, 1, 1),
            Step::Tend(1, 4, 0, 1),
            Step::Greatest(0, Some(8)),
            Step::Greatest(1, Some(8)),
            Step::Renumber,
            Step::Greatest(0, None),
            Step::Greatest(1, None),
            Step::IsRunning(true),
            Step::Visit(0, Visit::Already),
            Step::Test(Ok(BarrierState::Waits(2))),
            Step::Visit(1, Visit::Marked),
            Step::Run(0, 9, &[5]),
            Step::Tend(0, 0, 0, 1),
            Step::Tend(1, 0, 0, 1),
            Step::Greatest(0, Some(4)),
            Step::Tend(0, 4, 1, 0),
            Step::Run(0, 9, &[6]),
            Step::Test(Ok(BarrierState::Waits(1))),
            Step::Tend(1, 4, 1, 0),
            Step::Run(1, 9, &[7]),
            Step::Test(Ok(BarrierState::Done)),
            Step::Queue(1, 8, 4),
        ],
    );
}

/// How many callbacks of processor 0 are taken.
fn taken(rt: &impl Abort, lists: &mut Lists<u64>, max: u64) -> Result<usize, Fault> {
    assert!(rt; 0 < lists.cpus());
    Ok(lists.run(0, max)?.len())
}

#[test]
fn a_million_callbacks(rt: HostRuntime) {
    let mut lists = lists(&rt, rt.alloc());
    fill(&rt, &mut lists);
    make_each(
        &rt,
        &mut lists,
        &[
            Step::Full,
            Step::Tend(0, 0, 0, 1_000_000),
            Step::Tend(0, 4, 1_000_000, 0),
        ],
    );
    let count = taken(&rt, &mut lists, 1_000_000);
    if count != Err(Fault::NoMemory) {
        compare(&rt, "count", count, Ok(1_000_000));
    }
    make_each(&rt, &mut lists, &[Step::Full]);
}

/// The calls that ask for no memory: none of them is refused a growth.
fn call_without_memory(rt: &impl Abort, lists: &mut Lists<u64>) {
    let tends = [
        Step::Tend(0, 0, 0, 1),
        Step::Renumber,
        Step::Tend(0, 0, 0, 1),
    ];
    make_each(rt, lists, &tends);
    compare(rt, "taken", taken(rt, lists, 9), Ok(0));
    compare(rt, "migrate", migrate_once(rt, 3, lists), Ok(0));
    make_each(rt, lists, &[Step::Tend(0, 4, 1, 0), Step::Begin(Ok(()))]);
    compare(
        rt,
        "first visit",
        visit_once(rt, 5, lists, 1),
        Ok(Visit::Empty),
    );
    compare(
        rt,
        "second visit",
        visit_once(rt, 6, lists, 1),
        Ok(Visit::Already),
    );
    make_each(rt, lists, &[Step::Test(Ok(BarrierState::Waits(1)))]);
}

#[test]
fn calls_without_memory(rt: HostRuntime) {
    let mut lists = lists(&rt, rt.alloc());
    make_each(&rt, &mut lists, &[Step::Queue(0, 5, 1)]);
    call_without_memory(&rt, &mut lists);
}

#[test]
fn sizes(rt: HostRuntime) {
    compare(
        &rt,
        "fewest processors",
        lists_of(&rt, rt.alloc(), 1).cpus(),
        1,
    );
    compare(
        &rt,
        "most processors",
        lists_of(&rt, rt.alloc(), 4096).cpus(),
        4096,
    );
}
