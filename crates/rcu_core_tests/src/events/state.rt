//! Calls of the state of the grace periods whose growth is refused: each leaves all as it was, and
//! the same call again answers as if it had not been.

mod rooms;

use crate::made::{compare, flat, refused};
use rcu_barrier::{BarrierState, Visit};
use rcu_core::gp_state::{GpState, Turned};
use rcu_node::{Answer, Awaited, Flat};
use rcu_seq::{Cookie, Fault, Tag};
use std::alloc::Global;
use std::process::Abort;

type State = GpState<Flat, u64>;

/// All that can be asked of a processor.
#[derive(Clone, Copy, Debug, PartialEq)]
struct AskedOf {
    online: bool,
    list_empty: bool,
    awaited: bool,
}

/// All that can be asked of a state of two processors.
#[derive(Clone, Copy, Debug, PartialEq)]
struct Asked {
    tag: Tag,
    running: bool,
    wants_begin: bool,
    cookie: Cookie,
    first: AskedOf,
    second: AskedOf,
}

/// A state of two processors with this last number, made by a second call if the first is refused
/// memory.
fn state(rt: &impl Abort, alloc: Global, last: u64) -> State {
    match GpState::new(alloc, flat(rt, alloc, 2), last) {
        Ok(state) => state,
        Err(fault) => {
            refused(rt, fault);
            GpState::new(alloc, flat(rt, alloc, 2), last).expect(rt, "the second call has memory")
        }
    }
}

/// Asks all of a processor.
fn ask_of(rt: &impl Abort, state: &State, cpu: u32) -> AskedOf {
    assert!(rt; cpu < state.cpus());
    let awaited = state.awaited();
    assert!(rt; cpu < awaited.cpus());
    AskedOf {
        online: state.online(cpu),
        list_empty: state.is_list_empty(cpu),
        awaited: awaited.awaits(cpu),
    }
}

/// Asks all of a state of two processors.
fn ask(rt: &impl Abort, state: &State) -> Asked {
    Asked {
        tag: state.tag(),
        running: state.is_running(),
        wants_begin: state.wants_begin(),
        cookie: state.take(),
        first: ask_of(rt, state, 0),
        second: ask_of(rt, state, 1),
    }
}

/// Compares the fault of a call whose growth was refused, and what it left with what was there.
fn left(rt: &impl Abort, fault: Fault, state: &State, before: Asked) {
    refused(rt, fault);
    compare(rt, "what it left", ask(rt, state), before);
}

/// Queues a callback, by a second call if the first is refused memory.
fn queue(rt: &impl Abort, state: &mut State, cpu: u32, value: u64, wanted: u64) {
    let before = ask(rt, state);
    assert!(rt; cpu < state.cpus());
    match state.queue(cpu, value) {
        Ok(count) => compare(rt, (cpu, value), count, wanted),
        Err(back) => {
            left(rt, back.fault, state, before);
            compare(rt, "what it hands back", back.value, value);
            assert!(rt; cpu < state.cpus());
            let again = state.queue(cpu, back.value).map_err(|back| back.fault);
            compare(rt, (cpu, value), again, Ok(wanted));
        }
    }
}

/// Visits a processor, by a second call if the first is refused memory.
fn visit(rt: &impl Abort, state: &mut State, cpu: u32) {
    let before = ask(rt, state);
    assert!(rt; cpu < state.cpus());
    match state.visit(cpu) {
        Ok(visit) => compare(rt, cpu, visit, Visit::Marked),
        Err(fault) => {
            left(rt, fault, state, before);
            assert!(rt; cpu < state.cpus());
            compare(rt, cpu, state.visit(cpu), Ok(Visit::Marked));
        }
    }
}

/// Moves processor 1's list, by a second call if the first is refused memory.
fn migrate(rt: &impl Abort, state: &mut State, wanted: u64) {
    let before = ask(rt, state);
    assert!(rt; 1 < state.cpus());
    match state.migrate(1) {
        Ok(moved) => assert_eq!(rt; moved, wanted),
        Err(fault) => {
            left(rt, fault, state, before);
            assert!(rt; 1 < state.cpus());
            compare(rt, "migrate, the second time", state.migrate(1), Ok(wanted));
        }
    }
}

/// Runs processor 0's callbacks, by a second call if the first is refused memory.
fn run(rt: &impl Abort, state: &mut State, wanted: usize) {
    let before = ask(rt, state);
    assert!(rt; 0 < state.cpus());
    let calls = match state.run(0, 9) {
        Ok(calls) => calls,
        Err(fault) => {
            left(rt, fault, state, before);
            assert!(rt; 0 < state.cpus());
            state.run(0, 9).expect(rt, "the second call has memory")
        }
    };
    compare(rt, "run", calls.len(), wanted);
}

/// Tends processor 0's list, and compares how many callbacks are done and how many wait.
fn tend(rt: &impl Abort, state: &mut State, wanted: (u64, u64)) {
    assert!(rt; 0 < state.cpus());
    compare(rt, "tend", state.tend(0), wanted);
}

/// Makes a turn, and compares the answer.
fn turns(rt: &impl Abort, state: &mut State, wanted: Turned) {
    compare(rt, "turn", state.turn(), Ok(wanted));
}

/// Compares how far the barrier is.
fn barrier_is(rt: &impl Abort, state: &mut State, wanted: BarrierState) {
    compare(rt, "barrier_test", state.barrier_test(), Ok(wanted));
}

/// Queues callbacks on both processors; one departs during a barrier, which waits for its list.
fn departs(rt: &impl Abort, state: &mut State) {
    compare(rt, "arrive", state.arrive(1), Ok(()));
    queue(rt, state, 0, 5, 1);
    queue(rt, state, 1, 6, 2);
    queue(rt, state, 1, 7, 3);
    compare(rt, "barrier_begin", state.barrier_begin(), Ok(()));
    visit(rt, state, 0);
    migrate(rt, state, 2);
    barrier_is(rt, state, BarrierState::Waits(2));
    compare(rt, "depart", state.depart(1), Ok(()));
}

/// A grace period, which the three callbacks wait for, begins, is reported and ends.
fn passes(rt: &impl Abort, state: &mut State) {
    tend(rt, state, (0, 3));
    turns(rt, state, Turned::Begun(1, 1));
    assert!(rt; 0 < state.cpus());
    compare(rt, "report_now", state.report_now(0), Answer::Last);
    turns(rt, state, Turned::Ended(4));
    tend(rt, state, (3, 0));
}

/// Hands out the callbacks, and the barrier is over.
fn is_over(rt: &impl Abort, state: &mut State) {
    run(rt, state, 3);
    barrier_is(rt, state, BarrierState::Done);
}

#[test]
fn refused_calls_leave_all_as_it_was(rt: HostRuntime) {
    let mut state = state(&rt, rt.alloc(), 8);
    departs(&rt, &mut state);
    passes(&rt, &mut state);
    is_over(&rt, &mut state);
}

/// A renumbering is refused by this fault, and changes nothing.
fn stays(rt: &impl Abort, state: &mut State, wanted: Fault) {
    let before = ask(rt, state);
    compare(rt, "renumber", state.renumber(), Err(wanted));
    compare(rt, "what it left", ask(rt, state), before);
}

/// Renumbers into this epoch; compares whether a grace period is needed.
fn starts_anew(rt: &impl Abort, state: &mut State, epoch: u64, needed: bool) {
    compare(rt, "renumber", state.renumber(), Ok(epoch));
    let found = (state.tag(), state.value(), state.wants_begin());
    compare(
        rt,
        "tag, number, and whether one is needed",
        found,
        (Tag { epoch, number: 0 }, 0, needed),
    );
}

/// A turn begins a grace period that is needed, and its end is all that was needed.
fn turn_ends_one(rt: &impl Abort, state: &mut State) {
    turns(rt, state, Turned::Begun(1, 1));
    stays(rt, state, Fault::Running);
    assert!(rt; 0 < state.cpus());
    compare(rt, "report_now", state.report_now(0), Answer::Last);
    turns(rt, state, Turned::Ended(4));
    turns(rt, state, Turned::Nothing);
}

/// A needed number above the last one becomes 4, and any other 0.
#[test]
fn needed_numbers_across_epochs(rt: HostRuntime) {
    let mut state = state(&rt, rt.alloc(), 4);
    stays(&rt, &mut state, Fault::NotLast);
    state.start_poll();
    turn_ends_one(&rt, &mut state);
    state.start_poll();
    compare(&rt, "turn", state.turn(), Err(Fault::Exhausted));
    starts_anew(&rt, &mut state, 1, true);
    turn_ends_one(&rt, &mut state);
    starts_anew(&rt, &mut state, 2, false);
    turns(&rt, &mut state, Turned::Nothing);
}

/// Returns the answer of the first begin, or the fault of opening a state with this last number.
fn first_begin(rt: &impl Abort, alloc: Global, last: u64) -> Result<(u64, u32), Fault> {
    GpState::<Flat, u64>::new(alloc, flat(rt, alloc, 2), last)?.begin()
}

/// A state opens with this last number, and begins.
fn opens(rt: &impl Abort, alloc: Global, last: u64) {
    match first_begin(rt, alloc, last) {
        Ok(begun) => compare(rt, last, begun, (1, 1)),
        Err(fault) => refused(rt, fault),
    }
}

/// No state opens, since this is no last number.
fn refuses(rt: &impl Abort, alloc: Global, last: u64) {
    let found = first_begin(rt, alloc, last);
    compare(rt, last, found, Err(Fault::BadLast));
}

/// States open with the least and the greatest last number, and with none beyond.
#[test]
fn last_numbers(rt: HostRuntime) {
    opens(&rt, rt.alloc(), 4);
    opens(&rt, rt.alloc(), 1 << 62);
    refuses(&rt, rt.alloc(), 0);
    refuses(&rt, rt.alloc(), 6);
    refuses(&rt, rt.alloc(), (1 << 62) + 4);
}

/// Compares the size of a state.
fn has_size(rt: &impl Abort, state: &mut State, cpus: u32) {
    compare(rt, "cpus", state.cpus(), cpus);
    compare(rt, "arrive", state.arrive(cpus), Err(Fault::BadCpu));
}

/// Opens a state of this many processors.
fn opens_with(rt: &impl Abort, alloc: Global, cpus: u32) {
    match GpState::new(alloc, flat(rt, alloc, cpus), 8) {
        Ok(mut state) => has_size(rt, &mut state, cpus),
        Err(fault) => refused(rt, fault),
    }
}

#[test]
fn sizes(rt: HostRuntime) {
    opens_with(&rt, rt.alloc(), 1);
    opens_with(&rt, rt.alloc(), 4096);
}
