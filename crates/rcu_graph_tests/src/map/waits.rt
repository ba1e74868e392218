//! Entries that wait for a free node: by a script on one thread, and by several threads.
mod caller;
mod locked;
mod sleeps;
mod threads;

use crate::compare::compare;
use crate::map::route::Route;
use crate::map::waits::caller::{Alone, Shared, WaitingCaller};
use crate::map::{Control, Routes};
use rcu_map::Put::{Insert, Replace, Upsert};
use rcu_map::{NotPut, Put};
use rcu_seq::Fault;
use std::alloc::Global;
use std::process::Abort;
use std::sync::Wait;

/// A call, with the network and the port that it is given, and which port it returns.
#[derive(Clone, Copy)]
enum Call {
    Put(Put, u32, u32, Result<Option<u32>, NotPut>),
    Remove(u32, Option<u32>),
    Enter,
    Exit,
}

/// Makes a row's call, and compares what it returns.
fn make<R: Abort + Wait, C: WaitingCaller>(rt: &R, caller: &mut C, row: usize, call: Call) {
    match call {
        Call::Put(how, network, port, wanted) => {
            if let Some(route) = Route::to(network, port) {
                let found = caller.put(rt, how, route);
                let found = found.map(|old| old.map(|route| route.port));
                compare(rt, row, found, wanted);
            }
        }
        Call::Remove(network, wanted) => {
            let found = caller.remove(rt, u64::from(network));
            compare(rt, row, found.map(|route| route.port), wanted);
        }
        Call::Enter => compare(rt, row, caller.enter(), Ok(1)),
        Call::Exit => compare(rt, row, caller.exit(), Ok(0)),
    }
}

/// Makes the calls in their order. Compares the routes to the networks 1 to 4 in the end: a port of
/// 0 is none.
fn make_all<R: Abort + Wait, C: WaitingCaller>(
    rt: &R,
    caller: &mut C,
    calls: &[Call],
    ports: [u32; 4],
) {
    for (row, call) in calls.iter().enumerate() {
        make(rt, caller, row, *call);
    }
    for (network, port) in (1..=4u64).zip(ports) {
        let found = caller.get(rt, network).map(|route| route.port);
        compare(rt, network, found.unwrap_or(0), port);
    }
}

/// The writer of a map makes the calls, up to this last number: of two routes at most, in one
/// bucket.
fn makes<R: Abort + Wait>(rt: &R, alloc: Global, last: u64, calls: &[Call], ports: [u32; 4]) {
    let Ok(mut opened) = Routes::open(alloc, 1, last, 1, 2, 0) else {
        return;
    };
    let mut caller = Alone {
        writer: opened.writer,
        seat: opened.seats.pop().unwrap(),
        live: &opened.live,
    };
    make_all(rt, &mut caller, calls, ports);
}

/// An updater of such a map makes them.
fn shared_makes<R: Abort + Wait>(
    rt: &R,
    alloc: Global,
    last: u64,
    calls: &[Call],
    ports: [u32; 4],
) {
    let Ok(mut opened) = Routes::open(alloc, 1, last, 1, 2, 0) else {
        return;
    };
    let mut caller = Shared {
        updater: Control::new(opened.writer),
        seat: opened.seats.pop().unwrap(),
        live: &opened.live,
    };
    make_all(rt, &mut caller, calls, ports);
}

/// A map that is full, and one that is not: each way to put a route in: one that is one too many,
/// one that needs a node, and one that does not.
static FULL: [Call; 23] = [
    Call::Put(Replace, 1, 1, Ok(None)),
    Call::Put(Insert, 1, 1, Ok(None)),
    Call::Put(Upsert, 2, 2, Ok(None)),
    Call::Put(Insert, 3, 3, Err(NotPut::Full)),
    Call::Put(Insert, 2, 4, Ok(Some(2))),
    Call::Put(Replace, 2, 4, Ok(Some(2))),
    Call::Put(Upsert, 2, 5, Ok(Some(4))),
    Call::Put(Insert, 3, 6, Err(NotPut::Full)),
    Call::Put(Upsert, 3, 6, Err(NotPut::Full)),
    Call::Put(Replace, 3, 6, Ok(None)),
    Call::Remove(1, Some(1)),
    Call::Put(Insert, 2, 6, Ok(Some(5))),
    Call::Put(Replace, 1, 6, Ok(None)),
    Call::Put(Insert, 3, 6, Ok(None)),
    Call::Put(Insert, 4, 7, Err(NotPut::Full)),
    Call::Remove(2, Some(5)),
    Call::Put(Replace, 3, 8, Ok(Some(6))),
    Call::Put(Upsert, 3, 9, Ok(Some(8))),
    Call::Put(Upsert, 1, 10, Ok(None)),
    Call::Put(Replace, 3, 11, Ok(Some(9))),
    Call::Put(Upsert, 4, 12, Err(NotPut::Full)),
    Call::Remove(1, Some(10)),
    Call::Put(Insert, 4, 13, Ok(None)),
];

#[test]
fn entries_wait_if_they_are_not_one_too_many(rt: HostRuntime) {
    makes(&rt, rt.alloc(), 4_000, &FULL, [0, 0, 11, 13]);
}

/// If the call put in another way, gave up, or said that the map is full while a node may become
/// free, a row would differ. If it drove no grace period, or never looked at the number, it would
/// not return.
#[test]
fn updater_waits_if_an_entry_is_not_one_too_many(rt: HostRuntime) {
    shared_makes(&rt, rt.alloc(), 4_000, &FULL, [0, 0, 11, 13]);
}

/// In a section no call is made, whether a node is free or not.
static IN_A_SECTION: [Call; 12] = [
    Call::Enter,
    Call::Put(Insert, 1, 1, Err(NotPut::Fault(Fault::InSection))),
    Call::Exit,
    Call::Put(Insert, 1, 2, Ok(None)),
    Call::Put(Insert, 2, 3, Ok(None)),
    Call::Enter,
    Call::Put(Upsert, 3, 4, Err(NotPut::Fault(Fault::InSection))),
    Call::Put(Insert, 1, 4, Err(NotPut::Fault(Fault::InSection))),
    Call::Put(Replace, 1, 4, Err(NotPut::Fault(Fault::InSection))),
    Call::Exit,
    Call::Remove(1, Some(2)),
    Call::Put(Insert, 3, 5, Ok(None)),
];

#[test]
fn no_entry_waits_in_a_section(rt: HostRuntime) {
    makes(&rt, rt.alloc(), 4_000, &IN_A_SECTION, [0, 3, 5, 0]);
}

#[test]
fn no_updater_waits_in_a_section(rt: HostRuntime) {
    shared_makes(&rt, rt.alloc(), 4_000, &IN_A_SECTION, [0, 3, 5, 0]);
}

/// A grace period passes, and then no other one: what needs a node is refused from then on.
static LAST_NUMBER: [Call; 16] = [
    Call::Put(Insert, 1, 1, Ok(None)),
    Call::Put(Insert, 2, 2, Ok(None)),
    Call::Put(Replace, 1, 3, Ok(Some(1))),
    Call::Remove(1, Some(3)),
    Call::Put(Insert, 3, 4, Ok(None)),
    Call::Remove(2, Some(2)),
    Call::Put(Insert, 4, 5, Ok(None)),
    Call::Put(Replace, 3, 6, Err(NotPut::Fault(Fault::Exhausted))),
    Call::Put(Upsert, 3, 6, Err(NotPut::Fault(Fault::Exhausted))),
    Call::Put(Insert, 3, 6, Ok(Some(4))),
    Call::Put(Insert, 1, 6, Err(NotPut::Full)),
    Call::Put(Replace, 1, 6, Ok(None)),
    Call::Remove(4, Some(5)),
    Call::Put(Insert, 4, 6, Err(NotPut::Fault(Fault::Exhausted))),
    Call::Put(Upsert, 4, 6, Err(NotPut::Fault(Fault::Exhausted))),
    Call::Remove(4, None),
];

#[test]
fn entries_wait_up_to_the_last_number(rt: HostRuntime) {
    makes(&rt, rt.alloc(), 4, &LAST_NUMBER, [0, 0, 4, 0]);
}

#[test]
fn updater_waits_up_to_the_last_number(rt: HostRuntime) {
    shared_makes(&rt, rt.alloc(), 4, &LAST_NUMBER, [0, 0, 4, 0]);
}
