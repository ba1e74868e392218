//! A list of processors and a list of values, read.

use crate::made::compare;
use rcu_cblist::Queued;
use rcu_core::{CpuList, ValueList};
use rcu_seq::Tag;
use std::alloc::Global;
use std::process::Abort;

/// These three processors, in room made by a second call if the first is refused memory.
fn three(rt: &impl Abort, alloc: Global) -> Vec<u32> {
    match Vec::from_slice(alloc, &[3, 0, 4095]) {
        Ok(cpus) => cpus,
        Err(_) => Vec::from_slice(alloc, &[3, 0, 4095]).expect(rt, "the second call has memory"),
    }
}

#[test]
fn processors_stay_in_order(rt: HostRuntime) {
    let none = CpuList::new(Vec::new(rt.alloc()));
    assert!(rt; none.as_slice().is_empty());
    let list = CpuList::new(three(&rt, rt.alloc()));
    compare(&rt, "list", list.as_slice(), [3, 0, 4095].as_slice());
}

/// Callbacks of the values 1 and 5, in room made by a second call if the first is refused memory.
fn calls(rt: &impl Abort, alloc: Global) -> Vec<Queued<u64>> {
    let mut calls = match Vec::with_capacity(alloc, 2) {
        Ok(calls) => calls,
        Err(_) => Vec::with_capacity(alloc, 2).expect(rt, "the second call has memory"),
    };
    put(rt, &mut calls, 1, 1);
    put(rt, &mut calls, 2, 5);
    calls
}

/// Puts a callback behind, for which there is room.
fn put(rt: &impl Abort, calls: &mut Vec<Queued<u64>>, ord: u64, value: u64) {
    let call = Queued {
        ord,
        at: Tag::of_first_epoch(0),
        value,
    };
    calls.push(call).expect(rt, "there is room");
}

/// Compares the values of a list, in order.
fn has_values(rt: &impl Abort, list: &ValueList, wanted: &[u64]) {
    compare(rt, "is_empty", list.is_empty(), wanted.is_empty());
    assert_eq!(rt; list.len(), wanted.len());
    for place in 0..list.len() {
        compare(rt, place, list.value(place), wanted[place]);
    }
}

#[test]
fn values_stay_in_order(rt: HostRuntime) {
    let none = ValueList::new(Vec::new(rt.alloc()));
    has_values(&rt, &none, &[]);
    let both = ValueList::new(calls(&rt, rt.alloc()));
    has_values(&rt, &both, &[1, 5]);
}
