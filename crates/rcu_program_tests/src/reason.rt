//! The messages on standard error for a run that stopped.

use rcu_command::{Order, Reason};
use rcu_script::{RunFault, Setup};
use rcu_seq::Fault;
use std::alloc::Global;
use std::process::Abort;

const SETUP: Setup = Setup {
    leaf: 2,
    inner: 3,
    leaf2: 4,
    inner2: 5,
    cpus: 0,
    last: 6,
};

const SCRIPT: Order = Order::Script(SETUP);

const PAIR: Order = Order::Pair(SETUP);

/// Compares what is said of a fault.
fn says(rt: &impl Abort, alloc: Global, order: &Order, fault: &RunFault, words: &str) {
    let reason = Reason { order, fault };
    let text = match format!(in alloc; "{reason}") {
        Ok(text) => text,
        Err(_) => format!(in alloc; "{reason}").expect(rt, "the second call has memory"),
    };
    assert_eq!(rt; text.as_str(), words);
}

/// The same of each of these.
fn say(rt: &impl Abort, alloc: Global, rows: &[(Order, RunFault, &str)]) {
    for (order, fault, words) in rows {
        says(rt, alloc, order, fault, words);
    }
}

static REFUSED: [(Order, RunFault, &str); 4] = [
    (
        SCRIPT,
        RunFault::Open(Fault::BadFanout),
        "rcu: these fanouts are not offered (--leaf 2 --inner 3)",
    ),
    (
        PAIR,
        RunFault::Open(Fault::BadFanout),
        "rcu: these fanouts are not offered (--leaf 2 --inner 3 --leaf2 4 --inner2 5)",
    ),
    (
        SCRIPT,
        RunFault::Open(Fault::TooManyCpus),
        "rcu: there is no processor, or there are more than the engine holds \
            (--leaf 2 --inner 3 --cpus 0)",
    ),
    (
        PAIR,
        RunFault::Open(Fault::BadLast),
        "rcu: the last number is not a multiple of 4 from 4 to 2^62 (--last 6)",
    ),
];

#[test]
fn a_refused_opening_names_its_options(rt: HostRuntime) {
    say(&rt, rt.alloc(), &REFUSED);
}

static WANTING: [(Order, RunFault, &str); 2] = [
    (
        SCRIPT,
        RunFault::Open(Fault::NoMemory),
        "rcu: out of memory",
    ),
    (
        Order::Torture(1, 1, 1),
        RunFault::Open(Fault::NoMemory),
        "rcu: out of memory",
    ),
];

#[test]
fn want_of_memory_names_no_option(rt: HostRuntime) {
    say(&rt, rt.alloc(), &WANTING);
}

static FAILED: [(Order, RunFault, &str); 2] = [
    (SCRIPT, RunFault::Read, "rcu: read failed"),
    (SCRIPT, RunFault::Write, "rcu: write failed"),
];

#[test]
fn a_failed_stream_is_named(rt: HostRuntime) {
    say(&rt, rt.alloc(), &FAILED);
}
