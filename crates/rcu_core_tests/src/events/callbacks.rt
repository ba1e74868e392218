//! Callbacks and barriers over events, each row taken one event at a time and as a list.

use crate::events::machine::both;
use rcu_core::Event;

/// The events of [`one_callbacks_life`].
static LIFE: [Event; 11] = [
    Event::Queue(0, 7),
    Event::Run(0, 9),
    Event::Tend(0),
    Event::Begin,
    Event::Note(0),
    Event::Quiesce(0),
    Event::Deliver(1),
    Event::End,
    Event::Tend(0),
    Event::Run(0, 9),
    Event::Run(0, 9),
];

/// The replies to them.
static LIFE_REPLIES: [&str; 11] = [
    "Queued(1)",
    "Ran(ValueList { calls: [] })",
    "Tended(0, 1)",
    "Begun(1, 1)",
    "Noted(1, true)",
    "Made(1, Report { cpu: 0, tag: Tag { epoch: 0, number: 1 } })",
    "Answer(Last)",
    "Ended(4)",
    "Tended(1, 0)",
    "Ran(ValueList { calls: [Queued { ord: 1, at: Tag { epoch: 0, number: 0 }, value: 7 }] })",
    "Ran(ValueList { calls: [] })",
];

/// A callback is handed out once a full grace period has passed, and once alone.
#[test]
fn one_callbacks_life(rt: HostRuntime) {
    both(&rt, rt.alloc(), 8, &LIFE, &LIFE_REPLIES);
}

/// The events of [`turn_drives_two_periods`].
static TURNS: [Event; 13] = [
    Event::Queue(0, 1),
    Event::Tend(0),
    Event::Begin,
    Event::Queue(0, 2),
    Event::Tend(0),
    Event::Note(0),
    Event::Quiesce(0),
    Event::Deliver(1),
    Event::Turn,
    Event::Tend(0),
    Event::Run(0, 9),
    Event::Turn,
    Event::Turn,
];

/// The replies to them.
static TURNS_REPLIES: [&str; 13] = [
    "Queued(1)",
    "Tended(0, 1)",
    "Begun(1, 1)",
    "Queued(2)",
    "Tended(0, 2)",
    "Noted(1, true)",
    "Made(1, Report { cpu: 0, tag: Tag { epoch: 0, number: 1 } })",
    "Answer(Last)",
    "Ended(4)",
    "Tended(1, 1)",
    "Ran(ValueList { calls: [Queued { ord: 1, at: Tag { epoch: 0, number: 0 }, value: 1 }] })",
    "Begun(5, 1)",
    "Waiting(1)",
];

/// The number that a tended callback waits for is needed: turns end the running grace period and
/// begin the next.
#[test]
fn turn_drives_two_periods(rt: HostRuntime) {
    both(&rt, rt.alloc(), 8, &TURNS, &TURNS_REPLIES);
}

/// The events of [`migrated_callbacks_run`].
static MIGRATED: [Event; 14] = [
    Event::Online(1),
    Event::Queue(0, 1),
    Event::Queue(1, 5),
    Event::Tend(1),
    Event::Offline(1),
    Event::Tend(0),
    Event::Begin,
    Event::Note(0),
    Event::Quiesce(0),
    Event::Deliver(1),
    Event::Turn,
    Event::Run(0, 9),
    Event::Tend(0),
    Event::Run(0, 9),
];

/// The replies to them.
static MIGRATED_REPLIES: [&str; 14] = [
    "Online",
    "Queued(1)",
    "Queued(2)",
    "Tended(0, 1)",
    "Moved(1)",
    "Tended(0, 2)",
    "Begun(1, 1)",
    "Noted(1, true)",
    "Made(1, Report { cpu: 0, tag: Tag { epoch: 0, number: 1 } })",
    "Answer(Last)",
    "Ended(4)",
    "Ran(ValueList { calls: [] })",
    "Tended(2, 0)",
    "Ran(ValueList { calls: [Queued { ord: 1, at: Tag { epoch: 0, number: 0 }, value: 1 }, \
        Queued { ord: 2, at: Tag { epoch: 0, number: 0 }, value: 5 }] })",
];

/// The callbacks of a processor that departed are handed out by processor 0, after its own.
#[test]
fn migrated_callbacks_run(rt: HostRuntime) {
    both(&rt, rt.alloc(), 8, &MIGRATED, &MIGRATED_REPLIES);
}

/// The events of [`barrier_completes_after_departure`].
static DEPARTURE: [Event; 16] = [
    Event::Online(1),
    Event::Queue(1, 5),
    Event::BarBegin,
    Event::Visit(0),
    Event::Offline(1),
    Event::BarTest,
    Event::Tend(0),
    Event::Begin,
    Event::Note(0),
    Event::Quiesce(0),
    Event::Deliver(1),
    Event::End,
    Event::Tend(0),
    Event::Run(0, 1),
    Event::BarTest,
    Event::BarTest,
];

/// The replies to them.
static DEPARTURE_REPLIES: [&str; 16] = [
    "Online",
    "Queued(1)",
    "BarBegun",
    "Visited(Empty)",
    "Moved(1)",
    "BarWaits(1)",
    "Tended(0, 1)",
    "Begun(1, 1)",
    "Noted(1, true)",
    "Made(1, Report { cpu: 0, tag: Tag { epoch: 0, number: 1 } })",
    "Answer(Last)",
    "Ended(4)",
    "Tended(1, 0)",
    "Ran(ValueList { calls: [Queued { ord: 1, at: Tag { epoch: 0, number: 0 }, value: 5 }] })",
    "BarDone",
    "Fault(NoBarrier)",
];

/// A processor departs during a barrier, which waits for its callback until that is handed out.
#[test]
fn barrier_completes_after_departure(rt: HostRuntime) {
    both(&rt, rt.alloc(), 8, &DEPARTURE, &DEPARTURE_REPLIES);
}

/// The events of [`barrier_over_empty_lists`].
static EMPTY: [Event; 8] = [
    Event::BarBegin,
    Event::BarBegin,
    Event::BarTest,
    Event::Visit(0),
    Event::Visit(0),
    Event::Visit(1),
    Event::BarTest,
    Event::Visit(0),
];

/// The replies to them.
static EMPTY_REPLIES: [&str; 8] = [
    "BarBegun",
    "Fault(BarrierBusy)",
    "BarWaits(2)",
    "Visited(Empty)",
    "Visited(Already)",
    "Visited(Empty)",
    "BarDone",
    "Fault(NoBarrier)",
];

/// A barrier over empty lists is over once each processor was visited, online or not.
#[test]
fn barrier_over_empty_lists(rt: HostRuntime) {
    both(&rt, rt.alloc(), 8, &EMPTY, &EMPTY_REPLIES);
}
