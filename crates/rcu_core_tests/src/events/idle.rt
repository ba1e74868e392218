//! Events of idle processors: scans, the ends of the idleness, and each fault.
use crate::events::machine::{both, core, run, takes, told_all};
use rcu_core::Event;

/// The events of [`a_sleeper_is_not_waited_for`].
static SLEEPER: [Event; 12] = [
    Event::Online(1),
    Event::Idle(1),
    Event::Enter(1),
    Event::Begin,
    Event::Scan(1),
    Event::Scan(1),
    Event::Awaits,
    Event::Scan(0),
    Event::Wake(1),
    Event::Enter(1),
    Event::Wake(1),
    Event::Idle(1),
];

/// The replies to them.
static SLEEPER_REPLIES: [&str; 12] = [
    "Online",
    "Idle",
    "Fault(CpuIdle)",
    "Begun(1, 2)",
    "Answer(Taken)",
    "Answer(Repeat)",
    "Awaits(CpuList { cpus: [0] })",
    "Fault(NotIdle)",
    "Awake",
    "Depth(1)",
    "Fault(NotIdle)",
    "Fault(InSection)",
];

/// A scan of an idle processor is a report of it with the tag of now.
#[test]
fn a_sleeper_is_not_waited_for(rt: HostRuntime) {
    both(&rt, rt.alloc(), 8, &SLEEPER, &SLEEPER_REPLIES);
}

/// The events of [`scan_of_an_idle_processor_while_none_runs`].
static NONE_RUNS: [Event; 4] = [
    Event::Idle(0),
    Event::Scan(0),
    Event::Quiesce(0),
    Event::Idle(0),
];

/// The replies to them.
static NONE_RUNS_REPLIES: [&str; 4] = ["Idle", "Answer(Stale)", "Fault(CpuIdle)", "Fault(CpuIdle)"];

#[test]
fn scan_of_an_idle_processor_while_none_runs(rt: HostRuntime) {
    both(&rt, rt.alloc(), 8, &NONE_RUNS, &NONE_RUNS_REPLIES);
}

/// The events of [`a_departure_ends_the_idleness`].
static DEPARTURE: [Event; 14] = [
    Event::Online(1),
    Event::Idle(1),
    Event::Begin,
    Event::Offline(1),
    Event::Awaits,
    Event::Scan(1),
    Event::Wake(1),
    Event::Idle(1),
    Event::Online(1),
    Event::Scan(1),
    Event::Wake(1),
    Event::Enter(1),
    Event::Exit(1),
    Event::Idle(1),
];

/// The replies to them.
static DEPARTURE_REPLIES: [&str; 14] = [
    "Online",
    "Idle",
    "Begun(1, 2)",
    "Moved(0)",
    "Awaits(CpuList { cpus: [0] })",
    "Fault(Offline)",
    "Fault(Offline)",
    "Fault(Offline)",
    "Online",
    "Fault(NotIdle)",
    "Fault(NotIdle)",
    "Depth(1)",
    "Depth(0)",
    "Idle",
];

/// An idle processor may depart, and comes back awake.
#[test]
fn a_departure_ends_the_idleness(rt: HostRuntime) {
    both(&rt, rt.alloc(), 8, &DEPARTURE, &DEPARTURE_REPLIES);
}

/// The events of [`all_else_goes_on`].
static GOES_ON: [Event; 14] = [
    Event::Idle(0),
    Event::Queue(0, 7),
    Event::Tend(0),
    Event::Turn,
    Event::Note(0),
    Event::Scan(0),
    Event::Turn,
    Event::Tend(0),
    Event::Run(0, 9),
    Event::BarBegin,
    Event::Visit(0),
    Event::Exit(0),
    Event::Wake(0),
    Event::Quiesce(0),
];

/// The replies to them.
static GOES_ON_REPLIES: [&str; 14] = [
    "Idle",
    "Queued(1)",
    "Tended(0, 1)",
    "Begun(1, 1)",
    "Noted(1, true)",
    "Answer(Last)",
    "Ended(4)",
    "Tended(1, 0)",
    "Ran(ValueList { calls: \
        [Queued { ord: 1, at: Tag { epoch: 0, number: 0 }, value: 7 }] })",
    "BarBegun",
    "Visited(Empty)",
    "Fault(NotOpen)",
    "Awake",
    "Made(1, Report { cpu: 0, tag: Tag { epoch: 0, number: 1 } })",
];

/// Callbacks, barriers and notes of an idle processor go on, here of processor 0, which can not
/// depart.
#[test]
fn all_else_goes_on(rt: HostRuntime) {
    both(&rt, rt.alloc(), 8, &GOES_ON, &GOES_ON_REPLIES);
}

/// The events of [`faults_in_their_order`].
static FAULTS: [Event; 17] = [
    Event::Idle(2),
    Event::Wake(2),
    Event::Scan(u32::MAX),
    Event::Idle(1),
    Event::Wake(1),
    Event::Scan(1),
    Event::Wake(0),
    Event::Scan(0),
    Event::Enter(0),
    Event::Idle(0),
    Event::Scan(0),
    Event::Exit(0),
    Event::Idle(0),
    Event::Idle(0),
    Event::Enter(0),
    Event::Quiesce(0),
    Event::Offline(0),
];

/// The replies to them.
static FAULTS_REPLIES: [&str; 17] = [
    "Fault(BadCpu)",
    "Fault(BadCpu)",
    "Fault(BadCpu)",
    "Fault(Offline)",
    "Fault(Offline)",
    "Fault(Offline)",
    "Fault(NotIdle)",
    "Fault(NotIdle)",
    "Depth(1)",
    "Fault(InSection)",
    "Fault(NotIdle)",
    "Depth(0)",
    "Idle",
    "Fault(CpuIdle)",
    "Fault(CpuIdle)",
    "Fault(CpuIdle)",
    "Fault(BootStays)",
];

#[test]
fn faults_in_their_order(rt: HostRuntime) {
    both(&rt, rt.alloc(), 8, &FAULTS, &FAULTS_REPLIES);
}

/// Processor 1 is heard by a report, and the replies.
static REPORTED: [(Event, &str); 5] = [
    (Event::Online(1), "Online"),
    (Event::Begin, "Begun(1, 2)"),
    (Event::Note(1), "Noted(1, true)"),
    (
        Event::Quiesce(1),
        "Made(1, Report { cpu: 1, tag: Tag { epoch: 0, number: 1 } })",
    ),
    (Event::Deliver(1), "Answer(Taken)"),
];

/// It is heard by a scan, and the replies.
static SCANNED: [(Event, &str); 4] = [
    (Event::Online(1), "Online"),
    (Event::Idle(1), "Idle"),
    (Event::Begin, "Begun(1, 2)"),
    (Event::Scan(1), "Answer(Taken)"),
];

/// The replies then, up to the end of the grace period.
static HEARD: [(Event, &str); 9] = [
    (Event::Awaits, "Awaits(CpuList { cpus: [0] })"),
    (Event::Note(1), "Noted(1, false)"),
    (Event::Turn, "Waiting(1)"),
    (Event::End, "Fault(Waiting)"),
    (Event::Poll(4, 0), "Polled(false)"),
    (Event::Idle(0), "Idle"),
    (Event::Scan(0), "Answer(Last)"),
    (Event::End, "Ended(4)"),
    (Event::Poll(4, 0), "Polled(true)"),
];

/// Two machines that heard of the same processors, one by a report and one by a scan, say the same.
#[test]
fn a_scan_is_heard_as_a_report(rt: HostRuntime) {
    let mut reported = core(&rt, rt.alloc(), 8);
    takes(&rt, rt.alloc(), &mut reported, &REPORTED);
    takes(&rt, rt.alloc(), &mut reported, &HEARD);
    let mut scanned = core(&rt, rt.alloc(), 8);
    takes(&rt, rt.alloc(), &mut scanned, &SCANNED);
    takes(&rt, rt.alloc(), &mut scanned, &HEARD);
}

/// The events of [`scans_across_epochs`], and their replies.
static EPOCHS: [(Event, &str); 11] = [
    (Event::Idle(0), "Idle"),
    (Event::Begin, "Begun(1, 1)"),
    (Event::Scan(0), "Answer(Last)"),
    (Event::End, "Ended(4)"),
    (Event::Scan(0), "Answer(Stale)"),
    (Event::Renumber, "Renumbered(1)"),
    (Event::Scan(0), "Answer(Stale)"),
    (Event::Begin, "Begun(1, 1)"),
    (Event::Scan(0), "Answer(Last)"),
    (Event::Scan(0), "Answer(Repeat)"),
    (Event::End, "Ended(4)"),
];

/// A scan is of the epoch of now, whichever the processor noted.
#[test]
fn scans_across_epochs(rt: HostRuntime) {
    let mut core = core(&rt, rt.alloc(), 4);
    takes(&rt, rt.alloc(), &mut core, &EPOCHS);
}

/// Events of idle processors take no memory: once there is room for the replies, none is refused.
#[test]
fn idle_events_without_memory(rt: HostRuntime) {
    let mut core = core(&rt, rt.alloc(), 8);
    let replies = run(&rt, &mut core, SLEEPER.split_at(6).0);
    told_all(
        &rt,
        rt.alloc(),
        replies.as_slice(),
        SLEEPER_REPLIES.split_at(6).0,
    );
}
