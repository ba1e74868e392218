//! The machine over events: one after another, and all of a list.
use crate::events::machine::{core, core_of, lacks_memory, run, takes, told_all};
use crate::made::{compare, flat};
use rcu_core::{Core, Event};
use rcu_seq::Fault;
use std::alloc::Global;
use std::process::Abort;

/// The events of [`open_section_blocks`], and their replies.
static SECTION: [(Event, &str); 10] = [
    (Event::Online(1), "Online"),
    (Event::Enter(1), "Depth(1)"),
    (Event::Take, "Cookie(Cookie { epoch: 0, number: 4 })"),
    (Event::Begin, "Begun(1, 2)"),
    (Event::Quiesce(1), "Fault(InSection)"),
    (Event::Offline(1), "Fault(InSection)"),
    (Event::Exit(1), "Depth(0)"),
    (Event::Poll(4, 0), "Polled(false)"),
    (Event::Offline(1), "Moved(0)"),
    (Event::End, "Fault(Waiting)"),
];

/// A reader blocks the grace period that began after it, and its cookie.
#[test]
fn open_section_blocks(rt: HostRuntime) {
    let mut core = core(&rt, rt.alloc(), 8);
    takes(&rt, rt.alloc(), &mut core, &SECTION);
}

/// The events of [`turns_drive_a_grace_period`], and their replies.
static TURNS: [(Event, &str); 11] = [
    (Event::Turn, "Nothing"),
    (Event::StartPoll, "Cookie(Cookie { epoch: 0, number: 4 })"),
    (Event::Turn, "Begun(1, 1)"),
    (Event::Turn, "Waiting(1)"),
    (Event::Note(0), "Noted(1, true)"),
    (
        Event::Quiesce(0),
        "Made(1, Report { cpu: 0, tag: Tag { epoch: 0, number: 1 } })",
    ),
    (Event::Deliver(1), "Answer(Last)"),
    (Event::Turn, "Ended(4)"),
    (Event::Poll(4, 0), "Polled(true)"),
    (Event::StartPoll, "Cookie(Cookie { epoch: 0, number: 8 })"),
    (Event::Turn, "Fault(Exhausted)"),
];

/// Turns begin what is needed, wait, and end.
#[test]
fn turns_drive_a_grace_period(rt: HostRuntime) {
    let mut core = core(&rt, rt.alloc(), 4);
    takes(&rt, rt.alloc(), &mut core, &TURNS);
}

/// The replies to a run whose growths are made.
static RUN: [&str; 7] = [
    "Begun(1, 1)",
    "Online",
    "Noted(1, true)",
    "Made(1, Report { cpu: 0, tag: Tag { epoch: 0, number: 1 } })",
    "Answer(Last)",
    "Ended(4)",
    "Fault(NotOpen)",
];

/// The replies to the same run if the growth of a report is refused.
static RUN_WITHOUT_MEMORY: [&str; 7] = [
    "Begun(1, 1)",
    "Online",
    "Noted(1, true)",
    "Fault(NoMemory)",
    "Fault(NoReport)",
    "Fault(Waiting)",
    "Fault(NotOpen)",
];

/// A list of events gets the replies that single steps get. (Of two growths in one list the second
/// is not made again.)
#[test]
fn a_run_replies_as_its_steps(rt: HostRuntime) {
    let mut core = core(&rt, rt.alloc(), 8);
    let replies = run(
        &rt,
        &mut core,
        &[
            Event::Begin,
            Event::Online(1),
            Event::Note(0),
            Event::Quiesce(0),
            Event::Deliver(1),
            Event::End,
            Event::Exit(1),
        ],
    );
    let wanted = if lacks_memory(replies.as_slice()) {
        &RUN_WITHOUT_MEMORY
    } else {
        &RUN
    };
    told_all(&rt, rt.alloc(), replies.as_slice(), wanted.as_slice());
}

/// The events of [`refused_events_change_nothing`], and their replies.
static STORING: [(Event, &str); 11] = [
    (Event::Online(1), "Online"),
    (Event::Queue(1, 7), "Queued(1)"),
    (Event::Queue(1, 8), "Queued(2)"),
    (Event::Begin, "Begun(1, 2)"),
    (Event::Awaits, "Awaits(CpuList { cpus: [0, 1] })"),
    (
        Event::Quiesce(1),
        "Made(1, Report { cpu: 1, tag: Tag { epoch: 0, number: 0 } })",
    ),
    (Event::BarBegin, "BarBegun"),
    (Event::Visit(1), "Visited(Marked)"),
    (Event::Offline(1), "Moved(2)"),
    (Event::BarTest, "BarWaits(2)"),
    (Event::Awaits, "Awaits(CpuList { cpus: [0] })"),
];

/// Each event that stores something. After an event that was refused its growth, the later ones,
/// itself first, are answered as if that refused event had not come.
#[test]
fn refused_events_change_nothing(rt: HostRuntime) {
    let mut core = core(&rt, rt.alloc(), 8);
    takes(&rt, rt.alloc(), &mut core, &STORING);
}

/// No machine opens, since this is no last number.
fn refuses(rt: &impl Abort, alloc: Global, last: u64) {
    let opened = Core::<_, u64>::new(alloc, flat(rt, alloc, 2), last);
    compare(rt, last, opened.err(), Some(Fault::BadLast));
}

/// A machine opens with this last number, and begins.
fn opens(rt: &impl Abort, alloc: Global, last: u64) {
    let mut core = core(rt, alloc, last);
    takes(rt, alloc, &mut core, &[(Event::Begin, "Begun(1, 1)")]);
}

/// Machines open with the least and the greatest last number, and with none beyond.
#[test]
fn last_numbers(rt: HostRuntime) {
    opens(&rt, rt.alloc(), 4);
    opens(&rt, rt.alloc(), 1 << 62);
    refuses(&rt, rt.alloc(), 0);
    refuses(&rt, rt.alloc(), 6);
    refuses(&rt, rt.alloc(), (1 << 62) + 4);
    refuses(&rt, rt.alloc(), u64::MAX);
}

/// Notes the processor after the last, which there is not, and the last, with this reply.
fn notes_last(rt: &impl Abort, alloc: Global, cpus: u32, reply_of_last: &str) {
    let mut core = core_of(rt, alloc, cpus, 8);
    takes(
        rt,
        alloc,
        &mut core,
        &[
            (Event::Note(cpus), "Fault(BadCpu)"),
            (Event::Note(cpus.saturating_sub(1)), reply_of_last),
        ],
    );
}

#[test]
fn sizes(rt: HostRuntime) {
    notes_last(&rt, rt.alloc(), 1, "Noted(0, false)");
    notes_last(&rt, rt.alloc(), 4096, "Fault(Offline)");
}

/// Events that take no memory.
static WITHOUT_MEMORY: [Event; 21] = [
    Event::Online(1),
    Event::Enter(1),
    Event::Exit(1),
    Event::Note(1),
    Event::Take,
    Event::StartPoll,
    Event::Poll(4, 0),
    Event::Awaits,
    Event::Run(0, 9),
    Event::Tend(0),
    Event::BarBegin,
    Event::Visit(0),
    Event::Visit(0),
    Event::BarTest,
    Event::Turn,
    Event::Offline(1),
    Event::Deliver(1),
    Event::Turn,
    Event::End,
    Event::Begin,
    Event::BarTest,
];

/// The replies to them.
static REPLIES_WITHOUT_MEMORY: [&str; 21] = [
    "Online",
    "Depth(1)",
    "Depth(0)",
    "Noted(0, false)",
    "Cookie(Cookie { epoch: 0, number: 4 })",
    "Cookie(Cookie { epoch: 0, number: 4 })",
    "Polled(false)",
    "Awaits(CpuList { cpus: [] })",
    "Ran(ValueList { calls: [] })",
    "Tended(0, 0)",
    "BarBegun",
    "Visited(Empty)",
    "Visited(Already)",
    "BarWaits(1)",
    "Begun(1, 2)",
    "Moved(0)",
    "Fault(NoReport)",
    "Waiting(1)",
    "Fault(Waiting)",
    "Fault(Running)",
    "BarDone",
];

/// No event of the list takes memory: once there is room for the replies, none is refused.
#[test]
fn events_without_memory(rt: HostRuntime) {
    let mut core = core(&rt, rt.alloc(), 8);
    let replies = run(&rt, &mut core, WITHOUT_MEMORY.as_slice());
    told_all(
        &rt,
        rt.alloc(),
        replies.as_slice(),
        REPLIES_WITHOUT_MEMORY.as_slice(),
    );
}
