//! Machines of two processors, and events taken one at a time or as a list.
use crate::made::{compare, flat, refused};
use rcu_core::{Core, Event, Reply};
use rcu_node::Flat;
use rcu_seq::{Cookie, Fault};
use std::alloc::Global;
use std::process::Abort;

/// A machine of this many processors with this last number, made by a second call if the first is
/// refused memory.
pub fn core_of(rt: &impl Abort, alloc: Global, cpus: u32, last: u64) -> Core<Flat, u64> {
    match Core::new(alloc, flat(rt, alloc, cpus), last) {
        Ok(core) => core,
        Err(fault) => {
            refused(rt, fault);
            Core::new(alloc, flat(rt, alloc, cpus), last).expect(rt, "the second call has memory")
        }
    }
}

/// A machine of two processors with this last number.
pub fn core(rt: &impl Abort, alloc: Global, last: u64) -> Core<Flat, u64> {
    core_of(rt, alloc, 2, last)
}

/// The replies to events that change nothing: the cookie of a snapshot, and whether two cookies are
/// done.
#[derive(Clone, Copy, Debug, PartialEq)]
struct Asked {
    cookie: Option<Cookie>,
    first: bool,
    second: bool,
}

/// Asks all of them.
fn ask(core: &mut Core<Flat, u64>) -> Asked {
    Asked {
        cookie: cookie(core),
        first: is_done(core, 4),
        second: is_done(core, 8),
    }
}

/// The cookie of a snapshot.
fn cookie(core: &mut Core<Flat, u64>) -> Option<Cookie> {
    match core.step(Event::Take) {
        Reply::Cookie(cookie) => Some(cookie),
        _ => None,
    }
}

/// Returns whether the cookie of this number of epoch 0 is done.
fn is_done(core: &mut Core<Flat, u64>, number: u64) -> bool {
    matches!(core.step(Event::Poll(number, 0)), Reply::Polled(true))
}

/// The reply to an event. If its growth is refused, all replies to queries are as before, and it is
/// taken again.
pub fn step(rt: &impl Abort, core: &mut Core<Flat, u64>, event: Event) -> Reply {
    let before = ask(core);
    match core.step(event) {
        Reply::Fault(Fault::NoMemory) => {
            compare(rt, event, ask(core), before);
            core.step(event)
        }
        reply => reply,
    }
}

/// The replies to a list of events, which is taken again if its growth is refused.
pub fn run(rt: &impl Abort, core: &mut Core<Flat, u64>, events: &[Event]) -> Vec<Reply> {
    match core.run(events) {
        Ok(replies) => replies,
        Err(fault) => {
            refused(rt, fault);
            core.run(events).expect(rt, "the second call has memory")
        }
    }
}

/// Returns whether the growth of an event in a list was refused.
pub fn lacks_memory(replies: &[Reply]) -> bool {
    for reply in replies {
        if matches!(reply, Reply::Fault(Fault::NoMemory)) {
            return true;
        }
    }
    false
}

/// Compares the reply of a row with the text that it prints as.
fn told(rt: &impl Abort, alloc: Global, row: usize, reply: &Reply, wanted: &str) {
    let text = match format!(in alloc; "{reply:?}") {
        Ok(text) => text,
        Err(_) => format!(in alloc; "{reply:?}").expect(rt, "the second call has memory"),
    };
    compare(rt, row, text.as_str(), wanted);
}

/// Compares replies with the texts that they print as.
pub fn told_all(rt: &impl Abort, alloc: Global, replies: &[Reply], wanted: &[&str]) {
    compare(rt, "replies", replies.len(), wanted.len());
    for (row, (reply, wanted)) in replies.iter().zip(wanted).enumerate() {
        told(rt, alloc, row, reply, wanted);
    }
}

/// Takes events one at a time, and compares each reply with the text that it prints as.
pub fn takes(rt: &impl Abort, alloc: Global, core: &mut Core<Flat, u64>, rows: &[(Event, &str)]) {
    for (row, (event, wanted)) in rows.iter().enumerate() {
        told(rt, alloc, row, &step(rt, core, *event), wanted);
    }
}

/// The replies of a new machine with this last number to these events, taken one at a time.
fn stepped(rt: &impl Abort, alloc: Global, last: u64, events: &[Event]) -> Vec<Reply> {
    let mut core = core(rt, alloc, last);
    let mut replies = match Vec::with_capacity(alloc, events.len()) {
        Ok(replies) => replies,
        Err(_) => {
            refused(rt, Fault::NoMemory);
            Vec::with_capacity(alloc, events.len()).expect(rt, "the second call has memory")
        }
    };
    for event in events {
        let reply = step(rt, &mut core, *event);
        replies.push(reply).expect(rt, "there is room");
    }
    replies
}

/// The replies of a new machine with this last number to these events as one list, by a second
/// machine if an event is refused its growth.
fn ran(rt: &impl Abort, alloc: Global, last: u64, events: &[Event]) -> Vec<Reply> {
    let mut first = core(rt, alloc, last);
    let replies = run(rt, &mut first, events);
    if !lacks_memory(replies.as_slice()) {
        return replies;
    }
    refused(rt, Fault::NoMemory);
    let mut second = core(rt, alloc, last);
    run(rt, &mut second, events)
}

/// Takes events one at a time and as a list, each by a new machine, and compares the replies with
/// the texts that they print as.
pub fn both(rt: &impl Abort, alloc: Global, last: u64, events: &[Event], wanted: &[&str]) {
    told_all(
        rt,
        alloc,
        stepped(rt, alloc, last, events).as_slice(),
        wanted,
    );
    told_all(rt, alloc, ran(rt, alloc, last, events).as_slice(), wanted);
}
