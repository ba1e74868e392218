//! Events across renumberings: cookies, callbacks, memory, and each two places of a path.
use crate::events::machine::{both, core, run, step, takes, told_all};
use crate::made::compare;
use crate::path::{Since, Turn, steps, turn_at};
use rcu_core::{Core, Event, Reply};
use rcu_node::Flat;
use rcu_seq::Cookie;
use std::alloc::Global;
use std::process::Abort;

/// The events of [`cookies_across_epochs`].
static COOKIES: [Event; 21] = [
    Event::Renumber,
    Event::Begin,
    Event::Note(0),
    Event::Quiesce(0),
    Event::Deliver(1),
    Event::End,
    Event::Take,
    Event::Begin,
    Event::Renumber,
    Event::Poll(8, 0),
    Event::Poll(4, 0),
    Event::Take,
    Event::Begin,
    Event::Deliver(1),
    Event::Poll(4, 1),
    Event::Note(0),
    Event::Quiesce(0),
    Event::Deliver(2),
    Event::End,
    Event::Poll(8, 0),
    Event::Poll(4, 1),
];

/// The replies to them.
static COOKIES_REPLIES: [&str; 21] = [
    "Fault(NotLast)",
    "Begun(1, 1)",
    "Noted(1, true)",
    "Made(1, Report { cpu: 0, tag: Tag { epoch: 0, number: 1 } })",
    "Answer(Last)",
    "Ended(4)",
    "Cookie(Cookie { epoch: 0, number: 8 })",
    "Fault(Exhausted)",
    "Renumbered(1)",
    "Polled(false)",
    "Polled(true)",
    "Cookie(Cookie { epoch: 1, number: 4 })",
    "Begun(1, 1)",
    "Answer(Stale)",
    "Polled(false)",
    "Noted(1, true)",
    "Made(2, Report { cpu: 0, tag: Tag { epoch: 1, number: 1 } })",
    "Answer(Last)",
    "Ended(4)",
    "Polled(true)",
    "Polled(true)",
];

/// A cookie above the last number is done in the next epoch, and a report of the old one is stale.
#[test]
fn cookies_across_epochs(rt: HostRuntime) {
    both(&rt, rt.alloc(), 4, &COOKIES, &COOKIES_REPLIES);
}

/// The events of [`callback_across_epochs`].
static CALLBACK: [Event; 17] = [
    Event::Begin,
    Event::Note(0),
    Event::Quiesce(0),
    Event::Deliver(1),
    Event::End,
    Event::Queue(0, 7),
    Event::Tend(0),
    Event::Turn,
    Event::Renumber,
    Event::Tend(0),
    Event::Turn,
    Event::Note(0),
    Event::Quiesce(0),
    Event::Deliver(2),
    Event::Turn,
    Event::Tend(0),
    Event::Run(0, 9),
];

/// The replies to them.
static CALLBACK_REPLIES: [&str; 17] = [
    "Begun(1, 1)",
    "Noted(1, true)",
    "Made(1, Report { cpu: 0, tag: Tag { epoch: 0, number: 1 } })",
    "Answer(Last)",
    "Ended(4)",
    "Queued(1)",
    "Tended(0, 1)",
    "Fault(Exhausted)",
    "Renumbered(1)",
    "Tended(0, 1)",
    "Begun(1, 1)",
    "Noted(1, true)",
    "Made(2, Report { cpu: 0, tag: Tag { epoch: 1, number: 1 } })",
    "Answer(Last)",
    "Ended(4)",
    "Tended(1, 0)",
    "Ran(ValueList { calls: \
        [Queued { ord: 1, at: Tag { epoch: 0, number: 4 }, value: 7 }] })",
];

/// A callback that waits at the last number is handed out after a grace period of the next epoch.
#[test]
fn callback_across_epochs(rt: HostRuntime) {
    both(&rt, rt.alloc(), 4, &CALLBACK, &CALLBACK_REPLIES);
}

/// Events up to the last number, with a callback that waits, and their replies.
static UP_TO_LAST: [(Event, &str); 7] = [
    (Event::Begin, "Begun(1, 1)"),
    (Event::Note(0), "Noted(1, true)"),
    (
        Event::Quiesce(0),
        "Made(1, Report { cpu: 0, tag: Tag { epoch: 0, number: 1 } })",
    ),
    (Event::Deliver(1), "Answer(Last)"),
    (Event::End, "Ended(4)"),
    (Event::Queue(0, 7), "Queued(1)"),
    (Event::Tend(0), "Tended(0, 1)"),
];

/// A renumbering takes no memory: once there is room for the replies, it is not refused.
#[test]
fn a_renumbering_without_memory(rt: HostRuntime) {
    let mut core = core(&rt, rt.alloc(), 4);
    takes(&rt, rt.alloc(), &mut core, &UP_TO_LAST);
    let replies = run(&rt, &mut core, &[Event::Renumber, Event::Renumber]);
    let wanted = ["Renumbered(1)", "Fault(NotLast)"];
    told_all(&rt, rt.alloc(), replies.as_slice(), &wanted);
}

/// The grace period is reported and ends.
fn end(rt: &impl Abort, core: &mut Core<Flat, u64>) -> Reply {
    step(rt, core, Event::Note(0));
    if let Reply::Made(count, _) = step(rt, core, Event::Quiesce(0)) {
        step(rt, core, Event::Deliver(count));
    }
    step(rt, core, Event::End)
}

/// Goes a step of the path.
fn go(rt: &impl Abort, core: &mut Core<Flat, u64>, turn: Turn) {
    let reply = match turn {
        Turn::Begin => step(rt, core, Event::Begin),
        Turn::End => end(rt, core),
        Turn::Renumber => step(rt, core, Event::Renumber),
    };
    assert!(rt;
        matches!(
            reply,
            Reply::Begun(..) | Reply::Ended(_) | Reply::Renumbered(_)
        ),
        "{reply:?}"
    );
}

/// The cookie of a snapshot.
fn take(rt: &impl Abort, core: &mut Core<Flat, u64>) -> Cookie {
    match core.step(Event::Take) {
        Reply::Cookie(cookie) => cookie,
        _ => panic!(rt; "no cookie"),
    }
}

/// Compares whether a cookie is done at a place of the path.
fn is_done(rt: &impl Abort, at: u32, core: &mut Core<Flat, u64>, cookie: Cookie, wanted: bool) {
    match core.step(Event::Poll(cookie.number, cookie.epoch)) {
        Reply::Polled(done) => compare(rt, (at, cookie), done, wanted),
        _ => panic!(rt; "no answer"),
    }
}

/// Takes a cookie at a place of the path, and polls it there and at each place behind.
fn poll_from(rt: &impl Abort, mut core: Core<Flat, u64>, last: u32, place: u32) {
    for before in 0..place {
        go(rt, &mut core, turn_at(last, before));
    }
    let cookie = take(rt, &mut core);
    let mut since = Since::taking();
    for behind in place..steps(last) {
        is_done(rt, behind, &mut core, cookie, since.has_full_period());
        go(rt, &mut core, turn_at(last, behind));
        since.go(turn_at(last, behind));
    }
    let (end, is_over) = (steps(last), since.has_full_period());
    is_done(rt, end, &mut core, cookie, is_over);
}

/// Polls from each place of the path.
fn poll_all(rt: &impl Abort, alloc: Global, last: u32) {
    for place in 0..=steps(last) {
        poll_from(rt, core(rt, alloc, u64::from(last)), last, place);
    }
}

/// At every two places of a path through five epochs, a cookie that was taken at the first is done
/// at the second if a full grace period lies between.
#[test]
fn every_two_places_of_five_epochs(rt: HostRuntime) {
    poll_all(&rt, rt.alloc(), 4);
    poll_all(&rt, rt.alloc(), 8);
    poll_all(&rt, rt.alloc(), 12);
    poll_all(&rt, rt.alloc(), 20);
}
