//! A wait for a node sleeps after its first rounds. A thread that sleeps since it asked processor 1
//! is woken if another wait asks processor 2: a wait for a node does so before it sleeps. If it
//! went on without sleep, nothing would wake that thread.
ghost use Rattle.std.specs.Prelude.{◌<◌};
ghost use Rattle.rcu_graph.specs.Graph.{IsSeatOf};

use crate::compare::compare;
use crate::map::route::Route;
use crate::map::waits::caller::{Alone, Shared, WaitingCaller};
use crate::map::waits::locked::route_to;
use crate::map::{Control, Engine, Routes, Seat};
use crate::seats::{next_online, next_seat};
use rcu_live::NotHeard;
use rcu_map::{NotPut, Put};
use rcu_seq::{Cookie, Tag};
use rcu_state::Turned;
use std::process::Abort;
use std::sync::Wait;
use std::sync::atomic::{AtomicU32, Ordering};
use std::thread;
use std::thread::Threads;

/// How often a thread looks whether the other one has come so far, at most: as often as it takes,
/// unless no thread can be made for the wait.
const LOOKS: u32 = 1_000_000;

/// The cookie of the first grace period.
fn first_cookie() -> Cookie {
    Cookie::of(Tag::of_first_epoch(0))
}

/// The steps of the two threads: processor 1 is asked, and the wait begins.
#[derive(Drop)]
struct Steps {
    asked: AtomicU32,
    begun: AtomicU32,
}

/// A step is done.
fn note(step: &AtomicU32) {
    step.store(1, Ordering::SeqCst);
}

/// Looks until a step is done. Returns whether it is.
fn look_for(step: &AtomicU32) -> bool {
    for _ in 0..LOOKS {
        if step.load(Ordering::SeqCst) > 0 {
            return true;
        }
        thread::yield_now();
    }
    false
}

/// The thread that waits for a node.
#[derive(Drop)]
struct Waiter<'a, C: WaitingCaller + Drop> {
    caller: C,
    route: Route,
    steps: &'a Steps,
    ghost some: { 0 < route.network },
}

impl<'a, C: WaitingCaller + Drop> Waiter<'a, C> {
    /// Replaces a route, once a node is free. Returns the old one.
    fn replace<R: Wait>(self, rt: &R) -> Result<Option<Route>, NotPut> {
        let Waiter {
            mut caller,
            route,
            steps,
        } = self;
        look_for(&steps.asked);
        note(&steps.begun);
        caller.put(rt, Put::Replace, route)
    }
}

/// The thread that asks processor 1, and sleeps. It has the seats of the processors 1 and 2.
#[derive(Drop)]
struct Sleeper<'a> {
    live: &'a Engine,
    second: Seat,
    third: Seat,
    steps: &'a Steps,
    ghost second_of: { IsSeatOf live.now second },
    ghost third_of: { IsSeatOf live.now third },
}

impl<'a> Sleeper<'a> {
    /// Asks processor 1, which then reports by the words alone, and so wakes no thread. Then the
    /// grace period awaits processor 2 alone.
    fn ask<R: Abort + Wait>(&mut self, rt: &R) -> NotHeard {
        let live = self.live;
        let mut engine = live.lock(rt);
        let asked = live.ask(&engine, 0, first_cookie());
        let asked = asked.expect(rt, "processor 1 is awaited");
        let unheard = asked.hear(&mut engine).expect(rt, "it has not reported");
        drop(engine);
        let _ = self.second.quiesce(&**live.words());
        compare(
            rt,
            "drive",
            live.drive_for(rt, first_cookie()),
            Ok(Turned::Waiting(1)),
        );
        unheard
    }

    /// Takes both processors offline: no grace period awaits them any more.
    fn leave<R: Wait>(&mut self, rt: &R) {
        let _ = self.live.offline(rt, &mut self.third);
        let _ = self.live.offline(rt, &mut self.second);
    }

    /// Sleeps until the wait asks processor 2, and then takes both processors offline. If the wait
    /// has not begun, they come first, which wakes this thread.
    fn sleep<R: Abort + Wait>(mut self, rt: &R) {
        let unheard = self.ask(rt);
        note(&self.steps.asked);
        if look_for(&self.steps.begun) {
            self.live.sleep(rt, unheard);
            self.leave(rt);
        } else {
            self.leave(rt);
            self.live.sleep(rt, unheard);
        }
    }
}

/// A grace period begins, which awaits two processors beside this seat's.
fn begin<R: Abort + Wait>(rt: &R, live: &Engine, first: &mut Seat)
    requires { IsSeatOf live.now first.old }
    ensures { IsSeatOf live.now first.new }
{
    compare(
        rt,
        "drive",
        live.drive_for(rt, first_cookie()),
        Ok(Turned::Begun(1, 3)),
    );
    compare(rt, "quiesce", first.quiesce(live), Ok(1));
    compare(
        rt,
        "drive",
        live.drive_for(rt, first_cookie()),
        Ok(Turned::Waiting(2)),
    );
}

/// Fills a map of two routes in three nodes, none of which is free then: one route was replaced.
/// Returns the route that replaced it, and the one that is to replace that.
fn fill<R: Abort + Wait, C: WaitingCaller>(rt: &R, caller: &mut C) -> (Route, Route)
    ensures { 0 < result.1.network }
{
    let (next, last) = (route_to(rt, 1, 7), route_to(rt, 1, 8));
    let (first, second) = (route_to(rt, 1, 5), route_to(rt, 2, 6));
    compare(rt, "insert", caller.put(rt, Put::Insert, first), Ok(None));
    compare(rt, "insert", caller.put(rt, Put::Insert, second), Ok(None));
    let replaced = caller.put(rt, Put::Replace, next);
    compare(rt, "replace", replaced, Ok(Some(first)));
    (next, last)
}

/// The wait beside the sleeper. If no thread can be made for it, the wait comes last. Returns the
/// route that it replaced.
fn wait_beside<R: Abort + Threads + Wait + Sync, C: WaitingCaller + Drop + Send>(
    rt: &R,
    waiter: Waiter<'_, C>,
    sleeper: Sleeper<'_>,
) -> Result<Option<Route>, NotPut> {
    let (replaced, ()) = thread::join(rt, move || waiter.replace(rt), move || sleeper.sleep(rt));
    replaced
}

#[test]
fn a_writer_sleeps_while_it_waits(rt: HostRuntime) {
    let Ok(opened) = Routes::open(rt.alloc(), 3, 4_000, 1, 2, 0) else {
        return;
    };
    let (mut seats, writer) = (opened.seats, opened.writer);
    let live = &opened.live;
    let third = next_online(&rt, live, &mut seats);
    let second = next_online(&rt, live, &mut seats);
    let mut first = next_seat(&rt, live, &mut seats);
    begin(&rt, live, &mut first);
    let mut caller = Alone {
        live,
        writer,
        seat: first,
    };
    let (next, last) = fill(&rt, &mut caller);
    let steps = Steps {
        asked: AtomicU32::new(0),
        begun: AtomicU32::new(0),
    };
    let waiter = Waiter {
        caller,
        route: last,
        steps: &steps,
    };
    let sleeper = Sleeper {
        live,
        second,
        third,
        steps: &steps,
    };
    compare(
        &rt,
        "beside",
        wait_beside(&rt, waiter, sleeper),
        Ok(Some(next)),
    );
}

#[test]
fn an_updater_sleeps_while_it_waits(rt: HostRuntime) {
    let Ok(opened) = Routes::open(rt.alloc(), 3, 4_000, 1, 2, 0) else {
        return;
    };
    let (mut seats, writer) = (opened.seats, opened.writer);
    let live = &opened.live;
    let third = next_online(&rt, live, &mut seats);
    let second = next_online(&rt, live, &mut seats);
    let mut first = next_seat(&rt, live, &mut seats);
    begin(&rt, live, &mut first);
    let mut caller = Shared {
        live,
        updater: Control::new(writer),
        seat: first,
    };
    let (next, last) = fill(&rt, &mut caller);
    let steps = Steps {
        asked: AtomicU32::new(0),
        begun: AtomicU32::new(0),
    };
    let waiter = Waiter {
        caller,
        route: last,
        steps: &steps,
    };
    let sleeper = Sleeper {
        live,
        second,
        third,
        steps: &steps,
    };
    compare(
        &rt,
        "beside",
        wait_beside(&rt, waiter, sleeper),
        Ok(Some(next)),
    );
}
