//! An updater lets go of its lock while it waits: another thread, for whose report it waits, takes
//! the lock again and again before it reports. If the lock were held, neither thread would go on.
ghost use Rattle.std.specs.Prelude.{◌<◌};
ghost use Rattle.rcu_graph.specs.Graph.{IsSeatOf, IsWatcherOf};

use crate::compare::compare;
use crate::map::route::Route;
use crate::map::{Control, Engine, Routes, Seat, Watcher};
use crate::seats::{next_online, next_seat};
use rcu_map::{NotPut, Put};
use std::process::Abort;
use std::sync::Wait;
use std::thread;
use std::thread::Threads;

/// How often the other thread looks for the begin of a grace period, at most: as often as it takes,
/// unless no thread can be made for the wait.
const LOOKS: u32 = 1_000_000;

/// How often it takes the lock: more often than a wait makes rounds before it sleeps.
const TURNS: u32 = 1_000;

/// The thread that waits for a node, with the seat of processor 0.
#[derive(Drop)]
struct Waiter<'a> {
    live: &'a Engine,
    control: &'a Control,
    seat: Seat,
    route: Route,
    ghost seat_of: { IsSeatOf live.now seat },
    ghost some: { 0 < route.network },
}

impl<'a> Waiter<'a> {
    /// Replaces a route, once a grace period has passed. Returns the old one.
    fn replace<R: Wait>(self, rt: &R) -> Result<Option<Route>, NotPut> {
        let Waiter {
            live,
            control,
            mut seat,
            route,
        } = self;
        control.put_or_wait(rt, live, &mut seat, Put::Replace, route)
    }
}

/// The thread whose processor the wait awaits.
#[derive(Drop)]
struct Other<'a> {
    live: &'a Engine,
    control: &'a Control,
    seat: Seat,
    watcher: Watcher,
    ghost seat_of: { IsSeatOf live.now seat },
    ghost watcher_of: { IsWatcherOf live.now watcher },
}

impl<'a> Other<'a> {
    /// Looks until a grace period has begun: then the wait goes on, up to a report of this thread.
    fn look_for_a_begin(&mut self) {
        for _ in 0..LOOKS {
            if self.watcher.number(self.live) > 0 {
                return;
            }
            thread::yield_now();
        }
    }

    /// Looks a route up, again and again, each time under the lock. Returns how often it was found.
    fn look_up<R: Wait>(&self, rt: &R, key: u64) -> u32 {
        let mut found = 0u32;
        for _ in 0..TURNS {
            if self.control.get(rt, key).is_some() {
                found = found.saturating_add(1);
            }
            thread::yield_now();
        }
        found
    }

    /// Looks the route up and takes it out, once the wait goes on, and only then takes the
    /// processor offline.
    fn update_and_report<R: Wait>(mut self, rt: &R, key: u64) -> (u32, Option<Route>) {
        self.look_for_a_begin();
        let found = self.look_up(rt, key);
        let removed = self.control.remove(rt, key);
        let Other { live, mut seat, .. } = self;
        let _ = live.offline(rt, &mut seat);
        (found, removed)
    }
}

/// The answers of the wait, and of the updates beside it.
type Updated = (Result<Option<Route>, NotPut>, (u32, Option<Route>));

/// The wait beside the other thread. If no thread can be made for it, the wait comes last.
fn wait_beside<R: Threads + Wait + Sync>(rt: &R, waiter: Waiter<'_>, other: Other<'_>) -> Updated {
    thread::join(
        rt,
        move || waiter.replace(rt),
        move || other.update_and_report(rt, 2),
    )
}

/// A route to a network, by a port.
pub(crate) fn route_to<R: Abort>(rt: &R, network: u32, port: u32) -> Route
    ensures { 0 < result.network }
{
    Route::to(network, port).expect(rt, "a network has a number")
}

#[test]
fn no_updater_holds_its_lock_while_it_waits(rt: HostRuntime) {
    // Two routes at most, in one bucket: so three nodes.
    let Ok(opened) = Routes::open(rt.alloc(), 2, 4_000, 1, 2, 0) else {
        return;
    };
    let (mut seats, mut watchers) = (opened.seats, opened.watchers);
    let control = Control::new(opened.writer);
    let live = &opened.live;
    let (first, second) = (route_to(&rt, 1, 5), route_to(&rt, 2, 6));
    let (next, last) = (route_to(&rt, 1, 7), route_to(&rt, 1, 8));
    compare(&rt, "insert", control.insert(&rt, first), Ok(None));
    compare(&rt, "insert", control.insert(&rt, second), Ok(None));
    compare(&rt, "replace", control.replace(&rt, next), Ok(Some(first)));
    let other = Other {
        live,
        control: &control,
        seat: next_online(&rt, live, &mut seats),
        watcher: watchers.pop().unwrap(),
    };
    let waiter = Waiter {
        live,
        control: &control,
        seat: next_seat(&rt, live, &mut seats),
        route: last,
    };
    let updated = wait_beside(&rt, waiter, other);
    compare(
        &rt,
        "beside",
        updated,
        (Ok(Some(next)), (TURNS, Some(second))),
    );
    compare(&rt, "get", control.get(&rt, 1), Some(last));
}
