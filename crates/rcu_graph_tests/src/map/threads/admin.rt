//! An administrator: a thread that changes routes, by an updater that it shares.
ghost use Rattle.std.specs.Prelude.{◌≡◌, ◌<◌};

use crate::compare::compare;
use crate::map::route::Route;
use crate::map::threads::history::{History, NETWORKS, is_kept, route_after};
use crate::map::{Control, Engine, Seat, Watcher};
use rand_core::{Rng, SeedableRng};
use rand_pcg::Pcg32;
use rcu_graph::Full;
use rcu_map::Put;
use std::process::Abort;
use std::sync::Wait;

/// How many changes are drawn.
const CHANGES: u32 = 1_500;

/// An administrator, which changes the route to each second network from this one on, with a
/// processor's seat and a watcher.
#[derive(Drop)]
pub(crate) struct Admin<'a> {
    pub(crate) live: &'a Engine,
    pub(crate) control: &'a Control,
    pub(crate) history: &'a History,
    pub(crate) seat: Seat,
    pub(crate) watcher: Watcher,
    pub(crate) first: u32,
    pub(crate) ghost seat_of: { seat.table ≡ live.now.table },
    pub(crate) ghost watcher_of: { watcher.table ≡ live.now.table },
}

impl<'a> Admin<'a> {
    /// All nodes are used: waits for a grace period, so that what was unlinked before makes room.
    fn make_room<R: Abort + Wait>(&mut self, rt: &R) {
        let before = self.control.reclaim(rt);
        let waited = self.live.synchronize(rt, &mut self.seat, &mut self.watcher);
        compare(rt, "synchronize", waited, Ok(()));
        let after = self.control.reclaim(rt);
        assert!(rt; before.saturating_add(4) <= after, "{before} and {after}");
    }

    /// Puts a route in so, as soon as a node is free, and compares the one that was there before.
    fn put<R: Abort + Wait>(&mut self, rt: &R, how: Put, route: Route, before: Option<Route>)
        requires { 0 < route.network }
    {
        for _ in rt.forever() {
            let put = match how {
                Put::Insert => self.control.insert(rt, route),
                Put::Replace => self.control.replace(rt, route),
                Put::Upsert => self.control.upsert(rt, route),
            };
            if put != Err(Full) {
                compare(rt, route, put, Ok(before));
                break;
            }
            self.make_room(rt);
        }
    }

    /// Puts a route in if none is there, or in the place of the old one; each second time by the
    /// call that does either. The call that does the other finds nothing to do.
    fn set<R: Abort + Wait>(&mut self, rt: &R, route: Route, before: Option<Route>)
        requires { 0 < route.network }
    {
        let (how, other) = if before.is_some() {
            (Put::Replace, Put::Insert)
        } else {
            (Put::Insert, Put::Replace)
        };
        self.put(rt, other, route, before);
        let how = if route.port % 2 == 0 {
            Put::Upsert
        } else {
            how
        };
        self.put(rt, how, route, before);
    }

    /// Changes the route to a network once more.
    fn change<R: Abort + Wait>(&mut self, rt: &R, network: u32) {
        let number = self.history.begin(network);
        let before = route_after(network, number.saturating_sub(1));
        let after = route_after(network, number);
        let key = u64::from(network);
        match after {
            Some(route) => self.set(rt, route, before),
            None => compare(rt, network, self.control.remove(rt, key), before),
        }
        self.history.end(network, number);
        compare(rt, network, self.control.get(rt, key), after);
        let _ = self.seat.quiesce(self.live);
    }

    fn arrive<R: Abort + Wait>(&mut self, rt: &R) {
        let found = self.live.online(rt, &mut self.seat);
        compare(rt, "online", found, Ok(()));
    }

    /// The administrator's thread: it changes routes that it draws, beside the readers.
    pub(crate) fn administer<R: Abort + Wait>(mut self, rt: &R) {
        self.history.wait_for_readers();
        self.arrive(rt);
        let mut draws = Pcg32::seed_from_u64(u64::from(self.first));
        for _ in 0..CHANGES {
            let network = (draws.next_u32() % NETWORKS / 2 * 2).saturating_add(self.first);
            if !is_kept(network) {
                self.change(rt, network);
            }
        }
        let Admin {
            live,
            history,
            mut seat,
            ..
        } = self;
        history.leave();
        let _ = live.offline(rt, &mut seat);
    }
}
