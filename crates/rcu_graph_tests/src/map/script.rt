//! One thread calls a map by a script, beside a plain table of its entries: by the map's writer,
//! and by an updater.
mod caller;

ghost use Rattle.std.specs.Prelude.{◌≡◌};
ghost use Rattle.rcu_live.specs.CpuSeat.{IsSeatOf, after_word_step};
ghost use Rattle.rcu_live.specs.Several.{whole};
ghost use Rattle.rcu_map.specs.Listed.{after_hops, known_in, listing};
ghost use Rattle.rcu_graph.specs.Graph.{IsWalking, IsWatcherOf};
ghost use Rattle.rcu_graph.specs.Planned.{of_plan};
ghost use Rattle.rcu_graph.specs.declared.known.Known.TheVariants.{Idle};

use crate::compare::compare;
use crate::map::route::Route;
use crate::map::script::caller::{Alone, Caller, Shared};
use crate::map::{Control, Engine, Listing, Routes, Seat, Watcher};
use crate::seats::{enters, exits};
use rcu_graph::Full;
use rcu_map::Put;
use rcu_map::Put::{Insert, Replace, Upsert};
use rcu_seq::Cookie;
use std::process::Abort;
use std::sync::Wait;

/// A call, with the network and the port that it is given, and which port it returns.
#[derive(Clone, Copy)]
enum Call {
    Put(Put, u32, u32, Result<Option<u32>, Full>),
    /// With the port that was read, and the new one.
    Compare(u32, u32, u32, Result<Option<u32>, Full>),
    Remove(u32, Option<u32>),
    /// With the port that was read.
    CompareRemove(u32, u32, Option<u32>),
    /// A grace period passes, and the caller looks before it and behind it.
    Reclaim,
    /// One passes, and the caller does not look.
    Pass,
}

/// How many networks there are. A network with the port 0 has no route.
pub(crate) const NETWORKS: usize = 10;

/// The networks as the buckets of a map of this seed have them.
type Order = (u64, [u32; NETWORKS]);

static ORDER: Order = (0, [0, 2, 4, 5, 7, 1, 3, 6, 8, 9]);

static OTHER_ORDER: Order = (0x6A09_E667_F3BC_C908, [0, 1, 3, 5, 7, 9, 2, 4, 6, 8]);

/// Entries in front of others, behind them and between them; each call with a key that is there,
/// and with one that is not; a full map, and one of which no node is free yet, since no other call
/// than `reclaim` looks at the number; updates if the port is as it was read, and if it is another
/// one.
static SCRIPT: [Call; 53] = [
    Call::Remove(5, None),
    Call::Compare(5, 1, 1, Ok(None)),
    Call::CompareRemove(5, 1, None),
    Call::Put(Replace, 5, 1, Ok(None)),
    Call::Put(Insert, 5, 1, Ok(None)),
    Call::Put(Insert, 5, 2, Ok(Some(1))),
    Call::Put(Upsert, 9, 3, Ok(None)),
    Call::Put(Insert, 7, 4, Ok(None)),
    Call::Put(Insert, 4, 5, Ok(None)),
    Call::Put(Insert, 3, 6, Err(Full)),
    Call::Put(Insert, 4, 6, Ok(Some(5))),
    Call::Compare(7, 5, 6, Ok(Some(4))),
    Call::Put(Replace, 7, 6, Ok(Some(4))),
    Call::Put(Replace, 7, 8, Err(Full)),
    Call::Put(Replace, 3, 6, Ok(None)),
    Call::Put(Upsert, 7, 8, Err(Full)),
    Call::Put(Upsert, 3, 6, Err(Full)),
    Call::Compare(7, 6, 8, Err(Full)),
    Call::Compare(7, 4, 8, Ok(Some(6))),
    Call::Compare(3, 4, 8, Ok(None)),
    Call::CompareRemove(7, 4, Some(6)),
    Call::CompareRemove(7, 6, Some(6)),
    Call::CompareRemove(7, 6, None),
    Call::Remove(7, None),
    Call::Put(Insert, 3, 6, Err(Full)),
    Call::Pass,
    Call::Put(Upsert, 3, 6, Err(Full)),
    Call::Compare(9, 3, 8, Err(Full)),
    Call::Reclaim,
    Call::Put(Insert, 3, 6, Ok(None)),
    Call::Remove(3, Some(6)),
    Call::Reclaim,
    Call::Compare(5, 1, 7, Ok(Some(1))),
    Call::Put(Replace, 9, 8, Ok(Some(3))),
    Call::Put(Replace, 9, 9, Err(Full)),
    Call::Reclaim,
    Call::Put(Replace, 9, 9, Ok(Some(8))),
    Call::Reclaim,
    Call::Put(Upsert, 9, 6, Ok(Some(9))),
    Call::Reclaim,
    Call::Put(Upsert, 9, 9, Ok(Some(6))),
    Call::Remove(5, Some(7)),
    Call::Remove(9, Some(9)),
    Call::Remove(4, Some(5)),
    Call::Reclaim,
    Call::Put(Insert, 8, 1, Ok(None)),
    Call::Put(Insert, 6, 2, Ok(None)),
    Call::Put(Upsert, 2, 3, Ok(None)),
    Call::Put(Insert, 1, 4, Ok(None)),
    Call::Put(Upsert, 3, 5, Err(Full)),
    Call::Put(Upsert, 1, 5, Ok(Some(4))),
    Call::Put(Insert, 3, 5, Err(Full)),
    Call::CompareRemove(1, 4, Some(5)),
];

/// Returns whether a call puts its route in, by the port that it returns.
fn puts(how: Put, port: Result<Option<u32>, Full>) -> bool {
    matches!(
        (how, port),
        (Insert, Ok(None)) | (Replace, Ok(Some(_))) | (Upsert, Ok(_))
    )
}

/// A map of up to 4 routes in 2 buckets, the caller, and the ports that its routes have by the
/// script.
#[derive(Drop)]
struct Scene<'a, C: Caller + Drop> {
    live: &'a Engine,
    map: &'a Routes,
    caller: C,
    seat: Seat,
    watcher: Watcher,
    ports: [u32; NETWORKS],
    order: [u32; NETWORKS],
    ghost engine: { live.now ≡ map.now },
    ghost seat_of: { IsSeatOf map.now seat },
    ghost watcher_of: { IsWatcherOf map.now watcher },
    ghost outside: { seat.depth ≡ 0 },
    ghost idle: { seat.view.client ≡ of_plan map.now.plan Idle },
}

/// Compares the next entry that a section goes over with this one.
fn goes_on_to<'a, R: Abort>(rt: &R, entries: &mut Listing<'a>, wanted: Option<Route>)
    ensures { listing entries.new ≡ after_hops whole (listing entries.old)
        (known_in whole (listing entries.new)) (listing entries.new).at }
{
    compare(rt, "next", entries.next(), wanted);
}

/// Compares the entries that a section goes over with these routes.
pub(crate) fn lists<R: Abort>(
    rt: &R,
    map: &Routes,
    seat: &mut Seat,
    routes: &[Option<Route>; NETWORKS],
)
    requires { IsWalking map.now seat.old }
    ensures state { seat.new ≡ after_word_step seat.old seat.new.view.client }
    ensures walking { IsWalking map.now seat.new }
{
    let mut entries = map.entries(seat);
    for route in routes {
        if route.is_some() {
            goes_on_to(rt, &mut entries, *route);
        }
    }
    goes_on_to(rt, &mut entries, None);
    goes_on_to(rt, &mut entries, None);
}

impl<'a, C: Caller + Drop> Scene<'a, C> {
    /// Returns the table's route to a network.
    fn route_to(&self, network: u32) -> Option<Route> {
        let port = *self.ports.get(network as usize)?;
        let route = Route::to(network, port)?;
        (port > 0).then_some(route)
    }

    /// Returns the table's route to each network, in the order of the buckets.
    fn in_order(&self) -> [Option<Route>; NETWORKS] {
        let mut routes = [None; NETWORKS];
        for (route, network) in routes.iter_mut().zip(&self.order) {
            *route = self.route_to(*network);
        }
        routes
    }

    /// One step of a grace period for this cookie, and a quiescent state.
    fn drive<R: Wait>(&mut self, rt: &R, cookie: Cookie) {
        let _ = self.live.drive_for(rt, cookie);
        let _ = self.seat.quiesce(self.live);
    }

    /// A grace period passes. Returns the number behind it.
    fn pass<R: Wait>(&mut self, rt: &R) -> u64 {
        let cookie = self.watcher.take(self.live);
        for _ in 0..4u32 {
            self.drive(rt, cookie);
        }
        cookie.number
    }

    /// A grace period passes: the nodes that were unlinked are free. The caller looks at its number
    /// before, which is 4 less than after it.
    fn reclaim<R: Abort + Wait>(&mut self, rt: &R) {
        let before = self.caller.reclaim(rt);
        let number = self.pass(rt);
        compare(rt, "reclaim", before.saturating_add(4), number);
        compare(rt, "reclaim", self.caller.reclaim(rt), number);
    }

    /// Makes a row's call, compares what it returns, and writes it into the table.
    fn make<R: Abort + Wait>(&mut self, rt: &R, row: usize, call: Call) {
        match call {
            Call::Put(how, network, port, wanted) => {
                let route = Route::to(network, port).expect(rt, "the script has routes");
                let found = self.caller.put(rt, how, route);
                let found = found.map(|old| old.map(|route| route.port));
                compare(rt, row, found, wanted);
                if puts(how, wanted) {
                    self.note(network, port);
                }
            }
            Call::Compare(network, port, new, wanted) => {
                let read = Route::to(network, port).expect(rt, "the script has routes");
                let route = Route::to(network, new).expect(rt, "the script has routes");
                let found = self.caller.compare_replace(rt, read, route);
                let found = found.map(|old| old.map(|route| route.port));
                compare(rt, row, found, wanted);
                if wanted == Ok(Some(port)) {
                    self.note(network, new);
                }
            }
            Call::CompareRemove(network, port, wanted) => {
                let read = Route::to(network, port).expect(rt, "the script has routes");
                let found = self.caller.compare_remove(rt, read);
                compare(rt, row, found.map(|route| route.port), wanted);
                if wanted == Some(port) {
                    self.note(network, 0);
                }
            }
            Call::Remove(network, wanted) => {
                let found = self.caller.remove(rt, u64::from(network));
                compare(rt, row, found.map(|route| route.port), wanted);
                self.note(network, 0);
            }
            Call::Reclaim => self.reclaim(rt),
            Call::Pass => {
                self.pass(rt);
            }
        }
    }

    /// Writes a port into the table.
    fn note(&mut self, network: u32, port: u32) {
        if let Some(place) = self.ports.get_mut(network as usize) {
            *place = port;
        }
    }

    /// Compares what the caller and a section find of a network with the table.
    fn finds<R: Abort + Wait>(&mut self, rt: &R, network: u32) {
        let wanted = self.route_to(network);
        let key = u64::from(network);
        compare(rt, network, self.caller.get(rt, key), wanted);
        let is_there = self.caller.contains(rt, key);
        compare(rt, network, is_there, wanted.is_some());
        let found = self.map.get_section(self.live, &mut self.seat, key);
        compare(rt, network, found, Ok(wanted));
    }

    /// Compares how many entries there are, and which ones a section goes over.
    fn counts<R: Abort + Wait>(&mut self, rt: &R) {
        let count = self.ports.iter().filter(|port| **port > 0).count();
        compare(rt, "len", self.caller.len(rt), count);
        let wanted = self.in_order();
        enters(rt, self.live, &mut self.seat);
        lists(rt, self.map, &mut self.seat, &wanted);
        exits(rt, self.live, &mut self.seat);
    }

    /// Makes all calls of the script, and compares the map with the table after each.
    fn make_all<R: Abort + Wait>(&mut self, rt: &R) {
        self.counts(rt);
        for (row, call) in SCRIPT.iter().enumerate() {
            self.make(rt, row, *call);
            for network in 0..NETWORKS as u32 {
                self.finds(rt, network);
            }
            self.counts(rt);
        }
    }
}

#[test]
fn map_is_as_its_script_says(rt: HostRuntime) {
    let (seed, order) = ORDER;
    let Ok(mut opened) = Routes::open(rt.alloc(), 1, 4_000_000, 2, 4, seed) else {
        return;
    };
    let mut scene = Scene {
        caller: Alone {
            writer: opened.writer,
        },
        seat: opened.seats.pop().unwrap(),
        watcher: opened.watchers.pop().unwrap(),
        live: &opened.live,
        map: &opened.map,
        ports: [0; NETWORKS],
        order,
    };
    scene.make_all(&rt);
}

#[test]
fn updater_does_as_the_script_says(rt: HostRuntime) {
    let (seed, order) = OTHER_ORDER;
    let Ok(mut opened) = Routes::open(rt.alloc(), 1, 4_000_000, 2, 4, seed) else {
        return;
    };
    let mut scene = Scene {
        caller: Shared {
            updater: Control::new(opened.writer),
        },
        seat: opened.seats.pop().unwrap(),
        watcher: opened.watchers.pop().unwrap(),
        live: &opened.live,
        map: &opened.map,
        ports: [0; NETWORKS],
        order,
    };
    scene.make_all(&rt);
}
