//! Entries that wait for a free node, beside a slow reader, and beside another thread that updates.
ghost use Rattle.std.specs.Prelude.{◌≡◌, ◌<◌};
ghost use Rattle.rcu_graph.specs.Graph.{IsSeatOf, IsWatcherOf};
ghost use Rattle.rcu_graph.specs.Planned.{of_plan};
ghost use Rattle.rcu_graph.specs.declared.known.Known.TheVariants.{Idle};

use crate::compare::compare;
use crate::map::route::Route;
use crate::map::{Engine, Routes, Seat};
use crate::seats::{next_online, next_seat};
use rcu_map::{MapWriter, NotPut, Put, Updater};
use std::sync::Wait;
use std::thread;
use std::thread::Threads;

/// How often a route is put in, each time to the next network.
const CHANGES: u32 = 200;

/// How often the reader looks a route up.
const READS: u32 = 2_000;

/// A slow reader, with its processor's seat.
#[derive(Drop)]
struct Reader<'a> {
    live: &'a Engine,
    map: &'a Routes,
    seat: Seat,
    ghost engine: { live.now ≡ map.now },
    ghost seat_of: { IsSeatOf map.now seat },
    ghost outside: { seat.depth ≡ 0 },
    ghost idle: { seat.view.client ≡ of_plan map.now.plan Idle },
}

impl<'a> Reader<'a> {
    /// Looks a route up, and lets other threads run. Returns whether it found none, or a whole one:
    /// its port encodes the network.
    fn read(&mut self, network: u32) -> bool {
        let key = u64::from(network);
        let found = self.map.get_section(self.live, &mut self.seat, key);
        thread::yield_now();
        let quiet = self.seat.quiesce(self.live);
        match found {
            Ok(Some(route)) => route.port % 1_000 == network && quiet.is_ok(),
            Ok(None) => quiet.is_ok(),
            Err(_) => false,
        }
    }

    /// Reads many times, and takes the processor offline. Returns how many reads were right.
    fn read_on<R: Wait>(mut self, rt: &R) -> u32 {
        let mut right = 0u32;
        for number in 0..READS {
            if self.read(number % CHANGES + 1) {
                right = right.saturating_add(1);
            }
        }
        let Reader { live, mut seat, .. } = self;
        let _ = live.offline(rt, &mut seat);
        right
    }
}

/// The control, which moves the routes, with the seat of processor 0.
#[derive(Drop)]
struct Control<'a> {
    live: &'a Engine,
    writer: MapWriter<Route, 2>,
    seat: Seat,
    ghost writer_of: { IsWatcherOf live.now writer },
    ghost seat_of: { IsSeatOf live.now seat },
}

impl<'a> Control<'a> {
    /// Puts a route in, and then replaces it: a node each, for which it may wait.
    fn puts<R: Wait>(&mut self, rt: &R, first: Route, route: Route) -> bool
        requires first { 0 < first.network }
        requires route { 0 < route.network }
    {
        let put = self
            .writer
            .put_or_wait(rt, self.live, &mut self.seat, Put::Insert, first);
        let replaced = self
            .writer
            .put_or_wait(rt, self.live, &mut self.seat, Put::Replace, route);
        put == Ok(None) && replaced == Ok(Some(first))
    }

    fn take_out(&mut self, network: u32) {
        self.writer.remove(u64::from(network));
    }

    /// Puts a route to each network in, replaces it, and takes the one before it out. Returns how
    /// often it did.
    fn work<R: Wait>(mut self, rt: &R) -> u32 {
        let mut changes = 0u32;
        for network in 1..=CHANGES {
            if let Some(first) = Route::to(network, network)
                && let Some(route) = Route::to(network, network + 1_000)
                && self.puts(rt, first, route)
            {
                changes = changes.saturating_add(1);
            }
            self.take_out(network - 1);
        }
        changes
    }
}

/// The control beside the reader. If no thread can be made, the control runs last.
fn run_beside<R: Threads + Wait + Sync>(
    rt: &R,
    control: Control<'_>,
    reader: Reader<'_>,
) -> (u32, u32) {
    thread::join(rt, move || control.work(rt), move || reader.read_on(rt))
}

#[test]
fn routes_move_on_through_three_nodes(rt: HostRuntime) {
    // Two routes at most, in one bucket.
    let Ok(opened) = Routes::open(rt.alloc(), 2, 4_000_000, 1, 2, 0) else {
        return;
    };
    let (mut seats, writer) = (opened.seats, opened.writer);
    let (live, map) = (&opened.live, &opened.map);
    let seat = next_online(&rt, live, &mut seats);
    let reader = Reader { live, map, seat };
    let seat = next_seat(&rt, live, &mut seats);
    let control = Control { live, writer, seat };
    let found = run_beside(&rt, control, reader);
    compare(&rt, "changes and reads", found, (CHANGES, READS));
}

/// A thread that puts routes in and takes them out, beside another one.
#[derive(Drop)]
struct Worker<'a> {
    live: &'a Engine,
    updater: &'a Updater<Route, 2>,
    seat: Seat,
    network: u32,
    ghost seat_of: { IsSeatOf live.now seat },
}

impl<'a> Worker<'a> {
    fn arrive<R: Wait>(&mut self, rt: &R) {
        let _ = self.live.online(rt, &mut self.seat);
    }

    /// Puts a route in, waiting for a node if it needs one. Returns the one that was there.
    fn put<R: Wait>(&mut self, rt: &R, how: Put, route: Route) -> Result<Option<Route>, NotPut>
        requires { 0 < route.network }
    {
        self.updater
            .put_or_wait(rt, self.live, &mut self.seat, how, route)
    }

    /// Puts a route in, which an insertion then leaves as it is, replaces it and takes it out;
    /// then a replacement finds none, and puts none in. Returns whether it did.
    fn change<R: Wait>(&mut self, rt: &R, first: Route, route: Route) -> bool
        requires first { 0 < first.network }
        requires route { 0 < route.network }
    {
        self.put(rt, Put::Insert, first) == Ok(None)
            && self.put(rt, Put::Insert, route) == Ok(Some(first))
            && self.put(rt, Put::Upsert, route) == Ok(Some(first))
            && self.updater.remove(rt, first.network) == Some(route)
            && self.put(rt, Put::Replace, route) == Ok(None)
            && self.updater.remove(rt, first.network).is_none()
    }

    /// Does that many times, and takes the processor offline. Returns how often it did.
    fn work<R: Wait>(mut self, rt: &R) -> u32 {
        let mut changes = 0u32;
        self.arrive(rt);
        for port in 0..CHANGES {
            if let Some(first) = Route::to(self.network, port)
                && let Some(route) = Route::to(self.network, port + 1)
                && self.change(rt, first, route)
            {
                changes = changes.saturating_add(1);
            }
        }
        let Worker { live, mut seat, .. } = self;
        let _ = live.offline(rt, &mut seat);
        changes
    }
}

/// Both beside one another.
fn run_both<R: Threads + Wait + Sync>(rt: &R, one: Worker<'_>, other: Worker<'_>) -> (u32, u32) {
    thread::join(rt, move || one.work(rt), move || other.work(rt))
}

/// Processor 0 never goes offline. No thread has it here: it is idle, and no grace period waits for
/// it.
#[test]
fn two_threads_share_three_nodes(rt: HostRuntime) {
    let Ok(opened) = Routes::open(rt.alloc(), 3, 4_000_000, 1, 2, 0) else {
        return;
    };
    let (mut seats, updater) = (opened.seats, Updater::new(opened.writer));
    let live = &opened.live;
    let one = Worker {
        live,
        updater: &updater,
        seat: seats.pop().unwrap(),
        network: 1,
    };
    let other = Worker {
        live,
        updater: &updater,
        seat: seats.pop().unwrap(),
        network: 2,
    };
    let mut first = seats.pop().unwrap();
    compare(&rt, "idle", first.idle(live), Ok(()));
    let changes = run_both(&rt, one, other);
    compare(&rt, "changes", changes, (CHANGES, CHANGES));
    compare(&rt, "len", updater.len(&rt), 0);
}
