//! Four readers beside two administrators, which share an updater, each on a thread of its own: the
//! result of a reader's lookup of a network is the one at some moment of the lookup.
mod admin;
mod history;
mod reader;

ghost use Rattle.std.specs.Prelude.{◌≡◌, All};
ghost use Rattle.std.specs.Thread.{IsSync};
ghost use Rattle.rcu_live.specs.CpuSeat.{IsSeatOf};
ghost use Rattle.rcu_graph.specs.Graph.{IsWatcherOf};
ghost use Rattle.rcu_graph.specs.Planned.{of_plan};
ghost use Rattle.rcu_graph.specs.declared.known.Known.TheVariants.{Idle};

use crate::compare::compare;
use crate::map::threads::admin::Admin;
use crate::map::threads::history::{History, NETWORKS, Seen, route_after};
use crate::map::threads::reader::Reader;
use crate::map::{Control, Engine, Routes, Seat, Watcher};
use std::process::Abort;
use std::sync::Wait;
use std::thread;
use std::thread::Threads;

pub(crate) const BUCKETS: usize = 4;

/// The seats and the watchers that no thread has yet.
#[derive(Drop)]
struct Spare<'a> {
    live: &'a Engine,
    map: &'a Routes,
    control: &'a Control,
    history: &'a History,
    seats: Vec<Seat>,
    watchers: Vec<Watcher>,
    ghost engine: { live.now ≡ map.now },
    ghost seats_of: { All (IsSeatOf map.now) seats.items },
    ghost outside: { All (λ seat. seat.depth ≡ 0) seats.items },
    ghost idle: { All (λ seat. seat.view.client ≡ of_plan map.now.plan Idle) seats.items },
    ghost watchers_of: { All (IsWatcherOf map.now) watchers.items },
}

impl<'a> Spare<'a> {
    /// A reader on the last processor that is left.
    fn next_reader<R: Abort>(&mut self, rt: &R) -> Reader<'a> {
        let seat = self.seats.pop().expect(rt, "a processor is left");
        Reader {
            live: self.live,
            map: self.map,
            history: self.history,
            seat,
            seen: Seen::new(),
        }
    }

    /// An administrator on the last processor that is left, of each second network from this one.
    fn next_admin<R: Abort>(&mut self, rt: &R, first: u32) -> Admin<'a> {
        let seat = self.seats.pop().expect(rt, "a processor is left");
        let watcher = self.watchers.pop().expect(rt, "a watcher is left");
        Admin {
            live: self.live,
            control: self.control,
            history: self.history,
            seat,
            watcher,
            first,
        }
    }
}

/// Runs two readers.
fn read_both<R: Abort + Threads + Wait + Sync>(rt: &R, readers: (Reader<'_>, Reader<'_>)) {
    let (one, other) = readers;
    thread::join(rt, move || one.read_on(rt), move || other.read_on(rt));
}

/// Runs two administrators.
fn administer_both<R: Abort + Threads + Wait + Sync>(rt: &R, admins: (Admin<'_>, Admin<'_>)) {
    let (one, other) = admins;
    thread::join(rt, move || one.administer(rt), move || other.administer(rt));
}

/// Runs all threads, and reads once more when they have ended. If no thread can be made for the
/// readers, they run last, since they go on until the administrators have ended. Those wait only
/// for readers that are online.
fn run<R: Abort + Threads + Wait + Sync>(rt: &R, mut spare: Spare<'_>) {
    let readers = (spare.next_reader(rt), spare.next_reader(rt));
    let more = (spare.next_reader(rt), spare.next_reader(rt));
    let admins = (spare.next_admin(rt, 0), spare.next_admin(rt, 1));
    let mut last = spare.next_reader(rt);
    last.rest();
    let reading = move || -> ((), ())
        requires { IsSync R.row }
    {
        thread::join(
            rt,
            move || read_both(rt, readers),
            move || read_both(rt, more),
        )
    };
    thread::join(rt, reading, move || administer_both(rt, admins));
    last.read_at_last(rt);
}

/// Puts the routes in that are there from the beginning.
fn begin<R: Abort + Wait>(rt: &R, control: &Control) {
    for network in 0..NETWORKS {
        if let Some(route) = route_after(network, 0) {
            compare(rt, network, control.insert(rt, route), Ok(None));
        }
    }
}

/// Compares all routes with the history at its end.
fn is_as_told<R: Abort + Wait>(rt: &R, control: &Control, history: &History) {
    let mut count = 0usize;
    for network in 0..NETWORKS {
        let wanted = route_after(network, history.ended(network));
        let found = control.get(rt, u64::from(network));
        compare(rt, network, found, wanted);
        if wanted.is_some() {
            count = count.saturating_add(1);
        }
    }
    compare(rt, "len", control.len(rt), count);
}

#[test]
fn readers_beside_updates_by_two_threads(rt: HostRuntime) {
    // Up to 28 routes.
    let Ok(opened) = Routes::open(rt.alloc(), 7, 4_000_000, BUCKETS, 28, 0) else {
        return;
    };
    let history = History::new(4, 2);
    let control = Control::new(opened.writer);
    begin(&rt, &control);
    let spare = Spare {
        seats: opened.seats,
        watchers: opened.watchers,
        live: &opened.live,
        map: &opened.map,
        control: &control,
        history: &history,
    };
    run(&rt, spare);
    is_as_told(&rt, &control, &history);
}
