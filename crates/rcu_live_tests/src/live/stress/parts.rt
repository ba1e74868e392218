//! The parts shared by all threads of a hard run, and the threads made from them.
ghost use Rattle.std.specs.Prelude.{◌≡◌, ◌+◌, ◌≤◌, All, length};

use crate::live::steps::Four;
use crate::live::stress::calls::Calls;
use crate::live::stress::reader::Reader;
use crate::live::stress::scene::{Scene, Section};
use crate::live::stress::stop::{Stop, compare};
use crate::live::stress::updater::{Driver, Waiter};
use crate::live::threads::{last_seat, last_watcher};
use rcu_live::{CpuSeat, Watcher};
use std::sync::Wait;

/// The engine, what its threads share beside it, and its callbacks.
#[derive(Clone, Copy)]
pub(crate) struct Parts<'a> {
    pub(crate) live: &'a Four,
    pub(crate) scene: &'a Scene,
    pub(crate) calls: &'a Calls,
}

/// A thread's place in a run: all that the threads share, and a processor's seat of its own.
#[derive(Drop)]
pub(crate) struct Place<'a> {
    pub(crate) live: &'a Four,
    pub(crate) scene: &'a Scene,
    pub(crate) calls: &'a Calls,
    pub(crate) seat: CpuSeat,
}

impl Place<'_> {
    /// Queues a callback, as long as there is room.
    pub(crate) fn queue<R: Wait>(&mut self, rt: &R) -> Result<(), Stop>
        requires { self.old.seat.table ≡ self.old.live.now.table }
        ensures seat { self.new.seat ≡ self.old.seat }
        ensures live { self.new.live ≡ self.old.live }
    {
        self.calls.queue(rt, self.scene, self.live, &mut self.seat)
    }

    /// Takes the processor offline. Its list is empty then.
    pub(crate) fn depart<R: Wait>(&mut self, rt: &R) -> Result<(), Stop>
        requires { self.old.seat.table ≡ self.old.live.now.table }
        ensures seat { self.new.seat.table ≡ self.old.seat.table }
        ensures live { self.new.live ≡ self.old.live }
    {
        self.live.offline(rt, &mut self.seat)?;
        compare(self.live.tend(rt, self.seat.cpu()), Ok((0, 0)))
    }
}

impl<'a> Parts<'a> {
    /// A place, with the last seat.
    fn place(&self, seats: &mut Vec<CpuSeat>) -> Place<'a>
        requires some { 1 ≤ length seats.old.items }
        requires each { All (λ seat. seat.table ≡ self.now.live.now.table) seats.old.items }
        ensures each { All (λ seat. seat.table ≡ self.now.live.now.table) seats.new.items }
        ensures count { length seats.new.items + 1 ≡ length seats.old.items }
        ensures live { result.live ≡ self.now.live }
        ensures seat { result.seat.table ≡ self.now.live.now.table }
    {
        let Parts { live, scene, calls } = *self;
        let seat = last_seat(live, seats);
        Place {
            live,
            scene,
            calls,
            seat,
        }
    }

    /// The driver, with the last seat.
    pub(crate) fn driver(&self, seats: &mut Vec<CpuSeat>) -> Driver<'a>
        requires some { 1 ≤ length seats.old.items }
        requires each { All (λ seat. seat.table ≡ self.now.live.now.table) seats.old.items }
    {
        Driver {
            place: self.place(seats),
            sleeps: 0,
        }
    }

    /// A reader, with the last seat and the last watcher.
    pub(crate) fn reader(
        &self,
        section: &'a Section,
        seats: &mut Vec<CpuSeat>,
        watchers: &mut Vec<Watcher>,
    ) -> Reader<'a>
        requires some_seat { 1 ≤ length seats.old.items }
        requires some_watcher { 1 ≤ length watchers.old.items }
        requires each_seat { All (λ seat. seat.table ≡ self.now.live.now.table) seats.old.items }
        requires each_watcher { All (λ watcher. watcher.table ≡ self.now.live.now.table)
            watchers.old.items }
        ensures seats { All (λ seat. seat.table ≡ self.now.live.now.table) seats.new.items }
        ensures watchers { All (λ watcher. watcher.table ≡ self.now.live.now.table)
            watchers.new.items }
        ensures seat_count { length seats.new.items + 1 ≡ length seats.old.items }
        ensures watcher_count { length watchers.new.items + 1 ≡ length watchers.old.items }
        ensures live { result.place.live ≡ self.now.live }
    {
        let place = self.place(seats);
        let watcher = last_watcher(self.live, watchers);
        Reader {
            place,
            section,
            watcher,
        }
    }

    /// The waiter, with the last seat and the last watcher.
    pub(crate) fn waiter(&self, seats: &mut Vec<CpuSeat>, watchers: &mut Vec<Watcher>) -> Waiter<'a>
        requires some_seat { 1 ≤ length seats.old.items }
        requires some_watcher { 1 ≤ length watchers.old.items }
        requires each_seat { All (λ seat. seat.table ≡ self.now.live.now.table) seats.old.items }
        requires each_watcher { All (λ watcher. watcher.table ≡ self.now.live.now.table)
            watchers.old.items }
        ensures seats { All (λ seat. seat.table ≡ self.now.live.now.table) seats.new.items }
        ensures watchers { All (λ watcher. watcher.table ≡ self.now.live.now.table)
            watchers.new.items }
        ensures seat_count { length seats.new.items + 1 ≡ length seats.old.items }
        ensures watcher_count { length watchers.new.items + 1 ≡ length watchers.old.items }
    {
        let place = self.place(seats);
        let watcher = last_watcher(self.live, watchers);
        Waiter { place, watcher }
    }
}
