//! Scripts of calls of an object, each compared with the expected answer.
mod driving;
mod sections;

ghost use Rattle.std.specs.Prelude.{◌≡◌};

use rcu_barrier::{BarrierState, Visit};
use rcu_cblist::Queued;
use rcu_live::{CpuSeat, Engine, Live, Met, Ran, Watcher};
use rcu_node::Tree;
use rcu_seq::{Cookie, Fault, Tag};
use std::cell::Cell;
use std::fmt::Debug;
use std::process::Abort;
use std::sync::{MutexGuard, Wait};

/// An object of a small tree, with numbers as callbacks.
pub(crate) type Four = Live<4, 4, u64>;

/// The cookie of this epoch that waits for this number.
pub(crate) fn of_epoch(epoch: u64, number: u64) -> Cookie {
    Cookie { epoch, number }
}

/// A script of calls of an object. Each call is a row, counted from 1. If an answer is not the
/// expected one, the test fails with the row, the call, the actual answer and the expected one.
#[derive(Drop)]
pub(crate) struct Script<'a, R: Abort + Wait> {
    rt: &'a R,
    pub(crate) live: &'a Four,
    rows: Cell<u32>,
}

impl<'a, R: Abort + Wait> Script<'a, R> {
    pub(crate) fn new(rt: &'a R, live: &'a Four) -> Script<'a, R>
        ensures { result.live.now ≡ live.now }
    {
        Script {
            rt,
            live,
            rows: Cell::new(0),
        }
    }

    /// Compares the answer to the next call.
    pub(crate) fn compare<T: PartialEq + Debug + Drop>(&self, call: &str, found: T, wanted: T) {
        let row = self.rows.get().wrapping_add(1);
        self.rows.set(row);
        assert_eq!(self.rt; (row, call, found), (row, call, wanted));
    }

    /// Compares the answer to the next call of a processor.
    pub(crate) fn compare_of<T: PartialEq + Debug + Drop>(
        &self,
        call: &str,
        cpu: u32,
        found: T,
        wanted: T,
    ) {
        self.compare(call, (cpu, found), (cpu, wanted));
    }

    /// The object's engine, under its lock.
    pub(crate) fn lock(&self) -> MutexGuard<'a, Engine<Tree<4, 4>, u64>> {
        self.live.lock(self.rt)
    }

    /// The engine, which this thread still holds, is the one of two processors.
    pub(crate) fn holds(&self, engine: &MutexGuard<'a, Engine<Tree<4, 4>, u64>>) {
        self.compare("holds", engine.cpus(), 2);
    }

    /// Compares a meeting: the number at which the seat's section opened, if one is open, and the
    /// number that the watcher saw.
    pub(crate) fn meet(
        &self,
        seat: &mut CpuSeat,
        watcher: &mut Watcher,
        opened: Option<u64>,
        seen: u64,
    )
        requires seat { seat.old.table ≡ self.now.live.now.table }
        requires watcher { watcher.old.table ≡ self.now.live.now.table }
        ensures seat { seat.new.table ≡ seat.old.table }
        ensures watcher { watcher.new.table ≡ watcher.old.table }
    {
        let found = self.live.meet(seat, watcher);
        self.compare_of("meet", seat.cpu(), found, Some(Met { opened, seen }));
    }

    /// Compares the cookie that a watcher takes.
    pub(crate) fn take(&self, watcher: &mut Watcher, wanted: Cookie)
        requires { watcher.old.table ≡ self.now.live.now.table }
        ensures { watcher.new.table ≡ watcher.old.table }
    {
        self.compare("take", watcher.take(self.live), wanted);
    }

    /// Compares whether a cookie is done.
    pub(crate) fn poll(&self, watcher: &mut Watcher, cookie: Cookie, wanted: bool)
        requires { watcher.old.table ≡ self.now.live.now.table }
        ensures { watcher.new.table ≡ watcher.old.table }
    {
        let found = watcher.poll(self.live, cookie);
        self.compare("poll", (cookie, found), (cookie, wanted));
    }

    /// Compares the answer to an arrival.
    pub(crate) fn online(&self, seat: &mut CpuSeat, wanted: Result<(), Fault>)
        requires { seat.old.table ≡ self.now.live.now.table }
        ensures { seat.new.table ≡ seat.old.table }
    {
        let found = self.live.online(self.rt, seat);
        self.compare_of("online", seat.cpu(), found, wanted);
    }

    /// Compares the answer to a departure.
    pub(crate) fn offline(&self, seat: &mut CpuSeat, wanted: Result<u64, Fault>)
        requires { seat.old.table ≡ self.now.live.now.table }
        ensures { seat.new.table ≡ seat.old.table }
    {
        let found = self.live.offline(self.rt, seat);
        self.compare_of("offline", seat.cpu(), found, wanted);
    }

    /// Compares the answer to a departure that takes memory. Returns whether it was refused that.
    pub(crate) fn leaves(&self, seat: &mut CpuSeat, wanted: u64) -> bool
        requires { seat.old.table ≡ self.now.live.now.table }
        ensures { seat.new.table ≡ seat.old.table }
    {
        let found = self.live.offline(self.rt, seat);
        let is_refused = found == Err(Fault::NoMemory);
        let wanted = if is_refused { found } else { Ok(wanted) };
        self.compare_of("offline", seat.cpu(), found, wanted);
        is_refused
    }

    /// Compares how many callbacks of a processor are done, and how many wait.
    pub(crate) fn tend(&self, cpu: u32, wanted: Result<(u64, u64), Fault>) {
        self.compare_of("tend", cpu, self.live.tend(self.rt, cpu), wanted);
    }

    /// Compares for how many items a processor's list has room once it has shrunk. The second call
    /// gives back what the first was refused: no run of a test refuses two growths.
    pub(crate) fn shrink(&self, cpu: u32, wanted: Result<u64, Fault>) {
        let _ = self.live.shrink(self.rt, cpu);
        self.compare_of("shrink", cpu, self.live.shrink(self.rt, cpu), wanted);
    }

    /// Queues a callback, by a second call if the first is refused memory, and compares how many
    /// were queued.
    pub(crate) fn queue(&self, seat: &mut CpuSeat, value: u64, wanted: u64)
        requires { seat.old.table ≡ self.now.live.now.table }
        ensures { seat.new.table ≡ seat.old.table }
    {
        let mut found = self.live.queue(self.rt, seat, value);
        if let Err(back) = &found
            && back.fault == Fault::NoMemory
        {
            self.compare("queue, which hands back", back.value, value);
            found = self.live.queue(self.rt, seat, value);
        }
        let found = found.map_err(|back| back.fault);
        self.compare_of("queue", seat.cpu(), (value, found), (value, Ok(wanted)));
    }

    /// Compares the fault of a refused queue call, which hands the callback back.
    pub(crate) fn queue_refused(&self, seat: &mut CpuSeat, value: u64, wanted: Fault)
        requires { seat.old.table ≡ self.now.live.now.table }
        ensures { seat.new.table ≡ seat.old.table }
    {
        let found = self.live.queue(self.rt, seat, value);
        let found = found.map_err(|back| (back.fault, back.value));
        self.compare_of("queue", seat.cpu(), found, Err((wanted, value)));
    }

    /// Runs callbacks, by a second call if the first is refused memory: the number, and the number
    /// and the value with which each callback was queued.
    pub(crate) fn run(&self, cpu: u32, max: u64, number: u64, wanted: &[(u64, u64)]) {
        let mut found = self.live.run(self.rt, cpu, max);
        if matches!(found, Err(Fault::NoMemory)) {
            found = self.live.run(self.rt, cpu, max);
        }
        match found {
            Ok(Ran { number: at, calls }) => {
                self.compare_of("run", cpu, (at, calls.len()), (number, wanted.len()));
                self.have_run(calls.as_slice(), wanted);
            }
            Err(fault) => self.compare_of("run", cpu, Some(fault), None),
        }
    }

    /// Compares the number and the value of each callback's queueing, by its place.
    fn have_run(&self, calls: &[Queued<u64>], wanted: &[(u64, u64)]) {
        for (place, (call, (at, value))) in calls.iter().zip(wanted).enumerate() {
            let at = Tag::of_first_epoch(*at);
            let found = (place, call.at, call.value);
            self.compare("callback of the run", found, (place, at, *value));
        }
    }

    /// Compares how many callbacks of a processor are run, of at most nine.
    pub(crate) fn run_any(&self, cpu: u32, wanted: Result<usize, Fault>) {
        let found = self.live.run(self.rt, cpu, 9).map(|ran| ran.calls.len());
        self.compare_of("run", cpu, found, wanted);
    }

    /// Compares the answer to the begin of a barrier.
    pub(crate) fn barrier_begin(&self, wanted: Result<(), Fault>) {
        self.compare("barrier_begin", self.live.barrier_begin(self.rt), wanted);
    }

    /// Compares what a barrier's visit of a processor did.
    pub(crate) fn visit(&self, cpu: u32, wanted: Result<Visit, Fault>) {
        self.compare_of("visit", cpu, self.live.visit(self.rt, cpu), wanted);
    }

    /// A barrier visits a processor with a callback, by a second call if the first is refused
    /// memory.
    pub(crate) fn mark(&self, cpu: u32) {
        let mut found = self.live.visit(self.rt, cpu);
        if found == Err(Fault::NoMemory) {
            found = self.live.visit(self.rt, cpu);
        }
        self.compare_of("visit", cpu, found, Ok(Visit::Marked));
    }

    /// Compares how far a barrier is.
    pub(crate) fn barrier_test(&self, wanted: Result<BarrierState, Fault>) {
        self.compare("barrier_test", self.live.barrier_test(self.rt), wanted);
    }
}
