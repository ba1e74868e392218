//! Calls that drive grace periods, or wait for one.
ghost use Rattle.std.specs.Prelude.{◌≡◌};

use crate::live::steps::{Script, of_epoch};
use rcu_live::{Collected, CpuSeat, Watcher};
use rcu_seq::Fault;
use rcu_state::Turned;
use std::process::Abort;
use std::sync::Wait;

impl<'a, R: Abort + Wait> Script<'a, R> {
    /// Compares what a turn did.
    pub(crate) fn turn(&self, wanted: Result<Turned, Fault>) {
        self.compare("turn", self.live.turn(self.rt), wanted);
    }

    /// Compares what a step of driving for callbacks did.
    pub(crate) fn drive(&self, wanted: Result<Turned, Fault>) {
        self.compare("drive", self.live.drive(self.rt), wanted);
    }

    /// Compares the answer of a step for a waiter for the cookie of this number.
    pub(crate) fn drive_for(&self, number: u64, wanted: Result<Turned, Fault>) {
        let found = self.live.drive_for(self.rt, of_epoch(0, number));
        self.compare("drive_for", (number, found), (number, wanted));
    }

    /// Compares what a collection found.
    pub(crate) fn collect(&self, cpu: u32, wanted: Result<Collected, Fault>) {
        self.compare_of("collect", cpu, self.live.collect(self.rt, cpu), wanted);
    }

    /// A processor passes a quiescent state, and the engine hears of it.
    pub(crate) fn pass(&self, seat: &mut CpuSeat, cpu: u32, number: u64, wanted: Collected)
        requires { seat.old.table ≡ self.now.live.now.table }
        ensures { seat.new.table ≡ seat.old.table }
    {
        self.quiesce(seat, Ok(number));
        self.collect(cpu, Ok(wanted));
    }

    /// Compares whether processors 0 and 1 are awaited. No other one is: there are two.
    pub(crate) fn awaits(&self, wanted: [bool; 2]) {
        let others = [2, u32::MAX].map(|cpu| self.live.awaits(self.rt, cpu));
        let found = [0, 1].map(|cpu| self.live.awaits(self.rt, cpu));
        self.compare("awaits", (found, others), (wanted, [false, false]));
    }

    /// Compares the answer to a seat that waits for all sections that are open.
    pub(crate) fn synchronize(
        &self,
        seat: &mut CpuSeat,
        watcher: &mut Watcher,
        wanted: Result<(), Fault>,
    )
        requires seat { seat.old.table ≡ self.now.live.now.table }
        requires watcher { watcher.old.table ≡ self.now.live.now.table }
        ensures seat { seat.new.table ≡ seat.old.table }
        ensures watcher { watcher.new.table ≡ watcher.old.table }
    {
        let found = self.live.synchronize(self.rt, seat, watcher);
        self.compare_of("synchronize", seat.cpu(), found, wanted);
    }

    /// Compares the answer to a seat that waits for the cookie of this number.
    pub(crate) fn wait_for(
        &self,
        seat: &mut CpuSeat,
        watcher: &mut Watcher,
        number: u64,
        wanted: Result<(), Fault>,
    )
        requires seat { seat.old.table ≡ self.now.live.now.table }
        requires watcher { watcher.old.table ≡ self.now.live.now.table }
        ensures seat { seat.new.table ≡ seat.old.table }
        ensures watcher { watcher.new.table ≡ watcher.old.table }
    {
        let found = self
            .live
            .wait_for(self.rt, seat, watcher, of_epoch(0, number));
        self.compare_of("wait_for", seat.cpu(), (number, found), (number, wanted));
    }

    /// Compares the answer to a seat that waits once for the cookie of this number.
    pub(crate) fn wait_once(&self, seat: &mut CpuSeat, number: u64, wanted: Result<(), Fault>)
        requires { seat.old.table ≡ self.now.live.now.table }
        ensures { seat.new.table ≡ seat.old.table }
    {
        let found = self.live.wait_once(self.rt, seat, of_epoch(0, number));
        self.compare_of("wait_once", seat.cpu(), (number, found), (number, wanted));
    }
}
