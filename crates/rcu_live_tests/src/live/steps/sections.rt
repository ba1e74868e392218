//! Calls of a seat: sections, quiescent states, and a thread that gets idle.
ghost use Rattle.std.specs.Prelude.{◌≡◌};

use crate::live::steps::Script;
use rcu_live::CpuSeat;
use rcu_seq::Fault;
use std::process::Abort;
use std::sync::Wait;

impl<'a, R: Abort + Wait> Script<'a, R> {
    /// Compares the answer to an enter.
    pub(crate) fn enter(&self, seat: &mut CpuSeat, wanted: Result<u32, Fault>)
        requires { seat.old.table ≡ self.now.live.now.table }
        ensures { seat.new.table ≡ seat.old.table }
    {
        let found = seat.enter(self.live);
        self.compare_of("enter", seat.cpu(), found, wanted);
    }

    /// Compares the answer to an exit.
    pub(crate) fn exit(&self, seat: &mut CpuSeat, wanted: Result<u32, Fault>)
        requires { seat.old.table ≡ self.now.live.now.table }
        ensures { seat.new.table ≡ seat.old.table }
    {
        let found = seat.exit(self.live);
        self.compare_of("exit", seat.cpu(), found, wanted);
    }

    /// Compares the answer to a quiescent state.
    pub(crate) fn quiesce(&self, seat: &mut CpuSeat, wanted: Result<u64, Fault>)
        requires { seat.old.table ≡ self.now.live.now.table }
        ensures { seat.new.table ≡ seat.old.table }
    {
        let found = seat.quiesce(self.live);
        self.compare_of("quiesce", seat.cpu(), found, wanted);
    }

    /// Compares the answer to a processor that gets idle.
    pub(crate) fn idle(&self, seat: &mut CpuSeat, wanted: Result<(), Fault>)
        requires { seat.old.table ≡ self.now.live.now.table }
        ensures { seat.new.table ≡ seat.old.table }
    {
        let found = seat.idle(self.live);
        self.compare_of("idle", seat.cpu(), found, wanted);
    }

    /// Compares the answer to a wake.
    pub(crate) fn wake(&self, seat: &mut CpuSeat, wanted: Result<u64, Fault>)
        requires { seat.old.table ≡ self.now.live.now.table }
        ensures { seat.new.table ≡ seat.old.table }
    {
        let found = seat.wake(self.live);
        self.compare_of("wake", seat.cpu(), found, wanted);
    }

    /// Compares the answer to a renewal.
    pub(crate) fn renew(&self, seat: &mut CpuSeat, wanted: Result<u64, Fault>)
        requires { seat.old.table ≡ self.now.live.now.table }
        ensures { seat.new.table ≡ seat.old.table }
    {
        let found = seat.renew(self.live);
        self.compare_of("renew", seat.cpu(), found, wanted);
    }

    /// Compares the answer to a pin.
    pub(crate) fn pin(&self, seat: &mut CpuSeat, wanted: Result<u32, Fault>)
        requires { seat.old.table ≡ self.now.live.now.table }
        ensures { seat.new.table ≡ seat.old.table }
    {
        let found = seat.pin(self.live);
        self.compare_of("pin", seat.cpu(), found, wanted);
    }

    /// Compares the answer to an unpin.
    pub(crate) fn unpin(&self, seat: &mut CpuSeat, wanted: Result<u32, Fault>)
        requires { seat.old.table ≡ self.now.live.now.table }
        ensures { seat.new.table ≡ seat.old.table }
    {
        let found = seat.unpin(self.live);
        self.compare_of("unpin", seat.cpu(), found, wanted);
    }

    /// Compares the answer to a repin.
    pub(crate) fn repin(&self, seat: &mut CpuSeat, wanted: Result<u64, Fault>)
        requires { seat.old.table ≡ self.now.live.now.table }
        ensures { seat.new.table ≡ seat.old.table }
    {
        let found = seat.repin(self.live);
        self.compare_of("repin", seat.cpu(), found, wanted);
    }

    /// Compares the state of a seat: the depth of its sections, and whether its processor is online
    /// and idle.
    pub(crate) fn stands(&self, seat: &CpuSeat, depth: u32, is_online: bool, is_idle: bool) {
        let found = (seat.depth(), seat.is_online(), seat.is_idle());
        self.compare_of("stands", seat.cpu(), found, (depth, is_online, is_idle));
    }
}
